//! The premises of a run: watches its events until the first premise breaks.

ghost use Rattle.std.specs.Prelude.{◌≡◌, ◌+◌, ◌-◌, ◌<◌, ◌≤◌, ◌&&◌, false, nat_le, IsTrue, IfErr, IfSome, List, None, OnErr, OnOk, Ok, length, map};
ghost use Rattle.std.specs.List.{list_any};
ghost use Rattle.std.specs.Option.{option_map};
ghost use Rattle.law_model.specs.Behind.{IsPast};
ghost use Rattle.law_model.specs.Laws.{IsEvent};
ghost use Rattle.law_model.specs.Step.{step};
ghost use Rattle.law_model.specs.Trace.{Entry};
ghost use Rattle.law_model.specs.World as model;
ghost use Rattle.law_runs.specs.Premises as premises;
ghost use Rattle.law_runs.specs.Premises.{is_late, waited_by};
ghost use Rattle.law_runs.specs.Quiet.{is_active, quiet_in};
ghost use Rattle.law_runs.specs.Watching.{meets_last};
ghost use Rattle.pb_world.specs.Buses.{world_of, world_with, IsKept};
ghost use Rattle.pb_taps.specs.Events.{event_of};
ghost use Rattle.pb_taps.specs.Faults.{Refuses};
ghost use Rattle.pb_world.specs.Premises.{waited_of, number_of, broken_of, watched_of, waiting_of, met_by, last_by, Foresees, IsFirstWaiting, IsLedFrom, IsOldest, IsQuiet, HaveHeard, Knows, Listens, GoesOn, KnowsOf, time_in};
ghost use Rattle.pb_taps.specs.Taps.{tap_of};
ghost use Rattle.pb_world.specs.declared.premises.Waiting.TheVariants.{Nobody};

use crate::activity::is_active;
use crate::buses::Bus;
use pb_taps::{Event, TAP_LIMIT, Tap, WorldFault};
use pb_timers::Moment;
use std::alloc::Global;

/// How many addresses a station may have: 0 to 126.
const ADDRESSES: usize = 127;

/// What must hold of the events on a bus for at most one station to initiate.
#[derive(Clone, Copy, Debug)]
pub(crate) enum Premise {
    /// No two running taps have equal addresses.
    OwnAddresses,
    /// No telegram is lost at a tap except by damage.
    NothingLost,
    /// No turn is later than the lag.
    TurnsInTime,
    /// No two masters have waited out their time-outs at clocks at most a cable delay apart.
    OneWaits,
}

/// A premise that broke, and the clock after the event that broke it.
#[derive(Clone, Copy, Debug)]
pub(crate) struct Breach {
    pub premise: Premise,
    pub clock: Moment,
}

/// A tap that had waited out its time-out, and when.
#[derive(Clone, Copy, Debug)]
pub(crate) struct Waited {
    pub(crate) tap: usize,
    pub(crate) moment: Moment,
}

/// The taps that have waited out their time-outs at a clock.
#[derive(Clone, Copy, Debug)]
enum Waiting {
    Nobody,
    One(usize),
    /// The lowest of several.
    Several(usize),
}

/// What is known of an event before it is applied.
#[derive(Clone, Copy, Debug)]
pub(crate) struct Foresight {
    /// Whether it loses a telegram at a tap.
    loses: bool,
    /// Whether a turn is later than the lag in it.
    late: bool,
}

/// Follows a run, event by event, until the first premise breaks.
#[derive(Clone, Copy, Debug)]
pub(crate) struct Watch {
    /// Since when each tap is in silence, in bit times.
    pub(crate) quiet: [u64; TAP_LIMIT],
    /// Since when, at the earliest, any tap is in silence.
    oldest: u64,
    /// Whether two running taps have one address.
    namesakes: bool,
    /// The last tap that waited out its time-out, and when. As long as no two have met, this is enough to decide
    /// whether a later one meets any.
    pub(crate) waited: Option<Waited>,
    /// The one before the event that broke the first premise, once one has.
    pub(crate) before: Option<Waited>,
    /// The first premise that broke.
    broken: Option<Breach>,
}

impl Watch {
    ghost use Rattle.std.specs.Prelude.{◌≡◌, List, None, false, length, replicate};
    ghost use Rattle.std.specs.Option.{option_map};
    ghost use Rattle.law_model.specs.Trace.{Entry};
    ghost use Rattle.law_runs.specs.Premises.{broken_or, first_number, has_namesakes};
    ghost use Rattle.pb_world.specs.Buses.{world_of, world_with, IsKept};
    ghost use Rattle.pb_world.specs.Premises.{watched_of, broken_of, last_by, met_by, waited_of, IsAfter, IsOldest, IsQuiet};

    /// The watch before the first event of a run.
    pub(crate) fn new() -> Watch
        ensures watched { watched_of result ≡ record { waited = None; broken = None } }
        ensures silent { result.quiet ≡ replicate 127 0 }
        ensures oldest { result.oldest ≡ 0 }
        ensures namesakes { result.namesakes ≡ false }
    {
        Watch {
            quiet: [0; TAP_LIMIT],
            oldest: 0,
            namesakes: false,
            waited: None,
            before: None,
            broken: None,
        }
    }

    /// The first premise that broke.
    pub(crate) fn first_broken(&self) -> Option<Breach>
        ensures { option_map broken_of result ≡ (watched_of self.now).broken }
    {
        self.broken
    }

    /// Updates the watch after an event, by what was known before it. Most events change nothing here.
    #[inline(always)]
    fn note(&mut self, bus: &Bus, foresight: Foresight)
        requires kept { IsKept bus.now }
        requires oldest { IsOldest self.old.oldest (length bus.now.taps.items) self.old.quiet }
        requires namesakes { self.old.namesakes ≡ has_namesakes (world_of bus.now).taps }
        ensures quiet { self.new.quiet ≡ self.old.quiet }
        ensures oldest { self.new.oldest ≡ self.old.oldest }
        ensures namesakes { self.new.namesakes ≡ self.old.namesakes }
        ensures after { (old : List Entry) → IsQuiet (world_with old bus.entry.now) self.old.quiet
            → IsAfter self.old foresight (world_with old bus.entry.now) self.new }
    {
        let waiting = waiting_now(bus, &self.quiet, self.oldest);
        if is_nobody(waiting) && !self.namesakes && !foresight.loses && !foresight.late {
            return;
        }
        self.note_change(bus, foresight, waiting);
    }

    /// The same after an event that may break a premise or after which taps have waited out their time-outs.
    #[inline(never)]
    fn note_change(&mut self, bus: &Bus, foresight: Foresight, waiting: Waiting)
        ensures waited { option_map waited_of self.new.waited
            ≡ last_by bus.entry.now.now waiting (option_map waited_of self.old.waited) }
        ensures broken { option_map broken_of self.new.broken
            ≡ broken_or (option_map broken_of self.old.broken) bus.entry.now.now
            (first_number self.old.namesakes foresight.loses foresight.late
            (met_by bus.entry.now.params.ttd bus.entry.now.now waiting (option_map waited_of self.old.waited))) }
        ensures rest { self.new ≡ record self.old {
          waited = self.new.waited;
          before = self.new.before;
          broken = self.new.broken;
        } }
    {
        let met = is_met(bus.params.ttd(), waiting, bus.now, self.waited);
        let premise = first_premise(self.namesakes, foresight, met);
        if self.broken.is_none() {
            self.before = self.waited;
        }
        note_waiting(&mut self.waited, waiting, bus.now);
        note_breach(&mut self.broken, premise, bus.now);
    }
}

/// Applies an event to a bus, and updates the watch.
#[inline(always)]
pub(crate) fn follow(
    watch: &mut Watch,
    alloc: Global,
    bus: &mut Bus,
    event: &Event,
) -> Result<(), WorldFault>
    requires kept { IsKept bus.old }
    requires knows { KnowsOf watch.old bus.old }
    ensures kept { IsKept bus.new }
    ensures event { IsEvent (event_of event.now) }
    ensures steps { OnOk result ((reply : model.Reply)
        × (step (world_of bus.old) (event_of event.now) ≡ Ok (world_of bus.new, reply))) }
    ensures knows { OnOk result ((old : List Entry) → IsPast old (world_of bus.old)
        → Knows watch.old (world_with old bus.old) → Knows watch.new (world_with old bus.new)) }
    ensures stands { OnOk result ((old : List Entry) → IsPast old (world_of bus.old)
        → Knows watch.old (world_with old bus.old)
        → GoesOn watch.old (world_with old bus.old) (event_of event.now) watch.new) }
    ensures err { IfErr result (λ fault. (world_of bus.new ≡ world_of bus.old)
        × Refuses (world_of bus.old) (event_of event.now)
        (step (world_of bus.old) (event_of event.now)) fault) }
    ensures stays { OnErr result (time_in (event_of event.now) ≡ None → watch.new ≡ watch.old) }
    ensures found { OnErr result (watched_of watch.new ≡ watched_of watch.old) }
{
    // No turn comes late in a turn: what follows is a copy without most of its tests.
    if let Event::Turn(_) = event {
        return follow_in_time(watch, alloc, bus, event);
    }
    let foresight = foresee(bus, event);
    follow_foreseen(watch, alloc, bus, event, foresight)
}

/// The same where the caller ensures that no turn is later than the lag in the event.
#[inline(always)]
pub(crate) fn follow_in_time(
    watch: &mut Watch,
    alloc: Global,
    bus: &mut Bus,
    event: &Event,
) -> Result<(), WorldFault>
    requires kept { IsKept bus.old }
    requires in_time { premises.comes_late (world_of bus.old) (event_of event.now) ≡ false }
    requires knows { KnowsOf watch.old bus.old }
    ensures kept { IsKept bus.new }
    ensures event { IsEvent (event_of event.now) }
    ensures steps { OnOk result ((reply : model.Reply)
        × (step (world_of bus.old) (event_of event.now) ≡ Ok (world_of bus.new, reply))) }
    ensures knows { OnOk result ((old : List Entry) → IsPast old (world_of bus.old)
        → Knows watch.old (world_with old bus.old) → Knows watch.new (world_with old bus.new)) }
    ensures stands { OnOk result ((old : List Entry) → IsPast old (world_of bus.old)
        → Knows watch.old (world_with old bus.old)
        → GoesOn watch.old (world_with old bus.old) (event_of event.now) watch.new) }
    ensures err { IfErr result (λ fault. (world_of bus.new ≡ world_of bus.old)
        × Refuses (world_of bus.old) (event_of event.now)
        (step (world_of bus.old) (event_of event.now)) fault) }
    ensures stays { OnErr result (time_in (event_of event.now) ≡ None → watch.new ≡ watch.old) }
    ensures found { OnErr result (watched_of watch.new ≡ watched_of watch.old) }
{
    let foresight = Foresight {
        loses: loses(event),
        late: false,
    };
    follow_foreseen(watch, alloc, bus, event, foresight)
}

/// The same by what is known of the event before it.
#[inline(always)]
fn follow_foreseen(
    watch: &mut Watch,
    alloc: Global,
    bus: &mut Bus,
    event: &Event,
    foresight: Foresight,
) -> Result<(), WorldFault>
    requires kept { IsKept bus.old }
    requires foresees { Foresees foresight (world_of bus.old) (event_of event.now) }
    requires knows { KnowsOf watch.old bus.old }
    ensures kept { IsKept bus.new }
    ensures event { IsEvent (event_of event.now) }
    ensures steps { OnOk result ((reply : model.Reply)
        × (step (world_of bus.old) (event_of event.now) ≡ Ok (world_of bus.new, reply))) }
    ensures knows { OnOk result ((old : List Entry) → IsPast old (world_of bus.old)
        → Knows watch.old (world_with old bus.old) → Knows watch.new (world_with old bus.new)) }
    ensures stands { OnOk result ((old : List Entry) → IsPast old (world_of bus.old)
        → Knows watch.old (world_with old bus.old)
        → GoesOn watch.old (world_with old bus.old) (event_of event.now) watch.new) }
    ensures err { IfErr result (λ fault. (world_of bus.new ≡ world_of bus.old)
        × Refuses (world_of bus.old) (event_of event.now)
        (step (world_of bus.old) (event_of event.now)) fault) }
    ensures stays { OnErr result (time_in (event_of event.now) ≡ None → watch.new ≡ watch.old) }
    ensures found { OnErr result (watched_of watch.new ≡ watched_of watch.old) }
{
    watch.oldest = listen(&mut watch.quiet, watch.oldest, bus, event);
    bus.apply(alloc, event)?;
    watch.namesakes = has_namesakes_after(bus, event, watch.namesakes);
    watch.note(bus, foresight);
    Ok(())
}

/// Before an event: if time passes in it, the taps at which something is active are no longer in silence. Without
/// recent entries there are none. Returns since when, at the earliest, any tap is in silence.
fn listen(quiet: &mut [u64; TAP_LIMIT], oldest: u64, bus: &Bus, event: &Event) -> u64
    requires kept { IsKept bus.now }
    requires oldest { IsOldest oldest (length bus.now.taps.items) quiet.old }
    ensures listens { (old : List Entry) → IsPast old (world_of bus.entry.now)
        → IsQuiet (world_with old bus.entry.now) quiet.old
        → Listens (world_with old bus.entry.now) (event_of event.now) quiet.new }
    ensures oldest { IsOldest result (length bus.entry.now.taps.items) quiet.new }
    ensures stays { time_in (event_of event.now) ≡ None → (quiet.new ≡ quiet.old) × (result ≡ oldest) }
{
    let Some(bits) = time_in(event) else {
        return oldest;
    };
    if bus.trace.recent().is_empty() {
        return oldest;
    }
    listen_to(quiet, bus, bus.now.get().saturating_add(bits))
}

/// How much time passes in an event, if any.
pub(crate) fn time_in(event: &Event) -> Option<u64>
    ensures { result ≡ time_in (event_of event.now) }
{
    match event {
        Event::Pass(bits) => Some(*bits),
        _ => None,
    }
}

/// Ends the silence of the taps at which something is active before `to`. Returns since when, at the earliest, any tap
/// is in silence.
fn listen_to(quiet: &mut [u64; TAP_LIMIT], bus: &Bus, to: u64) -> u64
    requires { IsKept bus.now }
    ensures heard { HaveHeard (world_of bus.entry.now) to quiet.old quiet.new }
    ensures oldest { IsOldest result (length bus.entry.now.taps.items) quiet.new }
{
    let mut oldest = u64::MAX;
    for tap in 0..bus.taps.len() {
        if is_heard(bus, tap, to) {
            quiet[tap] = to;
        }
        oldest = oldest.min(quiet[tap]);
    }
    oldest
}

/// Whether something is active at a tap from the clock to `to`, `to` excluded.
fn is_heard(bus: &Bus, tap: usize, to: u64) -> bool
    requires { IsKept bus.now }
    ensures { result
        ≡ is_active bus.entry.now.params.ttd bus.entry.now.now to (world_of bus.entry.now).trace tap }
{
    is_active(bus.trace.recent(), bus.params.ttd(), tap, bus.now.get(), to)
}

impl Premise {
    ghost use Rattle.std.specs.Prelude.{◌≡◌};
    ghost use Rattle.pb_world.specs.Premises.{number_of};

    /// The number of the premise in an audit.
    pub(crate) fn number(self) -> u8
        ensures { result ≡ number_of self }
    {
        match self {
            Premise::OwnAddresses => 1,
            Premise::NothingLost => 2,
            Premise::TurnsInTime => 3,
            Premise::OneWaits => 4,
        }
    }
}

/// Whether an event loses a telegram at a tap.
fn loses(event: &Event) -> bool
    ensures { result ≡ premises.loses (event_of event.now) }
{
    match event {
        Event::Unheard { .. } => true,
        _ => false,
    }
}

/// Whether the turn of some running tap will be later than the lag in `bits` bit times.
fn is_any_late(bus: &Bus, bits: u64) -> bool
    requires { IsKept bus.now }
    ensures { result
        ≡ list_any (is_late bus.entry.now.params (bus.entry.now.now + bits)) (world_of bus.entry.now).taps }
{
    for tap in 0..bus.taps.len() {
        if bus.is_overdue(tap, bits) {
            return true;
        }
    }
    false
}

/// Whether a turn is later than the lag in an event.
fn comes_late(bus: &Bus, event: &Event) -> bool
    requires { IsKept bus.now }
    ensures { result ≡ premises.comes_late (world_of bus.entry.now) (event_of event.now) }
{
    match event {
        Event::Pass(bits) => is_any_late(bus, *bits),
        _ => false,
    }
}

fn foresee(bus: &Bus, event: &Event) -> Foresight
    requires { IsKept bus.now }
    ensures { Foresees result (world_of bus.entry.now) (event_of event.now) }
{
    Foresight {
        loses: loses(event),
        late: comes_late(bus, event),
    }
}

/// Whether two running taps share an address.
fn has_namesakes(taps: &[Tap]) -> bool
    ensures { result ≡ premises.has_namesakes (map tap_of taps.now) }
{
    // The addresses of the running taps after an index. Going from the last tap to the first, one table is enough.
    let mut running_at = [false; ADDRESSES];
    for place in (0..taps.len()).rev() {
        let tap = &taps[place];
        let address = usize::from(tap.station.address());
        if tap.running && running_at[address] {
            return true;
        }
        running_at[address] |= tap.running;
    }
    false
}

/// Whether two running taps share an address after an event, given whether two did before. Only an event that starts or
/// stops a tap can change this.
fn has_namesakes_after(bus: &Bus, event: &Event, before: bool) -> bool
    requires kept { IsKept bus.now }
    requires led { IsLedFrom (event_of event.now) (world_of bus.now) before }
    ensures { result ≡ premises.has_namesakes (world_of bus.entry.now).taps }
{
    match event {
        Event::Start(_) | Event::Stop(_) => has_namesakes(&bus.taps),
        _ => before,
    }
}

/// Whether a tap is a running master, and `timeout` has passed since its start and since `moment`.
fn has_waited_since(tap: &Tap, moment: u64, timeout: u64, now: u64) -> bool
    ensures { result
        ≡ (tap.now.running && tap.now.station.master && nat_le timeout (now - tap.now.since) && nat_le
        timeout (now - moment)) }
{
    tap.running
        && tap.station.is_master()
        && timeout <= now.saturating_sub(tap.since)
        && timeout <= now.saturating_sub(moment)
}

/// Whether the tap at an index is a master that has run, in silence, for its time-out.
fn has_waited(bus: &Bus, position: usize, tap: &Tap, quiet: u64) -> bool
    requires { IsKept bus.now }
    ensures { (old : List Entry) → quiet ≡ quiet_in (world_with old bus.entry.now) position
        → result ≡ premises.has_waited (world_with old bus.entry.now) position (tap_of tap.now) }
{
    let timeout = bus.params.tto(tap.station.address());
    has_waited_since(tap, quiet, timeout, bus.now.get())
}

/// The first tap, at index `from` or later, that has waited out its time-out.
pub(crate) fn first_waiting(bus: &Bus, quiet: &[u64; TAP_LIMIT], from: usize) -> Option<usize>
    requires kept { IsKept bus.now }
    requires place { from ≤ length bus.now.taps.items }
    ensures inside { IfSome result (λ tap. tap < length bus.entry.now.taps.items) }
    ensures first { (old : List Entry) → IsQuiet (world_with old bus.entry.now) quiet.now
        → IsFirstWaiting (world_with old bus.entry.now) from result }
{
    for tap in from..bus.taps.len() {
        if has_waited(bus, tap, &bus.taps[tap], quiet[tap]) {
            return Some(tap);
        }
    }
    None
}

/// The taps that have waited out their time-outs. There are none if no tap has been in silence for the shortest
/// time-out.
#[inline(always)]
fn waiting_now(bus: &Bus, quiet: &[u64; TAP_LIMIT], oldest: u64) -> Waiting
    requires kept { IsKept bus.now }
    requires oldest { IsOldest oldest (length bus.now.taps.items) quiet.now }
    ensures { (old : List Entry) → IsQuiet (world_with old bus.entry.now) quiet.now
        → result ≡ waiting_of (waited_by (world_with old bus.entry.now) 0 (world_of bus.entry.now).taps) }
{
    if bus.now.get().saturating_sub(oldest) < bus.params.tto(0) {
        return Waiting::Nobody;
    }
    waiting_taps(bus, quiet)
}

/// The taps that have waited out their time-outs, by testing each.
#[inline(never)]
fn waiting_taps(bus: &Bus, quiet: &[u64; TAP_LIMIT]) -> Waiting
    requires { IsKept bus.now }
    ensures { (old : List Entry) → IsQuiet (world_with old bus.entry.now) quiet.now
        → result ≡ waiting_of (waited_by (world_with old bus.entry.now) 0 (world_of bus.entry.now).taps) }
{
    let Some(tap) = first_waiting(bus, quiet, 0) else {
        return Waiting::Nobody;
    };
    if first_waiting(bus, quiet, tap + 1).is_some() {
        return Waiting::Several(tap);
    }
    Waiting::One(tap)
}

/// Whether no tap has waited out its time-out.
fn is_nobody(waiting: Waiting) -> bool
    ensures { IsTrue result → waiting ≡ Nobody }
{
    match waiting {
        Waiting::Nobody => true,
        Waiting::One(_) | Waiting::Several(_) => false,
    }
}

/// Whether another tap was the last to wait out its time-out, at most a cable delay ago.
fn meets(delay: u32, tap: usize, now: Moment, last: Option<Waited>) -> bool
    ensures { result ≡ meets_last delay (record { tap = tap; moment = now }) (option_map waited_of last) }
{
    match last {
        Some(last) => tap != last.tap
            && now.get().saturating_sub(last.moment.get()) <= u64::from(delay),
        None => false,
    }
}

/// Whether two taps have waited out their time-outs at most a cable delay apart, one of them now.
fn is_met(delay: u32, waiting: Waiting, now: Moment, last: Option<Waited>) -> bool
    ensures { result ≡ met_by delay now waiting (option_map waited_of last) }
{
    match waiting {
        Waiting::Nobody => false,
        Waiting::One(tap) => meets(delay, tap, now, last),
        Waiting::Several(_) => true,
    }
}

/// If a tap has waited out its time-out now, stores it as the last one.
fn note_waiting(last: &mut Option<Waited>, waiting: Waiting, now: Moment)
    ensures { option_map waited_of last.new ≡ last_by now waiting (option_map waited_of last.old) }
{
    match waiting {
        Waiting::Nobody => {}
        Waiting::One(tap) | Waiting::Several(tap) => *last = Some(Waited { tap, moment: now }),
    }
}

/// The lowest premise that an event breaks, by what was known before it and what holds after it.
fn first_premise(namesakes: bool, foresight: Foresight, met: bool) -> Option<Premise>
    ensures { option_map number_of result
        ≡ premises.first_number namesakes foresight.loses foresight.late met }
{
    if namesakes {
        return Some(Premise::OwnAddresses);
    }
    if foresight.loses {
        return Some(Premise::NothingLost);
    }
    if foresight.late {
        return Some(Premise::TurnsInTime);
    }
    if met {
        return Some(Premise::OneWaits);
    }
    None
}

/// Stores the premise that breaks now, unless one broke before.
fn note_breach(first: &mut Option<Breach>, premise: Option<Premise>, clock: Moment)
    ensures { option_map broken_of first.new
        ≡ premises.broken_or (option_map broken_of first.old) clock (option_map number_of premise) }
{
    let Some(premise) = premise else {
        return;
    };
    if first.is_none() {
        *first = Some(Breach { premise, clock });
    }
}
