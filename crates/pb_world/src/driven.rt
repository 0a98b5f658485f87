//! A bus that a caller drives: by events, and by itself up to a moment.

ghost use Rattle.std.specs.Prelude.{◌≡◌, true, is_some, IsSome, IfErr, IfOk, OnErr, OnOk, length};
ghost use Rattle.law_model.specs.World.{Pass, Turn};
ghost use Rattle.pb_medium.specs.LettingGo.{past_of};
ghost use Rattle.pb_taps.specs.Events.{event_of};
ghost use Rattle.pb_world.specs.Driven.{Applies, Forgets, KeepsFrom, LetsGo, RefusesToKeep, SetsReply, StaysBut};
ghost use Rattle.pb_world.specs.Premises.{time_in};
ghost use Rattle.pb_world.specs.Told.{tray_at};
ghost use Rattle.pb_world.specs.Watched.{IsFollowed};

use crate::buses::Bus;
use crate::findings::Audit;
use crate::judge::Judge;
use crate::premises::follow;
use crate::run_to::run_to;
use crate::usual::UsualEvents;
use crate::watched::{Watched, new_watched_within};
use arrayvec::ArrayVec;
use pb_medium::{Entry, TRACE_LIMIT};
use pb_station::Indication;
use pb_taps::{Event, NewFault, TapSpec, WorldFault};
use pb_timers::BusParams;
use std::alloc::{AllocError, Global};
use std::marker::Model;

/// A watched bus to which events have led from a new one, and between them changes of the data with which taps reply.
/// What is refused changes nothing, so that a caller may go on after it.
///
/// Its trace grows with its run, up to a number of entries. Who wants a run of any length reads the entries that are over
/// ([`past`](DrivenBus::past)) from time to time, and lets them go ([`let_go`](DrivenBus::let_go)).
///
/// ```
/// let alloc = rt.alloc();
/// let params = BusParams::new(100, 37, 60, 11, 0, 10_000, 10, 5, 1, 0);
/// let params = params.expect(&rt, "valid parameters");
/// let (address, kind, reply) = (1, Kind::Master, ArrayVec::new());
/// let taps = [TapSpec {
///     address,
///     kind,
///     reply,
/// }];
/// let mut bus = DrivenBus::new(alloc, params, &taps).expect(&rt, "a bus");
/// bus.apply(alloc, &Event::Start(0)).expect(&rt, "a start");
/// // a tap that runs does not start; the refused event changes nothing
/// bus.apply(alloc, &Event::Start(0))
///     .expect_err(&rt, "a fault");
/// // after 800 bit times of silence the master claims the token; it is then alone on the bus
/// bus.run(alloc, 1_400).expect(&rt, "a run");
/// assert_eq!(rt; bus.bus().now.get(), 1_400);
/// assert!(rt; bus.judge(alloc).expect(&rt, "memory").premise.is_none());
/// ```
#[derive(Drop)]
pub struct DrivenBus {
    driven: Driven,
    usual: UsualEvents,
}

/// What it is made of.
#[derive(Drop)]
pub struct Driven {
    pub(crate) watched: Watched,
    /// It has heard the entries that were let go.
    pub(crate) judge: Judge,
}

impl Model for DrivenBus {
    ghost use Rattle.pb_world.specs.Acted.{IsOfActions};
    ghost use Rattle.pb_world.specs.declared.driven.Driven.{Driven};

    ghost Value = { Driven };

    ghost view = { λ b. b.driven };

    ghost invariant = { λ b. IsOfActions b.driven };
}

impl DrivenBus {
    ghost use Rattle.std.specs.Prelude.{◌≡◌, ℕ, [], None, Some, Ok, IfOk, IfErr, OnErr, OnOk, MatchOption, length, map};
    ghost use Rattle.std.specs.Option.{option_map};
    ghost use Rattle.law_model.specs.World.{Pass, Turn, new_world, new_world_within};
    ghost use Rattle.pb_medium.specs.Entries.{entry_of};
    ghost use Rattle.pb_medium.specs.LettingGo.{past_of};
    ghost use Rattle.pb_taps.specs.Events.{event_of};
    ghost use Rattle.pb_taps.specs.Faults.{RefusesNew};
    ghost use Rattle.pb_taps.specs.Taps.{spec_of};
    ghost use Rattle.pb_world.specs.Buses.{IsKept};
    ghost use Rattle.pb_world.specs.Acted.{FindsBy, IsDrivenBy};
    ghost use Rattle.pb_station.specs.Indications.{fields_of};
    ghost use Rattle.pb_world.specs.Driven.{Applies, Forgets, KeepsFrom, LetsGo, RefusesToKeep, SetsReply, StaysBut};
    ghost use Rattle.pb_world.specs.Told.{requests_at, tray_at};
    ghost use Rattle.pb_world.specs.RunTo.{HasRun, HasStopped};
    ghost use Rattle.pb_world.specs.Watched.{world_in};

    /// A bus at clock 0 whose trace may have 100,000 entries. No tap runs yet.
    ///
    /// Faults: those of the new bus.
    pub fn new(alloc: Global, params: BusParams, specs: &[TapSpec]) -> Result<DrivenBus, NewFault>
        ensures new { IfOk result
            (λ b. new_world params (map spec_of specs.now) ≡ Ok (world_in b.watched)) }
        ensures came { IfOk result (λ b. IsDrivenBy b [] (world_in b.watched) []) }
        ensures told { IfOk result (λ b. (k : ℕ) → tray_at b.watched.told k ≡ None) }
        ensures fault { IfErr result (RefusesNew (new_world params (map spec_of specs.now))) }
    {
        DrivenBus::new_within(alloc, params, specs, TRACE_LIMIT)
    }

    /// A bus at clock 0 whose trace may have `limit` entries, those that are let go included. No tap runs yet.
    ///
    /// Faults: those of the new bus.
    pub fn new_within(
        alloc: Global,
        params: BusParams,
        specs: &[TapSpec],
        limit: usize,
    ) -> Result<DrivenBus, NewFault>
        ensures new { IfOk result
            (λ b. new_world_within limit params (map spec_of specs.now) ≡ Ok (world_in b.watched)) }
        ensures came { IfOk result (λ b. IsDrivenBy b [] (world_in b.watched) []) }
        ensures told { IfOk result (λ b. (k : ℕ) → tray_at b.watched.told k ≡ None) }
        ensures fault { IfErr result (RefusesNew (new_world params (map spec_of specs.now))) }
    {
        let watched = new_watched_within(alloc, params, specs, limit)?;
        match Judge::new(alloc, params, specs) {
            Ok(judge) => Ok(DrivenBus {
                driven: Driven { watched, judge },
                usual: UsualEvents::new(),
            }),
            Err(_) => Err(NewFault::NoMemory),
        }
    }

    /// Applies an event, and judges it by the premises. A refused event changes nothing.
    ///
    /// Faults: those of the event on a bus.
    pub fn apply(&mut self, alloc: Global, event: &Event) -> Result<(), WorldFault>
        ensures applies { Applies self.old.watched (event_of event.now) result self.new.watched }
        ensures judge { self.new.judge ≡ self.old.judge }
    {
        apply(&mut self.driven.watched, alloc, event)
    }

    /// The station at a tap takes its turn, as by [`apply`](DrivenBus::apply) in fewer instructions: the event is not made
    /// anew. A refused turn changes nothing.
    ///
    /// Faults: those of a turn on a bus.
    pub fn turn(&mut self, alloc: Global, tap: usize) -> Result<(), WorldFault>
        ensures applies { Applies self.old.watched (Turn tap) result self.new.watched }
        ensures judge { self.new.judge ≡ self.old.judge }
    {
        turn(&mut self.driven.watched, alloc, &mut self.usual, tap)
    }

    /// Time passes, in bit times, as by [`apply`](DrivenBus::apply) in fewer instructions: the event is not made anew. A
    /// refused pass of time changes nothing.
    ///
    /// Faults: those of a pass of time on a bus.
    pub fn pass(&mut self, alloc: Global, bits: u64) -> Result<(), WorldFault>
        ensures applies { Applies self.old.watched (Pass bits) result self.new.watched }
        ensures judge { self.new.judge ≡ self.old.judge }
    {
        pass(&mut self.driven.watched, alloc, &mut self.usual, bits)
    }

    /// Lets the bus run to a moment, in bit times: at each instant the turns that are due, in the order of the taps,
    /// then a pass of time to the next instant. The due turns of the present moment are taken too. Where the moment is
    /// not later than the clock, they are all that is done.
    ///
    /// Faults: those of a turn and of a pass of time. The refused event changes nothing; those before it remain.
    pub fn run(&mut self, alloc: Global, until: u64) -> Result<(), WorldFault>
        ensures run { OnOk result (HasRun until self.old.watched self.new.watched) }
        ensures fault { IfErr result (λ fault. HasStopped until fault self.old.watched self.new.watched) }
        ensures judge { self.new.judge ≡ self.old.judge }
    {
        run_to(&mut self.driven.watched, alloc, &mut self.usual, until)
    }

    /// Changes the data with which the station at a tap replies to the next request for data, between two events. A
    /// repeat of the last request still gets the reply that it got. The premises are judged on the events alone.
    ///
    /// Fault: `NoSuchTap`. Nothing is allocated.
    pub fn set_reply(&mut self, tap: usize, reply: ArrayVec<u8, 246>) -> Result<(), WorldFault>
        ensures sets { SetsReply self.old.watched tap reply.items result self.new.watched }
        ensures judge { self.new.judge ≡ self.old.judge }
    {
        set_reply(&mut self.driven.watched, tap, reply)
    }

    /// Keeps the requests of others that the station at a tap executes from now on (message cycles: indications): the
    /// first ones, as many as there is room for. What was kept of this tap before is forgotten.
    ///
    /// Faults: `NoSuchTap`; `NoMemory` if memory was refused, for so many requests. Then what is kept stays.
    pub fn keep_indications(
        &mut self,
        alloc: Global,
        tap: usize,
        room: usize,
    ) -> Result<(), WorldFault>
        ensures same { StaysBut self.old.watched self.new.watched }
        ensures kept { OnOk result (KeepsFrom self.old.watched tap room self.new.watched) }
        ensures fault { IfErr result (RefusesToKeep self.old.watched tap self.new.watched) }
        ensures judge { self.new.judge ≡ self.old.judge }
    {
        keep_indications(&mut self.driven.watched, alloc, tap, room)
    }

    /// The requests that are kept of a tap, in the order in which its station executed them; `None` if they are not
    /// asked for.
    pub fn indications(&self, tap: usize) -> Option<&[Indication]>
        ensures { option_map (λ rs. map fields_of rs.now) result
            ≡ requests_at self.entry.now.watched.told tap }
    {
        self.driven.watched.told.requests(tap)
    }

    /// Forgets the requests that are kept of a tap, if they are asked for. Later ones are kept.
    pub fn forget_indications(&mut self, tap: usize)
        ensures same { StaysBut self.old.watched self.new.watched }
        ensures forgets { Forgets self.old.watched tap self.new.watched }
        ensures judge { self.new.judge ≡ self.old.judge }
    {
        forget_indications(&mut self.driven.watched, tap);
    }

    /// The entries that [`let_go`](DrivenBus::let_go) removes: the first ones of the trace, which are over. Neither they
    /// nor how they reached the taps changes any more.
    pub fn past(&self) -> &[Entry]
        ensures { map entry_of result.now ≡ past_of self.entry.now.watched.bus.trace }
    {
        self.driven.watched.bus.past()
    }

    /// Removes these entries from the trace, and returns how many. No event has another effect without them, and an audit
    /// still knows them.
    ///
    /// Fault: memory was refused. Then nothing changes.
    pub fn let_go(&mut self, alloc: Global) -> Result<usize, AllocError>
        ensures gone { OnOk result (LetsGo self.old self.new) }
        ensures count { IfOk result (λ n. n ≡ length (past_of self.old.watched.bus.trace)) }
        ensures fault { OnErr result (self.new ≡ self.old) }
    {
        let_go(&mut self.driven, alloc)
    }

    /// What an audit finds in the events so far. An illegal record is told by its place in the whole trace, those that were
    /// let go counted.
    ///
    /// Fault: memory was refused.
    pub fn judge(&self, alloc: Global) -> Result<Audit, AllocError>
        ensures { IfOk result (FindsBy self.entry.now) }
    {
        let mut judge = self.driven.judge.copied(alloc)?;
        judge.hear_all(self.driven.watched.bus.trace.entries())?;
        Ok(Audit {
            premise: self.driven.watched.broken(),
            illegal: judge.illegal(),
        })
    }

    /// The bus after the events so far.
    pub fn bus(&self) -> &Bus
        ensures bus { result.now ≡ self.entry.now.watched.bus }
        ensures kept { IsKept result.now }
    {
        self.driven.watched.bus()
    }
}

/// Lets go of the entries that are over, once a judge has heard them.
fn let_go(driven: &mut Driven, alloc: Global) -> Result<usize, AllocError>
    requires { IsFollowed driven.old.watched }
    ensures gone { OnOk result (LetsGo driven.old driven.new) }
    ensures count { IfOk result (λ n. n ≡ length (past_of driven.old.watched.bus.trace)) }
    ensures fault { OnErr result (driven.new ≡ driven.old) }
{
    let mut judge = driven.judge.copied(alloc)?;
    let past = driven.watched.bus.past();
    let count = past.len();
    judge.hear_all(past)?;
    driven.judge = judge;
    driven.watched.let_go();
    Ok(count)
}

/// Applies an event to a watched bus. A refused one changes nothing.
pub(crate) fn apply(watched: &mut Watched, alloc: Global, event: &Event) -> Result<(), WorldFault>
    requires { IsFollowed watched.old }
    ensures applies { Applies watched.old (event_of event.now) result watched.new }
    ensures followed { IsFollowed watched.new }
{
    match event {
        Event::Pass(_) => apply_pass(watched, alloc, event),
        Event::Turn(tap) => apply_turn(watched, alloc, *tap, event),
        _ => follow(&mut watched.watch, alloc, &mut watched.bus, event),
    }
}

/// Applies the turn of a tap.
#[inline(always)]
pub(crate) fn turn(
    watched: &mut Watched,
    alloc: Global,
    usual: &mut UsualEvents,
    tap: usize,
) -> Result<(), WorldFault>
    requires { IsFollowed watched.old }
    ensures applies { Applies watched.old (Turn tap) result watched.new }
    ensures followed { IsFollowed watched.new }
{
    usual.set_turn(tap);
    apply_turn(watched, alloc, tap, &usual.turn)
}

/// Applies a pass of time.
#[inline(always)]
pub(crate) fn pass(
    watched: &mut Watched,
    alloc: Global,
    usual: &mut UsualEvents,
    bits: u64,
) -> Result<(), WorldFault>
    requires { IsFollowed watched.old }
    ensures applies { Applies watched.old (Pass bits) result watched.new }
    ensures followed { IsFollowed watched.new }
{
    usual.set_pass(bits);
    apply_pass(watched, alloc, &usual.pass)
}

/// Applies a turn.
#[inline(always)]
fn apply_turn(
    watched: &mut Watched,
    alloc: Global,
    tap: usize,
    event: &Event,
) -> Result<(), WorldFault>
    requires followed { IsFollowed watched.old }
    requires turn { event_of event.now ≡ Turn tap }
    ensures applies { Applies watched.old (Turn tap) result watched.new }
    ensures followed { IsFollowed watched.new }
{
    if watched.told.keeps(tap) {
        return apply_told(watched, alloc, tap, event);
    }
    follow(&mut watched.watch, alloc, &mut watched.bus, event)
}

/// Applies a turn of a tap whose executed requests are kept. They are read before it, and kept if it isn't refused.
#[inline(never)]
fn apply_told(
    watched: &mut Watched,
    alloc: Global,
    tap: usize,
    event: &Event,
) -> Result<(), WorldFault>
    requires followed { IsFollowed watched.old }
    requires turn { event_of event.now ≡ Turn tap }
    requires kept { is_some (tray_at watched.old.told tap) ≡ true }
    ensures applies { Applies watched.old (Turn tap) result watched.new }
    ensures followed { IsFollowed watched.new }
{
    let Watched { bus, watch, told } = watched;
    told.read(&bus.taps, tap, bus.now);
    follow(watch, alloc, bus, event)?;
    told.note(tap);
    Ok(())
}

/// Changes the data with which the station at a tap of a watched bus replies.
fn set_reply(watched: &mut Watched, tap: usize, reply: ArrayVec<u8, 246>) -> Result<(), WorldFault>
    requires { IsFollowed watched.old }
    ensures sets { SetsReply watched.old tap reply.items result watched.new }
    ensures followed { IsFollowed watched.new }
{
    watched.bus.set_reply(tap, reply)
}

/// Keeps the requests that the station at a tap executes.
fn keep_indications(
    watched: &mut Watched,
    alloc: Global,
    tap: usize,
    room: usize,
) -> Result<(), WorldFault>
    requires { IsFollowed watched.old }
    ensures same { StaysBut watched.old watched.new }
    ensures kept { OnOk result (KeepsFrom watched.old tap room watched.new) }
    ensures fault { IfErr result (RefusesToKeep watched.old tap watched.new) }
    ensures followed { IsFollowed watched.new }
{
    let taps = watched.bus.taps.len();
    if tap >= taps {
        return Err(WorldFault::NoSuchTap);
    }
    watched.told.keep(alloc, tap, taps, room)?;
    Ok(())
}

/// Forgets those that are kept.
fn forget_indications(watched: &mut Watched, tap: usize)
    requires { IsFollowed watched.old }
    ensures same { StaysBut watched.old watched.new }
    ensures forgets { Forgets watched.old tap watched.new }
    ensures followed { IsFollowed watched.new }
{
    watched.told.forget(tap);
}

/// Applies a pass of time, which is tested first: only a pass changes the watch before it can be refused, and the watch
/// is too large to be copied for each. Kept out of line: else each turn pays for its frame.
#[inline(never)]
fn apply_pass(watched: &mut Watched, alloc: Global, event: &Event) -> Result<(), WorldFault>
    requires followed { IsFollowed watched.old }
    requires pass { IsSome (time_in (event_of event.now)) }
    ensures applies { Applies watched.old (event_of event.now) result watched.new }
    ensures followed { IsFollowed watched.new }
{
    if let Some(fault) = watched.bus.refusal(event, false) {
        return Err(fault);
    }
    follow(&mut watched.watch, alloc, &mut watched.bus, event)
}
