//! The turn of a station, and when it is due.

ghost use Rattle.std.specs.Prelude.{◌≡◌, ◌+◌, ◌≤◌, map, is_some};
ghost use Rattle.law_turn.specs.Stations.{earlier, first_seen, due_of, timer_of, speaks_at};
ghost use Rattle.law_turn.specs.Turns.{settled, speech, turn_of};
ghost use Rattle.pb_tokenfsm.specs.Phases.{phase_of};
ghost use Rattle.pb_transitions.specs.Clocks.{last_turn, is_past};
ghost use Rattle.pb_cycles.specs.Queued.{Queued};
ghost use Rattle.pb_transitions.specs.Cores.{station_of, station_with, Becomes, HasReceived};
ghost use Rattle.pb_transitions.specs.Speeches.{spoken_with};
ghost use Rattle.pb_station.specs.Indications.{indications_of};
ghost use Rattle.pb_station.specs.Halves.{has_come};
ghost use Rattle.pb_station.specs.Mailboxes.{read_mail};
ghost use Rattle.pb_station.specs.MarkViews.{mark_of, AllOver, AreOver};

use crate::inboxes::{Inbox, Unread};
use crate::mailboxes::Mailbox;
use crate::marks::Mark;
use crate::reading::{after_marks, after_notes};
use pb_timers::{BusParams, Moment};
use pb_tokenfsm::Phase;
use pb_transitions::{
    Core, Kept, SendBuffer, Waiting, acts_at, after_timer, earlier, is_past, speak, speaks_at,
    would_say,
};

/// The station takes its turn, and sends into `out`.
pub(crate) fn take_turn(
    core: &mut Core,
    params: &BusParams,
    inbox: &Inbox,
    now: Moment,
    out: &mut SendBuffer,
)
    requires clock { now ≤ last_turn }
    requires over { AllOver now inbox.now }
    requires received { HasReceived (station_of core.old) }
    ensures turn { (station_of core.new, out.new)
        ≡ turn_of params.now (station_of core.old) inbox.now now }
    ensures received { HasReceived (station_of core.new) }
{
    let Core {
        phase,
        kept,
        waiting,
    } = core;
    settle(phase, kept, params, inbox, now);
    speak(phase, kept, waiting, params, now, out);
}

/// The same turn with the unread marks of a mailbox, which then has the requests that the station executes in it.
pub(crate) fn take_turn_with(
    core: &mut Core,
    params: &BusParams,
    mail: &mut Mailbox,
    now: Moment,
    out: &mut SendBuffer,
)
    requires clock { now ≤ last_turn }
    requires over { AllOver now mail.old.marks }
    requires received { HasReceived (station_of core.old) }
    ensures turn { (station_of core.new, out.new)
        ≡ turn_of params.now (station_of core.old) mail.old.marks now }
    ensures received { HasReceived (station_of core.new) }
    ensures mail { mail.new ≡ read_mail params.now (station_of core.old) mail.old }
{
    let Core {
        phase,
        kept,
        waiting,
    } = core;
    settle_with(phase, kept, params, mail, now);
    speak_if_due(phase, kept, waiting, params, now, out);
}

/// The first half of a turn with a list of marks: the station reads them, and its timers between them and up to the
/// clock. Returns whether its speaking moment has come.
pub(crate) fn read_on(core: &mut Core, params: &BusParams, marks: &[Mark], now: Moment) -> bool
    requires clock { now ≤ last_turn }
    requires over { AreOver now marks.now }
    requires received { HasReceived (station_of core.old) }
    ensures read { station_of core.new
        ≡ settled params.now (station_of core.old) (map mark_of marks.now) now }
    ensures come { result ≡ has_come (speaks_at (station_of core.new)) now }
    ensures received { HasReceived (station_of core.new) }
{
    let Core { phase, kept, .. } = core;
    settle_on(phase, kept, params, marks, now);
    has_come(speaks_at(phase, kept), now)
}

/// The second half of a turn: the station speaks at `now`, if its moment has come.
pub(crate) fn speak_on(core: &mut Core, params: &BusParams, now: Moment, out: &mut SendBuffer)
    requires clock { now ≤ last_turn }
    requires received { HasReceived (station_of core.old) }
    ensures speech { let before = station_of core.old in
        (station_of core.new, out.new) ≡ speech params.now before (speaks_at before) now }
    ensures received { HasReceived (station_of core.new) }
{
    let Core {
        phase,
        kept,
        waiting,
    } = core;
    speak(phase, kept, waiting, params, now, out);
}

/// Whether the station would send anything in its turn, which it does not take.
#[inline(never)]
pub(crate) fn would_speak(core: &Core, params: &BusParams, inbox: &Inbox, now: Moment) -> bool
    requires clock { now ≤ last_turn }
    requires over { AllOver now inbox.now }
    ensures { result ≡ is_some (turn_of params.now (station_of core.now) inbox.now now).1 }
{
    let mut kept = core.kept.copy();
    let mut phase = core.phase.copy();
    settle(&mut phase, &mut kept, params, inbox, now);
    would_say(&phase, &kept, now)
}

/// The station speaks at `now`, if its moment has come. That is tested here: `speak` is out of line, and most turns send
/// nothing.
#[inline(always)]
fn speak_if_due(
    phase: &mut Phase,
    kept: &mut Kept,
    waiting: &mut Waiting,
    params: &BusParams,
    now: Moment,
    out: &mut SendBuffer,
)
    requires clock { now ≤ last_turn }
    requires received { HasReceived (station_with kept.old waiting.old (phase_of phase.old)) }
    ensures { let before = station_with kept.old waiting.old (phase_of phase.old) in
        spoken_with kept.new waiting.new (phase_of phase.new) out.new
        ≡ speech params.now before (speaks_at before) now }
{
    if has_come(speaks_at(phase, kept), now) {
        speak(phase, kept, waiting, params, now, out);
    } else {
        out.clear();
    }
}

/// When the station has to take its turn, with a list of unread marks.
pub(crate) fn due_on(core: &Core, params: &BusParams, marks: &[Mark]) -> Option<Moment>
    ensures { result ≡ due_of params.now (station_of core.now) (map mark_of marks.now) }
{
    earlier(first_seen(marks), acts(core, params))
}

/// When the station has to take its turn, with the unread marks of an inbox.
pub(crate) fn due_of(core: &Core, params: &BusParams, inbox: &Inbox) -> Option<Moment>
    ensures { result ≡ due_of params.now (station_of core.now) inbox.now }
{
    earlier(inbox.first_seen(), acts(core, params))
}

/// When the station has to take its turn, with the unread marks of a mailbox.
pub(crate) fn due_with(core: &Core, params: &BusParams, mail: &Mailbox) -> Option<Moment>
    ensures { result ≡ due_of params.now (station_of core.now) mail.now.marks }
{
    earlier(mail.first_seen(), acts(core, params))
}

/// Whether the station's turn, with the unread marks of an inbox, will have been due for more than `lag` bit times when
/// the clock, now at `now`, is `bits` bit times later. Each moment that it may wait for is compared separately.
#[inline(always)]
pub(crate) fn is_overdue(
    core: &Core,
    params: &BusParams,
    inbox: &Inbox,
    lag: u32,
    now: Moment,
    bits: u64,
) -> bool
    ensures { result ≡ is_past lag (now + bits) (due_of params.now (station_of core.now) inbox.now) }
{
    is_past(inbox.first_seen(), lag, now, bits) || is_act_overdue(core, params, lag, now, bits)
}

/// The same for a station without unread marks.
#[inline(always)]
fn is_act_overdue(core: &Core, params: &BusParams, lag: u32, now: Moment, bits: u64) -> bool
    ensures { let s = station_of core.now in result
        ≡ is_past lag (now + bits) (earlier (timer_of params.now s) (speaks_at s)) }
{
    is_past(acts(core, params), lag, now, bits)
}

/// When a station without unread marks acts: at its timer or its speaking moment.
#[inline(always)]
fn acts(core: &Core, params: &BusParams) -> Option<Moment>
    ensures { result ≡ earlier (timer_of params.now (station_of core.now)) (speaks_at (station_of core.now)) }
{
    acts_at(&core.phase, &core.kept, params)
}

/// Lets the station read its unread marks, and its timers between them and up to the clock. It is then ready to speak.
fn settle(phase: &mut Phase, kept: &mut Kept, params: &BusParams, inbox: &Inbox, now: Moment)
    requires clock { now ≤ last_turn }
    requires over { AllOver now inbox.now }
    ensures { Becomes (λ s. settled params.now s inbox.now now)
        kept.old (phase_of phase.old) kept.new (phase_of phase.new) }
{
    let Unread {
        notes,
        chars,
        octets,
    } = inbox.unread();
    after_notes(phase, kept, params, notes, chars, octets, now);
    after_timer(phase, kept, params, now.after(1));
}

/// The same with the unread marks of a mailbox, which then has the requests that the station executes.
fn settle_with(
    phase: &mut Phase,
    kept: &mut Kept,
    params: &BusParams,
    mail: &mut Mailbox,
    now: Moment,
)
    requires clock { now ≤ last_turn }
    requires over { AllOver now mail.old.marks }
    ensures read { Becomes (λ s. settled params.now s mail.old.marks now)
        kept.old (phase_of phase.old) kept.new (phase_of phase.new) }
    ensures mail { (queue : Queued)
        → mail.new ≡ read_mail params.now (station_with kept.old queue (phase_of phase.old)) mail.old }
{
    mail.read(phase, kept, params, now);
    after_timer(phase, kept, params, now.after(1));
}

/// The same with a list of marks.
fn settle_on(phase: &mut Phase, kept: &mut Kept, params: &BusParams, marks: &[Mark], now: Moment)
    requires clock { now ≤ last_turn }
    requires over { AreOver now marks.now }
    ensures { Becomes (λ s. settled params.now s (map mark_of marks.now) now)
        kept.old (phase_of phase.old) kept.new (phase_of phase.new) }
{
    after_marks(phase, kept, params, marks, now);
    after_timer(phase, kept, params, now.after(1));
}

/// Whether a moment has come; `None` never does.
fn has_come(moment: Option<Moment>, now: Moment) -> bool
    ensures { result ≡ has_come moment now }
{
    match moment {
        Some(moment) => moment <= now,
        None => false,
    }
}

/// When the first mark was delivered; `None` if there is none.
fn first_seen(marks: &[Mark]) -> Option<Moment>
    ensures { result ≡ first_seen (map mark_of marks.now) }
{
    match marks {
        [mark, ..] => Some(mark.seen()),
        [] => None,
    }
}
