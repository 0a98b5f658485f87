//! The timer of a station, and what the station does when it ends.

ghost use Rattle.std.specs.Prelude.{◌≡◌, ◌+◌, ◌≤◌, false, Some, None, if◌then◌else◌};
ghost use Rattle.std.specs.Option.{option_map};
ghost use Rattle.pb_timers.specs.Timers.{tto};
ghost use Rattle.pb_cycles.specs.Queued.{Queued};
ghost use Rattle.pb_ring.specs.Las.{claimed};
ghost use Rattle.pb_ring.specs.declared.gaps.Round.TheVariants.{Open};
ghost use Rattle.pb_rotation.specs.Rotation.{fresh};
ghost use Rattle.law_turn.specs.Stations.{earlier, reply_moment, speaks_at, timer_of};
ghost use Rattle.law_turn.specs.Phases as turn;
ghost use Rattle.law_turn.specs.Hearing.{not_taken, cycle_closed, not_answered, phase_timed_out, after_timer};
ghost use Rattle.pb_tokenfsm.specs.Phases.{phase_of, was_asked, tries_of};
ghost use Rattle.pb_transitions.specs.Cores.{station_with, Becomes};
ghost use Rattle.pb_transitions.specs.Replies.{reply_of};

use crate::cores::Kept;
use crate::cycles::give_up;
use crate::lists::removed;
use crate::moments::earlier;
use crate::speeches::{reply_moment, speaks_at};
use pb_ring::{Gap, Las};
use pb_rotation::Rotation;
use pb_timers::{BusParams, Moment};
use pb_tokenfsm::{AwaitData, Checking, Holding, Phase, TRIES};

/// Lets the station's timer end, if it ends before `limit`.
#[inline(always)]
pub fn after_timer(phase: &mut Phase, kept: &mut Kept, params: &BusParams, limit: Moment)
    ensures { Becomes (λ s. after_timer params.now limit s)
        kept.old (phase_of phase.old) kept.new (phase_of phase.new) }
{
    match timer(phase, kept, params) {
        Some(moment) if moment < limit => end_timer(phase, kept, moment),
        _ => {}
    }
}

/// When the station's timer ends; `None` while the station is busy or has no timer.
#[inline(always)]
pub fn timer(phase: &Phase, kept: &Kept, params: &BusParams) -> Option<Moment>
    ensures { (queue : Queued) → result
        ≡ timer_of params.now (station_with kept.now queue (phase_of phase.now)) }
{
    if kept.busy {
        return None;
    }
    match phase {
        Phase::Listening(_) | Phase::Idle(_) => Some(silence_timer(kept, params)),
        Phase::AwaitData(holder) if holder.slot() => Some(slot_timer(kept, params)),
        Phase::AwaitStatus(holder) if holder.slot() => Some(slot_timer(kept, params)),
        Phase::Checking(_) => Some(slot_timer(kept, params)),
        _ => None,
    }
}

/// When a station without unread marks acts: at its timer or its speaking moment, whichever is earlier. One match on the phase
/// takes half the instructions of `timer` and `speaks_at`.
#[inline(always)]
pub fn acts_at(phase: &Phase, kept: &Kept, params: &BusParams) -> Option<Moment>
    ensures { (queue : Queued) → let s = station_with kept.now queue (phase_of phase.now) in
        result ≡ earlier (timer_of params.now s) (speaks_at s) }
{
    match phase {
        Phase::Offline(_) => None,
        Phase::PassiveIdle(_) => reply_moment(&kept.reply),
        Phase::Listening(_) | Phase::Idle(_) => acts_in_silence(kept, params),
        Phase::Claim(holder) => Some(holder.ready()),
        Phase::Use(holder) => Some(holder.ready()),
        Phase::Pass(holder) => Some(holder.ready()),
        Phase::AwaitData(_) => earlier(timer(phase, kept, params), speaks_at(phase, kept)),
        Phase::AwaitStatus(_) | Phase::Checking(_) => timer(phase, kept, params),
    }
}

/// When a master without the token acts: at the end of its time-out, while nothing is heard, or with its reply.
#[inline(always)]
fn acts_in_silence(kept: &Kept, params: &BusParams) -> Option<Moment>
    ensures { result ≡ earlier
        (if kept.now.busy then None else Some (kept.now.past.quiet + tto params.now kept.now.address))
        (reply_moment (option_map reply_of kept.now.reply)) }
{
    let reply = reply_moment(&kept.reply);
    if !kept.busy {
        return earlier(Some(silence_timer(kept, params)), reply);
    }
    reply
}

/// No reply was heard and no retry is left: closes the request, and uses the token again.
pub(crate) fn given_up(holder: Holding<AwaitData>, kept: &mut Kept, ready: Moment) -> Phase
    ensures { Becomes (λ s. record s { cycles = cycle_closed s.cycles None })
        kept.old (turn.Use (was_asked holder) ready) kept.new (phase_of result) }
{
    give_up(&mut kept.cycles);
    Phase::Use(holder.on_outcome(ready))
}

/// The timer of the phase has ended at `moment`. Kept out of line: its frame has room for a phase.
#[inline(never)]
fn end_timer(phase: &mut Phase, kept: &mut Kept, moment: Moment)
    ensures { Becomes (λ s. phase_timed_out s (phase_of phase.old) moment)
        kept.old (phase_of phase.old) kept.new (phase_of phase.new) }
{
    let before = phase.take();
    *phase = timed_out(before, kept, moment);
}

/// The phase after its timer has ended at `moment`.
fn timed_out(phase: Phase, kept: &mut Kept, moment: Moment) -> Phase
    ensures { Becomes (λ s. phase_timed_out s (phase_of phase) moment)
        kept.old (phase_of phase) kept.new (phase_of result) }
{
    match phase {
        Phase::Listening(listening) => {
            stand_alone(kept);
            Phase::Claim(listening.on_timeout(moment))
        }
        Phase::Idle(idle) => {
            stand_alone(kept);
            Phase::Claim(idle.on_timeout(moment))
        }
        Phase::AwaitData(holder) => not_answered(holder, kept, moment),
        Phase::AwaitStatus(holder) => Phase::Use(holder.on_outcome(moment)),
        Phase::Checking(checking) => not_taken(checking, kept, moment),
        other => other,
    }
}

/// When the silence has lasted for the station's time-out.
fn silence_timer(kept: &Kept, params: &BusParams) -> Moment
    ensures { result ≡ kept.now.past.quiet + tto params.now kept.now.address }
{
    kept.past.quiet.get().after(time_out(kept, params))
}

/// When the slot after the station's own telegram ends.
fn slot_timer(kept: &Kept, params: &BusParams) -> Moment
    ensures { result ≡ kept.now.past.end + params.now.tsl }
{
    kept.past.end.get().after(u64::from(params.tsl()))
}

/// A station that claims the token is alone in its ring, and knows no other station.
fn stand_alone(kept: &mut Kept)
    ensures { kept.new ≡ record
        kept.old {
          reply = None;
          las = claimed kept.old.address;
          gap = Open None;
          rotation = fresh
              kept.old.rotation.ttr;
        } }
{
    kept.reply = None;
    kept.las = Las::claimed(kept.address.get());
    kept.gap = Gap::fresh();
    kept.rotation = Rotation::new(kept.rotation.ttr());
}

/// The slot of a request has ended: the request is sent again, if a retry is left.
fn not_answered(holder: Holding<AwaitData>, kept: &mut Kept, moment: Moment) -> Phase
    ensures { Becomes (λ s. not_answered s (was_asked holder) false moment)
        kept.old (phase_of (Phase.AwaitData holder)) kept.new (phase_of result) }
{
    if !kept.cycles.initiator.retry_left() {
        return given_up(holder, kept, moment);
    }
    Phase::AwaitData(holder.on_silence(moment))
}

/// No station took the token: it is passed again. After the last try the next station is removed from the list.
fn not_taken(checking: Checking, kept: &mut Kept, moment: Moment) -> Phase
    ensures { Becomes (λ s. not_taken s (tries_of (Phase.Checking checking)) moment)
        kept.old (phase_of (Phase.Checking checking)) kept.new (phase_of result) }
{
    if checking.tries() >= TRIES {
        let next = kept.las.ns(kept.address.get());
        kept.las = removed(kept.las, next);
    }
    Phase::Pass(checking.on_silence(moment))
}

/// The station's time-out: how long the bus is silent before it claims the token, in bit times.
#[tactic(auto, using(crate::proofs::TimeOuts::time_out_bound))]
fn time_out(kept: &Kept, params: &BusParams) -> u64
    ensures value { result ≡ tto params.now kept.now.address }
    ensures bound { result ≤ 4226814 }
{
    params.tto(kept.address.get())
}
