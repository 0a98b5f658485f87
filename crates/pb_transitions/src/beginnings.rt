//! What a station does when activity begins.

ghost use Rattle.std.specs.Prelude.{◌≡◌, ℕ, None};
ghost use Rattle.law_turn.specs.Hearing.{phase_begun, begun};
ghost use Rattle.law_turn.specs.Phases as turn;
ghost use Rattle.pb_tokenfsm.specs.Phases.{phase_of};
ghost use Rattle.pb_transitions.specs.Cores.{Becomes};

use crate::cores::Kept;
use crate::replies::Reply;
use pb_timers::Moment;
use pb_tokenfsm::Phase;

/// Activity has begun at `at`. A station that answers requests drops a reply that is not sent yet.
pub fn begun(phase: &mut Phase, kept: &mut Kept, at: Moment)
    ensures { Becomes (λ s. begun s at) kept.old (phase_of phase.old) kept.new (phase_of phase.new) }
{
    kept.busy = true;
    match phase {
        Phase::PassiveIdle(_) | Phase::Listening(_) | Phase::Idle(_) => drop_reply(&mut kept.reply),
        Phase::Checking(_) => see_taken(phase, kept.own_begin(), at),
        _ => {
            let before = phase.take();
            *phase = phase_begun(before, kept.own_begin(), at);
        }
    }
}

/// Activity has begun at `at`. A checking station takes it as the sign that its token was taken, unless it is older
/// than that token, which began at `own`.
fn see_taken(phase: &mut Phase, own: Moment, at: Moment)
    ensures { (tries : ℕ) → phase_of phase.old ≡ turn.Checking tries
        → phase_of phase.new ≡ phase_begun (phase_of phase.old) own at }
{
    if at < own {
        return;
    }
    let before = phase.take();
    *phase = match before {
        Phase::Checking(checking) => Phase::Idle(checking.on_activity()),
        other => other,
    };
}

/// Drops the waiting reply. Usually there is none, and then no memory is written.
fn drop_reply(reply: &mut Option<Reply>)
    ensures { reply.new ≡ None }
{
    if reply.is_some() {
        *reply = None;
    }
}

/// The phase after activity has begun at `at`; the own last telegram began at `own`. A holder gives up the token, the
/// slot of an open request closes, and a checking station takes the activity as the sign that its token was taken.
fn phase_begun(phase: Phase, own: Moment, at: Moment) -> Phase
    ensures { phase_of result ≡ phase_begun (phase_of phase) own at }
{
    match phase {
        Phase::Claim(holder) => Phase::Idle(holder.on_foreign()),
        Phase::Use(holder) => Phase::Idle(holder.on_foreign()),
        Phase::AwaitData(holder) => Phase::AwaitData(holder.on_activity(own, at)),
        Phase::AwaitStatus(holder) if at >= own => Phase::AwaitStatus(holder.on_activity()),
        Phase::Pass(holder) => Phase::Idle(holder.on_foreign()),
        Phase::Checking(checking) if at >= own => Phase::Idle(checking.on_activity()),
        other => other,
    }
}
