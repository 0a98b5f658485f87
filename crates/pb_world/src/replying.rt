//! Changes the data with which a tap's station replies.

ghost use Rattle.std.specs.Prelude.{◌≡◌, IfErr, OnErr, OnOk};
ghost use Rattle.law_turn.specs.Laws.{Fits};
ghost use Rattle.pb_world.specs.Replying.{RefusesReply, RepliesWith};

use arrayvec::ArrayVec;
use pb_taps::{Tap, WorldFault};

/// Changes the data with which the station at a tap replies to the next request for data, whether it runs or not. A
/// repeat of the last request still gets the reply that it got. Nothing is allocated.
///
/// Fault: `NoSuchTap`.
pub(crate) fn set_reply(
    taps: &mut [Tap],
    tap: usize,
    reply: ArrayVec<u8, 246>,
) -> Result<(), WorldFault>
    ensures ok { OnOk result (RepliesWith taps.old tap reply.items taps.new) }
    ensures err { OnErr result (taps.new ≡ taps.old) }
    ensures fault { IfErr result (RefusesReply taps.old tap) }
    ensures fits { Fits reply.items }
{
    if tap >= taps.len() {
        return Err(WorldFault::NoSuchTap);
    }
    taps[tap].station.set_reply(reply);
    Ok(())
}
