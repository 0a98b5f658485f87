//! Receipts of the token.

ghost use Rattle.std.specs.Prelude.{◌≡◌, if◌then◌else◌};
ghost use Rattle.pb_rotation.specs.Rotation.{received};

use pb_rotation::Rotation;
use pb_timers::Moment;

/// The rotation after a receipt of the token at `at`; unchanged if `receipt` is false.
pub(crate) fn received_if(rotation: Rotation, receipt: bool, at: Moment) -> Rotation
    ensures { result ≡ (if receipt then received rotation at else rotation) }
{
    if !receipt {
        return rotation;
    }
    let mut later = rotation;
    later.received(at);
    later
}
