//! The laws that a settled ring stays, and that a rotation of the token is bounded.

ghost use Rattle.law_rings.specs.Rotation.{BoundedRotation, RingStays};

/// After a moment at which a ring is settled and from which only turns, time and requests happen, in a run that keeps the
/// premises of the token theorem, the ring has the same stations, and each of them lists them.
pub fn a_settled_ring_stays()
    ensures { RingStays }
{}

/// Bounded rotation: after such a moment, each station of the ring receives the token within the target rotation time, a
/// cycle, and for each station a cycle, the passing of the token, the idle time and the lag; and again and again within
/// that time of its last receipt.
pub fn a_rotation_is_bounded()
    ensures { BoundedRotation }
{}
