//! Actions: events, and changes between them of the data with which taps reply.

ghost use Rattle.law_rings.specs.Actions.{BoundedRotationByActions, RingStaysByActions};

/// A settled ring stays with changes of data between calm events: what a station replies to a service tells nobody that
/// it is ready for the ring.
pub fn a_settled_ring_stays_whatever_the_data()
    ensures { RingStaysByActions }
{}

/// Bounded rotation with changes of data between calm events, within the same bound: a reply may have as many octets as
/// any.
pub fn a_rotation_is_bounded_whatever_the_data()
    ensures { BoundedRotationByActions }
{}
