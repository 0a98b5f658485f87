//! Whom a listener names.

ghost use Rattle.law_monitor.specs.Naming.{NamedOrNobody};

/// While the premises are kept, the station that a listener names between two bursts is the one that may initiate a cable
/// delay before, or nobody may.
pub fn the_holder_is_named_or_nobody()
    ensures { NamedOrNobody }
{}
