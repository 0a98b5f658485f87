//! What the calls of a world promise about the worlds that they leave.

ghost use Rattle.law_live.specs.Promises.{NewWorldsBegin, RunsLeadOn};

/// A new world, and every world that further events leave, keeps three promises that depend on the events that led to
/// it. If they break no premise, at most one station holds the token and the bus is not dead. If none of them loses a
/// telegram or lets a turn be late, no master is in silence for longer than its bound.
pub fn a_run_keeps_its_promises()
    ensures new { NewWorldsBegin }
    ensures run { RunsLeadOn }
{}
