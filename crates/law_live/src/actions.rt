//! Actions: events, and changes between them of the data with which taps reply.

ghost use Rattle.law_live.specs.Actions.{ActionsLeadOn, NeverDeadByActions, NewWorldsAct};

/// The bus is never dead with changes of data between the events, within the same bound: a reply may have as many
/// octets as any.
pub fn the_bus_is_never_dead_whatever_the_data()
    ensures { NeverDeadByActions }
{}

/// A new world, and every world that further actions leave, keeps three promises that depend on the events among the
/// actions that led to it. If they break no premise, at most one station holds the token and the bus is not dead. If
/// none of them loses a telegram or lets a turn be late, no master is in silence for longer than its bound.
pub fn actions_keep_their_promises()
    ensures new { NewWorldsAct }
    ensures lead { ActionsLeadOn }
{}
