//! Laws of runs: a history in instants is the run on one thread, and a run ends.

ghost use Rattle.law_runs.specs.Laws.{HistoryIsRun, RunEnds, EventsLead, RunIsHistory, StepsHappen};
ghost use Rattle.law_runs.specs.Laws.{TurnsLeaveOthers, TurnsOnce, TurnsOneByOne};

/// A history that is cut into the instants of a scenario leaves the trace of its run on one thread, whatever the order
/// of the turns in an instant.
pub fn a_history_in_instants_is_the_run()
    ensures { HistoryIsRun }
{}

/// A run ends or has a first fault: it has at most as many instants as there are moments.
pub fn a_run_ends()
    ensures { RunEnds }
{}

/// The events of a run are accepted, and lead from the new world to its last world.
pub fn the_events_of_a_run_lead_to_its_end()
    ensures { EventsLead }
{}

/// A run is itself a history in the instants of its scenario, by the facts of its own worlds.
pub fn a_run_is_a_history_in_instants()
    ensures { RunIsHistory }
{}

/// In an instant each tap that is due and not withheld takes exactly one turn, and no other tap takes a turn.
pub fn due_taps_take_one_turn()
    ensures { TurnsOnce }
{}

/// A turn does not change when the other taps are due.
pub fn a_turn_leaves_when_others_are_due()
    ensures { TurnsLeaveOthers }
{}

/// It makes no difference whether due taps are determined before all turns of an instant, or each just before its own
/// turn.
pub fn due_taps_may_be_found_one_by_one()
    ensures { TurnsOneByOne }
{}

/// The events of a scenario's steps happen at their moments, in the order of the steps; those that follow the turns
/// come last. No step up to the end is left out, and no other event comes from outside.
pub fn steps_happen_at_their_moments()
    ensures { StepsHappen }
{}
