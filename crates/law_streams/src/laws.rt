//! Laws of runs within a number of entries, and of their past.

ghost use Rattle.law_streams.specs.Laws.{AuditIsOfRun, MoreAuditsSame};
ghost use Rattle.law_streams.specs.Laws.{MoreIsSame, MoreStreamsSame, RunIsWithin, StreamIsRun};
ghost use Rattle.std.specs.Prelude.{◌≡◌, [], ◌∷◌, None, Some};
ghost use Rattle.law_model.specs.Scenarios.{example_bus, two_masters};
ghost use Rattle.law_runs.specs.Examples.{ring_forms};
ghost use Rattle.law_streams.specs.Judgement.{kept_of};
ghost use Rattle.law_streams.specs.Laws.{found_after_ring, kept_of_ring};
ghost use Rattle.law_streams.specs.Laws.{JudgedAsHeard, JudgedInPieces, KeepsFew};
ghost use Rattle.law_streams.specs.Laws.{PastRidesAlong, PastStays, RunsWithoutPast, StreamsWithoutPast};

/// The run of a scenario, and its trace, are those within 100,000 entries.
pub fn a_run_is_within_its_limit()
    ensures { RunIsWithin }
{}

/// A run that does not end because its trace is full is the same within any greater limit of entries.
pub fn a_greater_limit_changes_nothing()
    ensures trace { MoreIsSame }
    ensures stream { MoreStreamsSame }
    ensures audit { MoreAuditsSame }
{}

/// The stream of a scenario has the trace of its run, if no event is refused, and else the fault that ends it.
pub fn a_stream_has_the_run()
    ensures { StreamIsRun }
{}

/// The audit of a scenario, which goes as far as its run, finds what is found in the run, if no event is refused, and else
/// has the fault that ends it.
pub fn an_audit_is_of_the_run()
    ensures { AuditIsOfRun }
{}

/// Entries that have ended at all taps before all others reach the taps have no effect on any event, and it stays so.
pub fn what_is_over_may_be_let_go_at_any_event()
    ensures same { PastRidesAlong }
    ensures stays { PastStays }
{}

/// A run goes on without such entries as it goes on with them, and ends with the rest of the trace.
pub fn runs_go_on_without_their_past()
    ensures run { RunsWithoutPast }
    ensures stream { StreamsWithoutPast }
{}

/// A judge that hears a trace entry by entry finds its first illegal initiator record. It keeps no trace: the latest end
/// at each tap, the entries that began at most a cable delay before the newest one, and the last initiator record.
pub fn a_judge_needs_no_trace()
    ensures judged { JudgedAsHeard }
    ensures pieces { JudgedInPieces }
    ensures few { KeepsFew }
{}

/// What a judge keeps of five telegrams in which a ring forms, and what it finds with one more: the second master may use
/// the token within the slot, which ends at 1253, and claim it after its time-out, at 2153.
pub fn a_judge_hears_a_ring()
    ensures kept { kept_of example_bus two_masters ring_forms ≡ kept_of_ring }
    ensures taken { found_after_ring 1190 (0xdc ∷ 0x01 ∷ 0x02 ∷ []) ≡ None }
    ensures last { found_after_ring 1252 (0xdc ∷ 0x01 ∷ 0x02 ∷ []) ≡ None }
    ensures late { found_after_ring 1253 (0xdc ∷ 0x01 ∷ 0x02 ∷ []) ≡ Some 5 }
    ensures early { found_after_ring 2152 (0xdc ∷ 0x02 ∷ 0x02 ∷ []) ≡ Some 5 }
    ensures claims { found_after_ring 2153 (0xdc ∷ 0x02 ∷ 0x02 ∷ []) ≡ None }
{}
