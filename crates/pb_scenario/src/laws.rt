//! Laws of files for streams.

ghost use Rattle.pb_scenario.specs.StreamLaws.{HappensAfterEach, ReadsTheSame, RefusesTheSame, UnrollsTheSame};

/// Files of version 1 and 2 mean for a stream what they mean for a run: the same scenario or fault, and the same steps.
pub fn files_without_repeats_mean_the_same()
    ensures read { ReadsTheSame }
    ensures refused { RefusesTheSame }
    ensures steps { UnrollsTheSame }
{}

/// A step that repeats happens at its moment and each time this much later, as often as it says.
pub fn a_step_repeats_evenly()
    ensures { HappensAfterEach }
{}
