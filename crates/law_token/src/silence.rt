//! The silence bound: how long a master may be left in silence.

ghost use Rattle.std.specs.Prelude.{ℕ};
ghost use Rattle.law_model.specs.Scenarios.{two_masters};
ghost use Rattle.law_runs.specs.Headline.{SilenceBound};
ghost use Rattle.law_token.specs.Promises.{SilenceAtSpeakers, SilenceAtTap, NoneInSilence, IsReached};
ghost use Rattle.law_token.specs.Examples.{long_bus, long_silence};

/// No running master that is not offline is in silence for longer than its time-out, the lag and the cable delay. This
/// also holds if two stations share an address, or two masters' time-outs end together.
pub fn no_master_is_left_in_silence()
    ensures bound { SilenceBound }
    ensures at_speakers { SilenceAtSpeakers }
    ensures at_the_tap { SilenceAtTap }
    ensures of_a_world { NoneInSilence }
{}

/// The bound is reached, by a master whose token was claimed by a station that stops.
pub fn the_silence_bound_is_reached()
    ensures { IsReached long_bus two_masters long_silence 1 833 1843 }
{}
