//! Worked runs: the premises can be met, and none of them can be dropped.

ghost use Rattle.std.specs.Prelude.{◌≡◌, ℕ, [], ◌∷◌, true, false, Some, None, take};
ghost use Rattle.law_model.specs.Scenarios.{example_bus, master, two_masters};
ghost use Rattle.law_model.specs.Scenarios.{ring_formed, taker_damaged, speaker_stopped};
ghost use Rattle.law_model.specs.Scenarios.{phases_of};
ghost use Rattle.law_turn.specs.Phases.{Idle, Use};
ghost use Rattle.law_runs.specs.RunsAlike as runs;
ghost use Rattle.law_runs.specs.Traces.{noise};
ghost use Rattle.law_runs.specs.JudgedScenarios.{bus_with_lag, bus_with_delay};
ghost use Rattle.law_token.specs.Examples.{
  claims_at,
  long_bus,
  long_silence,
  silent_start,
  noise_with_the_token,
  noise_and_a_late_turn,
  namesake_named,
  namesakes,
  taker_lost,
  taken_late,
  claimed_together,
  taken_at_the_end,
  taken_with_delay,
  replied_at_the_end,
  bus_with_some_lag,
  late_bus,
  long_late_bus,
  late_reply_bus,
};
ghost use Rattle.law_token.specs.Outcomes.{outcome_on, kept, breaks, together, late_in_silence, world_on, entries_from};

/// The premises can be met, by runs in which some station holds the token most of the time, with damage, stops, noise,
/// late turns and a cable delay.
pub fn the_premises_can_be_met()
    ensures ring { outcome_on example_bus two_masters ring_formed ≡ kept 33 }
    ensures damage { outcome_on example_bus two_masters taker_damaged ≡ kept 34 }
    ensures stop { outcome_on example_bus two_masters speaker_stopped ≡ kept 19 }
    ensures noise { outcome_on example_bus two_masters noise_with_the_token ≡ kept 41 }
    ensures late { outcome_on bus_with_some_lag two_masters noise_and_a_late_turn ≡ kept 38 }
    ensures at_the_lag { outcome_on bus_with_lag two_masters runs.taken_at_the_lag ≡ kept 33 }
    ensures delay { outcome_on bus_with_delay two_masters runs.ring_with_delay ≡ kept 39 }
    ensures silence { outcome_on bus_with_lag (master 1 ∷ []) (silent_start 839) ≡ kept 0 }
{}

/// Noise begins just after the second of two stations has taken the token. The second gives the token up when it reads
/// that mark, in a turn that is in time or late by the lag. The first claims the token a time-out after the noise.
pub fn after_noise_the_token_is_claimed()
    ensures noise { entries_from 1160 (world_on example_bus two_masters noise_with_the_token)
        ≡ noise 1160 1180 ∷ claims_at 1980 ∷ claims_at 2050 ∷ [] }
    ensures late { entries_from 1160 (world_on bus_with_some_lag two_masters noise_and_a_late_turn)
        ≡ noise 1160 1165 ∷ claims_at 1965 ∷ [] }
    ensures at_1161 { phases_of (world_on bus_with_some_lag two_masters (take 36 noise_and_a_late_turn))
        ≡ Idle None ∷ Use false 1190 ∷ [] }
    ensures at_1180 { phases_of (world_on bus_with_some_lag two_masters (take 40 noise_and_a_late_turn))
        ≡ Idle None ∷ Idle None ∷ [] }
{}

/// Without any one of the premises the theorem is false: a run that keeps the others has two holders, a holder that the
/// trace does not name, or an illegal telegram. In the first run two stations share an address, the second loses a
/// telegram, in the third a turn is late, in the fourth two time-outs end together.
pub fn each_premise_is_needed()
    ensures namesakes { outcome_on example_bus namesakes namesake_named ≡ breaks (1 ∷ []) 28 1 true None }
    ensures loss { outcome_on example_bus two_masters taker_lost ≡ breaks (2 ∷ []) 31 1 true (Some 6) }
    ensures late { outcome_on example_bus two_masters taken_late ≡ breaks (3 ∷ []) 29 1 true (Some 6) }
    ensures together { outcome_on example_bus two_masters claimed_together ≡ together }
    ensures silence { outcome_on bus_with_lag (master 1 ∷ []) (silent_start 840) ≡ late_in_silence }
{}

/// One bit time beyond what the bus parameters leave, a run that keeps all premises has an illegal telegram: the
/// station that takes the token and the one that passed it speak in one instant, without a cable delay and with one. A
/// reply that is as late only loses the token: the theorem does not need that rule.
pub fn a_bit_beyond_is_too_late()
    ensures taken { outcome_on late_bus two_masters taken_at_the_end ≡ breaks [] 29 1 true (Some 6) }
    ensures with_delay { outcome_on long_late_bus two_masters taken_with_delay
        ≡ breaks [] 37 1 true (Some 6) }
    ensures replied { outcome_on late_reply_bus two_masters replied_at_the_end ≡ kept 22 }
{}
