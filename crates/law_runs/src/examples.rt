//! Worked scenarios, with their traces, events and outlooks, computed by the definitions.

ghost use Rattle.std.specs.Prelude.{◌∷◌, [], ◌++◌, Some, None};
ghost use Rattle.law_model.specs.World.{Turn, Pass, Damage, Start, Noise, Unheard, NothingInAir, NoTaps};
ghost use Rattle.law_model.specs.Scenarios.{two_masters};
ghost use Rattle.law_runs.specs.Scenarios.{New, At};
ghost use Rattle.law_runs.specs.Examples.{Has, Knows, KnowsLate, Leaves, Refuses};
ghost use Rattle.law_runs.specs.Examples.{at, withheld, one_master, both_start, first_starts_at, alone_with};
ghost use Rattle.law_runs.specs.Examples.{ring_forms, second_holds, both_speak, speaks_late, asks_unheard};
ghost use Rattle.law_runs.specs.Examples.{both_claim, noise_then_claim, claim_at, started_amid_claim};
ghost use Rattle.law_runs.specs.Examples.{claim_heard, both_turn, held_twice, held_till_760, nothing_to_lose};
ghost use Rattle.law_runs.specs.Examples.{claims_with, claims_alone_with, noise_with};
ghost use Rattle.law_runs.specs.Examples.{second_held_for, second_unheard, held_to_840};
ghost use Rattle.law_runs.specs.Examples.{two_noises, first_noise};
ghost use Rattle.law_runs.specs.Examples.{own_damage, starts_after, starts_with_claim, starts_on_its_way};

/// Worked scenarios and the traces of their runs.
pub fn runs_of_worked_scenarios()
    ensures ring { Leaves two_masters both_start 1400 (ring_forms ++ second_holds) }
    ensures noise { Leaves one_master (alone_with (at 100 (Noise 50) ∷ [])) 990 noise_then_claim }
    ensures claims { Leaves two_masters (first_starts_at 200) 1100 both_claim }
    ensures held { Leaves two_masters (second_held_for 63) 1330 (ring_forms ++ both_speak) }
    ensures less { Leaves two_masters (second_held_for 62) 1330 (ring_forms ++ speaks_late) }
    ensures held_back { Leaves one_master (alone_with (withheld 800 0 40 ∷ [])) 880 (claim_at 840 873) }
    ensures longest { Leaves one_master (alone_with held_to_840) 880 (claim_at 840 873) }
    ensures for_nothing { Leaves one_master (alone_with (withheld 800 0 0 ∷ [])) 840 (claim_at 800 833) }
    ensures starts_amid { Leaves two_masters (first_starts_at 1010) 1110 started_amid_claim }
    ensures unheard { Leaves two_masters second_unheard 1300 (ring_forms ++ asks_unheard) }
{}

/// The events of worked runs. Each tap takes its turns when it is due and at no other instant. The end of a withholding
/// is an instant, unless a later withholding continues.
pub fn events_of_worked_scenarios()
    ensures claim { Has two_masters both_start 850 claim_heard }
    ensures together { Has two_masters (first_starts_at 200) 1001 both_turn }
    ensures held { Has one_master (alone_with held_twice) 810 held_till_760 }
    ensures end { Has one_master (alone_with two_noises) 50 first_noise }
    ensures losses_last { Refuses two_masters nothing_to_lose 5 (At 5 NothingInAir) }
    ensures refused { Refuses two_masters own_damage 1400 (At 950 NothingInAir) }
    ensures no_world { Refuses [] [] 1 (New NoTaps) }
{}

/// When the taps of worked worlds are due, and when something else changes: at an end, one bit time after a begin has
/// reached the taps, and one bit time after a start during activity.
pub fn outlooks_of_worked_worlds()
    ensures new { Knows [] None None None }
    ensures started { Knows (Start 0 ∷ Start 1 ∷ []) (Some 800) (Some 1000) None }
    ensures begun { Knows (claims_with []) (Some 870) (Some 1000) (Some 801) }
    ensures heard { Knows (claims_with (Pass 1 ∷ [])) (Some 870) (Some 801) (Some 833) }
    ensures ended { Knows (claims_with (Pass 1 ∷ Turn 1 ∷ Pass 32 ∷ [])) (Some 870) (Some 833) None }
    ensures noise { Knows (noise_with []) None None (Some 101) }
    ensures noise_lasts { Knows (noise_with (Pass 10 ∷ Noise 50 ∷ [])) None None (Some 160) }
    ensures amid { Knows (noise_with (Pass 10 ∷ Start 0 ∷ [])) (Some 910) None (Some 111) }
    ensures amid_nothing { Knows (noise_with (Pass 30 ∷ Start 0 ∷ [])) (Some 930) None None }
    ensures delayed { KnowsLate (claims_alone_with []) (Some 870) None (Some 816) }
    ensures delayed_end { KnowsLate (claims_alone_with (Pass 16 ∷ [])) (Some 870) None (Some 833) }
    ensures delayed_arrival { KnowsLate (claims_alone_with (Pass 33 ∷ [])) (Some 870) None (Some 848) }
    ensures not_there { KnowsLate (starts_after 5) (Some 870) (Some 1805) (Some 806) }
    ensures own_instant { KnowsLate starts_with_claim (Some 870) (Some 1800) (Some 816) }
    ensures on_its_way { KnowsLate starts_on_its_way (Some 870) (Some 1838) (Some 839) }
{}
