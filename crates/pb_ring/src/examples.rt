//! Worked lists and rounds, computed by the definitions.

ghost use Rattle.std.specs.Prelude.{◌≡◌, false, true, List, [], ◌∷◌, Option, Some, None};
ghost use Rattle.pb_ring.specs.declared.gaps.Round.TheVariants.{Open, Closed};
ghost use Rattle.pb_ring.specs.declared.stages.Stage.TheVariants.{Complete};
ghost use Rattle.pb_ring.specs.AddressSets.{next_address, previous_address, from_behind};
ghost use Rattle.pb_ring.specs.Las.{listening, claimed, heard, entered, readied, is_complete, members_of};
ghost use Rattle.pb_ring.specs.Gap.{gap_range, is_due};
ghost use Rattle.pb_ring.specs.Laws.{answers, round_at_end};
ghost use Rattle.pb_ring.specs.Worked.{all_heard, two_rotations, over_a_station};

/// A listener learns the stations 2, 5 and 9 from two rotations. As station 7 it joins them, and the token from 5 to 9
/// then skips it twice.
pub fn a_listener_learns_three_stations()
    ensures learnt { (all_heard listening two_rotations).stage ≡ Complete (2 ∷ 5 ∷ 9 ∷ []) None }
    ensures joined { (readied (all_heard listening two_rotations) 7).stage
        ≡ Complete (2 ∷ 5 ∷ 7 ∷ 9 ∷ []) (Some (record { address = 7; skipped = 0 })) }
    ensures skipped { (all_heard (readied (all_heard listening two_rotations) 7) over_a_station).stage
        ≡ Complete (2 ∷ 5 ∷ 7 ∷ 9 ∷ []) (Some (record { address = 7; skipped = 2 })) }
{}

/// After its claim station 4 is alone; 9 and 7 enter. A token from 9 to itself skips station 4 and removes 7, and a
/// token to station 4 resets its count.
pub fn a_claim_begins_a_list()
    ensures next { next_address 4 (members_of (entered (entered (claimed 4) 9) 7).stage) ≡ 7 }
    ensures previous { previous_address 4 (members_of (entered (entered (claimed 4) 9) 7).stage) ≡ 9 }
    ensures skipped { (heard (entered (entered (claimed 4) 9) 7) 9 9).stage
        ≡ Complete (4 ∷ 9 ∷ []) (Some (record { address = 4; skipped = 1 })) }
    ensures set_back { (heard (heard (entered (entered (claimed 4) 9) 7) 9 9) 9 4).stage
        ≡ Complete (4 ∷ 9 ∷ []) (Some (record { address = 4; skipped = 0 })) }
{}

/// The GAP of station 9 before station 2 wraps around; the GAP of station 2 before station 3 is empty. A lone station
/// asks all others and closes its round.
pub fn gaps_and_rounds_wrap_round()
    ensures wraps { from_behind 9 (gap_range 9 2 12) ≡ 10 ∷ 11 ∷ 12 ∷ 0 ∷ 1 ∷ [] }
    ensures empty { gap_range 2 3 12 ≡ [] }
    ensures alone { from_behind 1 (gap_range 1 1 5) ≡ 2 ∷ 3 ∷ 4 ∷ 5 ∷ 0 ∷ [] }
    ensures asks { answers 0 0 2 (Open None) (5000 ∷ 5000 ∷ 5000 ∷ []) ≡ Some 1 ∷ Some 2 ∷ None ∷ [] }
    ensures closes { round_at_end 0 0 2 (Open None) (5000 ∷ 5000 ∷ 5000 ∷ []) ≡ Closed 5000 }
    ensures not_due { is_due (Closed 5000) 104999 10000 10 ≡ false }
    ensures due { is_due (Closed 5000) 105000 10000 10 ≡ true }
{}
