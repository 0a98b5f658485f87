//! What a GAP round does: laws of its tables.

ghost use Rattle.std.specs.Prelude.{◌≡◌, ◌≤◌, ℕ, Bool, true, false, List, [], ◌∷◌, ◌++◌, map, length, Option, Some, None};
ghost use Rattle.pb_ring.specs.declared.gaps.Round.{Round};
ghost use Rattle.pb_ring.specs.declared.gaps.Round.TheVariants.{Open, Closed};
ghost use Rattle.pb_ring.specs.AddressSets.{IsAscending, is_member, last_of, from_behind, next_address, previous_address};
ghost use Rattle.pb_ring.specs.Gap.{gap_range, last_asked, next_asked, round_after};
ghost use Rattle.pb_ring.specs.Laws.{Look, StandsForLooks, look_of, asked_in_round, answers, round_at_end, InTurn};

/// A round represents all looks for an address so far. The last look decides whether the round is closed, and the last
/// address asked since it was closed is where it continues.
pub fn a_round_stands_for_its_looks()
    ensures fresh { StandsForLooks (Open None) [] }
    ensures look { (round : Round) (looks : List Look) (ts ns hsa now : ℕ) → StandsForLooks round looks
        → StandsForLooks (round_after (next_asked ts ns hsa (last_asked round)) now) (looks
        ++ look_of (next_asked ts ns hsa (last_asked round)) now ∷ []) }
    ensures asked { (round : Round) (looks : List Look) → StandsForLooks round looks
        → last_asked round ≡ last_of (asked_in_round [] looks) }
{}

/// The GAPs of all members of a list partition the other addresses up to the highest station address: each is in the
/// GAP of its previous station and in no other GAP, and a GAP contains nothing else.
pub fn gaps_share_out_the_other_addresses()
    ensures each { (members : List ℕ) (m a hsa : ℕ) → IsAscending members → is_member members m ≡ true
        → is_member members a ≡ false → a ≤ hsa
        → is_member (gap_range (previous_address a members)
        (next_address (previous_address a members) members) hsa) a ≡ true }
    ensures owner { (members : List ℕ) (m a : ℕ) → IsAscending members → is_member members m ≡ true
        → is_member members (previous_address a members) ≡ true }
    ensures once { (members : List ℕ) (m n a hsa : ℕ) → IsAscending members → is_member members m ≡ true
        → is_member members n ≡ true
        → is_member (gap_range m (next_address m members) hsa) a ≡ true
        → is_member (gap_range n (next_address n members) hsa) a ≡ true → m ≡ n }
    ensures highest { (ts ns hsa a : ℕ) → is_member (gap_range ts ns hsa) a ≡ true → a ≤ hsa }
    ensures others { (members : List ℕ) (m a hsa : ℕ) → IsAscending members → is_member members m ≡ true
        → is_member (gap_range m (next_address m members) hsa) a ≡ true → is_member members a ≡ false }
{}

/// A new round asks each address of the GAP once, in cyclic order from the station on. The look that finds none closes
/// it. This holds as long as the next station stays the same.
pub fn a_round_asks_each_address_once()
    ensures answers { (ts ns hsa now : ℕ) (round : Round) (moments : List ℕ) → last_asked round ≡ None
        → length moments ≡ length (from_behind ts (gap_range ts ns hsa))
        → answers ts ns hsa round (moments ++ now ∷ [])
        ≡ map Some (from_behind ts (gap_range ts ns hsa)) ++ None ∷ [] }
    ensures closes { (ts ns hsa now : ℕ) (round : Round) (moments : List ℕ) → last_asked round ≡ None
        → length moments ≡ length (from_behind ts (gap_range ts ns hsa))
        → round_at_end ts ns hsa round (moments ++ now ∷ []) ≡ Closed now }
    ensures all { (ts ns hsa a : ℕ)
        → is_member (from_behind ts (gap_range ts ns hsa)) a ≡ is_member (gap_range ts ns hsa) a }
    ensures in_turn { (ts ns hsa : ℕ) → InTurn ts (from_behind ts (gap_range ts ns hsa)) }
{}

/// Only addresses of the GAP are asked, whatever was asked before, and also if the next station changes.
pub fn only_the_gap_is_asked()
    ensures { (ts ns hsa a : ℕ) (asked : Option ℕ) → next_asked ts ns hsa asked ≡ Some a
        → is_member (gap_range ts ns hsa) a ≡ true }
{}
