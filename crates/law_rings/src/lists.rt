//! What a token does to the list of active stations, if it goes round the ring.

ghost use Rattle.std.specs.Prelude.{◌≡◌, ℕ, true, List, Option};
ghost use Rattle.pb_ring.specs.AddressSets.{IsAscending, is_member, next_address};
ghost use Rattle.pb_ring.specs.Las.{corrected};

/// A token from a member of a ring to the next one leaves the members as they are, for whoever hears it.
pub fn a_token_to_the_next_station_keeps_the_list()
    ensures { (members : List ℕ) (own : Option ℕ) (sa : ℕ) → IsAscending members → is_member members sa ≡ true
        → corrected members own sa (next_address sa members) ≡ members }
{}
