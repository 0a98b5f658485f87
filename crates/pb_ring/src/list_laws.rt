//! What a list of active stations is: laws of its tables.

ghost use Rattle.std.specs.Prelude.{◌≡◌, ◌+◌, ◌<◌, ◌==◌, ◌||◌, ℕ, Bool, true, false, List, [], ◌∷◌, ◌++◌, Option, Some, None, min};
ghost use Rattle.pb_ring.specs.declared.stages.Place.{Place};
ghost use Rattle.pb_ring.specs.declared.stages.Stage.TheVariants.{Complete};
ghost use Rattle.pb_ring.specs.AddressSets.{IsAscending, is_member, is_between, next_address, previous_address};
ghost use Rattle.pb_ring.specs.Las.{LasTable, listening, claimed, heard, entered, removed, readied, is_retry, members_of};
ghost use Rattle.pb_ring.specs.LasList.{Item, Token, Enters, Leaves, Joins, StandsFor};
ghost use Rattle.pb_ring.specs.Laws.{CountsTo};

/// A new list represents that nothing was heard.
pub fn a_new_list_stands_for_nothing_heard()
    ensures listening { StandsFor listening None [] }
    ensures claimed { (ts : ℕ) → ts < 127 → StandsFor (claimed ts) (Some ts) [] }
{}

/// A list represents all that was heard and done since listening began or since the claim: each call appends itself to
/// what the list represents.
pub fn a_list_stands_for_what_was_heard_and_done()
    ensures heard { (t : LasTable) (claim : Option ℕ) (is : List Item) (sa da : ℕ) → sa < 127 → da < 127
        → StandsFor t claim is
        → StandsFor (heard t sa da) claim (is ++ Token sa da ∷ []) }
    ensures entered { (t : LasTable) (claim : Option ℕ) (is : List Item) (a : ℕ) → a < 127
        → StandsFor t claim is
        → StandsFor (entered t a) claim (is ++ Enters a ∷ []) }
    ensures removed { (t : LasTable) (claim : Option ℕ) (is : List Item) (a : ℕ) → a < 127
        → StandsFor t claim is
        → StandsFor (removed t a) claim (is ++ Leaves a ∷ []) }
    ensures readied { (t : LasTable) (claim : Option ℕ) (is : List Item) (ts : ℕ) → ts < 127
        → StandsFor t claim is
        → StandsFor (readied t ts) claim (is ++ Joins ts ∷ []) }
{}

/// The members of a list are a set of addresses in ascending order.
pub fn the_members_are_a_set()
    ensures ascending { (t : LasTable) (claim : Option ℕ) (is : List Item) → StandsFor t claim is
        → IsAscending (members_of t.stage) }
    ensures stations { (t : LasTable) (claim : Option ℕ) (is : List Item) (a : ℕ) → StandsFor t claim is
        → is_member (members_of t.stage) a ≡ true → a < 127 }
{}

/// The next and the previous station of a member are members, and the two functions are inverse to each other. No
/// member is strictly between a station and its next one.
pub fn neighbours_are_each_others_inverse()
    ensures next { (members : List ℕ) (ts : ℕ) → IsAscending members → is_member members ts ≡ true
        → is_member members (next_address ts members) ≡ true }
    ensures previous { (members : List ℕ) (ts : ℕ) → IsAscending members → is_member members ts ≡ true
        → is_member members (previous_address ts members) ≡ true }
    ensures back { (members : List ℕ) (ts : ℕ) → IsAscending members → is_member members ts ≡ true
        → previous_address (next_address ts members) members ≡ ts }
    ensures forth { (members : List ℕ) (ts : ℕ) → IsAscending members → is_member members ts ≡ true
        → next_address (previous_address ts members) members ≡ ts }
    ensures nearest { (members : List ℕ) (ts a : ℕ) → IsAscending members → is_member members a ≡ true
        → is_between ts (next_address ts members) a ≡ false }
{}

/// A lone station is its own next and previous station.
pub fn a_lone_station_is_its_own_neighbour()
    ensures next { (ts : ℕ) → next_address ts (ts ∷ []) ≡ ts }
    ensures previous { (ts : ℕ) → previous_address ts (ts ∷ []) ≡ ts }
{}

/// A token between others that skips a station in the ring increments its count, up to 255; a token from or to the
/// station resets it to 0; any other token leaves it. A retry does not change the list.
pub fn skips_are_counted()
    ensures skipped { (t : LasTable) (members : List ℕ) (place : Place) (sa da : ℕ)
        → t.stage ≡ Complete members (Some place)
        → is_retry t.last sa da ≡ false → is_between sa da place.address ≡ true
        → CountsTo (heard t sa da) place.address (min 255 (place.skipped + 1)) }
    ensures about { (t : LasTable) (members : List ℕ) (place : Place) (sa da : ℕ)
        → t.stage ≡ Complete members (Some place)
        → is_retry t.last sa da ≡ false → (sa == place.address || da == place.address) ≡ true
        → CountsTo (heard t sa da) place.address 0 }
    ensures other { (t : LasTable) (members : List ℕ) (place : Place) (sa da : ℕ)
        → t.stage ≡ Complete members (Some place)
        → is_retry t.last sa da ≡ false → (sa == place.address || da == place.address) ≡ false
        → is_between sa da place.address ≡ false
        → CountsTo (heard t sa da) place.address place.skipped }
    ensures retry { (t : LasTable) (sa da : ℕ) → is_retry t.last sa da ≡ true
        → (heard t sa da).stage ≡ t.stage }
{}
