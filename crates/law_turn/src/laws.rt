//! Laws of every turn: when a station is due, what it keeps, and who may initiate.

ghost use Rattle.std.specs.Prelude.{◌≡◌, ◌+◌, ◌<◌, ◌≤◌, ◌⊎◌, ℕ, Bool, true, false, List, [], ◌∷◌, length, Some, None, IfSome, IsSome};
ghost use Rattle.pb_telegram.specs.declared.chars.RxChar.{RxChar};
ghost use Rattle.pb_timers.specs.Timers.{Params, bits};
ghost use Rattle.pb_cycles.specs.RequestFields.{RequestFields};
ghost use Rattle.law_turn.specs.Arrivals.{Token, arrival_of};
ghost use Rattle.law_turn.specs.Marks.{Mark, End, moment_of, Alternates};
ghost use Rattle.law_turn.specs.Phases.{Offline, Listening, Idle, AwaitData, AwaitStatus, Checking, may_initiate};
ghost use Rattle.law_turn.specs.Stations.{Station, timer_of, speaks_at, due_of, previous_station, new_station, started, stopped, pushed};
ghost use Rattle.law_turn.specs.Hearing.{phase_timed_out, after_mark};
ghost use Rattle.law_turn.specs.Turns.{after_marks, settled, phase_says, turn_of};
ghost use Rattle.law_turn.specs.Pasts.{Past, nothing, past_after_turn, StandsForPast};
ghost use Rattle.law_turn.specs.Laws.{IsDueLater, Fits, IsRequest, are_initiator, HasReply, HasCycles, HasOpenRequest, IsSilentWhileBusy};

/// After a turn the station is due later than the clock, or not at all.
pub fn a_turn_leaves_the_due_later()
    ensures { (p : Params) (s : Station) (marks : List Mark) (now : ℕ)
        → IsDueLater p (turn_of p s marks now).0 now }
{}

/// A turn never changes the address of a station.
pub fn a_turn_keeps_the_address()
    ensures { (p : Params) (s : Station) (marks : List Mark) (now : ℕ)
        → (turn_of p s marks now).0.address ≡ s.address }
{}

/// A turn with no unread marks and nothing due changes nothing and sends nothing.
pub fn nothing_due_changes_nothing()
    ensures { (p : Params) (s : Station) (now : ℕ) → IsDueLater p s now → turn_of p s [] now ≡ (s, None) }
{}

/// An offline station reads no mark and sends nothing.
pub fn who_is_offline_says_nothing()
    ensures { (p : Params) (s : Station) (marks : List Mark) (now : ℕ) → s.phase ≡ Offline
        → turn_of p s marks now ≡ (s, None) }
{}

/// While a station is busy its timer does not end, however late it is.
pub fn a_busy_station_waits()
    ensures { (p : Params) (s : Station) (now : ℕ) → s.busy ≡ true → speaks_at s ≡ None
        → turn_of p s [] now ≡ (s, None) }
{}

/// Marks and the timer take effect in order of their moments. At equal moments the mark comes first.
pub fn a_mark_comes_before_a_timer_at_its_moment()
    ensures mark { (p : Params) (s : Station) (m : Mark) (marks : List Mark)
        → IfSome (timer_of p s) (λ t. moment_of m ≤ t)
        → after_marks p s (m ∷ marks) ≡ after_marks p (after_mark p s m) marks }
    ensures timer { (p : Params) (s : Station) (t : ℕ) (m : Mark) (marks : List Mark) → timer_of p s ≡ Some t
        → t < moment_of m
        → after_marks p s (m ∷ marks) ≡ after_marks p (after_mark p (phase_timed_out s s.phase t) m) marks }
{}

/// A station that has passed the token, asked for a status, or sent a request that is answered waits for activity until
/// a slot time after the end of its telegram.
pub fn a_slot_counts_from_the_end()
    ensures checking { (p : Params) (s : Station) (marks : List Mark) (now tries : ℕ) (octets : List ℕ)
        → (turn_of p s marks now).1 ≡ Some octets → (turn_of p s marks now).0.phase ≡ Checking tries
        → (turn_of p s marks now).0.busy ≡ false
        → due_of p (turn_of p s marks now).0 [] ≡ Some (now + bits (length octets) + p.tsl) }
    ensures asking { (p : Params) (s : Station) (marks : List Mark) (now of : ℕ) (octets : List ℕ)
        → (turn_of p s marks now).1 ≡ Some octets → (turn_of p s marks now).0.phase ≡ AwaitStatus of true
        → (turn_of p s marks now).0.busy ≡ false
        → due_of p (turn_of p s marks now).0 [] ≡ Some (now + bits (length octets) + p.tsl) }
    ensures requesting { (p : Params) (s : Station) (marks : List Mark) (now : ℕ) (asked : Bool)
        (octets : List ℕ)
        → (turn_of p s marks now).1 ≡ Some octets
        → (turn_of p s marks now).0.phase ≡ AwaitData asked None true
        → (turn_of p s marks now).0.busy ≡ false
        → due_of p (turn_of p s marks now).0 [] ≡ Some (now + bits (length octets) + p.tsl) }
{}

/// A station must speak: if its speaking moment has come, after it has read its marks and timers, it sends what its
/// phase prescribes. No other station sends anything.
pub fn a_station_that_is_due_speaks()
    ensures due { (p : Params) (s : Station) (marks : List Mark) (now moment : ℕ)
        → speaks_at (settled p s marks now) ≡ Some moment → moment ≤ now
        → turn_of p s marks now ≡ phase_says p (settled p s marks now) (settled p s marks now).phase now }
    ensures speaks { (p : Params) (s : Station) (now moment : ℕ) → HasOpenRequest s
        → speaks_at s ≡ Some moment → IsSome (phase_says p s s.phase now).1 }
    ensures not_due { (p : Params) (s : Station) (marks : List Mark) (now : ℕ)
        → IfSome (speaks_at (settled p s marks now)) (λ moment. now < moment)
        → (turn_of p s marks now).1 ≡ None }
{}

/// A listening station takes no token, whatever it hears.
pub fn one_that_listens_takes_no_token()
    ensures { (p : Params) (s : Station) (m : Mark) (doubled : Bool) → s.phase ≡ Listening doubled
        → may_initiate (after_mark p s m).phase ≡ false }
{}

/// A station in Idle that has refused no token takes a token only from its previous station.
pub fn a_first_token_is_taken_from_the_previous_station()
    ensures { (p : Params) (s : Station) (at seen : ℕ) (chars : List RxChar) → s.phase ≡ Idle None
        → may_initiate (after_mark p s (End at seen chars)).phase ≡ true
        → arrival_of chars ≡ Token s.address (previous_station s) }
{}

/// Only a holder sends a token or a request: a station that sends one may initiate at that moment.
pub fn only_a_holder_initiates()
    ensures started { (p : Params) (s : Station) (master : Bool) (now : ℕ)
        → HasReply (started p s master now) }
    ensures speech { (p : Params) (s : Station) (marks : List Mark) (now : ℕ) → HasReply s → HasCycles s
        → IfSome (turn_of p s marks now).1 (λ octets. are_initiator octets ≡ true
        → may_initiate (settled p s marks now).phase ≡ true) }
    ensures reply { (p : Params) (s : Station) (marks : List Mark) (now : ℕ) → HasReply s → HasCycles s
        → HasReply (turn_of p s marks now).0 }
    ensures stopped { (s : Station) → HasReply (stopped s) }
    ensures pushed { (s : Station) (r : RequestFields) → HasReply s → HasReply (pushed s r) }
    ensures fits { (p : Params) (s : Station) (marks : List Mark) (now : ℕ) → HasReply s → HasCycles s
        → IfSome (turn_of p s marks now).1 (λ octets. (0 < length octets) × (length octets ≤ 255)) }
{}

/// A station can always send what it keeps of its message cycles: the waiting requests and the open one have addresses
/// and data that fit in a telegram, and the reply kept for a repeat is no telegram of a holder.
pub fn what_a_station_keeps_can_be_said()
    ensures new { (p : Params) (address : ℕ) (reply : List ℕ) → Fits reply
        → HasCycles (new_station p address reply) }
    ensures started { (p : Params) (s : Station) (master : Bool) (now : ℕ) → HasCycles s
        → HasCycles (started p s master now) }
    ensures turn { (p : Params) (s : Station) (marks : List Mark) (now : ℕ) → HasReply s → HasCycles s
        → HasCycles (turn_of p s marks now).0 }
    ensures stopped { (s : Station) → HasCycles s → HasCycles (stopped s) }
    ensures pushed { (s : Station) (r : RequestFields) → HasCycles s → IsRequest r → HasCycles (pushed s r) }
{}

/// The list of active stations, the GAP and the rotation of a station represent what it heard, asked and received since
/// each of them began; the tables of its message cycles represent what it did and heard since it started. This holds at
/// the start, and a turn appends its own events. A claim starts the first three again, joining the ring starts the GAP
/// and the rotation again, and listening starts the list again.
pub fn the_tables_stand_for_what_was_heard_asked_and_received()
    ensures started { (p : Params) (s : Station) (master : Bool) (now : ℕ) → s.address < 127
        → StandsForPast p (started p s master now) nothing }
    ensures turn { (p : Params) (s : Station) (marks : List Mark) (now : ℕ) (past : Past) → p.hsa < 127
        → HasReply s → HasCycles s → StandsForPast p s past
        → StandsForPast p (turn_of p s marks now).0 (past_after_turn p s marks now past) }
    ensures stopped { (p : Params) (s : Station) (past : Past) → StandsForPast p s past
        → StandsForPast p (stopped s) past }
    ensures pushed { (p : Params) (s : Station) (r : RequestFields) (past : Past) → StandsForPast p s past
        → StandsForPast p (pushed s r) past }
{}

/// A station that waits for a reply always has an open request, and a retry left if it waits to send the request again.
pub fn who_waits_for_a_reply_has_an_open_request()
    ensures started { (p : Params) (s : Station) (master : Bool) (now : ℕ)
        → HasOpenRequest (started p s master now) }
    ensures turn { (p : Params) (s : Station) (marks : List Mark) (now : ℕ) → HasOpenRequest s
        → HasOpenRequest (turn_of p s marks now).0 }
    ensures settled { (p : Params) (s : Station) (marks : List Mark) (now : ℕ) → HasOpenRequest s
        → HasOpenRequest (settled p s marks now) }
    ensures stopped { (s : Station) → HasOpenRequest (stopped s) }
    ensures pushed { (s : Station) (r : RequestFields) → HasOpenRequest s → HasOpenRequest (pushed s r) }
{}

/// A busy station sends nothing: no station speaks between a Begin that it has read and its End. This needs Begins and
/// Ends that alternate, as on every bus.
pub fn a_busy_station_says_nothing()
    ensures started { (p : Params) (s : Station) (master : Bool) (now : ℕ)
        → IsSilentWhileBusy (started p s master now) }
    ensures turn { (p : Params) (s : Station) (marks : List Mark) (now : ℕ) (after : Bool)
        → Alternates s.busy marks after
        → IsSilentWhileBusy s → IsSilentWhileBusy (turn_of p s marks now).0 }
    ensures stopped { (s : Station) → IsSilentWhileBusy (stopped s) }
    ensures pushed { (s : Station) (r : RequestFields) → IsSilentWhileBusy s
        → IsSilentWhileBusy (pushed s r) }
    ensures silent { (p : Params) (s : Station) (marks : List Mark) (now : ℕ) (after : Bool)
        → Alternates s.busy marks after → IsSilentWhileBusy s
        → (settled p s marks now).busy ≡ true → turn_of p s marks now ≡ (settled p s marks now, None) }
{}
