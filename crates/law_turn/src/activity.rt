//! Rules of activity: how a station reacts to a Begin, to an End, and to the reply to its request for a status.

ghost use Rattle.std.specs.Prelude.{◌≡◌, ◌≢◌, ◌+◌, ◌<◌, ◌≤◌, ◌==◌, ◌%◌, ◌/◌, List, [], ◌∷◌, length, max, ℕ, Bool, true, false, Some, None, Option};
ghost use Rattle.pb_telegram.specs.declared.chars.RxChar.{RxChar};
ghost use Rattle.pb_telegram.specs.declared.chars.RxChar.TheVariants.{Good, Bad};
ghost use Rattle.pb_timers.specs.Timers.{Params, bits};
ghost use Rattle.pb_ring.specs.Las as las;
ghost use Rattle.pb_cycles.specs.Fields.{Fields};
ghost use Rattle.pb_cycles.specs.Messages.{has_bit};
ghost use Rattle.pb_cycles.specs.declared.messages.Message.TheVariants as message;
ghost use Rattle.pb_cycles.specs.Outcomes.{status_reply};
ghost use Rattle.law_turn.specs.Arrivals.{Token, Framed, Acknowledgement, NoTelegram, arrival_of};
ghost use Rattle.law_turn.specs.Hearing.{asks_status, listening_hears, idle_hears, awaiting_status_hears, awaiting_data_hears, after_mark};
ghost use Rattle.law_turn.specs.Laws.{awaits_reply};
ghost use Rattle.law_turn.specs.Marks.{Mark, Begin, End, seen_at};
ghost use Rattle.law_turn.specs.Phases.{Listening, Idle, Claim, Use, AwaitData, AwaitStatus, Pass, is_offline};
ghost use Rattle.law_turn.specs.Stations.{Station, Reply, started, earlier, due_of};
ghost use Rattle.law_turn.specs.Turns.{settled, phase_says, turn_of};

/// A waiting station keeps what it knows when activity begins. Only its slot ends, unless the activity began before its
/// own telegram.
pub fn what_a_station_knows_outlasts_a_begin()
    ensures namesake { (p : Params) (s : Station) (doubled : Bool) (at seen : ℕ)
        → s.phase ≡ Listening doubled → (after_mark p s (Begin at seen)).phase ≡ Listening doubled }
    ensures refused { (p : Params) (s : Station) (refused : Option ℕ) (at seen : ℕ) → s.phase ≡ Idle refused
        → (after_mark p s (Begin at seen)).phase ≡ Idle refused }
    ensures question { (p : Params) (s : Station) (of at seen : ℕ) (slot : Bool)
        → s.phase ≡ AwaitStatus of slot → s.own.begin ≤ at
        → (after_mark p s (Begin at seen)).phase ≡ AwaitStatus of false }
    ensures question_before { (p : Params) (s : Station) (of at seen : ℕ) (slot : Bool)
        → s.phase ≡ AwaitStatus of slot → at < s.own.begin
        → (after_mark p s (Begin at seen)).phase ≡ AwaitStatus of slot }
    ensures request { (p : Params) (s : Station) (asked : Bool) (retry : Option ℕ) (slot : Bool)
        (at seen : ℕ) → s.phase ≡ AwaitData asked retry slot → s.own.begin ≤ at
        → (after_mark p s (Begin at seen)).phase ≡ AwaitData asked None false }
    ensures request_before { (p : Params) (s : Station) (asked : Bool) (retry : Option ℕ) (slot : Bool)
        (at seen : ℕ) → s.phase ≡ AwaitData asked retry slot → at < s.own.begin
        → (after_mark p s (Begin at seen)).phase ≡ AwaitData asked None slot }
{}

/// A station that holds the token gives it up when activity begins. One that waits for a reply gives it up when it
/// hears a token, and enters that token into its list.
pub fn a_holder_gives_way()
    ensures claim { (p : Params) (s : Station) (sent ready at seen : ℕ) → s.phase ≡ Claim sent ready
        → (after_mark p s (Begin at seen)).phase ≡ Idle None }
    ensures in_use { (p : Params) (s : Station) (asked : Bool) (ready at seen : ℕ)
        → s.phase ≡ Use asked ready → (after_mark p s (Begin at seen)).phase ≡ Idle None }
    ensures pass { (p : Params) (s : Station) (tries ready at seen : ℕ) → s.phase ≡ Pass tries ready
        → (after_mark p s (Begin at seen)).phase ≡ Idle None }
    ensures question { (p : Params) (s : Station) (of at da sa : ℕ)
        → awaiting_status_hears p s of at (Token da sa)
        ≡ record s { phase = Idle None; las = las.heard s.las sa da } }
    ensures request { (p : Params) (s : Station) (asked slot : Bool) (at da sa : ℕ)
        → awaiting_data_hears p s asked slot at (Token da sa)
        ≡ record s { phase = Idle None; las = las.heard s.las sa da } }
{}

/// A station without the token keeps what it knows through telegrams and replies that say nothing about it: whose token
/// it refused, and whether it heard a namesake. A station that replies that it is ready has refused no token.
pub fn what_a_station_knows_outlasts_its_replies()
    ensures asked { (p : Params) (s : Station) (refused : Option ℕ) (at : ℕ) (f : Fields)
        → (idle_hears p s refused at (Framed f)).phase ≡ s.phase }
    ensures asked_listening { (p : Params) (s : Station) (doubled : Bool) (at : ℕ) (f : Fields)
        → (listening_hears p s doubled at (Framed f)).phase ≡ s.phase }
    ensures token { (p : Params) (s : Station) (doubled : Bool) (at da sa : ℕ) → (sa == s.address) ≡ false
        → listening_hears p s doubled at (Token da sa)
        ≡ record s { phase = Listening doubled; las = las.heard s.las sa da } }
    ensures replied { (p : Params) (s : Station) (refused : Option ℕ) (now : ℕ)
        → (phase_says p s (Idle refused) now).0.phase ≡ s.phase }
    ensures replied_listening { (p : Params) (s : Station) (doubled : Bool) (now : ℕ) (r : Reply)
        → s.reply ≡ Some r → r.joins ≡ false
        → (phase_says p s (Listening doubled) now).0.phase ≡ s.phase }
    ensures joined { (p : Params) (s : Station) (doubled : Bool) (now : ℕ) (r : Reply) → s.reply ≡ Some r
        → r.joins ≡ true
        → (phase_says p s (Listening doubled) now).0.phase ≡ Idle None }
{}

/// An End without a telegram, or with an acknowledgement that the station does not wait for, only says that the bus is
/// quiet. A reply that is not sent yet stays.
pub fn what_is_no_telegram_tells_nothing()
    ensures damage { (p : Params) (s : Station) (at seen : ℕ) (chars : List RxChar)
        → is_offline s.phase ≡ false → awaits_reply s.phase ≡ false → arrival_of chars ≡ NoTelegram
        → after_mark p s (End at seen chars) ≡ record s { busy = false; quiet = max s.quiet at } }
    ensures acknowledgement { (p : Params) (s : Station) (at seen : ℕ) (chars : List RxChar)
        → is_offline s.phase ≡ false → awaits_reply s.phase ≡ false
        → arrival_of chars ≡ Acknowledgement → after_mark p s (End at seen chars)
        ≡ record s { busy = false; quiet = max s.quiet at } }
{}

/// After an End, with or without a telegram, a station is not busy. The bus counts as quiet since that End, or since a
/// later end, also of the station's own telegram. A Begin does not change this. A station that starts counts from its
/// start.
pub fn the_bus_is_quiet_since_the_latest_end()
    ensures busy { (p : Params) (s : Station) (at seen : ℕ) (chars : List RxChar)
        → is_offline s.phase ≡ false → (after_mark p s (End at seen chars)).busy ≡ false }
    ensures heard { (p : Params) (s : Station) (at seen : ℕ) (chars : List RxChar)
        → is_offline s.phase ≡ false → (after_mark p s (End at seen chars)).quiet ≡ max s.quiet at }
    ensures begun { (p : Params) (s : Station) (at seen : ℕ)
        → (after_mark p s (Begin at seen)).quiet ≡ s.quiet }
    ensures said { (p : Params) (s : Station) (marks : List Mark) (now : ℕ) (octets : List ℕ)
        → (turn_of p s marks now).1 ≡ Some octets
        → (turn_of p s marks now).0.quiet ≡ max (settled p s marks now).quiet (now + bits (length octets)) }
    ensures said_from { (p : Params) (s : Station) (marks : List Mark) (now : ℕ) (octets : List ℕ)
        → (turn_of p s marks now).1 ≡ Some octets
        → (turn_of p s marks now).0.own.begin ≡ now }
    ensures said_to { (p : Params) (s : Station) (marks : List Mark) (now : ℕ) (octets : List ℕ)
        → (turn_of p s marks now).1 ≡ Some octets
        → (turn_of p s marks now).0.own.end ≡ now + bits (length octets) }
    ensures started { (p : Params) (s : Station) (master : Bool) (now : ℕ)
        → (started p s master now).quiet ≡ now }
    ensures own { (p : Params) (s : Station) (master : Bool) (now : ℕ)
        → (started p s master now).own ≡ record { begin = now; end = now } }
    ensures idle { (p : Params) (s : Station) (master : Bool) (now : ℕ)
        → (started p s master now).busy ≡ false }
{}

/// Unread marks are due when the first of them was delivered, or earlier if something else is due.
pub fn a_mark_is_due_when_it_is_delivered()
    ensures { (p : Params) (s : Station) (m : Mark) (marks : List Mark)
        → due_of p s (m ∷ marks) ≡ earlier (Some (seen_at m)) (due_of p s []) }
{}

/// A station that has asked another for its status uses the token again an idle time after the reply, or after what was
/// heard instead. If the reply says "ready" without an error, the other station enters the list.
pub fn a_reply_to_the_question_goes_into_the_list()
    ensures goes_on { (p : Params) (s : Station) (of at fc : ℕ) (f : Fields) → has_bit f.fc 6 ≡ false
        → status_reply s.address of (message.Framed f) ≡ Some fc
        → (awaiting_status_hears p s of at (Framed f)).phase ≡ Use true (at + p.tid1) }
    ensures no_reply { (p : Params) (s : Station) (of at : ℕ) (f : Fields) → has_bit f.fc 6 ≡ false
        → status_reply s.address of (message.Framed f) ≡ None
        → awaiting_status_hears p s of at (Framed f)
        ≡ record s { phase = Use true (max at s.own.end + p.tid1) } }
    ensures damaged { (p : Params) (s : Station) (of at : ℕ)
        → awaiting_status_hears p s of at NoTelegram
        ≡ record s { phase = Use true (max at s.own.end + p.tid1) } }
    ensures acknowledged { (p : Params) (s : Station) (of at : ℕ)
        → awaiting_status_hears p s of at Acknowledgement
        ≡ record s { phase = Use true (max at s.own.end + p.tid1) } }
    ensures ready { (p : Params) (s : Station) (of at fc : ℕ) (f : Fields) → has_bit f.fc 6 ≡ false
        → status_reply s.address of (message.Framed f) ≡ Some fc
        → fc / 16 % 4 ≡ 2 → fc % 16 ≡ 0 → (awaiting_status_hears p s of at (Framed f)).las
        ≡ las.entered s.las of }
    ensures another_type { (p : Params) (s : Station) (of at fc : ℕ) (f : Fields) → has_bit f.fc 6 ≡ false
        → status_reply s.address of (message.Framed f) ≡ Some fc
        → fc / 16 % 4 ≢ 2 → (awaiting_status_hears p s of at (Framed f)).las ≡ s.las }
    ensures error { (p : Params) (s : Station) (of at fc : ℕ) (f : Fields) → has_bit f.fc 6 ≡ false
        → status_reply s.address of (message.Framed f) ≡ Some fc
        → fc % 16 ≢ 0 → (awaiting_status_hears p s of at (Framed f)).las ≡ s.las }
{}

/// A request with function code 9 to a station's address asks for its status, whatever bit 7 of the address octet is. A
/// listening station answers no other request.
pub fn only_the_question_for_the_status_is_answered_by_one_that_listens()
    ensures asks { (ts : ℕ) (f : Fields) → has_bit f.fc 6 ≡ true → f.fc % 16 ≡ 9 → f.da % 128 ≡ ts
        → asks_status ts f ≡ true }
    ensures request { (ts : ℕ) (f : Fields) → asks_status ts f ≡ true → has_bit f.fc 6 ≡ true }
    ensures code { (ts : ℕ) (f : Fields) → asks_status ts f ≡ true → f.fc % 16 ≡ 9 }
    ensures address { (ts : ℕ) (f : Fields) → asks_status ts f ≡ true → f.da % 128 ≡ ts }
    ensures silent { (p : Params) (s : Station) (doubled : Bool) (at : ℕ) (f : Fields)
        → asks_status s.address f ≡ false
        → listening_hears p s doubled at (Framed f) ≡ s }
{}

/// What received characters are: a token with destination and source, the fields of a request or of a telegram with
/// data, an acknowledgement, or no telegram if a character is damaged.
pub fn what_characters_bring()
    ensures token { arrival_of (Good 0xdc ∷ Good 2 ∷ Good 1 ∷ []) ≡ Token 2 1 }
    ensures question { arrival_of (Good 0x10 ∷ Good 2 ∷ Good 1 ∷ Good 0x49 ∷ Good 0x4c ∷ Good 0x16 ∷ [])
        ≡ Framed (record { da = 2; sa = 1; fc = 0x49; unit = [] }) }
    ensures data { arrival_of
        (Good 0x68 ∷ Good 5 ∷ Good 5 ∷ Good 0x68 ∷ Good 1 ∷ Good 7 ∷ Good 0x0a ∷ Good 0xaa ∷ Good 0xbb ∷ Good
        0x77 ∷ Good 0x16 ∷ [])
        ≡ Framed (record { da = 1; sa = 7; fc = 0x0a; unit = 0xaa ∷ 0xbb ∷ [] }) }
    ensures acknowledgement { arrival_of (Good 0xe5 ∷ []) ≡ Acknowledgement }
    ensures damage { arrival_of (Good 0xdc ∷ Bad ∷ Good 1 ∷ []) ≡ NoTelegram }
{}
