//! The rules of the turn, one law for each.

ghost use Rattle.std.specs.Option.{option_or};
ghost use Rattle.std.specs.Prelude.{◌≡◌, ◌+◌, ◌*◌, ◌%◌, List, [], ◌∷◌, ◌++◌, length, ◌<◌, ◌≤◌, ◌==◌, max, ℕ, Bool, true, false, Some, None, Option, IfSome};
ghost use Rattle.pb_telegram.specs.declared.chars.RxChar.{RxChar};
ghost use Rattle.pb_timers.specs.Timers.{Params, bits};
ghost use Rattle.pb_ring.specs.Gap.{next_asked};
ghost use Rattle.pb_ring.specs.Las.{is_complete, heard, removed, listening, members_of, place_of, skips_of};
ghost use Rattle.pb_ring.specs.declared.gaps.Round.TheVariants.{Open, Closed};
ghost use Rattle.pb_rotation.specs.Rotation.{holding_left, is_unused, may_low, may_high};
ghost use Rattle.pb_cycles.specs.Fields.{Fields};
ghost use Rattle.pb_cycles.specs.Messages.{has_bit, frame_octets};
ghost use Rattle.pb_cycles.specs.RequestFields.{RequestFields};
ghost use Rattle.pb_cycles.specs.Requests.{is_answered};
ghost use Rattle.pb_cycles.specs.declared.messages.Message.TheVariants as message;
ghost use Rattle.pb_cycles.specs.Initiating.{bits_for, first_sending, retry_of};
ghost use Rattle.pb_cycles.specs.declared.initiators.OpenRequest.{OpenRequest};
ghost use Rattle.pb_cycles.specs.Outcomes.{reply_outcome};
ghost use Rattle.pb_cycles.specs.declared.outcomes.Outcome.{Outcome};
ghost use Rattle.pb_cycles.specs.declared.outcomes.Outcome.TheVariants.{Acked, NoAnswer};
ghost use Rattle.law_turn.specs.Arrivals.{Token, Framed, Acknowledgement, NoTelegram, arrival_of};
ghost use Rattle.law_turn.specs.Hearing.{phase_timed_out, listening_hears, idle_hears, awaiting_status_hears, awaiting_data_hears, passive_hears, asks_status, answer_to, listening_answer, is_taken_from, after_mark};
ghost use Rattle.law_turn.specs.Laws.{HasAsked, is_asking, status_reply_of, are_initiator, HasReply, HasCycles, WaitsInPlace};
ghost use Rattle.law_turn.specs.Marks.{Mark, Begin, End};
ghost use Rattle.law_turn.specs.Phases.{Offline, PassiveIdle, Listening, Idle, Claim, Use, AwaitData, AwaitStatus, Pass, Checking, may_initiate, answers_requests, is_offline};
ghost use Rattle.law_turn.specs.Stations.{Station, timer_of, speaks_at, next_station, previous_station, list_for, pushed};
ghost use Rattle.law_turn.specs.Turns.{says_token, says_look, says_request, says_again, high_request, low_request, high_taken, low_taken, phase_says, turn_of, token_octets, status_request_octets};

/// A station that has passed the token takes any activity that begins since its token began as the sign that the token
/// was taken, whether it is a telegram or not. It then waits in Idle, and may initiate again only after a token to it
/// from its previous station. Activity that began before its token is no such sign.
pub fn activity_ends_the_check()
    ensures begun { (p : Params) (s : Station) (tries at seen : ℕ) → s.phase ≡ Checking tries
        → s.own.begin ≤ at
        → after_mark p s (Begin at seen) ≡ record s { phase = Idle None; busy = true } }
    ensures in_slot { (p : Params) (s : Station) (tries at seen now : ℕ) (marks : List Mark)
        → s.phase ≡ Checking tries → s.own.begin ≤ at → at ≤ s.own.end + p.tsl
        → turn_of p s (Begin at seen ∷ marks) now
        ≡ turn_of p (record s { phase = Idle None; busy = true }) marks now }
    ensures taken { (p : Params) (s : Station) (tries at seen until delivered : ℕ) (chars : List RxChar)
        → s.phase ≡ Checking tries → s.own.begin ≤ at
        → may_initiate (after_mark p (after_mark p s (Begin at seen)) (End until delivered chars)).phase
        ≡ true → arrival_of chars ≡ Token s.address (previous_station s) }
    ensures before { (p : Params) (s : Station) (tries at seen : ℕ) → s.phase ≡ Checking tries
        → at < s.own.begin
        → after_mark p s (Begin at seen) ≡ record s { busy = true } }
    ensures heard { (p : Params) (s : Station) (m : Mark) (tries : ℕ) → s.phase ≡ Checking tries
        → may_initiate (after_mark p s m).phase ≡ false }
{}

/// If nothing is heard, the token is passed again when its slot has ended, not before.
pub fn a_token_is_passed_again_after_its_slot()
    ensures waits { (p : Params) (s : Station) (tries now : ℕ) → now < s.own.end + p.tsl
        → turn_of p (record s { phase = Checking tries; busy = false }) [] now
        ≡ (record s { phase = Checking tries; busy = false }, None) }
    ensures again { (p : Params) (s : Station) (tries now : ℕ) → s.own.end + p.tsl ≤ now → tries < 3
        → (turn_of p (record s { phase = Checking tries; busy = false }) [] now).1
        ≡ Some (token_octets (next_station s) s.address) }
    ensures given_up { (p : Params) (s : Station) (now : ℕ) → s.own.end + p.tsl ≤ now
        → (turn_of p (record s { phase = Checking 3; busy = false }) [] now).1
        ≡ Some (token_octets (next_station (record s { las = removed s.las (next_station s) })) s.address) }
{}

/// A token is sent three times to a successor. After the third silent slot the successor leaves the list.
pub fn a_token_is_tried_three_times()
    ensures first { (p : Params) (s : Station) (now : ℕ) → (next_station s == s.address) ≡ false
        → (says_token p s 0 now).0.phase ≡ Checking 1 }
    ensures second { (p : Params) (s : Station) (now : ℕ) → (next_station s == s.address) ≡ false
        → (says_token p s 1 now).0.phase ≡ Checking 2 }
    ensures third { (p : Params) (s : Station) (now : ℕ) → (next_station s == s.address) ≡ false
        → (says_token p s 2 now).0.phase ≡ Checking 3 }
    ensures again { (s : Station) (tries t : ℕ) → tries < 3
        → phase_timed_out s (Checking tries) t ≡ record s { phase = Pass tries t } }
    ensures given_up { (s : Station) (t : ℕ)
        → phase_timed_out s (Checking 3) t
        ≡ record s { phase = Pass 0 t; las = removed s.las (next_station s) } }
{}

/// In each receipt of the token a station asks at most one station for its status, however many requests it sends. If
/// it may send no request, it passes the token.
pub fn one_station_is_asked_per_receipt()
    ensures asked { (p : Params) (s : Station) (ready now : ℕ) → high_request s now ≡ None
        → low_request s now ≡ None
        → (phase_says p (record s { phase = Use true ready }) (Use true ready) now).1
        ≡ Some (token_octets (next_station s) s.address) }
    ensures heard { (p : Params) (s : Station) (m : Mark) (of : ℕ) (slot : Bool)
        → s.phase ≡ AwaitStatus of slot → HasAsked (after_mark p s m).phase }
    ensures silence { (s : Station) (of t : ℕ) (slot : Bool)
        → phase_timed_out s (AwaitStatus of slot) t ≡ record s { phase = Use true t } }
    ensures no_more { (p : Params) (s : Station) (ready now : ℕ)
        → is_asking (phase_says p (record s { phase = Use true ready }) (Use true ready) now).0.phase
        ≡ false }
    ensures request { (p : Params) (s : Station) (r : RequestFields) (now : ℕ)
        → HasAsked (says_request p s true r now).0.phase }
    ensures retry { (s : Station) (f : Option Fields) (now : ℕ) → HasAsked (says_again s true f now).0.phase }
    ensures request_heard { (p : Params) (s : Station) (m : Mark) (retry : Option ℕ) (slot : Bool)
        → s.phase ≡ AwaitData true retry slot
        → HasAsked (after_mark p s m).phase }
    ensures request_silence { (s : Station) (retry : Option ℕ) (slot : Bool) (t : ℕ)
        → HasAsked (phase_timed_out s (AwaitData true retry slot) t).phase }
{}

/// A station claims the token only after silence for its time-out, which depends on its address.
pub fn a_claim_waits_for_a_time_out()
    ensures listening { (p : Params) (s : Station) (doubled : Bool)
        → timer_of p (record s { phase = Listening doubled; busy = false })
        ≡ Some (s.quiet + (6 * p.tsl + 2 * s.address * p.tsl)) }
    ensures idle { (p : Params) (s : Station) (refused : Option ℕ)
        → timer_of p (record s { phase = Idle refused; busy = false })
        ≡ Some (s.quiet + (6 * p.tsl + 2 * s.address * p.tsl)) }
{}

/// What a master replies to a request for its status, a reply delay after that request: "not ready" while its list is
/// not complete; then "ready", and with this reply it joins the ring; then "in the ring". A passive station replies
/// that it is passive.
pub fn what_a_master_says_of_itself()
    ensures not_ready { (p : Params) (s : Station) (doubled : Bool) (at : ℕ) (f : Fields)
        → asks_status s.address f ≡ true → is_complete s.las.stage ≡ false
        → (listening_hears p s doubled at (Framed f)).reply ≡ Some (status_reply_of p s at f 0x10 false) }
    ensures ready { (p : Params) (s : Station) (doubled : Bool) (at : ℕ) (f : Fields)
        → asks_status s.address f ≡ true → is_complete s.las.stage ≡ true
        → (listening_hears p s doubled at (Framed f)).reply ≡ Some (status_reply_of p s at f 0x20 true) }
    ensures in_ring { (p : Params) (s : Station) (refused : Option ℕ) (at : ℕ) (f : Fields)
        → asks_status s.address f ≡ true
        → (idle_hears p s refused at (Framed f)).reply ≡ Some (status_reply_of p s at f 0x30 false) }
    ensures passive { (p : Params) (s : Station) (at : ℕ) (f : Fields) → asks_status s.address f ≡ true
        → (passive_hears p s at (Framed f)).reply ≡ Some (status_reply_of p s at f 0x00 false) }
{}

/// A request of another station, heard instead of a reply, takes the token away. An open request then has no outcome.
pub fn a_foreign_request_takes_the_token_away()
    ensures data_reply { (p : Params) (s : Station) (asked slot : Bool) (at : ℕ) (f : Fields)
        → has_bit f.fc 6 ≡ true
        → awaiting_data_hears p s asked slot at (Framed f) ≡ record s { phase = Idle None } }
    ensures status_reply { (p : Params) (s : Station) (of at : ℕ) (f : Fields) → has_bit f.fc 6 ≡ true
        → (awaiting_status_hears p s of at (Framed f)).phase ≡ Idle None }
{}

/// A refused token is remembered by its source, and the next token from that source is accepted.
pub fn a_refused_token_is_remembered()
    ensures refused { (p : Params) (s : Station) (refused : Option ℕ) (at sa : ℕ)
        → is_taken_from refused (previous_station s) sa ≡ false
        → (idle_hears p s refused at (Token s.address sa)).phase ≡ Idle (Some sa) }
    ensures offered_again { (p : Params) (s : Station) (at sa : ℕ)
        → (idle_hears p s (Some sa) at (Token s.address sa)).phase ≡ Use false (at + p.tid1) }
{}

/// A listening station that hears two tokens of a namesake goes offline.
pub fn a_namesake_is_given_way()
    ensures first { (p : Params) (s : Station) (at da : ℕ)
        → (listening_hears p s false at (Token da s.address)).phase ≡ Listening true }
    ensures second { (p : Params) (s : Station) (at da : ℕ)
        → (listening_hears p s true at (Token da s.address)).phase ≡ Offline }
{}

/// A station that two tokens have skipped listens again, with an empty list and no reply to send.
pub fn a_station_that_is_skipped_twice_listens()
    ensures twice { (p : Params) (s : Station) (refused : Option ℕ) (at da sa : ℕ)
        → (da == s.address) ≡ false → 2 ≤ skips_of (place_of (heard s.las sa da).stage)
        → idle_hears p s refused at (Token da sa)
        ≡ record s { phase = Listening false; las = listening; reply = None } }
    ensures once { (p : Params) (s : Station) (refused : Option ℕ) (at da sa : ℕ) → (da == s.address) ≡ false
        → skips_of (place_of (heard s.las sa da).stage) < 2
        → idle_hears p s refused at (Token da sa) ≡ record s { las = heard s.las sa da } }
{}

/// Without holding time, one request of high priority may be sent in a receipt, and no other. After it, or if none of
/// high priority waits, the token is passed.
pub fn without_holding_time_one_high_request_is_sent()
    ensures first { (p : Params) (s : Station) (asked : Bool) (ready now : ℕ) (r : RequestFields)
        (rs : List RequestFields) → is_unused s.rotation.last ≡ true
        → s.cycles.queue.high ≡ r ∷ rs
        → phase_says p (record s { phase = Use asked ready }) (Use asked ready) now
        ≡ says_request p (high_taken (record s { phase = Use asked ready })) asked r now }
    ensures used { (s : Station) → is_unused (high_taken s).rotation.last ≡ false }
    ensures second { (p : Params) (s : Station) (asked : Bool) (ready now : ℕ)
        → holding_left s.rotation now ≡ 0 → is_unused s.rotation.last ≡ false
        → phase_says p (record s { phase = Use asked ready }) (Use asked ready) now
        ≡ says_token p (record s { phase = Use asked ready }) 0 now }
    ensures low { (p : Params) (s : Station) (asked : Bool) (ready now : ℕ) → holding_left s.rotation now ≡ 0
        → s.cycles.queue.high ≡ []
        → phase_says p (record s { phase = Use asked ready }) (Use asked ready) now
        ≡ says_token p (record s { phase = Use asked ready }) 0 now }
{}

/// After a request that is not answered, the station continues after idle time 2, without waiting for a reply.
pub fn what_is_only_told_waits_for_no_answer()
    ensures { (p : Params) (s : Station) (asked : Bool) (r : RequestFields) (now : ℕ)
        → is_answered r.service ≡ false
        → (says_request p s asked r now).0.phase ≡ Use asked (now
        + bits (length (frame_octets (first_sending s.cycles.initiator s.address r))) + p.tid2) }
{}

/// When activity begins, a station that answers requests drops a reply that is not sent yet; any other station keeps
/// it. A station that has dropped its reply sends nothing.
pub fn a_reply_is_dropped_where_activity_begins()
    ensures reply { (p : Params) (s : Station) (at seen : ℕ) → answers_requests s.phase ≡ true
        → (after_mark p s (Begin at seen)).reply ≡ None }
    ensures stays { (p : Params) (s : Station) (at seen : ℕ) → answers_requests s.phase ≡ false
        → (after_mark p s (Begin at seen)).reply ≡ s.reply }
    ensures silent { (p : Params) (s : Station) (at seen : ℕ) → is_offline s.phase ≡ false
        → WaitsInPlace s.phase s.reply
        → speaks_at (after_mark p s (Begin at seen)) ≡ None }
{}

/// If nothing is heard, a request is sent again when its slot has ended, not before, with the same octets.
pub fn a_request_is_sent_again_after_its_slot()
    ensures waits { (p : Params) (s : Station) (asked : Bool) (now : ℕ) → now < s.own.end + p.tsl
        → turn_of p (record s { phase = AwaitData asked None true; busy = false }) [] now
        ≡ (record s { phase = AwaitData asked None true; busy = false }, None) }
    ensures again { (p : Params) (s : Station) (asked : Bool) (now : ℕ) (f : Fields)
        → s.own.end + p.tsl ≤ now → retry_of s.cycles.initiator.pending ≡ Some f
        → (turn_of p (record s { phase = AwaitData asked None true; busy = false }) [] now).1
        ≡ Some (frame_octets f) }
{}

/// If nothing was heard in the slot of a request without a retry left, the outcome is `NoAnswer`. The station
/// continues, and its next request to the address is a first one.
pub fn without_an_answer_the_next_request_is_a_first_one()
    ensures outcome { (s : Station) (asked : Bool) (retry : Option ℕ) (slot : Bool) (t : ℕ) (o : OpenRequest)
        → s.cycles.initiator.pending ≡ Some o → o.left ≡ 0
        → (phase_timed_out s (AwaitData asked retry slot) t).cycles.last_outcome
        ≡ Some (o.sent.da, NoAnswer) }
    ensures goes_on { (s : Station) (asked : Bool) (retry : Option ℕ) (slot : Bool) (t : ℕ) (o : OpenRequest)
        → s.cycles.initiator.pending ≡ Some o → o.left ≡ 0
        → (phase_timed_out s (AwaitData asked retry slot) t).phase ≡ Use asked t }
    ensures first { (s : Station) (asked : Bool) (retry : Option ℕ) (slot : Bool) (t : ℕ) (o : OpenRequest)
        (r : RequestFields) → s.cycles.initiator.pending ≡ Some o → o.left ≡ 0
        → r.da ≡ o.sent.da → is_answered r.service ≡ true
        → bits_for (phase_timed_out s (AwaitData asked retry slot) t).cycles.initiator r ≡ 0x20 }
{}

/// A passive station stays passive, whatever it hears, and sends no token and no request.
pub fn a_passive_station_only_replies()
    ensures stays { (p : Params) (s : Station) (marks : List Mark) (now : ℕ) → s.phase ≡ PassiveIdle
        → (turn_of p s marks now).0.phase ≡ PassiveIdle }
    ensures replies { (p : Params) (s : Station) (marks : List Mark) (now : ℕ) → HasReply s → HasCycles s
        → s.phase ≡ PassiveIdle
        → IfSome (turn_of p s marks now).1 (λ octets. are_initiator octets ≡ false) }
{}

/// Requests of high priority are sent before those of low priority. Within a priority, the request that has waited
/// longest is sent first, and leaves the queue.
pub fn requests_go_by_priority()
    ensures high { (p : Params) (s : Station) (asked : Bool) (ready now : ℕ) (r : RequestFields)
        (rs : List RequestFields) → may_high s.rotation now ≡ true
        → s.cycles.queue.high ≡ r ∷ rs
        → phase_says p (record s { phase = Use asked ready }) (Use asked ready) now
        ≡ says_request p (high_taken (record s { phase = Use asked ready })) asked r now }
    ensures low { (p : Params) (s : Station) (asked : Bool) (ready now : ℕ) (r : RequestFields)
        (rs : List RequestFields) → s.cycles.queue.high ≡ []
        → may_low s.rotation now ≡ true → s.cycles.queue.low ≡ r ∷ rs
        → phase_says p (record s { phase = Use asked ready }) (Use asked ready) now
        ≡ says_request p (low_taken (record s { phase = Use asked ready })) asked r now }
    ensures high_left { (p : Params) (s : Station) (asked : Bool) (ready now : ℕ) (r : RequestFields)
        (rs : List RequestFields) → may_high s.rotation now ≡ true
        → s.cycles.queue.high ≡ r ∷ rs
        → (phase_says p (record s { phase = Use asked ready }) (Use asked ready) now).0.cycles.queue.high
        ≡ rs }
    ensures low_left { (p : Params) (s : Station) (asked : Bool) (ready now : ℕ) (r : RequestFields)
        (rs : List RequestFields) → s.cycles.queue.high ≡ []
        → may_low s.rotation now ≡ true → s.cycles.queue.low ≡ r ∷ rs
        → (phase_says p (record s { phase = Use asked ready }) (Use asked ready) now).0.cycles.queue.low
        ≡ rs }
{}

/// A request is appended to those of its priority, unless sixteen wait there.
pub fn a_request_waits_behind_those_of_its_priority()
    ensures high { (s : Station) (r : RequestFields) → r.high ≡ true → length s.cycles.queue.high < 16
        → (pushed s r).cycles.queue.high ≡ s.cycles.queue.high ++ r ∷ [] }
    ensures low { (s : Station) (r : RequestFields) → r.high ≡ false → length s.cycles.queue.low < 16
        → (pushed s r).cycles.queue.low ≡ s.cycles.queue.low ++ r ∷ [] }
    ensures full { (s : Station) (r : RequestFields) → 16 ≤ length (list_for s.cycles.queue r)
        → pushed s r ≡ s }
{}

/// A reply to the open request is its outcome, and the station continues an idle time later. After anything else that
/// does not take the token away, the request is sent again.
pub fn a_reply_is_the_outcome()
    ensures told { (p : Params) (s : Station) (asked slot : Bool) (at : ℕ) (f : Fields) (o : OpenRequest)
        (outcome : Outcome) → has_bit f.fc 6 ≡ false
        → s.cycles.initiator.pending ≡ Some o → reply_outcome o.sent.sa o.sent.da (message.Framed f)
        ≡ Some outcome
        → (awaiting_data_hears p s asked slot at (Framed f)).cycles.last_outcome ≡ Some (o.sent.da, outcome) }
    ensures goes_on { (p : Params) (s : Station) (asked slot : Bool) (at : ℕ) (f : Fields) (o : OpenRequest)
        (outcome : Outcome) → has_bit f.fc 6 ≡ false
        → s.cycles.initiator.pending ≡ Some o → reply_outcome o.sent.sa o.sent.da (message.Framed f)
        ≡ Some outcome
        → (awaiting_data_hears p s asked slot at (Framed f)).phase ≡ Use asked (at + p.tid1) }
    ensures acknowledged { (p : Params) (s : Station) (asked slot : Bool) (at : ℕ) (o : OpenRequest)
        → s.cycles.initiator.pending ≡ Some o
        → (awaiting_data_hears p s asked slot at Acknowledgement).cycles.last_outcome
        ≡ Some (o.sent.da, Acked) }
    ensures no_reply { (p : Params) (s : Station) (asked slot : Bool) (at : ℕ) (f : Fields) (o : OpenRequest)
        → has_bit f.fc 6 ≡ false
        → s.cycles.initiator.pending ≡ Some o → reply_outcome o.sent.sa o.sent.da (message.Framed f) ≡ None
        → 0 < o.left
        → (awaiting_data_hears p s asked slot at (Framed f)).phase
        ≡ AwaitData asked (Some (max at s.own.end + p.tid1)) slot }
    ensures damaged { (p : Params) (s : Station) (asked slot : Bool) (at : ℕ) (o : OpenRequest)
        → s.cycles.initiator.pending ≡ Some o → 0 < o.left
        → (awaiting_data_hears p s asked slot at NoTelegram).phase
        ≡ AwaitData asked (Some (max at s.own.end + p.tid1)) slot }
{}

/// A reply is ready a reply delay after the end of the request.
pub fn a_reply_waits_for_its_delay()
    ensures answer { (p : Params) (s : Station) (at : ℕ) (f : Fields) (station_type : ℕ)
        → IfSome (answer_to p s at f station_type) (λ r. r.ready ≡ at + p.tsdr) }
    ensures listening { (p : Params) (s : Station) (at : ℕ) (f : Fields)
        → IfSome (listening_answer p s at f) (λ r. r.ready ≡ at + p.tsdr) }
{}

/// The answer to a request replaces a reply that is not sent yet. A request without an answer leaves that reply.
pub fn an_answer_takes_the_place_of_a_reply_that_waits()
    ensures in_ring { (p : Params) (s : Station) (refused : Option ℕ) (at : ℕ) (f : Fields)
        → (idle_hears p s refused at (Framed f)).reply ≡ option_or (answer_to p s at f 3) s.reply }
    ensures passive { (p : Params) (s : Station) (at : ℕ) (f : Fields)
        → (passive_hears p s at (Framed f)).reply ≡ option_or (answer_to p s at f 0) s.reply }
    ensures listening { (p : Params) (s : Station) (doubled : Bool) (at : ℕ) (f : Fields)
        → (listening_hears p s doubled at (Framed f)).reply ≡ option_or (listening_answer p s at f) s.reply }
{}

/// A GAP round is due some target rotation times after the last one was closed. Until then, if no request may be sent,
/// the token is passed. An open round continues after the last address that it asked.
pub fn a_round_is_due_some_rotations_after_the_last()
    ensures waits { (p : Params) (s : Station) (asked : Bool) (ready now closed : ℕ)
        → high_request s now ≡ None → low_request s now ≡ None
        → s.gap ≡ Closed closed → now < closed + p.gap * p.ttr
        → phase_says p (record s { phase = Use asked ready }) (Use asked ready) now
        ≡ says_token p (record s { phase = Use asked ready }) 0 now }
    ensures begins { (p : Params) (s : Station) (ready now closed : ℕ) → high_request s now ≡ None
        → low_request s now ≡ None → may_low s.rotation now ≡ true
        → s.gap ≡ Closed closed → closed + p.gap * p.ttr ≤ now
        → phase_says p (record s { phase = Use false ready }) (Use false ready) now
        ≡ says_look p (record s { phase = Use false ready })
        (next_asked s.address (next_station s) p.hsa None) now }
    ensures goes_on { (p : Params) (s : Station) (ready now : ℕ) (last : Option ℕ)
        → high_request s now ≡ None → low_request s now ≡ None → may_low s.rotation now ≡ true
        → s.gap ≡ Open last
        → phase_says p (record s { phase = Use false ready }) (Use false ready) now
        ≡ says_look p (record s { phase = Use false ready })
        (next_asked s.address (next_station s) p.hsa last) now }
{}

/// The next station of a station in the ring is the one after it in the list; the previous station is the one before
/// it.
pub fn a_station_stands_between_its_neighbours()
    ensures next { (s : Station) → s.address ≡ 5 → members_of s.las.stage ≡ 2 ∷ 5 ∷ 9 ∷ []
        → next_station s ≡ 9 }
    ensures previous { (s : Station) → s.address ≡ 5 → members_of s.las.stage ≡ 2 ∷ 5 ∷ 9 ∷ []
        → previous_station s ≡ 2 }
    ensures next_of_last { (s : Station) → s.address ≡ 9 → members_of s.las.stage ≡ 2 ∷ 5 ∷ 9 ∷ []
        → next_station s ≡ 2 }
    ensures previous_of_first { (s : Station) → s.address ≡ 2 → members_of s.las.stage ≡ 2 ∷ 5 ∷ 9 ∷ []
        → previous_station s ≡ 9 }
{}

/// A station that claims the token sends two tokens to its own address, an idle time apart, and uses the token another
/// idle time later.
pub fn a_claim_is_two_tokens()
    ensures after_listening { (s : Station) (doubled : Bool) (t : ℕ)
        → (phase_timed_out s (Listening doubled) t).phase ≡ Claim 0 t }
    ensures after_idle { (s : Station) (refused : Option ℕ) (t : ℕ)
        → (phase_timed_out s (Idle refused) t).phase ≡ Claim 0 t }
    ensures first { (p : Params) (s : Station) (ready now : ℕ)
        → (phase_says p s (Claim 0 ready) now).0.phase ≡ Claim 1 (now + 33 + p.tid1) }
    ensures second { (p : Params) (s : Station) (ready now : ℕ)
        → (phase_says p s (Claim 1 ready) now).0.phase ≡ Use false (now + 33 + p.tid1) }
    ensures says { (p : Params) (s : Station) (sent ready now : ℕ)
        → (phase_says p s (Claim sent ready) now).1 ≡ Some (0xdc ∷ s.address ∷ s.address ∷ []) }
{}

/// A token telegram has its destination first. A request for a status is a request with function code 9, whose check
/// octet is the sum of its addresses and its control octet.
pub fn what_tokens_and_questions_are()
    ensures token { (da sa : ℕ) → token_octets da sa ≡ 0xdc ∷ da ∷ sa ∷ [] }
    ensures question { (da sa : ℕ)
        → status_request_octets da sa ≡ 0x10 ∷ da ∷ sa ∷ 0x49 ∷ (da + sa + 0x49) % 256 ∷ 0x16 ∷ [] }
{}
