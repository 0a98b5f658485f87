//! What a station does when activity ends, by phase and telegram.

ghost use Rattle.std.specs.Prelude.{◌≡◌, ℕ, Option, ◌≤◌, ◌<◌, true, false, ◌+◌, max, if◌then◌else◌, Some, None};
ghost use Rattle.std.specs.Option.{option_map};
ghost use Rattle.pb_ring.specs.Las.{is_complete};
ghost use Rattle.pb_cycles.specs.Messages.{message_of};
ghost use Rattle.pb_cycles.specs.Initiating.{outcome_of};
ghost use Rattle.pb_timers.specs.Timers.{Params};
ghost use Rattle.law_turn.specs.Arrivals.{Arrival, Framed, NoTelegram, Token};
ghost use Rattle.law_turn.specs.Phases as turn;
ghost use Rattle.law_turn.specs.Hearing.{doubled_by, listening_hears, is_taken_from, own_token, foreign_token, token_in_idle, idle_hears, passive_hears, holder_hears, no_reply, data_told, awaiting_data_hears, status_told, awaiting_status_hears, with_token, lost, tells_ready, phase_ended, ended};
ghost use Rattle.pb_tokenfsm.specs.Phases.{phase_of, is_doubled, refused_by, asked_station, was_asked, has_data_slot};
ghost use Rattle.pb_transitions.specs.Arrivals.{brings, telegram_brings, is_framed, is_token};
ghost use Rattle.pb_transitions.specs.Replies.{reply_of, fields_of, answer_to, is_for_others};
ghost use Rattle.pb_telegram.specs.declared.control.StationType.TheVariants.{Ready, NotReady};
ghost use Rattle.pb_transitions.specs.Clocks.{last_turn};
ghost use Rattle.pb_transitions.specs.Cores.{Becomes};
ghost use Rattle.pb_transitions.specs.Others.{only_answers};

use crate::cores::Kept;
use crate::cycles;
use crate::lists::{entered, hear};
use crate::replies::{Reply, answer, is_request, status_answer};
use crate::rotations::received_if;
use crate::timers::given_up;
use pb_cycles::status_reply;
use pb_ring::Las;
use pb_telegram::{Fc, Head, StationType, Telegram, TokenTelegram};
use pb_timers::{BusParams, Moment};
use pb_tokenfsm::{AwaitData, AwaitStatus, Holding, Idle, Listening, Phase};

/// How many tokens may skip a station in the ring before it listens again.
const SKIPS: u8 = 2;

/// Activity has ended at `at` and brought a telegram, or none.
pub fn ended(
    phase: &mut Phase,
    kept: &mut Kept,
    params: &BusParams,
    at: Moment,
    arrival: &Option<Telegram>,
)
    requires { at ≤ last_turn }
    ensures { Becomes (λ s. ended params.now s at (brings arrival.now))
        kept.old (phase_of phase.old) kept.new (phase_of phase.new) }
{
    fall_quiet(kept, at);
    let before = phase.take();
    *phase = phase_ended(before, kept, params, at, arrival);
}

/// Activity has ended at `at` and brought a token, as most activity does.
pub fn ended_with_token(
    phase: &mut Phase,
    kept: &mut Kept,
    params: &BusParams,
    at: Moment,
    token: TokenTelegram,
)
    requires { at ≤ last_turn }
    ensures { Becomes (λ s. ended params.now s at (Token token.da token.sa))
        kept.old (phase_of phase.old) kept.new (phase_of phase.new) }
{
    fall_quiet(kept, at);
    match phase {
        Phase::PassiveIdle(_) => {}
        Phase::Idle(_) if token.da != kept.address.get() => pass_by(phase, kept, &token),
        Phase::Idle(_) => take_token(phase, kept, params, at, &token),
        Phase::Listening(_) if token.sa != kept.address.get() => hear(&mut kept.las, &token),
        _ => token_elsewhere(phase, kept, params, at, token),
    }
}

/// A station in Idle hears a token.
#[inline(always)]
fn take_token(
    phase: &mut Phase,
    kept: &mut Kept,
    params: &BusParams,
    at: Moment,
    token: &TokenTelegram,
)
    requires { at ≤ last_turn }
    ensures { (refused : Option ℕ) → phase_of phase.old ≡ turn.Idle refused
        → Becomes (λ s. token_in_idle params.now s refused at token.now.da token.now.sa)
        kept.old (phase_of phase.old) kept.new (phase_of phase.new) }
{
    let before = phase.take();
    *phase = match before {
        Phase::Idle(idle) => token_in_idle(idle, kept, params, at, token),
        other => other,
    };
}

/// Activity has ended at `at` and brought no telegram, as noise does.
pub fn ended_with_noise(phase: &mut Phase, kept: &mut Kept, params: &BusParams, at: Moment)
    requires { at ≤ last_turn }
    ensures { Becomes (λ s. ended params.now s at NoTelegram)
        kept.old (phase_of phase.old) kept.new (phase_of phase.new) }
{
    fall_quiet(kept, at);
    if let Phase::AwaitData(_) | Phase::AwaitStatus(_) = phase {
        miss_reply(phase, kept, params, at);
    }
}

/// Activity has ended at `at`. A station that only answers requests does no more than this if the activity brought a
/// telegram for others, or none.
#[tactic(auto, using(crate::proofs::Others::nothing_made))]
pub fn fall_quiet(kept: &mut Kept, at: Moment)
    requires { at ≤ last_turn }
    ensures quiet { kept.new ≡ record kept.old
        { busy = false; past = record kept.old.past { quiet = max kept.old.past.quiet at } } }
    ensures others { (p : Params) (phase : turn.Phase) (arrival : Arrival) → only_answers phase ≡ true
        → is_for_others kept.old.address arrival ≡ true
        → Becomes (λ s. ended p s at arrival) kept.old phase kept.new phase }
{
    kept.busy = false;
    kept.past = kept.past.heard(at);
}

/// Whether a station in this phase only answers requests, and ignores telegrams for others except tokens.
pub fn only_answers(phase: &Phase) -> bool
    ensures { result ≡ only_answers (phase_of phase.now) }
{
    matches!(phase, Phase::PassiveIdle(_) | Phase::Idle(_))
}

/// No telegram was heard by a station that may wait for one. Kept out of line: its frame has room for a telegram.
#[inline(never)]
fn miss_reply(phase: &mut Phase, kept: &mut Kept, params: &BusParams, at: Moment)
    requires { at ≤ last_turn }
    ensures { Becomes (λ s. phase_ended params.now s (phase_of phase.old) at NoTelegram)
        kept.old (phase_of phase.old) kept.new (phase_of phase.new) }
{
    let before = phase.take();
    *phase = phase_ended(before, kept, params, at, &None);
}

/// A station in Idle hears a token to another station. Its phase changes only if it was skipped twice.
fn pass_by(phase: &mut Phase, kept: &mut Kept, token: &TokenTelegram)
    ensures { (refused : Option ℕ) → phase_of phase.old ≡ turn.Idle refused
        → Becomes (λ s. foreign_token (with_token s token.now.da token.now.sa))
        kept.old (phase_of phase.old) kept.new (phase_of phase.new) }
{
    hear(&mut kept.las, token);
    if kept.las.skipped() >= SKIPS {
        listen_anew(phase, kept);
    }
}

/// A station in Idle that was skipped twice listens again.
#[inline(never)]
fn listen_anew(phase: &mut Phase, kept: &mut Kept)
    ensures { (refused : Option ℕ) → phase_of phase.old ≡ turn.Idle refused → Becomes (λ s. foreign_token s)
        kept.old (phase_of phase.old) kept.new (phase_of phase.new) }
{
    let before = phase.take();
    *phase = match before {
        Phase::Idle(idle) => foreign_token(idle, kept),
        other => other,
    };
}

/// A token is heard in any phase. Kept out of line: its frame has room for a telegram.
#[inline(never)]
fn token_elsewhere(
    phase: &mut Phase,
    kept: &mut Kept,
    params: &BusParams,
    at: Moment,
    token: TokenTelegram,
)
    requires { at ≤ last_turn }
    ensures { Becomes (λ s. phase_ended params.now s (phase_of phase.old) at (Token token.da token.sa))
        kept.old (phase_of phase.old) kept.new (phase_of phase.new) }
{
    let before = phase.take();
    *phase = phase_ended(before, kept, params, at, &Some(Telegram::Token(token)));
}

/// The phase after activity has ended.
fn phase_ended(
    phase: Phase,
    kept: &mut Kept,
    params: &BusParams,
    at: Moment,
    arrival: &Option<Telegram>,
) -> Phase
    requires { at ≤ last_turn }
    ensures { Becomes (λ s. phase_ended params.now s (phase_of phase) at (brings arrival.now))
        kept.old (phase_of phase) kept.new (phase_of result) }
{
    match phase {
        Phase::Listening(listening) => listening_hears(listening, kept, params, at, arrival),
        Phase::Idle(idle) => idle_hears(idle, kept, params, at, arrival),
        Phase::AwaitData(holder) => awaiting_data_hears(holder, kept, params, at, arrival),
        Phase::AwaitStatus(holder) => awaiting_status_hears(holder, kept, params, at, arrival),
        Phase::Offline(_) => phase,
        Phase::PassiveIdle(_) => {
            passive_hears(kept, params, at, arrival);
            phase
        }
        other => holder_hears(other, kept, arrival),
    }
}

// ---- Idle, and passive stations

/// Activity has ended in Idle.
fn idle_hears(
    idle: Idle,
    kept: &mut Kept,
    params: &BusParams,
    at: Moment,
    arrival: &Option<Telegram>,
) -> Phase
    requires { at ≤ last_turn }
    ensures { Becomes (λ s. idle_hears params.now s (refused_by idle) at (brings arrival.now))
        kept.old (phase_of (Phase.Idle idle)) kept.new (phase_of result) }
{
    match arrival {
        Some(Telegram::Token(token)) => token_in_idle(idle, kept, params, at, token),
        Some(Telegram::Ack) | None => Phase::Idle(idle),
        Some(telegram) => {
            idle_asked(kept, params, at, telegram);
            Phase::Idle(idle)
        }
    }
}

/// A token is heard in Idle. The previous station is read from the list before the token corrects it.
#[inline(always)]
fn token_in_idle(
    idle: Idle,
    kept: &mut Kept,
    params: &BusParams,
    at: Moment,
    token: &TokenTelegram,
) -> Phase
    requires { at ≤ last_turn }
    ensures { Becomes (λ s. token_in_idle params.now s (refused_by idle) at token.now.da token.now.sa)
        kept.old (phase_of (Phase.Idle idle)) kept.new (phase_of result) }
{
    let ts = kept.address.get();
    if token.da != ts {
        hear(&mut kept.las, token);
        return foreign_token(idle, kept);
    }
    let ps = kept.las.ps(ts);
    hear(&mut kept.las, token);
    own_token(idle, kept, params, at, token, ps)
}

/// A token to this station is accepted or refused.
#[inline(always)]
fn own_token(
    idle: Idle,
    kept: &mut Kept,
    params: &BusParams,
    at: Moment,
    token: &TokenTelegram,
    ps: u8,
) -> Phase
    requires clock { at ≤ last_turn }
    requires own { token.now.da ≡ kept.old.address }
    ensures { Becomes
        (λ s. own_token params.now s (is_taken_from (refused_by idle) ps token.now.sa) token.now.sa at)
        kept.old (phase_of (Phase.Idle idle)) kept.new (phase_of result) }
{
    let ready = at.after(u64::from(params.tid1()));
    let phase = idle.hear_token(token, kept.address.get(), ps, ready);
    kept.rotation = received_if(kept.rotation, phase.may_initiate(), at);
    phase
}

/// The phase after a token to another station. If two tokens have skipped it, the station listens again and drops its
/// reply.
fn foreign_token(idle: Idle, kept: &mut Kept) -> Phase
    ensures { Becomes (λ s. foreign_token s)
        kept.old (phase_of (Phase.Idle idle)) kept.new (phase_of result) }
{
    if kept.las.skipped() < SKIPS {
        return Phase::Idle(idle);
    }
    kept.las = Las::listening();
    kept.reply = None;
    Phase::Listening(idle.on_skipped())
}

/// A telegram with a control octet is heard in Idle. A request to this station is answered.
fn idle_asked(kept: &mut Kept, params: &BusParams, at: Moment, telegram: &Telegram)
    requires clock { at ≤ last_turn }
    requires framed { is_framed telegram.now ≡ true }
    ensures { (refused : Option ℕ)
        → Becomes (λ s. idle_hears params.now s refused at (telegram_brings telegram.now))
        kept.old (turn.Idle refused) kept.new (turn.Idle refused) }
{
    answer(kept, params, at, telegram, StationType::InRing);
}

/// Activity has ended at a passive station, which only answers requests.
fn passive_hears(kept: &mut Kept, params: &BusParams, at: Moment, arrival: &Option<Telegram>)
    requires { at ≤ last_turn }
    ensures { Becomes (λ s. passive_hears params.now s at (brings arrival.now))
        kept.old turn.PassiveIdle kept.new turn.PassiveIdle }
{
    match arrival {
        Some(Telegram::Token(_) | Telegram::Ack) | None => {}
        Some(telegram) => passive_asked(kept, params, at, telegram),
    }
}

/// A telegram with a control octet is heard by a passive station. A request to it is answered.
fn passive_asked(kept: &mut Kept, params: &BusParams, at: Moment, telegram: &Telegram)
    requires clock { at ≤ last_turn }
    requires framed { is_framed telegram.now ≡ true }
    ensures { Becomes (λ s. passive_hears params.now s at (telegram_brings telegram.now))
        kept.old turn.PassiveIdle kept.new turn.PassiveIdle }
{
    answer(kept, params, at, telegram, StationType::Passive);
}

// ---- Listening

/// Activity has ended in Listening.
fn listening_hears(
    listening: Listening,
    kept: &mut Kept,
    params: &BusParams,
    at: Moment,
    arrival: &Option<Telegram>,
) -> Phase
    requires { at ≤ last_turn }
    ensures { Becomes (λ s. listening_hears params.now s (is_doubled listening) at (brings arrival.now))
        kept.old (phase_of (Phase.Listening listening)) kept.new (phase_of result) }
{
    match arrival {
        Some(Telegram::Token(token)) => listening_token(listening, kept, token),
        Some(telegram) => match telegram.head() {
            Some(head) => listening_asked(listening, kept, params, at, head),
            None => Phase::Listening(listening),
        },
        None => Phase::Listening(listening),
    }
}

/// A token is heard in Listening.
fn listening_token(listening: Listening, kept: &mut Kept, token: &TokenTelegram) -> Phase
    ensures { Becomes
        (λ s. record (with_token s token.now.da token.now.sa)
        { phase = doubled_by (is_doubled listening) token.now.sa s.address })
        kept.old (phase_of (Phase.Listening listening)) kept.new (phase_of result) }
{
    hear(&mut kept.las, token);
    doubled_by(listening, token.sa, kept.address.get())
}

/// The phase after a token heard in Listening: at the second one from its own address the station goes offline.
fn doubled_by(listening: Listening, sa: u8, ts: u8) -> Phase
    ensures { phase_of result ≡ doubled_by (is_doubled listening) sa ts }
{
    if sa != ts {
        return Phase::Listening(listening);
    }
    if listening.doubled() {
        return Phase::Offline(listening.on_double());
    }
    Phase::Listening(listening.on_namesake())
}

/// A telegram with a control octet is heard in Listening.
fn listening_asked(
    listening: Listening,
    kept: &mut Kept,
    params: &BusParams,
    at: Moment,
    head: Head,
) -> Phase
    requires { at ≤ last_turn }
    ensures { Becomes (λ s. listening_hears params.now s (is_doubled listening) at (Framed (fields_of head)))
        kept.old (phase_of (Phase.Listening listening)) kept.new (phase_of result) }
{
    if let Some(reply) = listening_answer(kept, params, at, head) {
        kept.reply = Some(reply);
    }
    Phase::Listening(listening)
}

/// The reply of a listening station to a request for its status: "ready" if its list is complete, else "not ready".
fn listening_answer(kept: &Kept, params: &BusParams, at: Moment, head: Head) -> Option<Reply>
    requires { at ≤ last_turn }
    ensures { option_map reply_of result
        ≡ (if is_complete kept.now.las.stage then answer_to params.now kept.now.address at (fields_of head)
        Ready
        else answer_to params.now kept.now.address at (fields_of head) NotReady) }
{
    let station_type = if kept.las.complete() {
        StationType::Ready
    } else {
        StationType::NotReady
    };
    status_answer(kept, params, at, head, station_type)
}

// ---- holders, and Checking

/// A station that holds the token or checks whether it was taken enters a heard token into its list.
fn holder_hears(phase: Phase, kept: &mut Kept, arrival: &Option<Telegram>) -> Phase
    ensures { Becomes (λ s. holder_hears s (brings arrival.now))
        kept.old (phase_of phase) kept.new (phase_of result) }
{
    if let Some(Telegram::Token(token)) = arrival {
        hear(&mut kept.las, token);
    }
    phase
}

/// A holder hears a token: it has lost its own, whatever it was doing.
fn token_lost<S: Copy>(holder: Holding<S>, kept: &mut Kept, token: &TokenTelegram) -> Phase
    ensures { Becomes (λ s. lost (with_token s token.now.da token.now.sa))
        kept.old turn.Offline kept.new (phase_of result) }
{
    hear(&mut kept.las, token);
    Phase::Idle(holder.on_foreign())
}

/// When a station speaks again after activity without a reply: an idle time after that activity and after its own
/// telegram.
fn ready_after(kept: &Kept, params: &BusParams, at: Moment) -> Moment
    requires { at ≤ last_turn }
    ensures { result ≡ max at kept.now.past.end + params.now.tid1 }
{
    let end = at.later(kept.own_end());
    end.after(u64::from(params.tid1()))
}

// ---- AwaitStatus

/// Activity has ended while the station waits for a status.
fn awaiting_status_hears(
    holder: Holding<AwaitStatus>,
    kept: &mut Kept,
    params: &BusParams,
    at: Moment,
    arrival: &Option<Telegram>,
) -> Phase
    requires { at ≤ last_turn }
    ensures { Becomes
        (λ s. awaiting_status_hears params.now s (asked_station holder) at (brings arrival.now))
        kept.old (phase_of (Phase.AwaitStatus holder)) kept.new (phase_of result) }
{
    match arrival {
        Some(Telegram::Token(token)) => token_lost(holder, kept, token),
        Some(telegram) => status_told(holder, kept, params, at, telegram),
        None => not_replied(holder, kept, params, at),
    }
}

/// A telegram other than a token is heard while the station waits for a status.
fn status_told(
    holder: Holding<AwaitStatus>,
    kept: &mut Kept,
    params: &BusParams,
    at: Moment,
    telegram: &Telegram,
) -> Phase
    requires clock { at ≤ last_turn }
    requires no_token { is_token telegram.now ≡ false }
    ensures { Becomes
        (λ s. awaiting_status_hears params.now s (asked_station holder) at (telegram_brings telegram.now))
        kept.old (phase_of (Phase.AwaitStatus holder)) kept.new (phase_of result) }
{
    if is_request(telegram) {
        return Phase::Idle(holder.on_foreign());
    }
    match status_reply(kept.address.get(), holder.of(), telegram) {
        Some(fc) => status_replied(holder, kept, params, at, fc),
        None => not_replied(holder, kept, params, at),
    }
}

/// The phase after a reply to the request for a status.
fn status_replied(
    holder: Holding<AwaitStatus>,
    kept: &mut Kept,
    params: &BusParams,
    at: Moment,
    fc: Fc,
) -> Phase
    requires clock { at ≤ last_turn }
    requires station { asked_station holder < 127 }
    ensures { Becomes (λ s. status_told params.now s (asked_station holder) at (Some fc.0))
        kept.old (phase_of (Phase.AwaitStatus holder)) kept.new (phase_of result) }
{
    if tells_ready(fc) {
        kept.las = entered(kept.las, holder.of());
    }
    Phase::Use(holder.on_outcome(at.after(u64::from(params.tid1()))))
}

/// Whether the reply says that the station is ready for the ring, with function code 0.
fn tells_ready(fc: Fc) -> bool
    ensures { result ≡ tells_ready fc.0 }
{
    fc.station_type() == StationType::Ready.bits() && fc.code() == 0
}

/// The phase after activity that is no reply to the request for a status.
fn not_replied(
    holder: Holding<AwaitStatus>,
    kept: &mut Kept,
    params: &BusParams,
    at: Moment,
) -> Phase
    requires { at ≤ last_turn }
    ensures { Becomes (λ s. status_told params.now s (asked_station holder) at None)
        kept.old (phase_of (Phase.AwaitStatus holder)) kept.new (phase_of result) }
{
    Phase::Use(holder.on_outcome(ready_after(kept, params, at)))
}

// ---- AwaitData

/// Activity has ended while the station waits for a reply.
fn awaiting_data_hears(
    holder: Holding<AwaitData>,
    kept: &mut Kept,
    params: &BusParams,
    at: Moment,
    arrival: &Option<Telegram>,
) -> Phase
    requires { at ≤ last_turn }
    ensures { Becomes
        (λ s. awaiting_data_hears params.now s (was_asked holder) (has_data_slot holder) at
        (brings arrival.now)) kept.old (phase_of (Phase.AwaitData holder)) kept.new (phase_of result) }
{
    match arrival {
        Some(Telegram::Token(token)) => token_lost(holder, kept, token),
        Some(telegram) => data_heard(holder, kept, params, at, telegram),
        None => no_reply(holder, kept, params, at),
    }
}

/// A telegram other than a token is heard while the station waits for a reply.
fn data_heard(
    holder: Holding<AwaitData>,
    kept: &mut Kept,
    params: &BusParams,
    at: Moment,
    came: &Telegram,
) -> Phase
    requires clock { at ≤ last_turn }
    requires no_token { is_token came.now ≡ false }
    ensures { Becomes
        (λ s. awaiting_data_hears params.now s (was_asked holder) (has_data_slot holder) at
        (telegram_brings came.now)) kept.old (phase_of (Phase.AwaitData holder)) kept.new (phase_of result) }
{
    if is_request(came) {
        return Phase::Idle(holder.on_foreign());
    }
    data_told(holder, kept, params, at, came)
}

/// A telegram other than a token or a request is heard while the station waits for a reply.
fn data_told(
    holder: Holding<AwaitData>,
    kept: &mut Kept,
    params: &BusParams,
    at: Moment,
    came: &Telegram,
) -> Phase
    requires { at ≤ last_turn }
    ensures { Becomes
        (λ s. data_told params.now s (was_asked holder) (has_data_slot holder) at (message_of came.now)
        (outcome_of s.cycles.initiator (Some (message_of came.now))))
        kept.old (phase_of (Phase.AwaitData holder)) kept.new (phase_of result) }
{
    if !cycles::hear(&mut kept.cycles, came) {
        return no_reply(holder, kept, params, at);
    }
    Phase::Use(holder.on_outcome(at.after(u64::from(params.tid1()))))
}

/// No reply was heard: the request is sent again if a retry is left.
fn no_reply(holder: Holding<AwaitData>, kept: &mut Kept, params: &BusParams, at: Moment) -> Phase
    requires { at ≤ last_turn }
    ensures { Becomes (λ s. no_reply params.now s (was_asked holder) (has_data_slot holder) at)
        kept.old (phase_of (Phase.AwaitData holder)) kept.new (phase_of result) }
{
    let ready = ready_after(kept, params, at);
    if !kept.cycles.initiator.retry_left() {
        return given_up(holder, kept, ready);
    }
    Phase::AwaitData(holder.on_damaged(ready))
}
