//! What a station sends when its speaking moment comes, by phase.

ghost use Rattle.std.specs.Prelude.{◌≡◌, ℕ, ◌+◌, ◌≤◌, ◌<◌, ◌&&◌, not, max, length, if◌then◌else◌, true, is_some, Some, None, IsSome};
ghost use Rattle.std.specs.Option.{option_map};
ghost use Rattle.pb_timers.specs.Timers.{Params, bits};
ghost use Rattle.pb_telegram.specs.Grammar.{spelling};
ghost use Rattle.pb_telegram.specs.Initiators.{IsInitiator};
ghost use Rattle.pb_telegram.specs.declared.telegrams.Telegram.TheVariants.{Token};
ghost use Rattle.pb_cycles.specs.Queued.{Queued};
ghost use Rattle.pb_ring.specs.Las.{readied};
ghost use Rattle.pb_ring.specs.Gap.{is_due, last_asked, next_asked, round_after};
ghost use Rattle.pb_ring.specs.declared.gaps.Round.TheVariants.{Open};
ghost use Rattle.pb_rotation.specs.Rotation.{fresh, may_low};
ghost use Rattle.pb_cycles.specs.Initiating.{retry_of};
ghost use Rattle.law_turn.specs.Phases as turn;
ghost use Rattle.law_turn.specs.Stations.{next_station, reply_moment, speaks_at};
ghost use Rattle.law_turn.specs.Turns.{token_octets, status_request_octets, saying, says_token, says_claim, looks_at_gap, says_look, says_request, says_in_use, high_request, low_request, high_taken, low_taken, says_again, joining, says_reply, says_ready, phase_says, speech};
ghost use Rattle.pb_tokenfsm.specs.Phases.{phase_of, claims_sent, has_asked, was_asked, tries_of};
ghost use Rattle.pb_transitions.specs.Clocks.{last_turn};
ghost use Rattle.pb_transitions.specs.Cores.{station_with, Becomes, HasReceived};
ghost use Rattle.pb_transitions.specs.Replies.{reply_of};
ghost use Rattle.pb_transitions.specs.Speeches.{spoken_with, Says, after_taking};

use crate::cores::Kept;
use crate::lists::readied;
use crate::replies::Reply;
use crate::rotations::received_if;
use crate::sending::SendBuffer;
use crate::waiting::Waiting;
use pb_cycles::Request;
use pb_ring::Gap;
use pb_rotation::Rotation;
use pb_telegram::{Fc, ShortTelegram, Telegram, TokenTelegram};
use pb_timers::{BusParams, Moment};
use pb_tokenfsm::{AwaitData, Claim, Holding, Listening, Pass, Phase, Use};

/// The station speaks at `now`, if its moment has come.
pub fn speak(
    phase: &mut Phase,
    kept: &mut Kept,
    waiting: &mut Waiting,
    params: &BusParams,
    now: Moment,
    out: &mut SendBuffer,
)
    requires clock { now ≤ last_turn }
    requires received { HasReceived (station_with kept.old waiting.old (phase_of phase.old)) }
    ensures { let before = station_with kept.old waiting.old (phase_of phase.old) in
        spoken_with kept.new waiting.new (phase_of phase.new) out.new
        ≡ speech params.now before (speaks_at before) now }
{
    match speaks_at(phase, kept) {
        Some(moment) if moment <= now => {
            let before = phase.take();
            *phase = says(before, kept, waiting, params, now, out);
        }
        _ => out.clear(),
    }
}

/// Whether the station would send anything at `now`. It changes nothing.
pub fn would_say(phase: &Phase, kept: &Kept, now: Moment) -> bool
    ensures { (p : Params) (queue : Queued)
        → let s = station_with kept.now queue (phase_of phase.now) in result
        ≡ is_some (speech p s (speaks_at s) now).1 }
{
    match speaks_at(phase, kept) {
        Some(moment) if moment <= now => has_words(phase, kept),
        _ => false,
    }
}

/// When the station speaks; `None` if it has nothing to send.
pub fn speaks_at(phase: &Phase, kept: &Kept) -> Option<Moment>
    ensures { (queue : Queued) → result ≡ speaks_at (station_with kept.now queue (phase_of phase.now)) }
{
    match phase {
        Phase::PassiveIdle(_) | Phase::Listening(_) | Phase::Idle(_) => reply_moment(&kept.reply),
        Phase::Claim(holder) => Some(holder.ready()),
        Phase::Use(holder) => Some(holder.ready()),
        Phase::AwaitData(holder) => holder.retry(),
        Phase::Pass(holder) => Some(holder.ready()),
        Phase::Offline(_) | Phase::AwaitStatus(_) | Phase::Checking(_) => None,
    }
}

/// What the station sends at `now` in this phase.
fn says(
    phase: Phase,
    kept: &mut Kept,
    waiting: &mut Waiting,
    params: &BusParams,
    now: Moment,
    out: &mut SendBuffer,
) -> Phase
    requires clock { now ≤ last_turn }
    requires received { HasReceived (station_with kept.old waiting.old (phase_of phase)) }
    ensures { spoken_with kept.new waiting.new (phase_of result) out.new
        ≡ phase_says params.now (station_with kept.old waiting.old (phase_of phase)) (phase_of phase) now }
{
    match phase {
        Phase::Listening(listening) => says_ready(listening, kept, now, out),
        Phase::PassiveIdle(_) | Phase::Idle(_) => says_reply(phase, kept, now, out),
        Phase::Claim(holder) => says_claim(holder, kept, params, now, out),
        Phase::Use(holder) => says_in_use(holder, kept, waiting, params, now, out),
        Phase::AwaitData(holder) => says_again(holder, kept, now, out),
        Phase::Pass(holder) => says_token(holder, kept, params, now, out),
        other => silent(other, out),
    }
}

/// Whether a station whose speaking moment has come sends anything. Only a request without a retry left is not sent.
fn has_words(phase: &Phase, kept: &Kept) -> bool
    ensures { (p : Params) (queue : Queued) (now : ℕ)
        → let s = station_with kept.now queue (phase_of phase.now) in IsSome (speaks_at s) → result
        ≡ is_some (phase_says p s s.phase now).1 }
{
    match phase {
        Phase::AwaitData(_) => kept.cycles.initiator.retry_left(),
        _ => true,
    }
}

/// When the reply is sent, if there is one.
pub(crate) fn reply_moment(reply: &Option<Reply>) -> Option<Moment>
    ensures { result ≡ reply_moment (option_map reply_of reply.now) }
{
    match reply {
        Some(reply) => Some(reply.ready),
        None => None,
    }
}

/// A listening station sends its reply, if it has one.
fn says_ready(listening: Listening, kept: &mut Kept, now: Moment, out: &mut SendBuffer) -> Phase
    requires { now ≤ last_turn }
    ensures { Says (λ s. says_ready s s.reply now)
        kept.old (phase_of (Phase.Listening listening)) kept.new (phase_of result) out.new }
{
    match kept.reply.take() {
        None => silent(Phase::Listening(listening), out),
        Some(reply) => {
            kept.past = kept.past.said(now, reply.octets.len());
            out.send(&reply.octets);
            ready_if(listening, kept, reply.joins)
        }
    }
}

/// A station without the token sends its reply, if it has one.
fn says_reply(phase: Phase, kept: &mut Kept, now: Moment, out: &mut SendBuffer) -> Phase
    requires { now ≤ last_turn }
    ensures { Says (λ s. says_reply s s.reply now)
        kept.old (phase_of phase) kept.new (phase_of result) out.new }
{
    match kept.reply.take() {
        None => silent(phase, out),
        Some(reply) => {
            kept.past = kept.past.said(now, reply.octets.len());
            out.send(&reply.octets);
            phase
        }
    }
}

/// Sends a claim: a token to the own address. The second one is a receipt.
fn says_claim(
    holder: Holding<Claim>,
    kept: &mut Kept,
    params: &BusParams,
    now: Moment,
    out: &mut SendBuffer,
) -> Phase
    requires { now ≤ last_turn }
    ensures { Says (λ s. says_claim params.now s (claims_sent holder) now)
        kept.old (phase_of (Phase.Claim holder)) kept.new (phase_of result) out.new }
{
    let ts = kept.address.get();
    let count = out.pass(&holder, &token(ts, ts));
    kept.past = kept.past.said(now, count);
    let end = kept.past.end.get();
    let phase = holder.on_sent(end.after(u64::from(params.tid1())));
    let receipt = match &phase {
        Phase::Claim(_) => false,
        _ => true,
    };
    kept.rotation = received_if(kept.rotation, receipt, end);
    phase
}

/// A station that uses the token sends a request (high priority first), asks a station of the GAP, or passes the token.
fn says_in_use(
    holder: Holding<Use>,
    kept: &mut Kept,
    waiting: &mut Waiting,
    params: &BusParams,
    now: Moment,
    out: &mut SendBuffer,
) -> Phase
    requires clock { now ≤ last_turn }
    requires received { IsSome kept.old.rotation.last }
    ensures { let before = station_with kept.old waiting.old (phase_of (Phase.Use holder)) in
        spoken_with kept.new waiting.new (phase_of result) out.new
        ≡ says_in_use params.now before (has_asked holder) now }
{
    if let Some(request) = take_high(kept, waiting, now) {
        return says_request(holder, kept, params, now, request, out);
    }
    if let Some(request) = take_low(kept, waiting, now) {
        return says_request(holder, kept, params, now, request, out);
    }
    if looks_at_gap(kept, params, holder.asked(), now) {
        return says_look(holder, kept, params, now, out);
    }
    says_token(holder.done(), kept, params, now, out)
}

/// Sends the open request again.
fn says_again(
    holder: Holding<AwaitData>,
    kept: &mut Kept,
    now: Moment,
    out: &mut SendBuffer,
) -> Phase
    requires { now ≤ last_turn }
    ensures { Says (λ s. says_again s (was_asked holder) (retry_of s.cycles.initiator.pending) now)
        kept.old (phase_of (Phase.AwaitData holder)) kept.new (phase_of result) out.new }
{
    match kept.cycles.initiator.again() {
        Some(telegram) => {
            let count = out.initiate(&holder, &telegram);
            kept.past = kept.past.said(now, count);
            Phase::AwaitData(holder.again())
        }
        None => silent(Phase::AwaitData(holder.on_no_retry()), out),
    }
}

/// Sends the token to the next station. A token to the own address is a receipt.
fn says_token(
    holder: Holding<Pass>,
    kept: &mut Kept,
    params: &BusParams,
    now: Moment,
    out: &mut SendBuffer,
) -> Phase
    requires { now ≤ last_turn }
    ensures { Says (λ s. says_token params.now s (tries_of (Phase.Pass holder)) now)
        kept.old (phase_of (Phase.Pass holder)) kept.new (phase_of result) out.new }
{
    let ts = kept.address.get();
    let ns = kept.las.ns(ts);
    let count = out.pass(&holder, &token(ns, ts));
    kept.past = kept.past.said(now, count);
    let end = kept.past.end.get();
    kept.rotation = received_if(kept.rotation, ns == ts, end);
    holder.on_sent(ns, ts, end.after(u64::from(params.tid1())))
}

/// Sends nothing, and leaves the phase.
fn silent(phase: Phase, out: &mut SendBuffer) -> Phase
    ensures phase { result ≡ phase }
    ensures sent { out.new ≡ None }
{
    out.clear();
    phase
}

/// The phase after a reply of a listening station. If the reply said "ready", the station joins the ring.
fn ready_if(listening: Listening, kept: &mut Kept, joins: bool) -> Phase
    ensures { Becomes (λ s. if joins then joining s else s)
        kept.old (phase_of (Phase.Listening listening)) kept.new (phase_of result) }
{
    if !joins {
        return Phase::Listening(listening);
    }
    join(kept);
    Phase::Idle(listening.on_ready())
}

fn token(da: u8, sa: u8) -> TokenTelegram
    requires destination { da < 127 }
    requires source { sa < 127 }
    ensures { spelling (Token result) ≡ token_octets da sa }
{
    TokenTelegram { da, sa }
}

/// Joins the ring.
fn join(kept: &mut Kept)
    ensures { kept.new ≡ record
        kept.old {
          las = readied kept.old.las kept.old.address;
          gap = Open None;
          rotation = fresh
              kept.old.rotation.ttr;
        } }
{
    kept.las = readied(kept.las, kept.address.get());
    kept.gap = Gap::fresh();
    kept.rotation = Rotation::new(kept.rotation.ttr());
}

/// Takes the request of high priority that may be sent; `None` if there is none.
#[inline(always)]
fn take_high(kept: &mut Kept, waiting: &mut Waiting, now: Moment) -> Option<Request>
    requires { IsSome kept.old.rotation.last }
    ensures request { (phase : turn.Phase) → result
        ≡ high_request (station_with kept.old waiting.old phase) now }
    ensures kept { (phase : turn.Phase) → station_with kept.new waiting.new phase
        ≡ after_taking high_taken (station_with kept.old waiting.old phase) result }
{
    if !waiting.has_high() || !kept.rotation.may_high(now) {
        return None;
    }
    kept.rotation.started_high();
    waiting.take_high()
}

/// Sends a request.
fn says_request(
    holder: Holding<Use>,
    kept: &mut Kept,
    params: &BusParams,
    now: Moment,
    request: Request,
    out: &mut SendBuffer,
) -> Phase
    requires { now ≤ last_turn }
    ensures { Says (λ s. says_request params.now s (has_asked holder) request now)
        kept.old (phase_of (Phase.Use holder)) kept.new (phase_of result) out.new }
{
    let answered = request.service().is_answered();
    let telegram = kept.cycles.initiator.request(kept.address.get(), request);
    let count = out.initiate(&holder, &telegram);
    kept.past = kept.past.said(now, count);
    let ready = kept.past.end.get().after(u64::from(params.tid2()));
    asked(holder, answered, ready)
}

/// The phase after a request: the station waits for the reply, or speaks again.
fn asked(holder: Holding<Use>, answered: bool, ready: Moment) -> Phase
    ensures { phase_of result
        ≡ (if answered then turn.AwaitData (has_asked holder) None true else turn.Use (has_asked holder)
        ready) }
{
    if answered {
        Phase::AwaitData(holder.ask())
    } else {
        Phase::Use(holder.send(ready))
    }
}

/// Takes the request of low priority that may be sent; `None` if there is none.
#[inline(always)]
fn take_low(kept: &Kept, waiting: &mut Waiting, now: Moment) -> Option<Request>
    requires { IsSome kept.now.rotation.last }
    ensures request { (phase : turn.Phase) → result
        ≡ low_request (station_with kept.now waiting.old phase) now }
    ensures kept { (phase : turn.Phase) → station_with kept.now waiting.new phase
        ≡ after_taking low_taken (station_with kept.now waiting.old phase) result }
{
    if !waiting.has_low() || !kept.rotation.may_low(now) {
        return None;
    }
    waiting.take_low()
}

/// Whether the station asks a station of its GAP: holding time is left, it has asked none since the receipt, and a
/// round is due.
fn looks_at_gap(kept: &Kept, params: &BusParams, asked: bool, now: Moment) -> bool
    requires { IsSome kept.now.rotation.last }
    ensures { result
        ≡ (may_low kept.now.rotation now &&
        (not asked && is_due kept.now.gap now params.now.ttr params.now.gap)) }
{
    kept.rotation.may_low(now) && !asked && kept.gap.due(now.get(), params.ttr(), params.gap())
}

/// Asks a station of the GAP. If no address is left, it passes the token.
fn says_look(
    holder: Holding<Use>,
    kept: &mut Kept,
    params: &BusParams,
    now: Moment,
    out: &mut SendBuffer,
) -> Phase
    requires { now ≤ last_turn }
    ensures { Says
        (λ s. says_look params.now s
        (next_asked s.address (next_station s) params.now.hsa (last_asked s.gap)) now)
        kept.old (phase_of (Phase.Use holder)) kept.new (phase_of result) out.new }
{
    match next_look(kept, params, now) {
        Some(address) => asks_status(holder, kept, now, address, out),
        None => says_token(holder.done(), kept, params, now, out),
    }
}

/// The next address of the GAP to ask, if one is left; advances the round.
fn next_look(kept: &mut Kept, params: &BusParams, now: Moment) -> Option<u8>
    ensures address { (queue : Queued) (phase : turn.Phase) → let s = station_with
        kept.old queue phase in result
        ≡ next_asked s.address (next_station s) params.now.hsa (last_asked s.gap) }
    ensures round { (phase : turn.Phase) → Becomes (λ s. record s { gap = round_after result now })
        kept.old phase kept.new phase }
{
    let ts = kept.address.get();
    let ns = kept.las.ns(ts);
    kept.gap.next_to_ask(ts, ns, params.hsa() as u8, now.get())
}

/// Asks a station of the GAP for its status.
fn asks_status(
    holder: Holding<Use>,
    kept: &mut Kept,
    now: Moment,
    address: u8,
    out: &mut SendBuffer,
) -> Phase
    requires { now ≤ last_turn }
    ensures { Says
        (λ s. (
          record (saying s now (status_request_octets address s.address))
              { phase = turn.AwaitStatus address true },
          Some (status_request_octets address s.address),
        ))
        kept.old (phase_of (Phase.Use holder)) kept.new (phase_of result) out.new }
{
    let count = out.initiate(&holder, &status_request(address, kept.address.get()));
    kept.past = kept.past.said(now, count);
    Phase::AwaitStatus(holder.ask_status(address))
}

fn status_request(da: u8, sa: u8) -> Telegram
    requires { sa < 127 }
    ensures octets { spelling result ≡ status_request_octets da sa }
    ensures initiator { IsInitiator result }
{
    Telegram::Short(ShortTelegram {
        da,
        sa,
        fc: Fc::STATUS_REQUEST.0,
    })
}
