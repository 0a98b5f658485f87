//! The replies of a station, made when the request is heard and sent later.

ghost use Rattle.std.specs.Prelude.{◌≡◌, ◌≤◌, [], ◌+◌, ◌*◌, false};
ghost use Rattle.std.specs.Option.{option_map};
ghost use Rattle.pb_telegram.specs.Control.{type_bits};
ghost use Rattle.pb_telegram.specs.Grammar.{spelling};
ghost use Rattle.pb_cycles.specs.Messages.{frame_octets, address_in, message_of};
ghost use Rattle.law_turn.specs.Hearing.{asks_status};
ghost use Rattle.pb_transitions.specs.Arrivals.{is_request};
ghost use Rattle.pb_transitions.specs.Clocks.{last_turn};
ghost use Rattle.law_turn.specs.Phases.{Phase};
ghost use Rattle.pb_transitions.specs.Cores.{Becomes};
ghost use Rattle.pb_transitions.specs.Replies.{reply_of, joins, fields_of, answer_to, answers, is_for, goes_to};

use crate::cores::Kept;
use arrayvec::ArrayVec;
use pb_telegram::{Fc, Head, ShortTelegram, StationType, Telegram, write};
use pb_timers::{BusParams, Moment};

/// A reply that is not sent yet.
#[derive(Debug, PartialEq, Eq, Drop)]
pub struct Reply {
    /// When the reply is sent.
    pub ready: Moment,
    pub octets: ArrayVec<u8, 255>,
    /// Whether it says that the station is ready. The station then joins the ring by this reply.
    pub joins: bool,
}

/// The function code of Request FDL Status.
const STATUS_CODE: u8 = 9;

/// The destination address for all stations.
const ALL: u8 = 127;

/// The reply to a telegram that ended at `at`, if it asks for this station's status.
pub fn status_answer(
    kept: &Kept,
    params: &BusParams,
    at: Moment,
    head: Head,
    station_type: StationType,
) -> Option<Reply>
    requires { at ≤ last_turn }
    ensures { option_map reply_of result
        ≡ answer_to params.now kept.now.address at (fields_of head) station_type }
{
    let ts = kept.address.get();
    if !asks_status(head, ts) {
        return None;
    }
    Some(Reply {
        ready: reply_moment(params, at),
        octets: status_octets(ts, head, station_type),
        joins: station_type == StationType::Ready,
    })
}

/// Answers a telegram that ended at `at`. A request that the station has not executed before is executed. The answer
/// replaces a reply that is not sent yet.
pub fn answer(
    kept: &mut Kept,
    params: &BusParams,
    at: Moment,
    telegram: &Telegram,
    station_type: StationType,
)
    requires { at ≤ last_turn }
    ensures { (phase : Phase)
        → Becomes (λ s. answers params.now s at (type_bits station_type) (message_of telegram.now))
        kept.old phase kept.new phase }
{
    let ts = kept.address.get();
    if !goes_to(telegram, ts) {
        return;
    }
    let ready = reply_moment(params, at);
    let bits = station_type.bits();
    if let Some(answer) = kept.cycles.responder.answer(ts, bits, telegram) {
        kept.reply = Some(Reply {
            ready,
            octets: write(&answer),
            joins: false,
        });
    }
}

/// Whether a telegram is addressed to the station `ts` or to all stations. Others are not read further.
fn goes_to(telegram: &Telegram, ts: u8) -> bool
    ensures { result ≡ goes_to ts telegram.now }
{
    match telegram.head() {
        Some(head) => is_for(ts, head.da),
        None => false,
    }
}

/// Whether a destination is the station `ts` or all stations.
pub(crate) fn is_for(ts: u8, da: u8) -> bool
    ensures { result ≡ is_for ts da }
{
    da % 128 == ts || da % 128 == ALL
}

/// Whether a telegram with this head asks for the status of the station `ts`.
fn asks_status(head: Head, ts: u8) -> bool
    ensures { result ≡ asks_status ts (fields_of head) }
{
    let fc = Fc(head.fc);
    fc.is_request() && fc.code() == STATUS_CODE && head.da % 128 == ts
}

/// Whether a telegram is a request.
pub fn is_request(telegram: &Telegram) -> bool
    ensures { result ≡ is_request telegram.now }
{
    telegram.head().is_some_and(|head| Fc(head.fc).is_request())
}

/// When the reply to a request that ended at `at` is sent.
fn reply_moment(params: &BusParams, at: Moment) -> Moment
    requires { at ≤ last_turn }
    ensures { result ≡ at + params.now.tsdr }
{
    at.after(u64::from(params.tsdr()))
}

/// The octets of the reply of the station `ts` to a request for its status.
fn status_octets(ts: u8, head: Head, station_type: StationType) -> ArrayVec<u8, 255>
    requires { ts ≤ 126 }
    ensures { result.items
        ≡ frame_octets (record
        { da = address_in head.sa; sa = ts; fc = 16 * type_bits station_type + 0; unit = [] }) }
{
    write(&Telegram::Short(ShortTelegram {
        da: head.sa % 128,
        sa: ts,
        fc: Fc::reply(station_type.bits(), 0).0,
    }))
}
