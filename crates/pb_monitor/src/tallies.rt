//! What telegrams count for all stations.

ghost use Rattle.std.specs.Prelude.{◌≡◌, ◌&&◌, not, map};
ghost use Rattle.pb_monitor.specs.Known.{changed_at, closed_by, initiated, polled_by, asked, is_early, replied, sent_token, taken, without_receipt};

use crate::meanings::InitiatorTelegram;
use crate::stations::{Station, one_more};
use crate::statistics::{Answer, Limits, Offer, bits_since, is_early};
use pb_telegram::Head;

/// Notes who took a token that was offered, or that it was sent again after its slot.
#[inline(always)]
pub(crate) fn take_offer(
    stations: &mut [Station],
    limits: &Option<Limits>,
    offer: Option<Offer>,
    begin: u64,
    said: InitiatorTelegram,
    is_repeat: bool,
    is_timed: bool,
)
    ensures { stations.new ≡ taken offer begin said
        (is_repeat && not (is_early limits.now is_timed offer begin)) is_timed stations.old }
{
    let Some(offer) = offer else {
        return;
    };
    let place = usize::from(offer.to);
    if place >= stations.len() {
        return;
    }
    if offer.to == said.source {
        if !said.is_claim {
            stations[place].take(offer.end, bits_since(is_timed, offer.end, begin));
        }
    } else if is_repeat && !is_early(begin, Some(offer), *limits, is_timed) {
        stations[place].tokens_not_taken = one_more(stations[place].tokens_not_taken);
    }
}

/// Counts a token or a request of a station.
pub(crate) fn initiate(
    stations: &mut [Station],
    source: u8,
    end: u64,
    is_timed: bool,
    is_repeat: bool,
)
    ensures { stations.new ≡ changed_at source (initiated is_timed is_repeat end) stations.old }
{
    let place = usize::from(source);
    if place < stations.len() {
        stations[place].initiate(end, is_timed, is_repeat);
    }
}

/// Counts a token.
pub(crate) fn send_token(
    stations: &mut [Station],
    said: InitiatorTelegram,
    end: u64,
    is_timed: bool,
    is_claim: bool,
)
    ensures { stations.new
        ≡ changed_at said.source (sent_token said.is_claim is_claim is_timed end) stations.old }
{
    let place = usize::from(said.source);
    if place < stations.len() {
        stations[place].send_token(end, is_timed, said.is_claim, is_claim);
    }
}

/// Counts a request from one station to another.
pub(crate) fn ask(stations: &mut [Station], source: u8, to: u8, is_poll: bool)
    ensures { stations.new ≡ polled_by is_poll to (changed_at source (asked is_poll) stations.old) }
{
    let place = usize::from(source);
    if place < stations.len() {
        stations[place].ask(is_poll);
    }
    let place = usize::from(to);
    if is_poll && place < stations.len() {
        stations[place].polled = one_more(stations[place].polled);
    }
}

/// Counts a reply that ended at a moment, some bit times after the request, if that is known.
pub(crate) fn reply(
    stations: &mut [Station],
    to: u8,
    end: u64,
    is_timed: bool,
    bits: Option<u64>,
    head: Option<Head>,
)
    ensures { stations.new ≡ changed_at to (replied is_timed end bits head) stations.old }
{
    let place = usize::from(to);
    if place < stations.len() {
        stations[place].reply(end, is_timed, bits, head);
    }
}

/// Counts what became of a request that gets no more answer.
pub(crate) fn close(stations: &mut [Station], source: u8, answer: Answer)
    ensures { stations.new ≡ closed_by answer source stations.old }
{
    let place = usize::from(source);
    if place >= stations.len() {
        return;
    }
    match answer {
        Answer::Awaited => stations[place].unanswered = one_more(stations[place].unanswered),
        Answer::Damaged => {
            stations[place].damaged_answers = one_more(stations[place].damaged_answers)
        }
        Answer::Good => {}
    }
}

/// Forgets when stations received the token.
pub(crate) fn forget_receipts(stations: &mut [Station])
    ensures { stations.new ≡ map without_receipt stations.old }
{
    for station in stations.iter_mut() {
        station.receipt = None;
    }
}
