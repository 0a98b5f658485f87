//! The meaning of a telegram, as far as it decides who may send it.

ghost use Rattle.std.specs.Prelude.{◌≡◌};
ghost use Rattle.pb_transitions.specs.Arrivals.{brings};
ghost use Rattle.law_turn.specs.Arrivals.{Arrival};
ghost use Rattle.law_runs.specs.Initiators as initiators;
ghost use Rattle.pb_medium.specs.Entries.{entry_of, record_of};
ghost use Rattle.pb_world.specs.Meanings.{meaning_in, meaning_of};

use pb_medium::{Entry, Record};
use pb_telegram::Telegram;
use pb_transitions::{is_request, spelled_telegram, spelled_token};

/// The meaning of a telegram, as far as it decides who may send it.
#[derive(Clone, Copy, Debug)]
pub(crate) enum Meaning {
    /// A token, with its destination and its source.
    Token { da: u8, sa: u8 },
    /// A request.
    Request,
    /// A telegram that any station may send, or no telegram.
    Other,
}

/// The meaning of an entry.
pub(crate) fn meaning_in(entry: &Entry) -> Meaning
    ensures { result ≡ meaning_in (entry_of entry.now) }
{
    match entry {
        Entry::Sent(sent) => meaning_of(sent),
        Entry::Noise { .. } => Meaning::Other,
    }
}

/// The meaning of the telegram that was to be sent, also if it was cut. Most telegrams are tokens, which are read
/// directly.
pub(crate) fn meaning_of(sent: &Record) -> Meaning
    ensures { result ≡ meaning_of (initiators.telegram_of (record_of sent.now)) }
{
    match spelled_token(&sent.octets) {
        Some(token) => Meaning::Token {
            da: token.da,
            sa: token.sa,
        },
        None => meaning_of_any(sent),
    }
}

/// Slow path of `meaning_of`, for any telegram. Kept out of line: its frame has room for the longest one.
#[inline(never)]
fn meaning_of_any(sent: &Record) -> Meaning
    ensures { result ≡ meaning_of (initiators.telegram_of (record_of sent.now)) }
{
    match telegram_of(sent) {
        Some(Telegram::Token(token)) => Meaning::Token {
            da: token.da,
            sa: token.sa,
        },
        Some(telegram) => if is_request(&telegram) {
            Meaning::Request
        } else {
            Meaning::Other
        },
        None => Meaning::Other,
    }
}

/// Whether only the station with the token may send it: a token or a request.
pub(crate) fn initiates(meaning: Meaning) -> bool
    ensures { (a : Arrival) → meaning ≡ meaning_of a → result ≡ initiators.initiates a }
{
    match meaning {
        Meaning::Token { .. } | Meaning::Request => true,
        Meaning::Other => false,
    }
}

/// The address to which it passes the token, if that is not its source.
pub(crate) fn offered_by(meaning: Meaning) -> Option<u8>
    ensures { (a : Arrival) → meaning ≡ meaning_of a → result ≡ initiators.offered_by a }
{
    match meaning {
        Meaning::Token { da, sa } if da != sa => Some(da),
        _ => None,
    }
}

/// Whether it is a token from an address to itself.
pub(crate) fn claims_for(meaning: Meaning, address: u8) -> bool
    ensures { (a : Arrival) → meaning ≡ meaning_of a → result ≡ initiators.claims_for address a }
{
    match meaning {
        Meaning::Token { da, sa } => da == address && sa == address,
        _ => false,
    }
}

/// The telegram that was to be sent, also if it was cut.
fn telegram_of(sent: &Record) -> Option<Telegram>
    ensures { brings result ≡ initiators.telegram_of (record_of sent.now) }
{
    spelled_telegram(&sent.octets)
}
