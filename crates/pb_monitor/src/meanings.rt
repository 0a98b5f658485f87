//! What a telegram says of the token.

ghost use Rattle.std.specs.Prelude.{◌≡◌, ℕ, List, Ok};
ghost use Rattle.law_turn.specs.Arrivals.{Token, Framed};
ghost use Rattle.pb_monitor.specs.Meanings.{arrival_in, meaning_of};
ghost use Rattle.pb_monitor.specs.declared.meanings.Meaning.TheVariants.{Initiator};

use pb_telegram::{Fc, Telegram, TelegramFault};

/// What a token or a request says of the token.
#[derive(Clone, Copy, Debug, PartialEq, Eq)]
pub struct InitiatorTelegram {
    /// The address of its source, 0 to 126.
    pub source: u8,
    /// The address to which it passes the token, if that is not its source.
    pub offered: Option<u8>,
    /// Whether it is a token from its source to itself.
    pub is_claim: bool,
}

/// What a burst means for the token.
#[derive(Clone, Copy, Debug, PartialEq, Eq)]
pub enum Meaning {
    /// A token or a request: only the station with the token may send it.
    Initiator(InitiatorTelegram),
    /// A reply or an acknowledgement.
    Reply,
    /// No whole telegram.
    NoTelegram,
}

/// What a telegram, or the fault of a burst without one, means for the token.
#[inline(always)]
pub fn meaning_in(telegram: &Result<Telegram, TelegramFault>) -> Meaning
    ensures { result ≡ meaning_of (arrival_in telegram.now) }
{
    match telegram {
        // Most telegrams are tokens.
        Ok(Telegram::Token(token)) => Meaning::Initiator(passed(token.da, token.sa)),
        Ok(telegram) => told_by(telegram),
        Err(_) => Meaning::NoTelegram,
    }
}

/// What a telegram means for the token.
fn told_by(telegram: &Telegram) -> Meaning
    ensures { result ≡ meaning_of (arrival_in (Ok telegram.now)) }
{
    match telegram {
        Telegram::Token(token) => Meaning::Initiator(passed(token.da, token.sa)),
        Telegram::Short(short) => asks(short.sa, short.fc),
        Telegram::Var(var) => asks(var.sa, var.fc),
        Telegram::Fixed8(fixed) => asks(fixed.sa, fixed.fc),
        Telegram::Ack => Meaning::Reply,
    }
}

/// What a token says of the token.
#[inline(always)]
pub(crate) fn passed(da: u8, sa: u8) -> InitiatorTelegram
    ensures { Initiator result ≡ meaning_of (Token da sa) }
{
    InitiatorTelegram {
        source: sa,
        offered: if da == sa { None } else { Some(da) },
        is_claim: da == sa,
    }
}

/// What a telegram with a control octet means.
fn asks(sa: u8, fc: u8) -> Meaning
    ensures { (da : ℕ) (unit : List ℕ)
        → result ≡ meaning_of (Framed (record { da = da; sa = sa; fc = fc; unit = unit })) }
{
    if !Fc(fc).is_request() {
        return Meaning::Reply;
    }
    Meaning::Initiator(InitiatorTelegram {
        source: sa % 128,
        offered: None,
        is_claim: false,
    })
}
