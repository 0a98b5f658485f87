//! What was on the bus from one moment to another.

ghost use Rattle.std.specs.Prelude.{◌≡◌, IfOk};
ghost use Rattle.pb_telegram.specs.Grammar.{spelling};

use arrayvec::ArrayVec;
use pb_telegram::{ACKNOWLEDGEMENT, TOKEN_START, Telegram, TelegramFault, write};

/// Activity on the bus from one moment to another, with nothing before or after it.
#[derive(Debug, PartialEq, Eq, Drop)]
pub struct Burst {
    /// When it began, in bit times.
    pub begin: u64,
    /// When it ended, in bit times.
    pub end: u64,
    /// The telegram that its characters spell, or their first fault.
    pub telegram: Result<Telegram, TelegramFault>,
}

impl Burst {
    /// Room for a burst.
    pub(crate) fn none() -> Burst {
        Burst {
            begin: 0,
            end: 0,
            telegram: Err(TelegramFault::Empty),
        }
    }
}

/// Rooms for the next burst by its first octet: a telegram is mostly written over one of its form, which is cheaper than to
/// replace one of another form.
#[derive(Drop)]
pub(crate) struct Rooms {
    tokens: Burst,
    acknowledgements: Burst,
    others: Burst,
}

impl Rooms {
    /// Nothing is in the rooms.
    pub(crate) fn new() -> Rooms {
        Rooms {
            tokens: Burst::none(),
            acknowledgements: Burst::none(),
            others: Burst::none(),
        }
    }

    /// The room for a burst of these octets.
    #[inline(always)]
    pub(crate) fn room(&mut self, octets: &[u8]) -> &mut Burst {
        match octets {
            [TOKEN_START, ..] => &mut self.tokens,
            [ACKNOWLEDGEMENT, ..] => &mut self.acknowledgements,
            _ => &mut self.others,
        }
    }
}

/// The octets of a telegram; none where there is none.
pub(crate) fn octets_of(telegram: &Result<Telegram, TelegramFault>) -> ArrayVec<u8, 255>
    ensures { IfOk telegram.now (λ t. result.items ≡ spelling t) }
{
    match telegram {
        Ok(telegram) => write(telegram),
        Err(_) => ArrayVec::new(),
    }
}
