//! Why characters are no telegram.

ghost use Rattle.std.specs.Prelude.{◌≡◌};

use thiserror::Error;

/// Why characters spell no telegram: the first fault that applies, in the order of the numbers.
#[derive(Clone, Copy, Debug, PartialEq, Eq, Error)]
pub enum TelegramFault {
    /// 1: there is no character.
    #[error("Empty")]
    Empty,
    /// 2: a character is damaged. The number is the index of the first one, from 0.
    #[error("Faulty {0}")]
    Faulty(usize),
    /// 3: the first octet starts no telegram.
    #[error("BadStart")]
    BadStart,
    /// 4: there are fewer octets than the telegram needs.
    #[error("Truncated")]
    Truncated,
    /// 5: the length is out of its range.
    #[error("BadLength")]
    BadLength,
    /// 6: the length and its repetition differ.
    #[error("LengthsDiffer")]
    LengthsDiffer,
    /// 7: the start delimiter is not repeated after the lengths.
    #[error("BadSecondStart")]
    BadSecondStart,
    /// 8: a token's address octet is over 126, or another telegram's source address is 127.
    #[error("BadAddress")]
    BadAddress,
    /// 9: bit 7 of the frame control octet is set.
    #[error("BadFc")]
    BadFc,
    /// 10: the check octet is wrong.
    #[error("BadFcs")]
    BadFcs,
    /// 11: the end delimiter is missing.
    #[error("BadEnd")]
    BadEnd,
    /// 12: octets follow the end.
    #[error("Trailing")]
    Trailing,
}

impl TelegramFault {
    ghost use Rattle.pb_telegram.specs.FaultWords.{number_of, name_of};

    /// The fault's number, 1 to 12: its position in the order in which faults are tested.
    pub fn number(&self) -> u8
        ensures { result ≡ number_of self.now }
    {
        match self {
            TelegramFault::Empty => 1,
            TelegramFault::Faulty(_) => 2,
            TelegramFault::BadStart => 3,
            TelegramFault::Truncated => 4,
            TelegramFault::BadLength => 5,
            TelegramFault::LengthsDiffer => 6,
            TelegramFault::BadSecondStart => 7,
            TelegramFault::BadAddress => 8,
            TelegramFault::BadFc => 9,
            TelegramFault::BadFcs => 10,
            TelegramFault::BadEnd => 11,
            TelegramFault::Trailing => 12,
        }
    }

    /// The fault's name, without the index that `Faulty` has.
    pub fn name(&self) -> &'static str
        ensures { result.now ≡ name_of self.now }
    {
        match self {
            TelegramFault::Empty => "Empty",
            TelegramFault::Faulty(_) => "Faulty",
            TelegramFault::BadStart => "BadStart",
            TelegramFault::Truncated => "Truncated",
            TelegramFault::BadLength => "BadLength",
            TelegramFault::LengthsDiffer => "LengthsDiffer",
            TelegramFault::BadSecondStart => "BadSecondStart",
            TelegramFault::BadAddress => "BadAddress",
            TelegramFault::BadFc => "BadFc",
            TelegramFault::BadFcs => "BadFcs",
            TelegramFault::BadEnd => "BadEnd",
            TelegramFault::Trailing => "Trailing",
        }
    }
}
