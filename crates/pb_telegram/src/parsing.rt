//! Parses a list of characters.

ghost use Rattle.std.specs.Prelude.{◌≡◌, Ok, Some, None, IfOk, IfErr, OnOk};
ghost use Rattle.pb_telegram.specs.Grammar.{Spells};
ghost use Rattle.pb_telegram.specs.Faults.{fault_of};
ghost use Rattle.pb_telegram.specs.declared.telegrams.Telegram.{Telegram};

use crate::chars::RxChar;
use crate::faults::TelegramFault;
use crate::receiving::Receiver;
use crate::telegrams::Telegram;

/// Returns the telegram that the characters spell, or the first fault that applies (IEC 61158-4-3, telegram formats).
///
/// The result is `Ok` exactly if the characters spell a telegram. Faults, in order: `Empty`; `Faulty` with the index of
/// the first damaged character; `BadStart`; `Truncated`; for a telegram with data of variable length, `BadLength` if
/// the length octet is not 4 to 249, `LengthsDiffer` and `BadSecondStart`; `BadAddress` for a token with an address
/// octet over 126, or another telegram with the source address 127; `BadFc`; `BadFcs`; `BadEnd`; `Trailing`.
///
/// ```
/// let token = [RxChar::Good(0xdc), RxChar::Good(2), RxChar::Good(1)];
/// let telegram = Telegram::Token(TokenTelegram { da: 2, sa: 1 });
/// assert_eq!(rt; parse(&token), Ok(telegram));
/// let damaged = [RxChar::Good(0xdc), RxChar::Bad, RxChar::Good(1)];
/// assert_eq!(rt; parse(&damaged), Err(TelegramFault::Faulty(1)));
/// ```
pub fn parse(chars: &[RxChar]) -> Result<Telegram, TelegramFault>
    ensures telegram { IfOk result (Spells chars.now) }
    ensures sound { OnOk result (fault_of chars.now ≡ None) }
    ensures spelled { (t : Telegram) → Spells chars.now t → result ≡ Ok t }
    ensures fault { IfErr result (λ fault. fault_of chars.now ≡ Some fault) }
{
    let mut receiver = Receiver::new();
    for char in chars {
        receiver.feed(*char);
    }
    receiver.end()
}
