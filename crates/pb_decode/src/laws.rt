//! The text of a telegram is the text of the characters that spell it.

ghost use Rattle.std.specs.Prelude.{◌≡◌, List};
ghost use Rattle.pb_telegram.specs.Grammar.{Spells};
ghost use Rattle.pb_telegram.specs.declared.chars.RxChar.{RxChar};
ghost use Rattle.pb_telegram.specs.declared.telegrams.Telegram.{Telegram};
ghost use Rattle.pb_decode.specs.Decoding.{answer_text};
ghost use Rattle.pb_decode.specs.Texts.{telegram_text};

use pb_telegram::{spelled_unit_is_the_telegrams, what_is_spelled_has_no_fault};

/// The text of characters that spell a telegram is the text of that telegram.
pub fn spelled_text_is_the_telegrams()
    ensures { (chars : List RxChar) (t : Telegram) → Spells chars t → answer_text chars ≡ telegram_text t }
{
    what_is_spelled_has_no_fault();
    spelled_unit_is_the_telegrams()
}
