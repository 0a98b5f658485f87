//! Laws of spellings and faults: each telegram has one spelling, and the fault of characters is the first of the table.

ghost use Rattle.std.specs.Prelude.{◌≡◌, ℕ, List, [], ◌++◌, Some, None};
ghost use Rattle.pb_faults.specs.FirstFault.{IsFirst};
ghost use Rattle.pb_telegram.specs.Grammar.{spelling, Spells};
ghost use Rattle.pb_telegram.specs.Faults.{octets, unit_of, faults, fault_of};
ghost use Rattle.pb_telegram.specs.declared.chars.RxChar.{RxChar};
ghost use Rattle.pb_telegram.specs.declared.telegrams.Telegram.{Telegram};
ghost use Rattle.pb_telegram.specs.declared.telegrams.Telegram.TheVariants.{Var, Fixed8};
ghost use Rattle.pb_telegram.specs.declared.telegrams.VarTelegram.{VarTelegram};
ghost use Rattle.pb_telegram.specs.declared.telegrams.Fixed8Telegram.{Fixed8Telegram};
ghost use Rattle.pb_telegram.specs.declared.faults.TelegramFault.{TelegramFault};

use crate::faults::TelegramFault;
use pb_faults::first_fault_is_first;

/// Characters spell at most one telegram, and a telegram has one spelling.
pub fn one_telegram_for_octets()
    ensures telegram { (chars : List RxChar) (t u : Telegram) → Spells chars t → Spells chars u → t ≡ u }
    ensures spelling { (chars others : List RxChar) (t : Telegram) → Spells chars t → Spells others t
        → chars ≡ others }
{}

/// No spelling is a proper prefix of another.
pub fn no_spelling_begins_another()
    ensures { (t u : Telegram) (rest : List ℕ) → spelling t ++ rest ≡ spelling u → rest ≡ [] }
{}

/// The fault of characters is the first of the table whose test holds.
pub fn first_fault_comes_first()
    ensures { (chars : List RxChar) (fault : TelegramFault) → fault_of chars ≡ Some fault
        → IsFirst (faults chars) fault }
{
    first_fault_is_first::<TelegramFault>()
}

/// Characters that spell a telegram have no fault, and their octets are its spelling.
pub fn what_is_spelled_has_no_fault()
    ensures no_fault { (chars : List RxChar) (t : Telegram) → Spells chars t → fault_of chars ≡ None }
    ensures octets { (chars : List RxChar) (t : Telegram) → Spells chars t → octets chars ≡ spelling t }
{}

/// For octets that spell a telegram with data, `unit_of` is the data of that telegram.
pub fn spelled_unit_is_the_telegrams()
    ensures var { (t : VarTelegram) → unit_of (spelling (Var t)) ≡ t.unit.items }
    ensures fixed { (t : Fixed8Telegram) → unit_of (spelling (Fixed8 t)) ≡ t.unit }
{}
