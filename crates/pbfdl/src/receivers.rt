//! Characters that a receiver takes off the line one by one.

ghost use Rattle.std.specs.Prelude.{◌≡◌, ◌≢◌, ◌+◌, ◌<◌, ◌≤◌, ◌++◌, ◌∷◌, [], length, map, take};
ghost use Rattle.pb_telegram.specs.declared.chars.RxChar.TheVariants.{Good};
ghost use Rattle.pb_telegram.specs.Faults.{fault_of};
ghost use Rattle.pbfdl.specs.Calls.{character_of};
ghost use Rattle.pbfdl.specs.Codes.{code_unless, telegram_code};
ghost use Rattle.pbfdl.specs.Receivers.{heard};
ghost use Rattle.pbfdl.specs.Telegrams.{octets_of, TellsSpelled};

use crate::codes::{TOO_LONG, telegram_code};
use crate::telegrams::{FdlTelegram, tell};
use arrayvec::ArrayVec;
use pb_telegram::{RxChar, parse};

/// How many characters a telegram has at most.
const MOST_CHARACTERS: usize = 255;

/// Characters of one burst as they came: a number under 256 is a good octet, any other a damaged character.
#[repr(C)]
#[derive(Clone, Copy)]
pub struct FdlReceiver {
    pub count: u16,
    pub characters: [u16; 255],
}

/// Takes a character, and answers 0 where the characters spell a telegram now. Codes: 44 where 255 characters came
/// before it, with nothing changed; else 1 to 12, the first fault of the characters.
#[unsafe(no_mangle)]
pub extern "C" fn fdl_receive(receiver: &mut FdlReceiver, character: u16) -> u32
    ensures full { 255 ≤ receiver.old.count → (result ≡ 44) × (receiver.new ≡ receiver.old) }
    ensures count { receiver.old.count < 255 → receiver.new.count ≡ receiver.old.count + 1 }
    ensures taken { receiver.old.count < 255
        → heard receiver.new ≡ heard receiver.old ++ character_of character ∷ [] }
    ensures code { receiver.old.count < 255
        → result ≡ code_unless telegram_code (fault_of (heard receiver.new)) }
{
    let place = usize::from(receiver.count);
    if place >= MOST_CHARACTERS {
        return TOO_LONG;
    }
    receiver.characters[place] = character;
    receiver.count += 1;
    match parse(&characters_of(&receiver.characters[..place + 1])) {
        Ok(_) => 0,
        Err(fault) => telegram_code(fault),
    }
}

/// The telegram that the characters spell; fields that its kind doesn't have are 0. Codes: 44 where the receiver says that
/// it has more than 255; 1 to 12, their first fault. The telegram is unchanged then.
#[unsafe(no_mangle)]
pub extern "C" fn fdl_received(receiver: &FdlReceiver, telegram: &mut FdlTelegram) -> u32
    ensures long { 255 < receiver.now.count → result ≡ 44 }
    ensures code { receiver.now.count ≤ 255
        → result ≡ code_unless telegram_code (fault_of (heard receiver.now)) }
    ensures spelled { result ≡ 0 → map Good (octets_of telegram.new) ≡ heard receiver.now }
    ensures told { result ≡ 0 → TellsSpelled telegram.new (heard receiver.now) }
    ensures refused { result ≢ 0 → telegram.new ≡ telegram.old }
{
    let count = usize::from(receiver.count);
    if count > MOST_CHARACTERS {
        return TOO_LONG;
    }
    match parse(&characters_of(&receiver.characters[..count])) {
        Ok(found) => {
            tell(&found, telegram);
            0
        }
        Err(fault) => telegram_code(fault),
    }
}

/// The characters of words, at most 255, the caller's condition.
pub(crate) fn characters_of(words: &[u16]) -> ArrayVec<RxChar, 255>
    requires { length words.now ≤ 255 }
    ensures { result.items ≡ map character_of words.now }
{
    let mut characters = ArrayVec::new();
    for word in words {
        characters.push(character_of(*word));
    }
    characters
}

/// The character of a word.
fn character_of(word: u16) -> RxChar
    ensures { result ≡ character_of word }
{
    if word < 256 {
        return RxChar::Good(word as u8);
    }
    RxChar::Bad
}
