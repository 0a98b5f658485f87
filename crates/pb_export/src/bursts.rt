//! What exports say of a burst of a capture, whatever their form.

ghost use Rattle.std.specs.Prelude.{◌≡◌, ◌≤◌, ◌++◌, OnOk, decimal, length};
ghost use Rattle.law_turn.specs.Arrivals.{arrival_of};
ghost use Rattle.pb_monitor.specs.Meanings.{is_none};
ghost use Rattle.pb_export.specs.Bursts as bursts;

use crate::pieces::{Piece, push_pieces};
use arrayvec::ArrayVec;
use pb_monitor::MOST_CHARACTERS;
use pb_telegram::RxChar;
use pb_transitions::whole_telegram;
use std::alloc::AllocError;

/// Whether characters spell no telegram.
pub(crate) fn is_damaged(chars: &[RxChar]) -> bool
    ensures { result ≡ is_none (arrival_of chars.now) }
{
    whole_telegram(chars).is_none()
}

/// The octets before the first damaged character.
pub(crate) fn known_octets(chars: &[RxChar]) -> ArrayVec<u8, MOST_CHARACTERS>
    requires { length chars.now ≤ 256 }
    ensures { result.items ≡ bursts.known_octets chars.now }
{
    let mut octets = ArrayVec::new();
    for char in chars {
        match char {
            RxChar::Good(octet) => octets.push(*octet),
            RxChar::Bad => return octets,
        }
    }
    octets
}

/// Appends words and an address.
pub(crate) fn push_address(text: &mut Vec<u8>, words: &[u8], address: u8) -> Result<(), AllocError>
    ensures { OnOk result (text.new.items ≡ text.old.items ++ (words.now ++ decimal address)) }
{
    push_pieces(
        text,
        &[Piece::Text(words), Piece::Number(u64::from(address))],
    )
}
