//! Decodes an input, line by line.

ghost use Rattle.std.specs.Prelude.{◌≡◌, ◌++◌, ◌||◌, List, IfOk, OnOk, is_some};
ghost use Rattle.pb_telegram.specs.Faults.{fault_of};
ghost use Rattle.pb_telegram.specs.Receiving.{StandsFor};
ghost use Rattle.pb_telegram.specs.declared.chars.RxChar.{RxChar};
ghost use Rattle.pb_decode.specs.Characters.{characters_of};
ghost use Rattle.pb_decode.specs.Decoding.{answer_text, hex_text, is_refused, line_text, output_of, refuses};

use crate::characters::feed_characters;
use crate::laws::spelled_text_is_the_telegrams;
use crate::texts::{push_acknowledgement, push_fault, push_telegram};
use bstr::ByteSlice;
use pb_telegram::{Receiver, what_is_spelled_has_no_fault};
use std::alloc::{AllocError, Global};

/// Lines of text, and whether any of them is a fault.
#[derive(Drop)]
pub struct Decoded {
    /// The lines, each ended by a line feed: one for each line of the input.
    pub text: Vec<u8>,
    /// Whether any line is a fault.
    pub is_refused: bool,
}

/// Decodes lines of hex into lines of text.
///
/// Fault: memory was refused.
pub fn decode(alloc: Global, input: &[u8]) -> Result<Decoded, AllocError>
    ensures text { IfOk result (λ decoded. decoded.text.items ≡ output_of input.now) }
    ensures refused { IfOk result (λ decoded. decoded.is_refused ≡ refuses input.now) }
{
    let mut text = Vec::new(alloc);
    let mut receiver = Receiver::new();
    let mut is_refused = false;
    for line in input.lines() {
        if push_line(&mut text, &mut receiver, line)? {
            is_refused = true;
        }
    }
    Ok(Decoded { text, is_refused })
}

/// Appends the line of text for a line of hex, and returns whether that line is refused. `receiver` is working memory
/// for its characters.
fn push_line(text: &mut Vec<u8>, receiver: &mut Receiver, line: &[u8]) -> Result<bool, AllocError>
    ensures text { OnOk result (text.new.items ≡ text.old.items ++ line_text line.now) }
    ensures refused { IfOk result (λ refused. refused ≡ is_refused (characters_of line.now)) }
{
    let refused = push_hex(text, receiver, line)?;
    text.push(b'\n')?;
    Ok(refused)
}

/// Appends the text of a line's characters, or the fault `NotHex`, and returns whether the line is refused.
fn push_hex(text: &mut Vec<u8>, receiver: &mut Receiver, line: &[u8]) -> Result<bool, AllocError>
    ensures text { OnOk result (text.new.items ≡ text.old.items ++ hex_text (characters_of line.now)) }
    ensures refused { IfOk result (λ refused. refused ≡ is_refused (characters_of line.now)) }
{
    receiver.restart();
    if feed_characters(receiver, line) {
        return push_answer(text, receiver);
    }
    text.extend_from_slice(b"fault 0 NotHex")?;
    Ok(true)
}

/// Appends the text of the telegram that the receiver's characters spell, or of their first fault, and returns whether
/// it is a fault.
fn push_answer(text: &mut Vec<u8>, receiver: &Receiver) -> Result<bool, AllocError>
    ensures text { (chars : List RxChar) → StandsFor receiver.now chars
        → OnOk result (text.new.items ≡ text.old.items ++ answer_text chars) }
    ensures refused { (chars : List RxChar) → StandsFor receiver.now chars
        → IfOk result (λ refused. refused ≡ is_some (fault_of chars)) }
{
    if receiver.is_acknowledgement() {
        what_is_spelled_has_no_fault();
        spelled_text_is_the_telegrams();
        push_acknowledgement(text)?;
        return Ok(false);
    }
    push_other_answer(text, receiver)
}

/// Slow path of `push_answer`: any answer but a short acknowledgement.
fn push_other_answer(text: &mut Vec<u8>, receiver: &Receiver) -> Result<bool, AllocError>
    ensures text { (chars : List RxChar) → StandsFor receiver.now chars
        → OnOk result (text.new.items ≡ text.old.items ++ answer_text chars) }
    ensures refused { (chars : List RxChar) → StandsFor receiver.now chars
        → IfOk result (λ refused. refused ≡ is_some (fault_of chars)) }
{
    match receiver.answer() {
        Ok(telegram) => {
            spelled_text_is_the_telegrams();
            push_telegram(text, &telegram)?;
            Ok(false)
        }
        Err(fault) => {
            push_fault(text, &fault)?;
            Ok(true)
        }
    }
}
