//! The last lines of a text.

ghost use Rattle.std.specs.Prelude.{◌≡◌, IfOk, map};
ghost use Rattle.std.specs.List.{flat_map};
ghost use Rattle.bstr.specs.Text.{lines_of};
ghost use Rattle.circular_buffer.specs.Buffer.{keep_last};
ghost use Rattle.pb_texts.specs.Plays.{last_lines};

use bstr::ByteSlice;
use circular_buffer::HeapCircularBuffer;
use std::alloc::{AllocError, Global};

/// The last lines of a text; the whole text if it has no more lines.
pub fn last_lines(alloc: Global, text: &[u8], lines: usize) -> Result<Vec<u8>, AllocError>
    ensures { IfOk result (λ last. last.items ≡ last_lines lines text.now) }
{
    let kept = kept_lines(alloc, text, lines)?;
    let mut last = Vec::new(alloc);
    for line in kept.iter() {
        last.extend_from_slice(line)?;
    }
    Ok(last)
}

/// The last lines of a text, searched from its end.
fn kept_lines<'a>(
    alloc: Global,
    text: &'a [u8],
    lines: usize,
) -> Result<HeapCircularBuffer<&'a [u8]>, AllocError>
    ensures { IfOk result
        (λ kept. map (λ line. line.now) kept.items ≡ keep_last lines (lines_of text.entry.now)) }
{
    let mut kept = HeapCircularBuffer::with_capacity(alloc, lines)?;
    let mut before = text.lines_with_terminator();
    while kept.len() < lines {
        let Some(line) = before.next_back() else {
            break;
        };
        kept.push_front(line);
    }
    Ok(kept)
}
