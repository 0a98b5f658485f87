//! The word that was probably meant.

use std::alloc::{AllocError, Global};
use strsim::osa_distance;

/// At most so many edits lead to the word that was meant; two letters in the wrong order are one edit.
const MOST_EDITS: usize = 2;

/// A word with fewer letters has none to spare.
const SHORTEST: usize = 2;

/// Words that begin with so many same letters are near, however they go on.
const SAME_BEGINNING: usize = 4;

/// A longer word is near to none.
const LONGEST: usize = 64;

/// Of some words the one that is nearest to a word, if one is near.
pub(crate) fn nearest<'a>(
    alloc: Global,
    word: &str,
    words: &[&'a str],
) -> Result<Option<&'a str>, AllocError> {
    let mut near = None;
    let mut edits = MOST_EDITS + 1;
    if word.len() < SHORTEST || word.len() > LONGEST {
        return Ok(None);
    }
    for other in words.iter().copied() {
        let distance = osa_distance(alloc, word, other)?;
        if distance < edits && distance < other.len() {
            near = Some(other);
            edits = distance;
        } else if near.is_none() && is_begun_alike(word, other) {
            near = Some(other);
        }
    }
    Ok(near)
}

/// Whether two words begin with the same four letters or more.
fn is_begun_alike(one: &str, two: &str) -> bool {
    let alike = one
        .bytes()
        .zip(two.bytes())
        .take_while(|(one, two)| one == two);
    alike.count() >= SAME_BEGINNING
}
