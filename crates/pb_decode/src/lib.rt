//! Decodes lines of hex into lines of text: what `ringplay decode` writes for its input.
//!
//! For each line, [`decode`] feeds the characters to a receiver of pb_telegram, and appends the text of the telegram
//! that they spell, or of their first fault.
#![tactic(auto)]

mod characters;
mod laws;
mod lines;
mod texts;

pub use characters::{character, feed_characters};
pub use laws::spelled_text_is_the_telegrams;
pub use lines::{Decoded, decode};
pub use texts::{push_fault, push_telegram};
