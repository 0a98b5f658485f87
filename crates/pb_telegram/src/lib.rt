//! Telegrams of the PROFIBUS data link layer (FDL): octets, and what they spell.
//!
//! A receiver takes characters off the bus, each good or damaged ([`RxChar`]). Characters spell a
//! [`Telegram`] when all of them are good and their octets are the telegram's one spelling.
//! [`parse`] finds that telegram or the first fault, and [`write`] gives the spelling.
//! No call takes memory.
#![tactic(auto)]

mod chars;
mod control;
mod copying;
mod faults;
mod heads;
mod laws;
mod parsing;
mod reading;
mod receiving;
mod showing;
mod telegrams;
mod writing;

pub use chars::RxChar;
pub use control::{Fc, FrameCount, StationType, fcs};
pub use copying::{copy_octets, put_octets};
pub use faults::TelegramFault;
pub use heads::Head;
pub use laws::{
    first_fault_comes_first, no_spelling_begins_another, one_telegram_for_octets,
    spelled_unit_is_the_telegrams, what_is_spelled_has_no_fault,
};
pub use parsing::parse;
pub use reading::{read_octets, spelled_by, spelled_telegram, spelled_token, token_in};
pub use receiving::Receiver;
pub use telegrams::{
    ACKNOWLEDGEMENT, END, FIXED_START, Fixed8Telegram, SHORT_START, ShortTelegram, TOKEN_START,
    Telegram, TokenTelegram, VAR_START, VarTelegram,
};
pub use writing::{write, write_in};
