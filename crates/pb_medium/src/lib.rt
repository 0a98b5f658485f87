//! The medium: its telegrams and noise, what each tap hears of them, and damage, loss and noise. All times are in bit
//! times.
#![tactic(auto)]

mod changing;
mod comparing;
mod cutting;
mod damaging;
mod entries;
mod hearing;
mod letting_go;
mod lone;
mod losing;
mod making;
mod noising;
mod placing;
mod receptions;
mod senses;
mod settling;
mod showing;
mod spans;
mod speaking;
mod tap_sets;
mod traces;

pub use changing::{next_begin, something_lasts};
pub use entries::{Entry, Heard, Hit, Record};
pub use hearing::HeardByTap;
pub use lone::{Lone, lone_in};
pub use making::RecordFault;
pub use receptions::Reception;
pub use senses::{
    begin_between, end_between, filling_telegram, is_in_air_by, is_reached, next_end,
    telegram_characters,
};
pub use spans::Span;
pub use speaking::Speaker;
pub use traces::{TRACE_LIMIT, Trace};
