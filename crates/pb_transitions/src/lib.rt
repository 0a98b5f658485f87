//! What a station keeps, and how it changes: at a begin and an end of activity, at a timer, and at its speaking
//! moment.
#![tactic(auto)]

mod addresses;
mod arrivals;
mod beginnings;
mod cores;
pub mod cycles;
mod equality;
mod hearing;
mod lists;
mod moments;
mod past;
mod replies;
mod request_lists;
mod rotations;
mod sending;
mod speeches;
mod timers;
mod waiting;

pub use addresses::Address;
pub use arrivals::{is_for_others, spelled_telegram, spelled_token, token_in, whole_telegram};
pub use beginnings::begun;
pub use cores::{Core, Kept};
pub use cycles::{Cycles, copy_outcome, give_up};
pub use hearing::{ended, ended_with_noise, ended_with_token, fall_quiet, only_answers};
pub use lists::{entered, hear, readied, removed};
pub use moments::{PastMoment, earlier, is_past};
pub use past::Past;
pub use replies::{Reply, answer, is_request, status_answer};
pub use sending::SendBuffer;
pub use speeches::{speak, speaks_at, would_say};
pub use timers::{acts_at, after_timer, timer};
pub use waiting::Waiting;
