//! The target rotation time: how long a station may hold the token (EN 50170-2, token rotation time and
//! holding time).
//!
//! A [`Rotation`] keeps what follows from all receipts of the token, and no history. All times are whole
//! bit times. No call takes memory.
#![tactic(auto)]

mod rotations;

pub use rotations::Rotation;
