//! The right to draw tickets.

ghost use Rattle.std.specs.Prelude.{◌≡◌, ◌+◌, ◌<◌, [], true, false};
ghost use Rattle.pb_fleet.specs.Rules.{weight};

use crate::rules::View;
use atomic_table::Seat;

/// The right to draw tickets, and what was drawn with it.
#[derive(Drop)]
pub struct TicketSeat {
    pub(crate) seat: Seat<(), View>,
    /// Whether a draw with it got no ticket: there are no more.
    pub(crate) done: bool,
    ghost no_slot: { seat.me.1 ≡ [] },
    ghost part: { done ≡ false → 0 < seat.me.0.parts },
    ghost over: { done ≡ true → 0 < seat.me.0.used },
    ghost alive: { 0 < weight seat.me.0 },
}
