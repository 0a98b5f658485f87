//! Draws the numbers of offers, without a lock.

ghost use Rattle.std.specs.Prelude.{◌≡◌, ◌≤◌};
ghost use Rattle.pb_fleet.specs.Seats.{IsOf, parts_of};

use crate::seats::TicketSeat;
use crate::tickets::Tickets;
use std::alloc::{AllocError, Global};

/// A drawer of the numbers of offers: a seat at the run's tickets.
#[derive(Drop)]
pub(crate) struct Drawer<'a> {
    pub(crate) tickets: &'a Tickets,
    pub(crate) seat: TicketSeat,
    ghost of: { IsOf seat tickets.now },
}

impl Drawer<'_> {
    /// The next number, which no other drawer gets; `None` if there are no more.
    pub(crate) fn draw(&mut self) -> Option<u64> {
        self.tickets.draw(&mut self.seat)
    }
}

/// A drawer for each worker of the crew except the owner of the given seat.
///
/// Fault: memory was refused.
pub(crate) fn helpers<'a>(
    alloc: Global,
    tickets: &'a Tickets,
    seat: &mut TicketSeat,
    crew: usize,
) -> Result<Vec<Drawer<'a>>, AllocError>
    requires of { IsOf seat.old tickets.now }
    requires parts { parts_of seat.old ≡ crew }
    ensures of { IsOf seat.new tickets.entry.now }
{
    let mut drawers = Vec::new(alloc);
    for made in 1..crew {
        let seat = tickets.split(seat);
        drawers.push(Drawer { tickets, seat })?;
    }
    Ok(drawers)
}
