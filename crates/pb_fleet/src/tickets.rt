//! Draws numbers from one atomic word.

ghost use Rattle.std.specs.Prelude.{◌≡◌};

use crate::rules::{Cut, Drew, Key, Rule, View};
use crate::seats::TicketSeat;
use atomic_table::Table;
use pb_faults::NoMemory;
use std::alloc::Global;

/// The numbers below a limit, each drawn once, from 0 on.
#[derive(Drop)]
pub struct Tickets {
    pub(crate) table: Table<(), View, Key, Rule, Global>,
    /// How many tickets there are.
    pub(crate) limit: u64,
    ghost word: { table.shared.table_id.words ≡ 1 },
    ghost slots: { table.shared.table_id.slots ≡ 0 },
    ghost known: { table.shared.key.limit ≡ limit },
}

impl Tickets {
    ghost use Rattle.std.specs.Prelude.{◌≡◌, ◌+◌, ◌^◌, ◌<◌, ◌≤◌, ◌++◌, ◌∷◌, [], ℕ, None};
    ghost use Rattle.std.specs.Prelude.{IfOk, IfSome, IfNone};
    ghost use Rattle.pb_fleet.specs.Rules.{once_below, times};
    ghost use Rattle.pb_fleet.specs.Seats.{HasEnded, IsOf, Knows, drawn_with, limit_of, parts_of, seats_of, used_by};

    /// Makes `limit` tickets, and a seat that may be split into `seats` seats. The caller ensures that there is at
    /// least one seat, and that tickets and seats together are at most 2^63.
    ///
    /// Fault: memory was refused.
    pub fn new(alloc: Global, limit: u64, seats: u64) -> Result<(Tickets, TicketSeat), NoMemory>
        requires some { 1 ≤ seats }
        requires most { limit + seats ≤ 2 ^ 63 }
        ensures limit { IfOk result (λ t. limit_of t.0 ≡ limit) }
        ensures seats { IfOk result (λ t. seats_of t.0 ≡ seats) }
        ensures of { IfOk result (λ t. IsOf t.1 t.0) }
        ensures whole { IfOk result (λ t. Knows t.1 seats 0 []) }
    {
        let (table, seat) = Table::of_words(alloc, &[0], &Key { limit, seats })?;
        Ok((Tickets { table, limit }, TicketSeat { seat, done: false }))
    }

    /// Splits off one more seat, which gets one part of the given seat. The caller ensures that the given seat has at
    /// least two parts and belongs to these tickets.
    pub fn split(&self, seat: &mut TicketSeat) -> TicketSeat
        requires of { IsOf seat.old self.now }
        requires more { 2 ≤ parts_of seat.old }
        ensures of { IsOf seat.new self.entry.now }
        ensures new { IsOf result self.entry.now }
        ensures part { Knows result 1 0 [] }
        ensures left { parts_of seat.new + 1 ≡ parts_of seat.old }
        ensures used { used_by seat.new ≡ used_by seat.old }
        ensures drawn { drawn_with seat.new ≡ drawn_with seat.old }
        ensures still { HasEnded seat.old → HasEnded seat.new }
    {
        let seat = self.table.shared.split_seat::<Cut>(&mut seat.seat);
        TicketSeat { seat, done: false }
    }

    /// Merges another seat into `seat`. The caller ensures that both belong to these tickets.
    pub fn join(&self, seat: &mut TicketSeat, other: TicketSeat)
        requires of { IsOf seat.old self.now }
        requires too { IsOf other self.now }
        ensures of { IsOf seat.new self.entry.now }
        ensures both { Knows seat.new (parts_of seat.old + parts_of other) (used_by seat.old + used_by other)
            (drawn_with seat.old ++ drawn_with other) }
        ensures still { HasEnded seat.old → HasEnded seat.new }
    {
        let TicketSeat { seat: other, done } = other;
        self.table.shared.join_seat::<Cut>(&mut seat.seat, other);
        seat.done = seat.done || done;
    }

    /// Draws the next ticket, which no other draw gets. `None` once all are drawn. After `None`, a seat gets no more
    /// tickets and does not access the table again. The caller ensures that the seat belongs to these tickets.
    pub fn draw(&self, seat: &mut TicketSeat) -> Option<u64>
        requires of { IsOf seat.old self.now }
        ensures of { IsOf seat.new self.entry.now }
        ensures number { IfSome result (λ n. n < limit_of self.entry.now) }
        ensures drawn { IfSome result (λ n. Knows seat.new (parts_of seat.old) (used_by seat.old)
            (drawn_with seat.old ++ n ∷ [])) }
        ensures none { IfNone result (HasEnded seat.new) }
        ensures same { IfNone result (drawn_with seat.new ≡ drawn_with seat.old) }
        ensures whole { parts_of seat.new + used_by seat.new ≡ parts_of seat.old + used_by seat.old }
        ensures again { HasEnded seat.old → (result ≡ None) × (seat.new ≡ seat.old) }
    {
        if seat.done {
            return None;
        }
        let number = self.table.shared.fetch_add::<Drew>(&mut seat.seat, 0, 1);
        if number < self.limit {
            Some(number)
        } else {
            seat.done = true;
            None
        }
    }

    /// How many tickets were drawn. The caller ensures that the seat belongs to these tickets.
    pub fn close(self, seat: TicketSeat) -> u64
        requires of { IsOf seat self }
        ensures most { result ≤ limit_of self }
        ensures once { (x : ℕ) → times x (drawn_with seat) ≤ once_below x result }
        ensures all { parts_of seat + used_by seat ≡ seats_of self → (x : ℕ)
            → times x (drawn_with seat) ≡ once_below x result }
        ensures ended { HasEnded seat → result ≡ limit_of self }
    {
        let Tickets { table, limit } = self;
        let TicketSeat { seat, done: _ } = seat;
        let closed = table.close_with(seat);
        let word = closed.word(0);
        closed.free();
        word.min(limit)
    }
}
