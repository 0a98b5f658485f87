//! Tests of tickets: on one thread, on four threads, and with refused memory.

ghost use Rattle.std.specs.Prelude.{◌≡◌, ◌+◌, ◌≤◌};
ghost use Rattle.pb_fleet.specs.Seats.{IsOf, parts_of};

use pb_fleet::{TicketSeat, Tickets};
use std::process::Abort;
use std::sync::Wait;
use std::thread;
use std::thread::Threads;

/// Two seats draw alternately.
#[test]
fn gives_each_number_once(rt: HostRuntime) {
    let (tickets, mut first) = Tickets::new(rt.alloc(), 3, 2).expect(&rt, "tickets");
    let mut second = tickets.split(&mut first);
    assert_eq!(rt; tickets.draw(&mut first), Some(0));
    assert_eq!(rt; tickets.draw(&mut second), Some(1));
    assert_eq!(rt; tickets.draw(&mut first), Some(2));
    assert_eq!(rt; tickets.draw(&mut second), None);
    assert_eq!(rt; tickets.draw(&mut second), None);
    tickets.join(&mut first, second);
    assert_eq!(rt; tickets.close(first), 3);
}

/// Either memory was refused, or the tickets exist and each number is drawn once.
#[test]
fn refused_memory_in_tickets(rt: HostRuntime) {
    let Ok((tickets, mut seat)) = Tickets::new(rt.alloc(), 2, 1) else {
        let _ = println!(rt; "refused");
        return;
    };
    assert_eq!(rt; tickets.draw(&mut seat), Some(0));
    assert_eq!(rt; tickets.draw(&mut seat), Some(1));
    assert_eq!(rt; tickets.draw(&mut seat), None);
    assert_eq!(rt; tickets.close(seat), 2);
}

/// If not all tickets are drawn, `close` returns how many were.
#[test]
fn closes_with_what_was_drawn(rt: HostRuntime) {
    let (tickets, mut seat) = Tickets::new(rt.alloc(), 9, 1).expect(&rt, "tickets");
    assert_eq!(rt; tickets.draw(&mut seat), Some(0));
    assert_eq!(rt; tickets.draw(&mut seat), Some(1));
    assert_eq!(rt; tickets.close(seat), 2);
}

/// How many tickets the four threads draw.
const LIMIT: u64 = 10_000;

#[test]
fn four_threads_draw_them_all(rt: HostRuntime) {
    let (tickets, mut seat) = Tickets::new(rt.alloc(), LIMIT, 5).expect(&rt, "tickets");
    let mut numbers = race(&rt, &tickets, &mut seat);
    numbers.sort_unstable();
    assert!(rt; numbers.into_iter().eq(0..LIMIT));
    assert_eq!(rt; tickets.close(seat), LIMIT);
}

/// A seat with its tickets.
#[derive(Drop)]
struct Player<'a> {
    tickets: &'a Tickets,
    seat: TicketSeat,
    ghost of: { IsOf seat tickets.now },
}

impl Player<'_> {
    fn draw(&mut self) -> Option<u64> {
        self.tickets.draw(&mut self.seat)
    }
}

/// Four threads draw until there are no more tickets. Returns all numbers that they got.
fn race<R: AllocGlobal + Abort + Threads + Wait + Sync>(
    rt: &R,
    tickets: &Tickets,
    seat: &mut TicketSeat,
) -> Vec<u64>
    requires of { IsOf seat.old tickets.now }
    requires parts { parts_of seat.old ≡ 5 }
    ensures of { IsOf seat.new tickets.entry.now }
{
    let players = [
        player_with(tickets, seat),
        player_with(tickets, seat),
        player_with(tickets, seat),
        player_with(tickets, seat),
    ];
    thread::scope(thread::scope_env(), rt, |scope| -> Vec<u64> {
        let mut running = Vec::new(rt.alloc());
        for player in players {
            let thread = scope
                .spawn(move || draws_all(rt, player))
                .expect(rt, "a thread");
            running.push(thread).expect(rt, "room");
        }
        let mut numbers = Vec::new(rt.alloc());
        for thread in running {
            numbers.append(&mut thread.join(rt)).expect(rt, "room");
        }
        numbers
    })
}

fn player_with<'a>(tickets: &'a Tickets, seat: &mut TicketSeat) -> Player<'a>
    requires of { IsOf seat.old tickets.now }
    requires more { 2 ≤ parts_of seat.old }
    ensures of { IsOf seat.new tickets.entry.now }
    ensures left { parts_of seat.new + 1 ≡ parts_of seat.old }
{
    Player {
        tickets,
        seat: tickets.split(seat),
    }
}

/// All numbers drawn with a seat.
fn draws_all(rt: &(impl AllocGlobal + Abort), mut player: Player<'_>) -> Vec<u64> {
    let mut numbers = Vec::new(rt.alloc());
    for _ in 0..=LIMIT {
        match player.draw() {
            Some(number) => numbers.push(number).expect(rt, "room"),
            None => break,
        }
    }
    numbers
}
