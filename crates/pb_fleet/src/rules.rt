//! The rules of the table of tickets, for the proof that each ticket is drawn once.

use atomic_table::{Join, Play, Split, TableRule};
use std::collections::LinkedList;

/// The constants of the tickets, set when they are made.
#[derive(Clone, Copy, Drop)]
pub struct Key {
    /// How many tickets there are.
    pub limit: u64,
    /// Into how many seats the first seat may be split.
    pub seats: u64,
}

/// What a seat knows. It exists only in proofs.
pub struct View {
    /// How many tickets there are.
    pub limit: u64,
    /// Its part of the seats that may still be split off.
    pub parts: u64,
    /// How many parts were used up by draws that got no ticket.
    pub used: u64,
    /// The numbers that were drawn with this seat.
    pub drawn: LinkedList<u64>,
}

/// The rule: the table's only word is how many tickets were asked for.
pub struct Rule;

impl TableRule<(), View, Key> for Rule {
    ghost use Rattle.pb_fleet.specs.Rules.{IsGiven, newcomer_of};

    ghost holds = { IsGiven };

    ghost first = { newcomer_of };
}

/// A draw asks for one more ticket.
pub struct Drew;

impl Play<(), View> for Drew {
    ghost use Rattle.pb_fleet.specs.Rules.{Draws};

    ghost then = { Draws };
}

/// How seats are split and joined.
pub struct Cut;

impl Split<View> for Cut {
    ghost use Rattle.std.specs.Prelude.{[]};
    ghost use Rattle.pb_fleet.specs.Rules.{cut, view};

    ghost left = { cut };

    ghost right = { λ v. view v.limit 1 0 [] };
}

impl Join<View> for Cut {
    ghost use Rattle.std.specs.Prelude.{[]};
    ghost use Rattle.pb_fleet.specs.Rules.{both, view};

    ghost both = { both };

    ghost spent = { view 0 0 0 [] };
}
