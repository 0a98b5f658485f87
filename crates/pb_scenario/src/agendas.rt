//! What steps do, moment by moment, where some of them repeat.

ghost use Rattle.std.specs.Prelude.{◌≡◌, ◌≤◌, ◌+◌, ◌++◌, IfOk, length, map};
ghost use Rattle.std.specs.List.{All};
ghost use Rattle.std.specs.Vec.{vec_capacity, vec_len};
ghost use Rattle.pb_timers.specs.Timers.{last_moment};
ghost use Rattle.pb_scenario.specs.Steps.{deed_of, steps_of};
ghost use Rattle.pb_scenario.specs.Repeats.{AreSteady, happenings};
ghost use Rattle.pb_scenario.specs.Rounds.{AreAllFrom, IsBlock, blocks_of, count_of, deeds_at, others_than, soonest};

use crate::coming::earlier;
use crate::deeds::{Deed, Step};
use crate::repeats::Repeat;
use crate::rounds::{Block, is_at, new_rounds};
use std::alloc::{AllocError, Global};

/// How many steps a block has, at most. A moment costs the number of blocks, and of the steps in those that have one.
const BLOCK: usize = 64;

/// The steps of a scenario by when they happen next.
#[derive(Debug, Drop)]
pub(crate) struct Agenda<'a> {
    pub(crate) blocks: Vec<Block<'a>>,
    /// The first moment at which a step happens next, in bit times.
    pub(crate) next: Option<u64>,
}

impl<'a> Agenda<'a> {
    ghost use Rattle.std.specs.Prelude.{◌≡◌, ◌≤◌, ◌+◌, ◌++◌, IfOk, length, map};
    ghost use Rattle.std.specs.Vec.{vec_capacity, vec_len};
    ghost use Rattle.pb_timers.specs.Timers.{last_moment};
    ghost use Rattle.pb_scenario.specs.Steps.{deed_of, steps_of};
    ghost use Rattle.pb_scenario.specs.Repeats.{AreSteady, happenings};
    ghost use Rattle.pb_scenario.specs.Rounds.{AreAllFrom, IsAgenda, blocks_of, count_of, deeds_at, others_than};

    /// The steps before any has happened, in a run up to `until`, in bit times.
    pub(crate) fn new(
        alloc: Global,
        steps: &'a [Step],
        repeats: &[Option<Repeat>],
        until: u64,
    ) -> Result<Agenda<'a>, AllocError>
        requires steady { AreSteady repeats.now }
        requires end { until ≤ last_moment }
        ensures kept { IfOk result IsAgenda }
        ensures all { IfOk result (λ agenda.
            blocks_of agenda.blocks.items ≡ happenings until repeats.now (steps_of steps.now)) }
        ensures count { IfOk result (λ agenda. count_of agenda.blocks.items ≡ length steps.now) }
    {
        let blocks = new_blocks(alloc, steps, repeats, until)?;
        let next = first_of(&blocks);
        Ok(Agenda { blocks, next })
    }

    /// Appends what the steps do at a moment, in their order, and goes on. None of them happens before.
    pub(crate) fn happen(&mut self, at: u64, today: &mut Vec<&'a Deed>)
        requires kept { IsAgenda self.old }
        requires from { AreAllFrom at (blocks_of self.old.blocks.items) }
        requires moment { at ≤ last_moment }
        requires room { vec_len today.old + count_of self.old.blocks.items ≤ vec_capacity today.old }
        ensures kept { IsAgenda self.new }
        ensures left { blocks_of self.new.blocks.items ≡ others_than at (blocks_of self.old.blocks.items) }
        ensures today { map (λ d. deed_of d.now) today.new.items
            ≡ map (λ d. deed_of d.now) today.old.items ++ deeds_at at (blocks_of self.old.blocks.items) }
        ensures count { count_of self.new.blocks.items ≡ count_of self.old.blocks.items }
        ensures room { vec_capacity today.new ≡ vec_capacity today.old }
    {
        if is_at(self.next, at) {
            happen(&mut self.blocks, at, today);
            self.next = first_of(&self.blocks);
        }
    }
}

/// The blocks of some steps before any has happened, in a run up to `until`.
fn new_blocks<'a>(
    alloc: Global,
    steps: &'a [Step],
    repeats: &[Option<Repeat>],
    until: u64,
) -> Result<Vec<Block<'a>>, AllocError>
    requires steady { AreSteady repeats.now }
    requires end { until ≤ last_moment }
    ensures kept { IfOk result (λ blocks. All IsBlock blocks.items) }
    ensures all { IfOk result (λ blocks.
        blocks_of blocks.items ≡ happenings until repeats.now (steps_of steps.now)) }
    ensures count { IfOk result (λ blocks. count_of blocks.items ≡ length steps.now) }
{
    let mut blocks = Vec::new(alloc);
    let mut left = steps;
    let mut place = 0;
    while !left.is_empty() {
        let (front, back) = left.split_at(left.len().min(BLOCK));
        let rounds = new_rounds(alloc, front, place, repeats, until)?;
        blocks.push(Block::new(rounds))?;
        left = back;
        place += front.len();
    }
    Ok(blocks)
}

/// The first moment at which a step of some blocks happens next, in bit times.
fn first_of(blocks: &[Block<'_>]) -> Option<u64>
    requires { All IsBlock blocks.now }
    ensures { result ≡ soonest (blocks_of blocks.now) }
{
    let mut first = None;
    for block in blocks {
        first = earlier(first, block.next);
    }
    first
}

/// Appends what the steps of some blocks do at a moment, in their order, and moves these steps on. None of them happens
/// before.
fn happen<'a>(blocks: &mut [Block<'a>], at: u64, today: &mut Vec<&'a Deed>)
    requires kept { All IsBlock blocks.old }
    requires from { AreAllFrom at (blocks_of blocks.old) }
    requires moment { at ≤ last_moment }
    requires room { vec_len today.old + count_of blocks.old ≤ vec_capacity today.old }
    ensures kept { All IsBlock blocks.new }
    ensures left { blocks_of blocks.new ≡ others_than at (blocks_of blocks.old) }
    ensures today { map (λ d. deed_of d.now) today.new.items
        ≡ map (λ d. deed_of d.now) today.old.items ++ deeds_at at (blocks_of blocks.old) }
    ensures count { count_of blocks.new ≡ count_of blocks.old }
    ensures room { vec_capacity today.new ≡ vec_capacity today.old }
{
    for place in 0..blocks.len() {
        blocks[place].happen(at, today);
    }
}
