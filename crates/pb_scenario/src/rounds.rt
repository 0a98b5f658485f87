//! Steps by when they happen next.

ghost use Rattle.std.specs.Prelude.{◌≡◌, ◌≤◌, ◌<◌, ◌+◌, ◌++◌, ◌^◌, IfOk, Some, length, map, slice_get};
ghost use Rattle.std.specs.Bool.{Decides};
ghost use Rattle.std.specs.List.{All};
ghost use Rattle.std.specs.Vec.{vec_capacity, vec_len};
ghost use Rattle.pb_timers.specs.Timers.{last_moment};
ghost use Rattle.pb_scenario.specs.Steps.{deed_of, planned_of, steps_of};
ghost use Rattle.pb_scenario.specs.Repeats.{AreSteady, IsSteady, all_of, happenings_from, repeat_in};
ghost use Rattle.pb_scenario.specs.Rounds.{AreAllFrom, IsBlock, IsSteadyRound, block_of, deeds_at, others_than, rounds_of};
ghost use Rattle.pb_scenario.specs.Rounds.{series_of, soonest};

use crate::coming::earlier;
use crate::deeds::{Deed, Step};
use crate::repeats::Repeat;
use std::alloc::{AllocError, Global};

/// A step by when it happens next, if it still does.
#[derive(Clone, Copy, Debug)]
pub(crate) struct Round<'a> {
    pub(crate) deed: &'a Deed,
    pub(crate) at: u64,
    pub(crate) every: u64,
    /// How often it still happens.
    pub(crate) left: u64,
}

/// The rounds of some steps before any has happened, in a run up to `until`. The first of the steps has an index.
pub(crate) fn new_rounds<'a>(
    alloc: Global,
    steps: &'a [Step],
    place: usize,
    repeats: &[Option<Repeat>],
    until: u64,
) -> Result<Vec<Round<'a>>, AllocError>
    requires place { place + length steps.now < 2 ^ 64 }
    requires steady { AreSteady repeats.now }
    requires end { until ≤ last_moment }
    ensures rounds { IfOk result (λ rounds.
        rounds_of rounds.items ≡ happenings_from until repeats.now place (steps_of steps.now)) }
    ensures steady { IfOk result (λ rounds. All IsSteadyRound rounds.items) }
    ensures count { IfOk result (λ rounds. length rounds.items ≡ length steps.now) }
{
    let mut rounds = Vec::with_capacity(alloc, steps.len())?;
    for (index, step) in steps.iter().enumerate() {
        rounds.push_reserved(new_round(step, repeat_of(repeats, place + index), until));
    }
    Ok(rounds)
}

/// How the step with an index repeats, if it does.
fn repeat_of(repeats: &[Option<Repeat>], place: usize) -> Option<Repeat>
    requires { AreSteady repeats.now }
    ensures repeat { result ≡ repeat_in (slice_get repeats.now place) }
    ensures steady { IsSteady result }
{
    match repeats.get(place) {
        Some(repeat) => *repeat,
        None => None,
    }
}

/// The round of a step before it has happened.
fn new_round(step: &Step, repeat: Option<Repeat>, until: u64) -> Round<'_>
    requires steady { IsSteady repeat }
    requires end { until ≤ last_moment }
    ensures all { series_of result ≡ all_of until (planned_of step.now) repeat }
    ensures steady { IsSteadyRound result }
{
    let (every, left) = match repeat {
        Some(Repeat { every, count }) => {
            let to_the_end = until.saturating_sub(step.at) / every + 1;
            (every, count.unwrap_or(to_the_end))
        }
        None => (1, 1),
    };
    Round {
        deed: &step.deed,
        at: step.at,
        every,
        left,
    }
}

impl<'a> Round<'a> {
    ghost use Rattle.std.specs.Prelude.{◌≡◌, ◌≤◌, ◌<◌, ◌+◌};
    ghost use Rattle.pb_timers.specs.Timers.{last_moment};
    ghost use Rattle.pb_scenario.specs.Rounds.{IsSteadyRound, series_of, soonest};

    /// The moment at which it happens next, in bit times.
    fn next(self) -> Option<u64>
        ensures { result ≡ soonest (series_of self.entry) }
    {
        if self.left > 0 { Some(self.at) } else { None }
    }

    /// The round after it has happened once more.
    fn after(self) -> Round<'a>
        requires left { 0 < self.left }
        requires moment { self.at ≤ last_moment }
        requires steady { IsSteadyRound self }
        ensures deed { result.deed ≡ self.entry.deed }
        ensures at { result.at ≡ self.entry.at + self.entry.every }
        ensures every { result.every ≡ self.entry.every }
        ensures left { result.left + 1 ≡ self.entry.left }
    {
        Round {
            at: self.at + self.every,
            left: self.left - 1,
            ..self
        }
    }
}

/// The first moment at which one of some rounds happens next, in bit times.
fn first_of(rounds: &[Round<'_>]) -> Option<u64>
    ensures { result ≡ soonest (rounds_of rounds.now) }
{
    let mut first = None;
    for round in rounds {
        first = earlier(first, round.next());
    }
    first
}

/// Appends what the rounds do at a moment, in their order, and moves these rounds on. None of them happens before.
fn happen<'a>(rounds: &mut [Round<'a>], at: u64, today: &mut Vec<&'a Deed>)
    requires from { AreAllFrom at (rounds_of rounds.old) }
    requires steady { All IsSteadyRound rounds.old }
    requires moment { at ≤ last_moment }
    requires room { vec_len today.old + length rounds.old ≤ vec_capacity today.old }
    ensures rounds { rounds_of rounds.new ≡ others_than at (rounds_of rounds.old) }
    ensures today { map (λ d. deed_of d.now) today.new.items
        ≡ map (λ d. deed_of d.now) today.old.items ++ deeds_at at (rounds_of rounds.old) }
    ensures steady { All IsSteadyRound rounds.new }
    ensures count { length rounds.new ≡ length rounds.old }
    ensures room { vec_capacity today.new ≡ vec_capacity today.old }
    ensures more { vec_len today.new ≤ vec_len today.old + length rounds.old }
{
    for place in 0..rounds.len() {
        rounds[place] = happen_once(rounds[place], at, today);
    }
}

/// Appends what a round does at a moment, and returns the round after that. It does not happen before.
fn happen_once<'a>(round: Round<'a>, at: u64, today: &mut Vec<&'a Deed>) -> Round<'a>
    requires from { AreAllFrom at (series_of round) }
    requires steady { IsSteadyRound round }
    requires moment { at ≤ last_moment }
    requires room { vec_len today.old < vec_capacity today.old }
    ensures left { series_of result ≡ others_than at (series_of round.entry) }
    ensures today { map (λ d. deed_of d.now) today.new.items
        ≡ map (λ d. deed_of d.now) today.old.items ++ deeds_at at (series_of round.entry) }
    ensures steady { IsSteadyRound result }
    ensures room { vec_capacity today.new ≡ vec_capacity today.old }
    ensures more { vec_len today.new ≤ vec_len today.old + 1 }
{
    if is_at(round.next(), at) {
        today.push_reserved(round.deed);
        round.after()
    } else {
        round
    }
}

/// Whether there is a moment and it is this one.
pub(crate) fn is_at(next: Option<u64>, at: u64) -> bool
    ensures { Decides result (next ≡ Some at) }
{
    match next {
        Some(next) => next == at,
        None => false,
    }
}

/// Some of the steps in their order, so that a moment at which none of them happens costs one comparison.
#[derive(Debug, Drop)]
pub(crate) struct Block<'a> {
    pub(crate) rounds: Vec<Round<'a>>,
    /// The first moment at which one of them happens next, in bit times.
    pub(crate) next: Option<u64>,
}

impl<'a> Block<'a> {
    ghost use Rattle.std.specs.Prelude.{◌≡◌, ◌≤◌, ◌+◌, ◌++◌, length, map};
    ghost use Rattle.std.specs.List.{All};
    ghost use Rattle.std.specs.Vec.{vec_capacity, vec_len};
    ghost use Rattle.pb_timers.specs.Timers.{last_moment};
    ghost use Rattle.pb_scenario.specs.Steps.{deed_of};
    ghost use Rattle.pb_scenario.specs.Rounds.{AreAllFrom, IsBlock, IsSteadyRound, block_of, deeds_at, others_than};

    /// A block of some rounds.
    pub(crate) fn new(rounds: Vec<Round<'a>>) -> Block<'a>
        requires { All IsSteadyRound rounds.items }
        ensures rounds { result.rounds ≡ rounds.entry }
        ensures kept { IsBlock result }
    {
        let next = first_of(&rounds);
        Block { rounds, next }
    }

    /// Appends what its steps do at a moment, in their order, and goes on. None of them happens before.
    pub(crate) fn happen(&mut self, at: u64, today: &mut Vec<&'a Deed>)
        requires kept { IsBlock self.old }
        requires from { AreAllFrom at (block_of self.old) }
        requires moment { at ≤ last_moment }
        requires room { vec_len today.old + length self.old.rounds.items ≤ vec_capacity today.old }
        ensures kept { IsBlock self.new }
        ensures left { block_of self.new ≡ others_than at (block_of self.old) }
        ensures today { map (λ d. deed_of d.now) today.new.items
            ≡ map (λ d. deed_of d.now) today.old.items ++ deeds_at at (block_of self.old) }
        ensures count { length self.new.rounds.items ≡ length self.old.rounds.items }
        ensures room { vec_capacity today.new ≡ vec_capacity today.old }
        ensures more { vec_len today.new ≤ vec_len today.old + length self.old.rounds.items }
    {
        if is_at(self.next, at) {
            happen(&mut self.rounds, at, today);
            self.next = first_of(&self.rounds);
        }
    }
}
