//! A walk through the steps of a scenario.

use crate::advancing::advance;
use crate::coming::{comes, earlier, next_instant, next_turn, takes_turn, time_to};
use crate::deeds::Step;
use pb_timers::Moment;
use std::alloc::{AllocError, Global};
use std::marker::Model;

/// A walk through the steps of a scenario, from instant to instant. All its calls together take time in proportion to
/// the steps, and each instant in proportion to the taps.
#[derive(Debug, Drop)]
pub struct Walk<'a> {
    steps: &'a [Step],
    // The steps at this moment, and those after it.
    today: &'a [Step],
    later: &'a [Step],
    until: u64,
    clock: u64,
    // Until when each tap is withheld, by the steps up to now.
    held: Vec<u64>,
}

impl<'a> Model for Walk<'a> {
    ghost use Rattle.pb_scenario.specs.Walks.{WalkView};

    ghost Value = { WalkView };

    ghost use Rattle.pb_scenario.specs.Walking.{walk_view, IsWalk};

    ghost view = { walk_view };

    ghost invariant = { IsWalk };
}

impl<'a> Walk<'a> {
    ghost use Rattle.std.specs.Prelude.{◌≡◌, ◌≤◌, ◌<◌, IfOk, OnOk, IfSome, length, nat_le};
    ghost use Rattle.pb_timers.specs.Timers.{last_moment};
    ghost use Rattle.law_turn.specs.Stations.{earlier};
    ghost use Rattle.law_runs.specs.Runs.{comes, wants, next, onward, passing};
    ghost use Rattle.law_runs.specs.Bus.{bus};
    ghost use Rattle.pb_scenario.specs.Steps.{steps_of};
    ghost use Rattle.pb_scenario.specs.Walks.{AreFrom, events_after, events_before};
    ghost use Rattle.pb_scenario.specs.Walks.{new_walk, plan_in, passes, turns_in};

    /// A walk at 0 over `taps` taps, up to the moment `until`, in bit times. The caller ensures that the steps are in
    /// order of time, and that `until` is at most 2^62.
    ///
    /// Fault: memory was refused.
    pub fn new(
        alloc: Global,
        steps: &'a [Step],
        taps: usize,
        until: u64,
    ) -> Result<Walk<'a>, AllocError>
        requires order { AreFrom 0 (steps_of steps.now) }
        requires end { until ≤ last_moment }
        ensures { IfOk result (λ walk. walk ≡ new_walk (steps_of steps.now) taps until) }
    {
        let mut held = vec![in alloc; 0; taps]?;
        let (today, later) = advance(steps, 0, &mut held);
        Ok(Walk {
            steps,
            today,
            later,
            until,
            clock: 0,
            held,
        })
    }

    /// The present moment, in bit times.
    pub fn now(&self) -> u64
        ensures { result ≡ self.now.clock }
    {
        self.clock
    }

    /// The number of taps.
    pub fn taps(&self) -> usize
        ensures { result ≡ self.now.taps }
    {
        self.held.len()
    }

    /// The last moment of the walk, in bit times.
    pub fn until(&self) -> u64
        ensures end { result ≡ self.now.until }
        ensures bound { result ≤ last_moment }
    {
        self.until
    }

    /// The steps at this moment, in the order of the scenario. Their events before and after the turns are those of the
    /// plan.
    pub fn today(&self) -> &'a [Step]
        ensures early { events_before (steps_of result.now) ≡ (plan_in self.now).early self.now.clock }
        ensures late { events_after (steps_of result.now) ≡ (plan_in self.now).late self.now.clock }
    {
        self.today
    }

    /// Whether a tap, due at `due`, takes its turn now: it is due and not withheld. The caller ensures that the tap is
    /// one of the walk's.
    pub fn wants(&self, tap: usize, due: Option<Moment>) -> bool
        requires { tap < self.now.taps }
        ensures { result ≡ wants (plan_in self.now) self.now.clock tap due }
    {
        takes_turn(self.held[tap], self.clock, due)
    }

    /// Whether a tap may take its turn now, if it is due: it is not withheld. The caller ensures that the tap is one of the
    /// walk's.
    #[inline(always)]
    pub fn lets(&self, tap: usize) -> bool
        requires { tap < self.now.taps }
        ensures { result ≡ nat_le ((plan_in self.now).held_until self.now.clock tap) self.now.clock }
    {
        self.held[tap] <= self.clock
    }

    /// Lists the taps that take their turns now, in ascending order, given when each is due. The memory of `taps` is
    /// reused. The caller ensures that there are as many dues as taps.
    ///
    /// Fault: memory was refused.
    pub fn note_turns(
        &self,
        dues: &[Option<Moment>],
        taps: &mut Vec<usize>,
    ) -> Result<(), AllocError>
        requires { length dues.now ≡ self.now.taps }
        ensures { OnOk result (taps.new.items ≡ turns_in self.now dues.now) }
    {
        taps.clear();
        for (tap, due) in dues.iter().enumerate() {
            if self.wants(tap, *due) {
                taps.push(tap)?;
            }
        }
        Ok(())
    }

    /// The next instant, in bit times, if there is one: the first moment after now, and not past the end, at which
    /// there is a step, something changes on the bus, a tap is due that is not withheld, or a withholding ends. The
    /// caller ensures that there are as many dues as taps.
    pub fn next(&self, dues: &[Option<Moment>], change: Option<Moment>) -> Option<u64>
        requires { length dues.now ≡ self.now.taps }
        ensures next { result ≡ next (plan_in self.now) self.now.clock dues.now change }
        ensures bounds { IfSome result (λ at. (self.now.clock < at) × (at ≤ self.now.until)) }
    {
        let turn = next_turn(&self.held, self.clock, dues);
        self.next_by(turn, change)
    }

    /// The earlier of `first` and the moment, in bit times, at which a tap due at `due` may take a turn next: when its
    /// withholding ends, or when it is due after now. This folds one tap's next due time into a minimum. The caller
    /// ensures that the tap is one of the walk's.
    pub fn sooner(&self, first: Option<u64>, tap: usize, due: Option<Moment>) -> Option<u64>
        requires { tap < self.now.taps }
        ensures { result ≡ earlier first (comes (plan_in self.now) self.now.clock tap due) }
    {
        earlier(first, comes(self.held[tap], self.clock, due))
    }

    /// The next instant, as [`next`](Walk::next) returns it, given the first moment at which a tap may take a turn
    /// next.
    pub fn next_by(&self, turn: Option<u64>, change: Option<Moment>) -> Option<u64>
        ensures next { result ≡ onward (plan_in self.now) self.now.clock
            (earlier ((plan_in self.now).later self.now.clock) (earlier change turn)) }
        ensures bounds { IfSome result (λ at. (self.now.clock < at) × (at ≤ self.now.until)) }
    {
        next_instant(self.clock, self.until, self.later, change, turn)
    }

    /// How much time passes from now, in bit times: to the next instant, or if there is none to the end, if that is
    /// later. The caller ensures that the next instant is later than now.
    pub fn pass_to(&self, next: Option<u64>) -> Option<u64>
        requires { IfSome next (λ at. self.now.clock < at) }
        ensures { passes result ≡ passing bus (plan_in self.now) self.now.clock next }
    {
        time_to(self.clock, next.unwrap_or(self.until))
    }

    /// Advances to a moment, in bit times. The caller ensures that it is later than now and not past the end.
    pub fn go_to(&mut self, at: u64)
        requires later { self.old.clock < at }
        requires end { at ≤ self.old.until }
        ensures { self.new ≡ record self.old { clock = at } }
    {
        let (today, later) = advance(self.later, at, &mut self.held);
        self.today = today;
        self.later = later;
        self.clock = at;
    }
}
