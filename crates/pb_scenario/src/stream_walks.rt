//! A walk through steps that may repeat.

use crate::advancing::hold_deeds;
use crate::agendas::Agenda;
use crate::coming::{comes, earlier, next_moment, time_to};
use crate::deeds::{Deed, Step};
use crate::repeats::Repeat;
use pb_timers::Moment;
use std::alloc::{AllocError, Global};
use std::marker::Model;

/// A walk through steps that may repeat, from instant to instant, as a [`Walk`](crate::Walk) goes through steps that do
/// not. What repeats is never listed: memory is in proportion to the steps, and a moment at which none happens costs
/// one comparison.
#[derive(Debug, Drop)]
pub struct StreamWalk<'a> {
    steps: &'a [Step],
    repeats: &'a [Option<Repeat>],
    agenda: Agenda<'a>,
    // What happens at this moment.
    today: Vec<&'a Deed>,
    until: u64,
    clock: u64,
    // Until when each tap is withheld, by the steps up to now.
    held: Vec<u64>,
}

impl<'a> Model for StreamWalk<'a> {
    ghost use Rattle.pb_scenario.specs.Walks.{WalkView};

    ghost Value = { WalkView };

    ghost use Rattle.pb_scenario.specs.StreamWalking.{walk_view, IsWalk};

    ghost view = { walk_view };

    ghost invariant = { IsWalk };
}

impl<'a> StreamWalk<'a> {
    ghost use Rattle.std.specs.Prelude.{◌≡◌, ◌≤◌, ◌<◌, IfOk, IfSome, map, nat_le};
    ghost use Rattle.pb_timers.specs.Timers.{last_moment};
    ghost use Rattle.law_turn.specs.Stations.{earlier};
    ghost use Rattle.law_runs.specs.Runs.{comes, onward, passing};
    ghost use Rattle.law_runs.specs.Bus.{bus};
    ghost use Rattle.pb_scenario.specs.declared.deeds.When.TheVariants.{AfterTurns, BeforeTurns};
    ghost use Rattle.pb_scenario.specs.Said.{said_of};
    ghost use Rattle.pb_scenario.specs.Steps.{deed_of, steps_of};
    ghost use Rattle.pb_scenario.specs.Repeats.{AreSteady, happenings};
    ghost use Rattle.pb_scenario.specs.Walks.{new_walk, plan_in, passes};

    /// A walk at 0 over `taps` taps, up to the moment `until`, in bit times. `repeats` has how each step repeats, if it
    /// does; a step for which it has nothing happens once. The caller ensures that `until` is at most 2^62.
    ///
    /// Fault: memory was refused.
    pub fn new(
        alloc: Global,
        steps: &'a [Step],
        repeats: &'a [Option<Repeat>],
        taps: usize,
        until: u64,
    ) -> Result<StreamWalk<'a>, AllocError>
        requires steady { AreSteady repeats.now }
        requires end { until ≤ last_moment }
        ensures { IfOk result
            (λ walk. walk ≡ new_walk (happenings until repeats.now (steps_of steps.now)) taps until) }
    {
        let mut held = vec![in alloc; 0; taps]?;
        let mut today = Vec::with_capacity(alloc, steps.len())?;
        let mut agenda = Agenda::new(alloc, steps, repeats, until)?;
        agenda.happen(0, &mut today);
        hold_deeds(&mut held, 0, &today);
        Ok(StreamWalk {
            steps,
            repeats,
            agenda,
            today,
            until,
            clock: 0,
            held,
        })
    }

    /// The present moment, in bit times.
    pub fn now(&self) -> u64
        ensures { result ≡ self.now.clock }
    {
        self.clock
    }

    /// The same as a moment.
    pub fn moment(&self) -> Moment
        ensures { result ≡ self.now.clock }
    {
        Moment::at(self.clock)
    }

    /// The number of taps.
    pub fn taps(&self) -> usize
        ensures { result ≡ self.now.taps }
    {
        self.held.len()
    }

    /// What the steps do at this moment, in the order of the scenario. Their events before and after the turns are those
    /// of the plan.
    pub fn today(&self) -> &[&'a Deed]
        ensures early { said_of BeforeTurns (map (λ d. deed_of d.now) result.now)
            ≡ (plan_in self.now).early self.now.clock }
        ensures late { said_of AfterTurns (map (λ d. deed_of d.now) result.now)
            ≡ (plan_in self.now).late self.now.clock }
    {
        &self.today
    }

    /// Whether a tap may take its turn now, if it is due: it is not withheld. The caller ensures that the tap is one of the
    /// walk's.
    #[inline(always)]
    pub fn lets(&self, tap: usize) -> bool
        requires { tap < self.now.taps }
        ensures { result ≡ nat_le ((plan_in self.now).held_until self.now.clock tap) self.now.clock }
    {
        self.held[tap] <= self.clock
    }

    /// The earlier of `first` and the moment, in bit times, at which a tap due at `due` may take a turn next: when its
    /// withholding ends, or when it is due after now. This folds one tap's next due time into a minimum. The caller
    /// ensures that the tap is one of the walk's.
    pub fn sooner(&self, first: Option<u64>, tap: usize, due: Option<Moment>) -> Option<u64>
        requires { tap < self.now.taps }
        ensures { result ≡ earlier first (comes (plan_in self.now) self.now.clock tap due) }
    {
        earlier(first, comes(self.held[tap], self.clock, due))
    }

    /// The next instant, in bit times, if there is one: the first moment after now, and not past the end, at which a
    /// step happens, something changes on the bus, or a tap may take a turn. `turn` is the first moment at which one
    /// may.
    pub fn next_by(&self, turn: Option<u64>, change: Option<Moment>) -> Option<u64>
        ensures next { result ≡ onward (plan_in self.now) self.now.clock
            (earlier ((plan_in self.now).later self.now.clock) (earlier change turn)) }
        ensures bounds { IfSome result (λ at. (self.now.clock < at) × (at ≤ self.now.until)) }
    {
        next_moment(self.clock, self.until, self.agenda.next, change, turn)
    }

    /// How much time passes from now, in bit times: to the next instant, or if there is none to the end, if that is
    /// later. The caller ensures that the next instant is later than now.
    pub fn pass_to(&self, next: Option<u64>) -> Option<u64>
        requires { IfSome next (λ at. self.now.clock < at) }
        ensures { passes result ≡ passing bus (plan_in self.now) self.now.clock next }
    {
        time_to(self.clock, next.unwrap_or(self.until))
    }

    /// Advances to a moment, in bit times. The caller ensures that it is later than now and not past the end, and that
    /// no step happens in between.
    pub fn go_to(&mut self, at: u64)
        requires later { self.old.clock < at }
        requires end { at ≤ self.old.until }
        requires next { IfSome ((plan_in self.old).later self.old.clock) (λ moment. at ≤ moment) }
        ensures { self.new ≡ record self.old { clock = at } }
    {
        self.today.clear();
        self.agenda.happen(at, &mut self.today);
        hold_deeds(&mut self.held, at, &self.today);
        self.clock = at;
    }
}
