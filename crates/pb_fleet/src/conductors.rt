//! The conductor: drives a scenario's steps and time, and has the turns served.

ghost use Rattle.std.specs.Prelude.{◌≡◌, ◌<◌, ◌≤◌, IfOk, IfSome, length};

use crate::faults::PlayFault;
use crate::gates::Gate;
use crate::workers::Worker;
use pb_scenario::{Scenario, Step, Walk, When};
use pb_segment::{CommitFault, ConductorSeat, Event, GlanceFault, Outlook, SharedSegment};
use std::alloc::Global;
use std::sync::Wait;
use std::sync::ledger::Ledger;

/// The conductor's seat, and the last outlook.
#[derive(Drop)]
pub(crate) struct Conductor<L: Ledger> {
    pub(crate) seat: ConductorSeat<L>,
    seen: Option<Outlook>,
}

impl<L: Ledger> Conductor<L> {
    /// A conductor that has seen no outlook.
    pub(crate) fn new(seat: ConductorSeat<L>) -> Conductor<L> {
        Conductor { seat, seen: None }
    }

    /// Drives a scenario from instant to instant, and has the turns taken, also by a worker of its own. It stops if a
    /// worker had a fault.
    pub(crate) fn conduct<R: Wait, G: Gate>(
        &mut self,
        worker: &mut Worker<'_, '_, L, R, G>,
        scenario: &Scenario,
    ) -> Result<(), PlayFault> {
        let mut walk = scenario.walk(worker.alloc)?;
        let mut turns = Vec::new(worker.alloc);
        for _ in 0..walk.until() + 1 {
            match self.instant(worker, &walk, &mut turns)? {
                Some(at) => walk.go_to(at),
                None => break,
            }
        }
        Ok(())
    }

    /// Plays the instant at which the walk is, and returns the next instant, if there is one. The memory of the list of
    /// turns is reused.
    fn instant<R: Wait, G: Gate>(
        &mut self,
        worker: &mut Worker<'_, '_, L, R, G>,
        walk: &Walk<'_>,
        turns: &mut Vec<usize>,
    ) -> Result<Option<u64>, PlayFault>
        ensures { IfOk result (λ o. IfSome o (λ at. (walk.now.clock < at) × (at ≤ walk.now.until))) }
    {
        let (rt, alloc, segment) = (worker.rt, worker.alloc, worker.segment);
        let now = walk.now();
        self.steps(rt, alloc, segment, now, walk.today(), When::BeforeTurns)?;
        self.look(rt, alloc, segment, now)?;
        walk.note_turns(self.shown(walk)?.due.moments(), turns)?;
        if !turns.is_empty() && !worker.serve_all(now, turns) {
            return Ok(None);
        }
        self.steps(rt, alloc, segment, now, walk.today(), When::AfterTurns)?;
        self.look(rt, alloc, segment, now)?;
        let after = self.shown(walk)?;
        let next = walk.next(after.due.moments(), after.next_change);
        if let Some(bits) = walk.pass_to(next) {
            self.drive(rt, alloc, segment, now, Event::Pass(bits))?;
        }
        Ok(next)
    }

    /// Drives the events that some steps trigger before or after the turns.
    fn steps<R: Wait>(
        &mut self,
        rt: &R,
        alloc: Global,
        segment: &SharedSegment<L>,
        now: u64,
        steps: &[Step],
        when: When,
    ) -> Result<(), PlayFault> {
        for step in steps {
            if let Some(event) = step.deed.said(when) {
                self.drive(rt, alloc, segment, now, event.copy())?;
            }
        }
        Ok(())
    }

    /// Drives an event at `now`.
    fn drive<R: Wait>(
        &mut self,
        rt: &R,
        alloc: Global,
        segment: &SharedSegment<L>,
        now: u64,
        event: Event,
    ) -> Result<(), PlayFault> {
        match segment.drive(rt, alloc, &mut self.seat, event) {
            Ok(_) => Ok(()),
            Err(fault) => Err(PlayFault::Drive { now, fault }),
        }
    }

    /// Takes an outlook, and keeps it.
    fn look<R: Wait>(
        &mut self,
        rt: &R,
        alloc: Global,
        segment: &SharedSegment<L>,
        now: u64,
    ) -> Result<(), PlayFault> {
        match segment.outlook(rt, alloc, &mut self.seat) {
            Ok(outlook) => {
                self.seen = Some(outlook);
                Ok(())
            }
            Err(GlanceFault::Disagree) => Err(PlayFault::Drive {
                now,
                fault: CommitFault::Disagree,
            }),
            Err(GlanceFault::NoMemory) => Err(PlayFault::NoMemory),
        }
    }

    /// The last outlook, if it has all taps.
    fn shown(&self, walk: &Walk<'_>) -> Result<&Outlook, PlayFault>
        ensures { IfOk result (λ o. length o.now.due ≡ walk.now.taps) }
    {
        match &self.seen {
            Some(outlook) if outlook.due.moments().len() == walk.taps() => Ok(outlook),
            _ => Err(PlayFault::Drive {
                now: walk.now(),
                fault: CommitFault::Disagree,
            }),
        }
    }
}
