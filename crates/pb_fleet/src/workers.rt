//! A worker: serves offered turns.

use crate::drawers::Drawer;
use crate::faults::{PlayFault, least};
use crate::gates::Gate;
use crate::pools::{Offer, Pool};
use pb_segment::{CommitFault, GlanceFault, SharedSegment, TapSeat};
use pb_station::{SendBuffer, decide_in};
use std::alloc::Global;
use std::sync::Wait;
use std::sync::ledger::Ledger;

/// A worker, which serves offered turns.
#[derive(Drop)]
pub(crate) struct Worker<'a, 't, L: Ledger, R, G> {
    pub(crate) rt: &'a R,
    pub(crate) alloc: Global,
    pub(crate) segment: &'a SharedSegment<L>,
    pool: &'a Pool<L>,
    gate: &'a G,
    drawer: Drawer<'t>,
    /// The number that was drawn before its offer was published.
    held: Option<u64>,
    /// What a tap sends in a turn.
    says: SendBuffer,
    /// The least fault that this worker had.
    pub(crate) fault: Option<PlayFault>,
}

impl<'a, 't, L: Ledger, R: Wait, G: Gate> Worker<'a, 't, L, R, G> {
    /// A worker that has served nothing.
    pub(crate) fn new(
        rt: &'a R,
        alloc: Global,
        segment: &'a SharedSegment<L>,
        pool: &'a Pool<L>,
        gate: &'a G,
        drawer: Drawer<'t>,
    ) -> Worker<'a, 't, L, R, G> {
        Worker {
            rt,
            alloc,
            segment,
            pool,
            gate,
            drawer,
            held: None,
            says: SendBuffer::new(),
            fault: None,
        }
    }

    /// A helper draws numbers and serves their offers until no more come. Returns the least fault that it had.
    pub(crate) fn help(mut self, helper: usize) -> Option<PlayFault> {
        for _ in self.rt.forever() {
            if !self.pool.wait_for_any(self.rt, helper) {
                break;
            }
            let Some(number) = self.drawer.draw() else {
                break;
            };
            if !self.pool.wait_for(self.rt, helper, number) {
                break;
            }
            self.serve(number);
        }
        self.fault
    }

    /// The conductor publishes turns at a moment, serves those whose numbers it draws, and waits until all are served.
    /// Returns false if one was served with a fault.
    pub(crate) fn serve_all(&mut self, now: u64, turns: &[usize]) -> bool {
        if !self.pool.publish(now, turns) {
            self.fault = least(self.fault, turns.first().map(|tap| full(*tap, now)));
            return false;
        }
        for _ in self.rt.forever() {
            match self.next_number() {
                Some(number) => self.serve(number),
                None => break,
            }
        }
        self.pool.wait_until_served(self.rt)
    }

    /// The number of a published offer that this worker is to serve.
    fn next_number(&mut self) -> Option<u64> {
        let number = match self.held.take() {
            Some(number) => number,
            None => self.drawer.draw()?,
        };
        if self.pool.is_published(number) {
            return Some(number);
        }
        self.held = Some(number);
        None
    }

    /// Serves the offer with this number.
    fn serve(&mut self, number: u64) {
        let met = self.take_offer(number).err();
        self.fault = least(self.fault, met);
        self.pool.served(self.fault.is_some());
    }

    fn take_offer(&mut self, number: u64) -> Result<(), PlayFault> {
        let Some(Offer { now, tap }) = self.pool.offer(number) else {
            return Ok(());
        };
        match self.pool.seat(tap) {
            Some(seat) => self.take_turn(&mut seat.lock(self.rt), now),
            None => Ok(()),
        }
    }

    /// A tap takes its turn at a moment.
    fn take_turn(&mut self, seat: &mut TapSeat<L>, now: u64) -> Result<(), PlayFault> {
        if !self.gate.is_open() {
            return self.decide_turn(seat, now);
        }
        let tap = seat.tap();
        match self.segment.turn(self.rt, self.alloc, seat, &mut self.says) {
            Ok(()) => Ok(()),
            Err(fault) => Err(PlayFault::Commit { tap, now, fault }),
        }
    }

    /// The worker glances at the tap, asks the gate, decides, and commits. Only glance and commit take the segment's lock.
    fn decide_turn(&mut self, seat: &mut TapSeat<L>, now: u64) -> Result<(), PlayFault> {
        let tap = seat.tap();
        let refused = |fault: CommitFault| PlayFault::Commit { tap, now, fault };
        let glance = match self.segment.glance(self.rt, self.alloc, seat) {
            Ok(glance) => glance,
            Err(GlanceFault::Disagree) => return Err(refused(CommitFault::Disagree)),
            Err(GlanceFault::NoMemory) => return Err(PlayFault::NoMemory),
        };
        if !self.gate.between(tap) {
            return Err(PlayFault::GateClosed(tap));
        }
        let decided = decide_in(self.alloc, glance, &mut self.says)?;
        match self
            .segment
            .commit_decided(self.rt, self.alloc, seat, decided)
        {
            Ok(_) => Ok(()),
            Err(fault) => Err(refused(fault)),
        }
    }
}

/// The fault of a history without room for a tap's turn.
fn full(tap: usize, now: u64) -> PlayFault {
    PlayFault::Commit {
        tap,
        now,
        fault: CommitFault::HistoryFull,
    }
}
