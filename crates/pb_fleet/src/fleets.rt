//! Plays a scenario with a crew of workers.

ghost use Rattle.std.specs.Prelude.{◌≡◌, ◌+◌, ◌≤◌, true, Some, Ok, IfOk, IfErr, OnOk, length, map};
ghost use Rattle.law_model.specs.World.{new_world};
ghost use Rattle.law_runs.specs.Laws.{IsRunOf};
ghost use Rattle.law_runs.specs.Scenarios.{trace_of};
ghost use Rattle.pb_segment.specs.Histories.{events_in};
ghost use Rattle.pb_segment.specs.Origins.{IsNew, origin_of};
ghost use Rattle.pb_segment.specs.Reports.{IsReport};
ghost use Rattle.pb_fleet.specs.Faults.{IsCrew, RefusesFleet};
ghost use Rattle.pb_fleet.specs.Played.{IsPlayed, begins, looks_of};

use crate::conductors::Conductor;
use crate::drawers::{Drawer, helpers};
use crate::faults::{FleetFault, PlayFault, least};
use crate::gates::Gate;
use crate::pools::{MOST_OFFERS, Pool};
use crate::reviewing::review;
use crate::tickets::Tickets;
use crate::workers::Worker;
use pb_scenario::Scenario;
use pb_segment::{CloseFault, Closed, Draft, NewFault, Report, SharedSegment, World};
use std::alloc::{AllocError, Global};
use std::marker::Brand;
use std::sync::Wait;
use std::sync::ledger::{Blank, Ledger};
use std::thread;
use std::thread::Threads;

/// The most workers of a fleet.
const MOST_WORKERS: usize = 64;

/// Plays a scenario with some workers, one in this thread and each other in its own thread, and returns the report of
/// all that happened. The report's trace is that of the scenario's run on one thread, for every number of workers,
/// every schedule and every gate. If the events of its history break no premise, at most one station may initiate after
/// them, the trace names that one, and each initiator telegram is legal (medium access: token passing). If none of them
/// loses a telegram or lets a turn be late, no running master that is not offline has been in silence, as it hears the
/// bus, for longer than its time-out and the lag. If they break no premise, the bus is never dead for longer than its
/// bound.
///
/// A conductor drives the steps of the scenario, and time from one instant to the next. In each instant it publishes
/// the turns of all taps that are due and not withheld, together. Workers, including the conductor, draw these offers
/// by tickets. A worker glances at the tap, asks the gate, decides the turn outside the lock, and commits it; where the
/// gate is always open, it takes the turn at once, under the lock. There are no more workers than taps. At the end receipts and outlooks are compared with the history, and the history must be
/// cut into the scenario's instants; with two or more workers both are done concurrently. No event is applied twice.
///
/// Faults: `BadWorkers` for fewer than 1 or more than 64 workers; then `New` if the scenario's taps make no new world.
/// After any other fault no more turns are offered, all workers are joined, and the least fault is returned: `Commit`
/// with the tap, the clock in bit times and the segment's fault; `Drive` with the clock and the fault; `GateClosed`
/// with a tap for which the gate returned false; `NoThread`; `Closing`; `NoMemory`. Of several of one kind, it is that
/// of the tap with the lowest index.
///
/// ```
/// // `Open` is a gate that lets every turn through
/// let scenario = read(rt.alloc(), TWO_MASTERS.as_bytes()).expect(&rt, "a scenario");
/// for workers in [1, 4] {
///     let report = run_fleet(&rt, rt.alloc(), &scenario, workers, &Open).expect(&rt, "a report");
///     assert_eq!(rt; report.trace().len(), 7);
/// }
/// ```
pub fn run_fleet<R: Threads + Wait + Sync, G: Gate>(
    rt: &R,
    alloc: Global,
    scenario: &Scenario,
    workers: usize,
    gate: &G,
) -> Result<Report, FleetFault>
    ensures run { IfOk result (λ r. trace_of scenario.now.scenario ≡ Some (Ok r.trace)) }
    ensures played { IfOk result (IsPlayed scenario.now.scenario) }
    ensures crew { OnOk result (IsCrew workers) }
    ensures refused { IfErr result (RefusesFleet workers
        (new_world scenario.now.scenario.params scenario.now.scenario.taps)) }
{
    if workers < 1 || workers > MOST_WORKERS {
        return Err(FleetFault::BadWorkers);
    }
    let world = match World::new(alloc, *scenario.params(), scenario.taps()) {
        Ok(world) => world,
        Err(NewFault::NoMemory) => return Err(FleetFault::NoMemory),
        Err(fault) => return Err(FleetFault::New(fault)),
    };
    let blank = Blank::new(world.taps() as u64 + 1);
    let report = fleet::<Brand, R, G>(rt, alloc, blank, world, scenario, workers, gate)?;
    Ok(report)
}

/// Plays the scenario on a new world, with the ledger `L`.
fn fleet<L: Ledger + Send + Sync, R: Threads + Wait + Sync, G: Gate>(
    rt: &R,
    alloc: Global,
    blank: Blank,
    world: World,
    scenario: &Scenario,
    workers: usize,
    gate: &G,
) -> Result<Report, PlayFault>
    requires name { blank.name ≡ L.name }
    requires parts { blank.parts ≡ L.parts }
    requires one_each { blank.parts ≡ length world.taps + 1 }
    requires new { IsNew world }
    requires origin { origin_of world ≡ begins scenario.now.scenario }
    requires crew { IsCrew workers }
    ensures run { IfOk result (λ r. trace_of scenario.now.scenario ≡ Some (Ok r.trace)) }
    ensures played { IfOk result (IsPlayed scenario.now.scenario) }
{
    let (segment, seat, seats) = SharedSegment::<L>::new(alloc, blank, world)?;
    let crew = workers.min(seats.len()).max(1);
    let pool = Pool::new(alloc, seats, crew - 1)?;
    let mut conductor = Conductor::new(seat);
    play(
        rt,
        alloc,
        &segment,
        &pool,
        &mut conductor,
        crew,
        scenario,
        gate,
    )?;
    let seats = pool.into_seats(alloc)?;
    let closed = segment.close_beside(
        rt,
        crew,
        conductor.seat,
        seats,
        |draft: Draft<'_>| -> Result<bool, AllocError>
            ensures { IfOk result (λ is. is ≡ true → IsRunOf scenario.entry.now.scenario
                (looks_of draft.entry.outlooks) (events_in draft.entry.history)) }
        { review(alloc, scenario, draft) },
    );
    match closed {
        Ok(Closed { report, found }) => reviewed(scenario, report, found?),
        Err(refused) => Err(PlayFault::Closing(refused.fault)),
    }
}

/// The report, if the review has found that it is the run of the scenario.
fn reviewed(scenario: &Scenario, report: Report, is_run: bool) -> Result<Report, PlayFault>
    requires report { IsReport report }
    requires origin { report.origin ≡ begins scenario.now.scenario }
    requires review { is_run ≡ true
        → IsRunOf scenario.now.scenario (looks_of report.outlooks) (events_in report.history) }
    ensures run { IfOk result (λ r. trace_of scenario.now.scenario ≡ Some (Ok r.trace)) }
    ensures played { IfOk result (IsPlayed scenario.now.scenario) }
{
    if is_run {
        Ok(report)
    } else {
        Err(PlayFault::Closing(CloseFault::Disagree))
    }
}

/// Plays the scenario with a crew that draws turns by tickets. The conductor works in this thread, and each helper in
/// its own.
fn play<'a, L: Ledger + Send + Sync, R: Threads + Wait + Sync, G: Gate>(
    rt: &'a R,
    alloc: Global,
    segment: &'a SharedSegment<L>,
    pool: &'a Pool<L>,
    conductor: &mut Conductor<L>,
    crew: usize,
    scenario: &Scenario,
    gate: &'a G,
) -> Result<(), PlayFault>
    requires some { 1 ≤ crew }
    requires few { crew ≤ 64 }
{
    let (tickets, mut seat) = Tickets::new(alloc, MOST_OFFERS, crew as u64)?;
    let tickets = &tickets;
    let drawers = helpers(alloc, tickets, &mut seat, crew)?;
    let drawer = Drawer { tickets, seat };
    let mut own = Worker::new(rt, alloc, segment, pool, gate, drawer);
    thread::scope(thread::scope_env(), rt, |scope| -> Result<(), PlayFault> {
        let mut fault = None;
        let mut running = Vec::new(alloc);
        for (helper, drawer) in drawers.into_iter().enumerate() {
            let worker = Worker::new(rt, alloc, segment, pool, gate, drawer);
            match scope.spawn(move || worker.help(helper)) {
                Ok(thread) => {
                    if running.push(thread).is_err() {
                        fault = least(fault, Some(PlayFault::NoMemory));
                    }
                }
                Err(_) => fault = least(fault, Some(PlayFault::NoThread)),
            }
        }
        if fault.is_none() {
            let met = conductor.conduct(&mut own, scenario).err();
            fault = least(met, own.fault);
        }
        pool.end();
        for thread in running {
            fault = least(fault, thread.join(rt));
        }
        match fault {
            Some(fault) => Err(fault),
            None => Ok(()),
        }
    })
}
