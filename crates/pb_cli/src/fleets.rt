//! The line of a fleet's fault.

ghost use Rattle.std.specs.Prelude.{◌≡◌, ◌≢◌, IfOk, OnOk};
ghost use Rattle.pb_fleet.specs.declared.faults.FleetFault.{FleetFault};
ghost use Rattle.pb_texts.specs.Shown.{refusal, shown_of};
ghost use Rattle.pb_cli.specs.Fleets.{IsToldCommit, IsToldFleet, commit_line, fleet_line};

use pb_fleet::{CommitFault, FleetFault};
use pb_texts::{Shown, new_line, refused_line};
use std::alloc::{AllocError, Global};

/// The text with which `ringplay run` says a fleet's fault. The caller ensures that it is not `BadWorkers`. For refused
/// memory there is no line: the result is that fault too. If memory was refused for a thread, the fault is `NoThread`,
/// which has a line.
///
/// Fault: memory was refused, before or in this call.
pub fn refused_fleet(alloc: Global, fault: FleetFault) -> Result<Shown, AllocError>
    requires { fault ≢ FleetFault.BadWorkers }
    ensures shown { IfOk result (λ shown. shown_of shown ≡ refusal (fleet_line fault)) }
    ensures told { OnOk result (IsToldFleet fault) }
{
    Ok(Shown::refusal(fleet_line(alloc, fault)?))
}

/// The line of a fleet's fault.
fn fleet_line(alloc: Global, fault: FleetFault) -> Result<Vec<u8>, AllocError>
    requires { fault ≢ FleetFault.BadWorkers }
    ensures line { IfOk result (λ line. line.items ≡ fleet_line fault) }
    ensures told { OnOk result (IsToldFleet fault) }
{
    match fault {
        // Excluded by the precondition: the program asks only for numbers of workers within the limits.
        FleetFault::BadWorkers => unreachable!(),
        FleetFault::Commit { now, fault, .. } | FleetFault::Drive { now, fault } => {
            commit_line(alloc, fault, now)
        }
        FleetFault::GateClosed(_) => words(alloc, b"gate closed\n"),
        FleetFault::NoThread => words(alloc, b"no thread\n"),
        FleetFault::Closing(_) => words(alloc, b"disagree\n"),
        FleetFault::NoMemory => Err(AllocError),
        FleetFault::New(fault) => new_line(alloc, fault),
    }
}

/// The line of an event that a segment refuses at a clock.
fn commit_line(alloc: Global, fault: CommitFault, clock: u64) -> Result<Vec<u8>, AllocError>
    ensures line { IfOk result (λ line. line.items ≡ commit_line fault clock) }
    ensures told { OnOk result (IsToldCommit fault) }
{
    match fault {
        CommitFault::WrongTap => words(alloc, b"wrong tap\n"),
        CommitFault::Disagree => words(alloc, b"disagree\n"),
        CommitFault::Stale { .. } => words(alloc, b"stale\n"),
        CommitFault::World(fault) => refused_line(alloc, fault, clock),
        CommitFault::HistoryFull => words(alloc, b"history full\n"),
    }
}

/// A line with these words.
fn words(alloc: Global, words: &[u8]) -> Result<Vec<u8>, AllocError>
    ensures { IfOk result (λ line. line.items ≡ words.now) }
{
    let mut line = Vec::new(alloc);
    line.extend_from_slice(words)?;
    Ok(line)
}
