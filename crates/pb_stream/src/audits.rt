//! The audit of a scenario's run as it happens, in memory that does not grow with the run.

ghost use Rattle.pb_stream.specs.Audits.{IsFoundBy};

use crate::plays::play_instant;
use crate::streams::{ENTRIES, Progress};
use pb_scenario::{Audit, NewFault, StreamScenario, StreamWalk, UsualEvents, WorldFault};
use pb_world::{Judge, Watched, new_watched_within};
use std::alloc::{AllocError, Global};

/// The audit of a scenario's run, instant by instant. A record is judged once it is over. Between instants it keeps its
/// taps, the entries that are not over, what the premises and the rules need of the others, and what it has found.
#[derive(Drop)]
pub struct AuditStream<'a> {
    pub(crate) watched: Watched,
    pub(crate) walk: StreamWalk<'a>,
    /// It has heard the entries that were let go.
    pub(crate) judge: Judge,
    pub(crate) found: Audit,
    usual: UsualEvents,
}

impl<'a> AuditStream<'a> {
    ghost use Rattle.std.specs.Prelude.{◌≡◌, ◌≤◌, IfOk, IfErr, None};
    ghost use Rattle.law_model.specs.World.{new_world};
    ghost use Rattle.law_streams.specs.Audits.{audited_within};
    ghost use Rattle.law_streams.specs.Streams.{stream_limit};
    ghost use Rattle.pb_taps.specs.Faults.{RefusesNew};
    ghost use Rattle.pb_scenario.specs.Repeats.{unrolled};
    ghost use Rattle.pb_stream.specs.Audits.{FindsOf, IsAuditOf, IsAuditing};
    ghost use Rattle.pb_stream.specs.Streams.{stream_end};

    /// The audit of a scenario at 0, up to the moment `until`, in bit times, in place of the scenario's own.
    ///
    /// Faults: those of a new world ([`NewFault`]), the first that applies.
    pub fn new(
        alloc: Global,
        scenario: &'a StreamScenario,
        until: u64,
    ) -> Result<AuditStream<'a>, NewFault>
        requires { until ≤ stream_end }
        ensures audits { IfOk result
            (IsAuditOf (audited_within stream_limit (unrolled until scenario.now))) }
        ensures nothing { IfOk result (λ s. s.found ≡ record { premise = None; illegal = None }) }
        ensures until { IfOk result (λ s. s.walk.until ≡ until) }
        ensures fault { IfErr result
            (RefusesNew (new_world scenario.now.once.scenario.params scenario.now.once.scenario.taps)) }
    {
        let once = scenario.once();
        let watched = new_watched_within(alloc, *once.params(), once.taps(), ENTRIES)?;
        let Ok(judge) = Judge::new(alloc, *once.params(), once.taps()) else {
            return Err(NewFault::NoMemory);
        };
        match scenario.walk(alloc, until) {
            Ok(walk) => Ok(AuditStream {
                watched,
                walk,
                judge,
                found: Audit {
                    premise: None,
                    illegal: None,
                },
                usual: UsualEvents::new(),
            }),
            Err(_) => Err(NewFault::NoMemory),
        }
    }

    /// The moment up to which the run has been played, in bit times.
    pub fn clock(&self) -> u64
        ensures { result ≡ self.now.walk.clock }
    {
        self.walk.now()
    }

    /// What was found so far: the first premise that broke, and the first illegal record of those that are over.
    pub fn found(&self) -> &Audit
        ensures { result.now ≡ self.entry.now.found }
    {
        &self.found
    }

    /// Plays an instant, and judges the records that are over since the last ones; at the end, or where an event is
    /// refused, all that are left.
    ///
    /// Fault: memory was refused. Then the audit must not be played further.
    pub fn advance(&mut self, alloc: Global) -> Result<Progress, AllocError>
        requires { IsAuditing self.old }
        ensures { IfOk result (λ progress. FindsOf progress self.old self.new) }
    {
        let progress = match play_instant(alloc, &mut self.watched, &self.walk, &mut self.usual) {
            Ok(Some(at)) => {
                self.walk.go_to(at);
                self.judge.hear_all(self.watched.bus().past())?;
                self.watched.let_go();
                Progress::Goes
            }
            Ok(None) => {
                self.judge.hear_all(self.watched.bus().trace.entries())?;
                Progress::Ended
            }
            Err(WorldFault::NoMemory) => return Err(AllocError),
            Err(fault) => {
                self.judge.hear_all(self.watched.bus().trace.entries())?;
                Progress::Refused {
                    clock: self.walk.now(),
                    fault,
                }
            }
        };
        self.found = findings(&self.watched, &self.judge);
        Ok(progress)
    }
}

/// What a watch and a judge have found.
fn findings(watched: &Watched, judge: &Judge) -> Audit
    ensures { IsFoundBy watched.now judge.now result }
{
    Audit {
        premise: watched.broken(),
        illegal: judge.illegal(),
    }
}
