//! The stream of a scenario: its run, instant by instant, and the lines of its trace as they settle.

ghost use Rattle.std.specs.Prelude.{◌≡◌, OnOk};
ghost use Rattle.pb_world.specs.Buses.{IsKept};
ghost use Rattle.pb_stream.specs.Streams.{HandsOn, IsShort};

use crate::plays::play_instant;
use pb_scenario::{
    Deed, Entry, NewFault, Scenario, StreamScenario, StreamWalk, UsualEvents, WorldFault,
    push_trace,
};
use pb_world::{Bus, new_bus_within};
use std::alloc::{AllocError, Global};

/// The last moment until which time may pass in a stream, in bit times.
pub const STREAM_END: u64 = 1_000_000_000_000;

/// How many entries the trace of a stream may have.
pub(crate) const ENTRIES: usize = 1_000_000_000_000;

/// How far an instant has brought a stream.
#[derive(Clone, Copy, Debug, PartialEq, Eq)]
pub enum Progress {
    /// There is a next instant.
    Goes,
    /// The run has ended.
    Ended,
    /// An event was refused, and that ended the run.
    Refused {
        /// The clock, in bit times.
        clock: u64,
        /// Why; never `NoMemory`.
        fault: WorldFault,
    },
}

/// A run of a scenario that lets go of the entries that are over. Between instants it keeps its taps, the entries that are
/// not over, and fewer than a block of others ([`advance`](Stream::advance)), whatever time has passed.
///
/// Who wants something else of the entries than their lines calls [`play`](Stream::play) in place of `advance`, reads the
/// entries that are over ([`past`](Stream::past)), and lets them go ([`let_go`](Stream::let_go)).
#[derive(Drop)]
pub struct Stream<'a> {
    pub(crate) scenario: &'a StreamScenario,
    pub(crate) bus: Bus,
    pub(crate) walk: StreamWalk<'a>,
    usual: UsualEvents,
}

impl<'a> Stream<'a> {
    ghost use Rattle.std.specs.Prelude.{◌≡◌, ◌≤◌, IfOk, IfErr, map};
    ghost use Rattle.law_model.specs.World.{new_world};
    ghost use Rattle.law_streams.specs.Streams.{stream_limit, stream_within};
    ghost use Rattle.pb_taps.specs.Faults.{RefusesNew};
    ghost use Rattle.pb_medium.specs.Entries.{entry_of};
    ghost use Rattle.pb_stream.specs.Streams.{HasPlayed, IsStreaming, KeepsFew, LetsGo, Tells};
    ghost use Rattle.pb_stream.specs.Streams.{clock_of, kept_of, names_of, past_in, rest_of, said_at, stream_end};
    ghost use Rattle.pb_scenario.specs.Repeats.{unrolled};
    ghost use Rattle.pb_scenario.specs.Said.{said_of};
    ghost use Rattle.pb_scenario.specs.Steps.{deed_of};
    ghost use Rattle.pb_scenario.specs.declared.deeds.When.TheVariants.{AfterTurns, BeforeTurns};

    /// The stream of a scenario at 0, up to the moment `until`, in bit times, in place of the scenario's own.
    ///
    /// Faults: those of a new world ([`NewFault`]), the first that applies.
    pub fn new(
        alloc: Global,
        scenario: &'a StreamScenario,
        until: u64,
    ) -> Result<Stream<'a>, NewFault>
        requires { until ≤ stream_end }
        ensures rest { IfOk result
            (λ s. rest_of s ≡ stream_within stream_limit (unrolled until scenario.now)) }
        ensures names { IfOk result (λ s. names_of s ≡ scenario.now.once.names) }
        ensures ready { IfOk result IsStreaming }
        ensures fault { IfErr result
            (RefusesNew (new_world scenario.now.once.scenario.params scenario.now.once.scenario.taps)) }
    {
        let once = scenario.once();
        let bus = new_bus_within(alloc, *once.params(), once.taps(), ENTRIES)?;
        match scenario.walk(alloc, until) {
            Ok(walk) => Ok(Stream {
                scenario,
                bus,
                walk,
                usual: UsualEvents::new(),
            }),
            Err(_) => Err(NewFault::NoMemory),
        }
    }

    /// The moment up to which the stream has been played, in bit times.
    pub fn clock(&self) -> u64
        ensures { result ≡ clock_of self.now }
    {
        self.walk.now()
    }

    /// Plays an instant, and appends the lines of the entries that are over since the last ones, if they are at least
    /// `block`, or one; at the end, or where an event is refused, the lines of all entries that are left.
    ///
    /// A stream that goes on keeps fewer than `block` entries, or than one, beside those that are not over: each pass of
    /// time marks what is over. Only where the trace is all but full is nothing let go.
    ///
    /// Fault: memory was refused. Then the stream must not be played further.
    pub fn advance(
        &mut self,
        alloc: Global,
        text: &mut Vec<u8>,
        block: usize,
    ) -> Result<Progress, AllocError>
        requires { IsStreaming self.old }
        ensures tells { IfOk result
            (λ progress. Tells progress self.old self.new text.old.items text.new.items) }
        ensures few { IfOk result (λ progress. KeepsFew block progress self.new) }
    {
        match self.play(alloc)? {
            Progress::Goes => {
                hand_on(&mut self.bus, self.scenario.once(), text, block)?;
                Ok(Progress::Goes)
            }
            end => {
                push_trace(text, self.scenario.once(), self.entries())?;
                Ok(end)
            }
        }
    }

    /// Plays an instant, and keeps all entries.
    ///
    /// Fault: memory was refused. Then the stream must not be played further.
    pub fn play(&mut self, alloc: Global) -> Result<Progress, AllocError>
        requires { IsStreaming self.old }
        ensures plays { IfOk result (λ progress. HasPlayed progress self.old self.new) }
        ensures names { names_of self.new ≡ names_of self.old }
    {
        match play_instant(alloc, &mut self.bus, &self.walk, &mut self.usual) {
            Ok(Some(at)) => {
                self.walk.go_to(at);
                Ok(Progress::Goes)
            }
            Ok(None) => Ok(Progress::Ended),
            Err(WorldFault::NoMemory) => Err(AllocError),
            Err(fault) => Ok(Progress::Refused {
                clock: self.walk.now(),
                fault,
            }),
        }
    }

    /// What steps do at the next instant, in the order of the scenario.
    pub fn today(&self) -> &[&'a Deed]
        ensures early { said_of BeforeTurns (map (λ d. deed_of d.now) result.now)
            ≡ said_at BeforeTurns self.entry.now }
        ensures late { said_of AfterTurns (map (λ d. deed_of d.now) result.now)
            ≡ said_at AfterTurns self.entry.now }
    {
        self.walk.today()
    }

    /// The entries that are over and were not let go: none where the trace is all but full.
    pub fn past(&self) -> &[Entry]
        ensures { map entry_of result.now ≡ past_in self.entry.now }
    {
        self.bus.past()
    }

    /// All entries that were not let go.
    pub fn entries(&self) -> &[Entry]
        ensures { map entry_of result.now ≡ kept_of self.entry.now }
    {
        self.bus.trace.entries()
    }

    /// Lets go of the entries that are over.
    pub fn let_go(&mut self)
        requires { IsStreaming self.old }
        ensures { LetsGo (past_in self.old) self.old self.new }
    {
        self.bus.let_go();
    }
}

/// Appends the lines of the entries that are over, and lets them go, if they are at least `block`, or one.
fn hand_on(
    bus: &mut Bus,
    scenario: &Scenario,
    text: &mut Vec<u8>,
    block: usize,
) -> Result<(), AllocError>
    requires { IsKept bus.old }
    ensures handed { OnOk result
        (HandsOn scenario.now.names bus.old text.old.items bus.new text.new.items) }
    ensures few { OnOk result (IsShort block bus.new.trace) }
{
    // One round lets all of them go; the test behind it says so.
    while bus.past().len() >= block.max(1) {
        push_trace(text, scenario, bus.past())?;
        bus.let_go();
    }
    Ok(())
}
