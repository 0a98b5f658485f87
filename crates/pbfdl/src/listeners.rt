//! A monitor with the text that it has appended and nobody has taken yet.

ghost use Rattle.std.specs.Prelude.{◌≡◌, ◌≤◌, ◌++◌, drop, take, min, length, MatchResult};

use crate::codes::NO_MEMORY;
use crate::monitor_codes::FINISHED;
use pb_monitor::{Monitor, Options, Statistics};
use pb_timers::BusParams;
use std::alloc::{AllocError, Global};
use std::marker::Model;

/// A monitor, the text that it has appended, how much of it was taken, and whether the monitor hears nothing more.
#[derive(Drop)]
pub struct Listener {
    monitor: Monitor,
    text: Vec<u8>,
    taken: usize,
    is_over: bool,
}

impl Model for Listener {
    ghost use Rattle.std.specs.Prelude.{◌≤◌, drop, length};
    ghost use Rattle.pbfdl.specs.Monitors.{Listened};

    ghost Value = { Listened };

    ghost view = { λ l. record {
      monitor = l.monitor;
      owed = drop l.taken l.text.items;
      is_over = l.is_over;
    } };

    ghost invariant = { λ l. l.taken ≤ length l.text.items };
}

impl Listener {
    ghost use Rattle.std.specs.Prelude.{◌≡◌, [], true, false, IfOk, length};
    ghost use Rattle.pbfdl.specs.Monitors.{Hears, filled, taken_of, without};

    /// A monitor that has heard nothing.
    ///
    /// Fault: memory was refused.
    pub(crate) fn new(
        alloc: Global,
        params: Option<BusParams>,
        options: Options,
    ) -> Result<Listener, AllocError>
        ensures { IfOk result (λ l. (l.owed ≡ []) × (l.is_over ≡ false)) }
    {
        let monitor = Monitor::new(alloc, params, options)?;
        Ok(Listener {
            monitor,
            text: Vec::new(alloc),
            taken: 0,
            is_over: false,
        })
    }

    /// The monitor hears the next octets of the capture. Codes: 94, 63; after either it hears nothing more.
    pub(crate) fn feed(&mut self, alloc: Global, octets: &[u8]) -> u32
        ensures { Hears self.old false result self.new }
    {
        if self.is_over {
            return FINISHED;
        }
        let mut said = Vec::new(alloc);
        let heard = self.monitor.feed(octets, &mut said);
        match append(alloc, heard, &mut self.text, self.taken, &said) {
            Ok(taken) => {
                self.taken = taken;
                0
            }
            Err(_) => {
                self.is_over = true;
                NO_MEMORY
            }
        }
    }

    /// The capture ends. Codes: 94, 63.
    pub(crate) fn finish(&mut self, alloc: Global) -> u32
        ensures { Hears self.old true result self.new }
    {
        if self.is_over {
            return FINISHED;
        }
        let mut said = Vec::new(alloc);
        let heard = self.monitor.finish(&mut said);
        self.is_over = true;
        match append(alloc, heard, &mut self.text, self.taken, &said) {
            Ok(taken) => {
                self.taken = taken;
                0
            }
            Err(_) => NO_MEMORY,
        }
    }

    /// Takes the next octets of the text into some room, and answers how many there are.
    pub(crate) fn next(&mut self, out: &mut [u8]) -> usize
        ensures count { result ≡ taken_of self.old (length out.old) }
        ensures room { out.new ≡ filled self.old out.old }
        ensures left { self.new ≡ without self.old result }
    {
        let count = hand_on(&self.text[self.taken..], out);
        self.taken += count;
        count
    }

    /// Whether input was refused or an alarm raised.
    pub(crate) fn is_refused(&self) -> bool {
        self.monitor.is_refused()
    }

    /// What is known of the bus.
    pub(crate) fn statistics(&self) -> &Statistics {
        self.monitor.statistics()
    }
}

/// Appends what a monitor has said to a text of which so much was taken, and answers how much of the new text was. What
/// was taken is dropped once it is more than the rest, so that a text takes memory in proportion to what is owed.
///
/// Fault: memory was refused, the monitor or here; the text is as before.
fn append(
    alloc: Global,
    heard: Result<(), AllocError>,
    text: &mut Vec<u8>,
    taken: usize,
    said: &[u8],
) -> Result<usize, AllocError>
    requires { taken ≤ length text.old.items }
    ensures { MatchResult result
        (λ now. (now ≤ length text.new.items)
        × (drop now text.new.items ≡ drop taken text.old.items ++ said.now))
        (λ _. text.new.items ≡ text.old.items) }
{
    heard?;
    let rest = &text[taken..];
    if rest.len() >= taken {
        text.extend_from_slice(said)?;
        return Ok(taken);
    }
    let mut whole = Vec::with_capacity(alloc, rest.len())?;
    whole.extend_from_slice(rest)?;
    whole.extend_from_slice(said)?;
    *text = whole;
    Ok(0)
}

/// Copies the first octets of a text into some room, and answers how many there are.
fn hand_on(rest: &[u8], out: &mut [u8]) -> usize
    ensures count { result ≡ min (length out.old) (length rest.now) }
    ensures room { out.new ≡ take result rest.now ++ drop result out.old }
{
    let count = out.len().min(rest.len());
    out[..count].copy_from_slice(&rest[..count]);
    count
}
