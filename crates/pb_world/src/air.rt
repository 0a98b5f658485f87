//! What a judge keeps of the entries on the bus: the latest ends of those that have begun at all taps, and the others.

ghost use Rattle.std.specs.Prelude.{◌≡◌, ◌≤◌, IfOk, drop, get_or, length, map};
ghost use Rattle.law_streams.specs.Judgement.{ends_by, ends_with, recent_at};
ghost use Rattle.pb_world.specs.Airtimes.{air_of};

use crate::airtimes::{Airtime, airtime_of, is_any_active};
use pb_medium::Entry;
use std::alloc::{AllocError, Global};

/// The latest ends of the entries that have begun at all taps, and the others.
#[derive(Drop)]
pub(crate) struct Air {
    /// The latest end at each tap, in bit times.
    pub(crate) ends: Vec<u64>,
    /// The others, in order.
    pub(crate) recent: Vec<Airtime>,
}

impl Air {
    ghost use Rattle.std.specs.Prelude.{◌≡◌, ◌++◌, ◌∷◌, ◌&&◌, [], IfOk, OnOk, get_or, map, nat_le, replicate};
    ghost use Rattle.law_runs.specs.Activity.{is_silent};
    ghost use Rattle.law_streams.specs.Judgement.{bare, ends_by, recent_at};
    ghost use Rattle.pb_medium.specs.Entries.{entry_of};
    ghost use Rattle.pb_world.specs.Airtimes.{air_of};

    /// What is kept of no entries, on a bus with this many taps.
    ///
    /// Fault: memory was refused.
    pub(crate) fn new(alloc: Global, taps: usize) -> Result<Air, AllocError>
        ensures ends { IfOk result (λ air. air.ends.items ≡ replicate taps 0) }
        ensures recent { IfOk result (λ air. air.recent.items ≡ []) }
    {
        let mut ends = Vec::new(alloc);
        for _ in 0..taps {
            ends.push(0)?;
        }
        Ok(Air {
            ends,
            recent: Vec::new(alloc),
        })
    }

    /// Keeps only the ends of the first entries: those that begin at all taps before `moment`.
    pub(crate) fn settle(&mut self, delay: u32, moment: u64)
        ensures ends { self.new.ends.items
            ≡ ends_by delay moment self.old.ends.items (map air_of self.old.recent.items) }
        ensures recent { map air_of self.new.recent.items
            ≡ recent_at delay moment (map air_of self.old.recent.items) }
    {
        let settled = settle(&mut self.ends, &self.recent, delay, moment);
        self.recent.rotate_left(settled);
        let left = self.recent.len() - settled;
        self.recent.truncate(left);
    }

    /// Keeps one more entry.
    ///
    /// Fault: memory was refused.
    pub(crate) fn push(&mut self, entry: &Entry) -> Result<(), AllocError>
        ensures ends { self.new.ends.items ≡ self.old.ends.items }
        ensures recent { OnOk result (map air_of self.new.recent.items
            ≡ map air_of self.old.recent.items ++ bare (entry_of entry.now) ∷ []) }
    {
        self.recent.push(airtime_of(entry))?;
        Ok(())
    }

    /// The same once more.
    ///
    /// Fault: memory was refused.
    pub(crate) fn copied(&self, alloc: Global) -> Result<Air, AllocError>
        ensures ends { IfOk result (λ air. air.ends.items ≡ self.now.ends.items) }
        ensures recent { IfOk result (λ air. air.recent.items ≡ self.now.recent.items) }
    {
        Ok(Air {
            ends: copied(alloc, &self.ends)?,
            recent: copied(alloc, &self.recent)?,
        })
    }

    /// Whether no entry so far was active at a tap in `from` to `to`, `to` excluded and no earlier than the begin of the
    /// newest one.
    pub(crate) fn was_silent(&self, delay: u32, tap: usize, from: u64, to: u64) -> bool
        ensures { result ≡ (nat_le (get_or self.now.ends.items tap 0) from
            && is_silent delay tap (map air_of self.now.recent.items) from to) }
    {
        end_at(&self.ends, tap) <= from && !is_any_active(&self.recent, delay, tap, from, to)
    }
}

/// Includes the ends of the first of some entries: those that begin at all taps before `moment`. Returns how many they are.
fn settle(ends: &mut [u64], recent: &[Airtime], delay: u32, moment: u64) -> usize
    ensures ends { ends.new ≡ ends_by delay moment ends.old (map air_of recent.now) }
    ensures some { result ≤ length recent.now }
    ensures others { drop result (map air_of recent.now) ≡ recent_at delay moment (map air_of recent.now) }
{
    for place in 0..recent.len() {
        let airtime = recent[place];
        if airtime.reached(delay) >= moment {
            return place;
        }
        take_in(ends, delay, airtime);
    }
    recent.len()
}

/// The elements of a list in a list of their own.
///
/// Fault: memory was refused.
pub(crate) fn copied<T: Copy>(alloc: Global, list: &[T]) -> Result<Vec<T>, AllocError>
    ensures { IfOk result (λ copy. copy.items ≡ list.now) }
{
    let mut copy = Vec::new(alloc);
    copy.extend_from_slice(list)?;
    Ok(copy)
}

/// The latest end at a tap; 0 if there is no such tap.
fn end_at(ends: &[u64], tap: usize) -> u64
    ensures { result ≡ get_or ends.now tap 0 }
{
    match ends.get(tap) {
        Some(end) => *end,
        None => 0,
    }
}

/// Includes the ends of one more entry.
fn take_in(ends: &mut [u64], delay: u32, airtime: Airtime)
    ensures { ends.new ≡ ends_with delay 0 (air_of airtime) ends.old }
{
    for tap in 0..ends.len() {
        ends[tap] = ends[tap].max(airtime.end_at(delay, tap));
    }
}
