//! Damages a telegram at a tap.

ghost use Rattle.std.specs.Prelude.{◌≡◌, true, false, IfErr, IfSome, OnErr, OnOk, Some, None, length, map, find};
ghost use Rattle.law_model.specs.Step as step;
ghost use Rattle.law_model.specs.Step.{change_first, with_hit};
ghost use Rattle.law_model.specs.World as world;
ghost use Rattle.pb_medium.specs.Damaging.{can_hit, damaged, IsFirstPlace, RefusesHit, IsNoMemory};
ghost use Rattle.pb_medium.specs.Entries.{entry_of, hit_of};

use crate::entries::{Entry, Hit};
use crate::senses::is_in_air_by;
use crate::traces::Trace;
use pb_taps::WorldFault;
use pb_timers::Moment;

impl Trace {
    ghost use Rattle.std.specs.Prelude.{◌≡◌, true, IfErr, OnErr, OnOk};
    ghost use Rattle.pb_medium.specs.Damaging.{can_hit, damaged, RefusesHit};
    ghost use Rattle.pb_medium.specs.Entries.{hit_of};
    ghost use Rattle.pb_medium.specs.Traces.{recent_of, RecentBecomes, StaysAs};

    /// Damages a speaker's first telegram on the bus, the earliest that has not reached the others, at another tap.
    ///
    /// Faults, the first that applies: `NothingInAir`; `NoMemory`.
    pub fn damage(
        &mut self,
        delay: u32,
        speaker: usize,
        now: Moment,
        hit: Hit,
    ) -> Result<(), WorldFault>
        ensures ok { OnOk result (RecentBecomes (damaged delay speaker now (hit_of hit)) self.old self.new) }
        ensures found { OnOk result (can_hit delay speaker now (hit_of hit) (recent_of self.old) ≡ true) }
        ensures err { OnErr result (StaysAs self.old self.new) }
        ensures fault { IfErr result
            (RefusesHit (can_hit delay speaker now (hit_of hit) (recent_of self.old))) }
    {
        damage(&mut self.entries[self.over..], delay, speaker, now, hit)
    }

    /// Whether a speaker has a telegram on the bus that can be damaged in this way.
    pub fn can_hit(&self, delay: u32, speaker: usize, now: Moment, hit: Hit) -> bool
        ensures { result ≡ can_hit delay speaker now (hit_of hit) (recent_of self.entry.now) }
    {
        target(self.recent(), delay, speaker, now, hit).is_some()
    }
}

/// Damages a speaker's first telegram on the bus, at another tap.
fn damage(
    entries: &mut [Entry],
    delay: u32,
    speaker: usize,
    now: Moment,
    hit: Hit,
) -> Result<(), WorldFault>
    ensures length { length entries.new ≡ length entries.old }
    ensures ok { OnOk result (map entry_of entries.new
        ≡ damaged delay speaker now (hit_of hit) (map entry_of entries.old)) }
    ensures found { OnOk result (can_hit delay speaker now (hit_of hit) (map entry_of entries.old) ≡ true) }
    ensures err { OnErr result (map entry_of entries.new ≡ map entry_of entries.old) }
    ensures fault { IfErr result
        (RefusesHit (can_hit delay speaker now (hit_of hit) (map entry_of entries.old))) }
{
    match target(entries, delay, speaker, now, hit) {
        Some(place) => {
            strike(&mut entries[place], hit)?;
            Ok(())
        }
        None => Err(WorldFault::NothingInAir),
    }
}

/// The index of the telegram that is damaged.
fn target(entries: &[Entry], delay: u32, speaker: usize, now: Moment, hit: Hit) -> Option<usize>
    ensures none { result ≡ None → can_hit delay speaker now (hit_of hit) (map entry_of entries.now) ≡ false }
    ensures some { IfSome result
        (λ i. can_hit delay speaker now (hit_of hit) (map entry_of entries.now) ≡ true) }
    ensures place { IfSome result
        (IsFirstPlace (world.is_in_air_by delay now speaker) (map entry_of entries.now)) }
{
    if hit.tap == speaker {
        return None;
    }
    let place = first_in_air(entries, delay, speaker, now)?;
    if !has_place(&entries[place], hit.place) {
        return None;
    }
    Some(place)
}

fn first_in_air(entries: &[Entry], delay: u32, speaker: usize, now: Moment) -> Option<usize>
    ensures none { result ≡ None → find (world.is_in_air_by delay now speaker) (map entry_of entries.now)
        ≡ None }
    ensures place { IfSome result
        (IsFirstPlace (world.is_in_air_by delay now speaker) (map entry_of entries.now)) }
{
    for (place, entry) in entries.iter().enumerate() {
        if is_in_air_by(entry, delay, speaker, now.get()) {
            return Some(place);
        }
    }
    None
}

/// Whether the telegram has a character with this index, among all octets that were to be sent.
fn has_place(entry: &Entry, place: Option<u8>) -> bool
    ensures { result ≡ step.has_place (Some (entry_of entry.now)) place }
{
    match (entry, place) {
        (Entry::Sent(telegram), Some(place)) => usize::from(place) < telegram.octets.len(),
        _ => true,
    }
}

fn strike(entry: &mut Entry, hit: Hit) -> Result<(), WorldFault>
    ensures ok { OnOk result (entry_of entry.new ≡ with_hit (hit_of hit) (entry_of entry.old)) }
    ensures err { OnErr result (entry_of entry.new ≡ entry_of entry.old) }
    ensures fault { IfErr result IsNoMemory }
{
    if let Entry::Sent(telegram) = entry {
        telegram.hits.push(hit)?;
    }
    Ok(())
}
