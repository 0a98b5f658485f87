//! Puts what a tap sends into the trace.

ghost use Rattle.std.specs.Prelude.{◌≡◌, ◌≤◌, ◌∷◌, [], ℕ, List, length};
ghost use Rattle.law_model.specs.Medium as model;
ghost use Rattle.law_model.specs.Step as step;
ghost use Rattle.law_model.specs.Trace.{Sent};
ghost use Rattle.law_model.specs.World.{clock_limit, tap_limit};
ghost use Rattle.pb_medium.specs.Entries.{entry_of};
ghost use Rattle.pb_medium.specs.Speaking.{with_octets};

use crate::entries::{Entry, Record};
use crate::receptions::Reception;
use crate::traces::Trace;
use arrayvec::ArrayVec;
use pb_station::SendBuffer;
use pb_telegram::put_octets;
use pb_timers::{Moment, bits};
use std::alloc::Global;

/// A tap that speaks at the clock, on a bus with this many taps.
#[derive(Clone, Copy, Debug)]
pub struct Speaker {
    pub tap: usize,
    pub taps: usize,
    pub clock: Moment,
}

impl Trace {
    ghost use Rattle.std.specs.Prelude.{◌≡◌, ◌≤◌, List, true, is_some, length};
    ghost use Rattle.law_model.specs.Medium as model;
    ghost use Rattle.law_model.specs.Step.{with_said};
    ghost use Rattle.law_model.specs.World.{clock_limit, tap_limit};
    ghost use Rattle.pb_medium.specs.Traces.{HasRoom, RecentBecomes};

    /// Puts what a tap sends at the clock, if anything, into the trace. The caller ensures that the trace has room for
    /// it.
    pub fn say(&mut self, alloc: Global, speaker: Speaker, sent: &SendBuffer)
        requires room { is_some sent.now ≡ true → HasRoom self.old }
        requires clock { speaker.clock ≤ clock_limit }
        requires taps { speaker.taps ≤ tap_limit }
        ensures { (ts : List model.Tap) → length ts ≡ speaker.taps
            → RecentBecomes (with_said speaker.tap sent.now speaker.clock ts) self.old self.new }
    {
        if let Some(octets) = sent.octets() {
            let place = self.put(sending(alloc, speaker, octets.len()));
            spell(&mut self.entries[place], octets);
        }
    }
}

/// A new telegram of a tap, of this many octets, which are written later.
#[inline(always)]
fn sending(alloc: Global, speaker: Speaker, count: usize) -> Entry
    requires few { count ≤ 255 }
    requires room { (speaker.clock ≤ clock_limit) × (speaker.taps ≤ tap_limit) }
    ensures { (octets : List ℕ) (ts : List model.Tap) → length octets ≡ count → length ts ≡ speaker.taps
        → with_octets octets (entry_of result) ≡ Sent (step.sending speaker.tap octets speaker.clock ts) }
{
    let begin = speaker.clock.get();
    Entry::Sent(Record {
        tap: speaker.tap,
        octets: ArrayVec::new(),
        begin,
        end: begin + bits(count),
        heard: Reception::at_first(speaker.tap, speaker.taps),
        hits: Vec::new(alloc),
    })
}

/// Writes the octets of a telegram in the trace, in place.
#[inline(always)]
fn spell(entry: &mut Entry, octets: &[u8])
    requires { length octets.now ≤ 255 }
    ensures { entry_of entry.new ≡ with_octets octets.now (entry_of entry.old) }
{
    if let Entry::Sent(telegram) = entry {
        match octets {
            [first, second, third] => put_three(&mut telegram.octets, *first, *second, *third),
            _ => put_octets(&mut telegram.octets, octets),
        }
    }
}

/// Writes three octets, the length of a token: most telegrams are tokens.
#[inline(always)]
fn put_three(room: &mut ArrayVec<u8, 255>, first: u8, second: u8, third: u8)
    ensures { room.new.items ≡ first ∷ second ∷ third ∷ [] }
{
    room.clear();
    room.push(first);
    room.push(second);
    room.push(third);
}
