//! How a telegram reached each tap, in little memory.

use crate::entries::Heard;
use crate::tap_sets::TapSet;
use std::marker::Model;

/// How a telegram reached each tap of a bus, as a list of `Heard`. It is stored as sets of taps, and thus small on a
/// bus of any size.
#[derive(Debug, Drop)]
pub struct Reception {
    /// How many taps there are.
    taps: usize,
    /// The tap that sent the telegram.
    speaker: usize,
    /// Taps that received it whole.
    whole: TapSet,
    /// Taps that received it damaged.
    damaged: TapSet,
    /// Taps at which it was lost.
    unheard: TapSet,
}

impl Model for Reception {
    ghost use Rattle.std.specs.Prelude.{List, ◌≤◌};
    ghost use Rattle.law_model.specs.Trace.{Heard};
    ghost use Rattle.pb_medium.specs.Receptions.{heard_list};

    ghost Value = { List Heard };

    ghost view = { heard_list };

    ghost invariant = { λ r. r.taps ≤ 127 };
}

impl Reception {
    ghost use Rattle.std.specs.Prelude.{◌≡◌, ◌≤◌, ◌<◌, ℕ, IsTrue, List, true, false, get_or, length, map, slice_get, slice_set, Some};
    ghost use Rattle.std.specs.Option.{option_map};
    ghost use Rattle.law_model.specs.Medium as model;
    ghost use Rattle.law_model.specs.Trace as trace;
    ghost use Rattle.law_model.specs.World.{tap_limit};
    ghost use Rattle.pb_medium.specs.Entries.{heard_of};
    ghost use Rattle.pb_medium.specs.Making.{is_own_alone, own_or_pending};

    /// The reception of a telegram that has just begun: own at its speaker, pending at the other taps.
    pub(crate) fn at_first(speaker: usize, taps: usize) -> Reception
        requires { taps ≤ tap_limit }
        ensures { (ts : List model.Tap) → length ts ≡ taps → result ≡ trace.heard_at_first speaker 0 ts }
    {
        Reception {
            taps,
            speaker,
            whole: TapSet::none(),
            damaged: TapSet::none(),
            unheard: TapSet::none(),
        }
    }

    /// The reception with these values. The caller ensures that the telegram is the speaker's own and no other tap's.
    pub(crate) fn of(speaker: usize, heard: &[Heard]) -> Reception
        requires few { length heard.now ≤ tap_limit }
        requires own { is_own_alone speaker 0 (map heard_of heard.now) ≡ true }
        ensures { result ≡ map heard_of heard.now }
    {
        let mut reception = Reception {
            taps: heard.len(),
            speaker,
            whole: TapSet::none(),
            damaged: TapSet::none(),
            unheard: TapSet::none(),
        };
        for tap in 0..heard.len() {
            reception.note(tap, heard[tap]);
        }
        reception
    }

    /// Notes how it reached a tap at which it was pending or that sent it.
    fn note(&mut self, tap: usize, how: Heard)
        requires inside { tap < length self.old }
        requires first { get_or self.old tap trace.Pending ≡ own_or_pending (heard_of how) }
        ensures { self.new ≡ slice_set self.old tap (heard_of how) }
    {
        match how {
            Heard::Whole => self.settle(tap, true),
            Heard::Damaged => self.settle(tap, false),
            Heard::Unheard => self.lose(tap),
            Heard::Own | Heard::Pending => (),
        }
    }

    /// How many taps there are.
    pub fn len(&self) -> usize
        ensures { result ≡ length self.now }
    {
        self.taps
    }

    /// How it reached a tap; `None` if there is no such tap.
    pub fn get(&self, tap: usize) -> Option<Heard>
        ensures { option_map heard_of result ≡ slice_get self.now tap }
    {
        if tap < self.taps {
            Some(self.at(tap))
        } else {
            None
        }
    }

    /// How it reached a tap. The caller ensures that the tap exists.
    pub fn at(&self, tap: usize) -> Heard
        requires { tap < length self.now }
        ensures { slice_get self.now tap ≡ Some (heard_of result) }
    {
        if self.unheard.contains(tap) {
            Heard::Unheard
        } else if tap == self.speaker {
            Heard::Own
        } else if self.whole.contains(tap) {
            Heard::Whole
        } else if self.damaged.contains(tap) {
            Heard::Damaged
        } else {
            Heard::Pending
        }
    }

    /// Whether it is lost at a tap.
    pub(crate) fn is_unheard(&self, tap: usize) -> bool
        ensures { result ≡ model.is_unheard (slice_get self.now tap) }
    {
        if self.unheard.is_empty() {
            return false;
        }
        tap < self.taps && self.unheard.contains(tap)
    }

    /// Whether it is lost at no tap.
    pub(crate) fn is_heard_by_all(&self) -> bool
        ensures { IsTrue result → (tap : ℕ) → model.is_unheard (slice_get self.now tap) ≡ false }
    {
        self.unheard.is_empty()
    }

    /// Marks it as lost at a tap, if that tap exists.
    pub(crate) fn lose(&mut self, tap: usize)
        ensures { self.new ≡ slice_set self.old tap trace.Unheard }
    {
        if tap < self.taps {
            self.unheard.insert(tap);
        }
    }

    /// Notes, for a tap at which it was pending, that it was received whole or damaged.
    pub(crate) fn settle(&mut self, tap: usize, whole: bool)
        requires { tap < length self.old }
        ensures { self.new
            ≡ slice_set self.old tap (model.heard_in_the_end whole (get_or self.old tap trace.Pending)) }
    {
        if !whole {
            self.damaged.insert(tap);
        } else if !self.damaged.contains(tap) {
            self.whole.insert(tap);
        }
    }

    /// An equal reception.
    pub(crate) fn copy(&self) -> Reception
        ensures { result ≡ self.now }
    {
        Reception {
            taps: self.taps,
            speaker: self.speaker,
            whole: self.whole,
            damaged: self.damaged,
            unheard: self.unheard,
        }
    }
}
