//! Stretches of time.

use std::marker::Model;

/// A stretch of time, in bit times: `begin` is in it, `end` is not.
#[derive(Clone, Copy, Debug)]
pub struct Span {
    begin: u64,
    end: u64,
}

impl Model for Span {
    ghost use Rattle.law_turn.specs.Spans as model;

    ghost Value = { model.Span };

    ghost view = { λ s. record { begin = s.begin; end = s.end } };

    ghost invariant = { λ _. Unit {0} };

    ghost inverse = { λ s. record { begin = s.begin; end = s.end } };
}

impl Span {
    ghost use Rattle.std.specs.Prelude.{◌≡◌};
    ghost use Rattle.law_model.specs.Medium.{lasts_through, contains_moment, overlaps, part_after};

    pub(crate) fn new(begin: u64, end: u64) -> Span
        ensures { result ≡ record { begin = begin; end = end } }
    {
        Span { begin, end }
    }

    /// When it begins.
    pub fn begin(self) -> u64
        ensures { result ≡ self.begin }
    {
        self.begin
    }

    /// When it ends: the first moment after it.
    pub fn end(self) -> u64
        ensures { result ≡ self.end }
    {
        self.end
    }

    /// Whether it begins before `moment` and ends after it.
    pub(crate) fn lasts_through(self, moment: u64) -> bool
        ensures { result ≡ lasts_through moment self }
    {
        self.begin < moment && moment < self.end
    }

    pub(crate) fn contains(self, moment: u64) -> bool
        ensures { result ≡ contains_moment moment self }
    {
        self.begin <= moment && moment < self.end
    }

    pub(crate) fn overlaps(self, other: Span) -> bool
        ensures { result ≡ overlaps self other }
    {
        self.begin < other.end && other.begin < self.end
    }

    /// The part of it from `moment` on, if it ends later.
    pub(crate) fn part_after(self, moment: u64) -> Option<Span>
        ensures { result ≡ part_after moment self }
    {
        if moment < self.end {
            return Some(Span::new(self.begin.max(moment), self.end));
        }
        None
    }
}
