//! The bursts of a capture that a picture has.

use pb_monitor::HeardBurst;
use std::alloc::{AllocError, Global};

/// The most bursts that a picture has.
const MOST_BURSTS: usize = 10_000;

/// The most bit times that a picture has.
const MOST_BITS: u64 = 1_000_000;

/// The first bursts of a capture, as many as a picture has.
#[derive(Drop)]
pub(crate) struct Drawing {
    bursts: Vec<HeardBurst>,
    /// How many were left out.
    left_out: u64,
}

impl Drawing {
    ghost use Rattle.std.specs.Prelude.{◌≡◌, ◌++◌, [], List, OnOk};
    ghost use Rattle.pb_monitor.specs.declared.heard_bursts.HeardBurst.{HeardBurst};
    ghost use Rattle.pb_cli.specs.Drawing as drawing;

    /// No burst has come.
    pub(crate) fn new(alloc: Global) -> Drawing
        ensures { drawing.IsOf result [] }
    {
        Drawing {
            bursts: Vec::new(alloc),
            left_out: 0,
        }
    }

    /// More bursts have come.
    pub(crate) fn add(&mut self, bursts: &[HeardBurst]) -> Result<(), AllocError>
        ensures { OnOk result ((before : List HeardBurst) → drawing.IsOf self.old before
            → drawing.IsOf self.new (before ++ bursts.now)) }
    {
        for burst in bursts {
            self.add_one(burst)?;
        }
        Ok(())
    }

    /// The bursts of the picture.
    pub(crate) fn bursts(&self) -> &[HeardBurst]
        ensures { result.now ≡ self.now.bursts.items }
    {
        &self.bursts
    }

    /// Appends a line if bursts were left out.
    pub(crate) fn push_left_out(&self, alloc: Global, lines: &mut Vec<u8>) -> Result<(), AllocError>
        ensures { OnOk result (lines.new.items
            ≡ lines.old.items ++ drawing.left_out_text self.now.left_out) }
    {
        if self.left_out == 0 {
            return Ok(());
        }
        let count = self.left_out;
        let line = format!(in alloc;
            "the picture leaves out {count} bursts; wanted: at most {MOST_BURSTS} bursts, within {MOST_BITS} bit times\n"
        )?;
        lines.extend_from_slice(line.as_bytes())
    }

    /// One more burst has come.
    fn add_one(&mut self, burst: &HeardBurst) -> Result<(), AllocError>
        ensures bursts { OnOk result (self.new.bursts.items
            ≡ self.old.bursts.items ++ drawing.if_room self.old.bursts.items burst.now) }
        ensures left_out { OnOk result (self.new.left_out
            ≡ drawing.left_out_after self.old.left_out self.old.bursts.items burst.now) }
    {
        if self.has_room(burst) {
            self.bursts.push(burst.clone()?)?;
        } else {
            self.left_out = self.left_out.saturating_add(1);
        }
        Ok(())
    }

    /// Whether a burst is within the limits.
    fn has_room(&self, burst: &HeardBurst) -> bool
        ensures { result ≡ drawing.has_room self.now.bursts.items burst.now }
    {
        let first = match self.bursts.first() {
            Some(first) => first.begin,
            None => burst.begin,
        };
        self.bursts.len() < MOST_BURSTS
            && first <= burst.begin
            && burst.end.saturating_sub(first) <= MOST_BITS
    }
}
