//! What people see beside the output: of a stream how far it is, of a capture the lines that its export has no place for.

use pb_cli::{Flush, Notes, Observer, Progress};
use std::rt::Clock;
use std::time::Instant;

/// How many instants pass between two looks at the clock.
const INSTANTS: u32 = 255;

/// How many milliseconds a line stays at least.
const MILLIS: u64 = 200;

/// Which standard streams are terminals.
#[derive(Clone, Copy)]
pub(crate) struct Terminals {
    pub(crate) output: bool,
    pub(crate) errors: bool,
}

impl Terminals {
    /// When lines are written: on a terminal somebody looks on.
    pub(crate) fn flush(self) -> Flush {
        if self.output {
            Flush::Instants
        } else {
            Flush::Blocks
        }
    }

    /// When the progress is shown: unasked only where it does not stand among the lines of the trace.
    pub(crate) fn shown(self, is_asked: bool, is_quiet: bool) -> Shown {
        if is_quiet {
            Shown::Never
        } else if is_asked {
            Shown::Always
        } else if self.errors && !self.output {
            Shown::IfLong
        } else {
            Shown::Never
        }
    }
}

/// When the progress is shown.
#[derive(Clone, Copy, Debug, PartialEq, Eq)]
pub(crate) enum Shown {
    /// Never.
    Never,
    /// Where the stream takes long.
    IfLong,
    /// At the end at least.
    Always,
}

/// A line on standard error that is written over itself.
#[derive(Drop)]
pub(crate) struct ProgressLine<'a, T> {
    rt: &'a T,
    /// Since when the stream is played. `None` where no line is shown, or the clock failed.
    start: Option<Instant>,
    /// How many instants pass until the next look at the clock.
    instants: u32,
    /// What was seen last.
    last: Progress,
    /// Up to when the line stays, in milliseconds since the start.
    stays: u64,
    /// Whether there is a line to end.
    is_open: bool,
}

impl<'a, T: Clock + Eprint> ProgressLine<'a, T> {
    /// The line of a stream that starts now.
    pub(crate) fn new(rt: &'a T, shown: Shown) -> Self {
        let start = match shown {
            Shown::Never => None,
            Shown::IfLong | Shown::Always => Instant::now(rt).ok(),
        };
        ProgressLine {
            rt,
            start,
            instants: INSTANTS,
            last: Progress {
                clock: 0,
                until: 0,
                millis: 0,
            },
            stays: MILLIS,
            is_open: shown == Shown::Always,
        }
    }

    /// Ends the line, with what was seen last, if there is one.
    pub(crate) fn end(&mut self) {
        if let Some(start) = self.start
            && self.is_open
        {
            self.look(start);
            self.show();
            let _ = eprintln!(self.rt; "");
        }
    }

    /// Looks at the clock.
    fn look(&mut self, start: Instant) {
        if let Ok(passed) = start.elapsed(self.rt) {
            self.last.millis = u64::try_from(passed.as_millis()).unwrap_or(u64::MAX);
        }
    }

    /// Writes the line over the one before, of which the blanks leave nothing. If the write fails, the line is dropped.
    fn show(&mut self) {
        let progress = self.last;
        let _ = eprint!(self.rt; "\r{progress}        ");
        self.is_open = true;
        self.stays = progress.millis.saturating_add(MILLIS);
    }
}

impl<T: Clock + Eprint> Observer for ProgressLine<'_, T> {
    fn observe(&mut self, clock: u64, until: u64) {
        let Some(start) = self.start else {
            return;
        };
        self.last.clock = clock;
        self.last.until = until;
        if let Some(left) = self.instants.checked_sub(1) {
            self.instants = left;
            return;
        }
        self.instants = INSTANTS;
        self.look(start);
        if self.last.millis >= self.stays {
            self.show();
        }
    }
}

/// Lines on standard error.
#[derive(Drop)]
pub(crate) struct ErrorLines<'a, T> {
    rt: &'a T,
    is_quiet: bool,
}

impl<'a, T: Eprint> ErrorLines<'a, T> {
    /// Nothing is printed where hints are suppressed.
    pub(crate) fn new(rt: &'a T, is_quiet: bool) -> Self {
        ErrorLines { rt, is_quiet }
    }
}

impl<T: Eprint> Notes for ErrorLines<'_, T> {
    /// Prints lines. If the write fails, they are dropped.
    fn note(&mut self, lines: &[u8]) {
        if !self.is_quiet
            && let Ok(lines) = str::from_utf8(lines)
        {
            let _ = eprint!(self.rt; "{lines}");
        }
    }
}
