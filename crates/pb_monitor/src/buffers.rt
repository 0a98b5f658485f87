//! A line that comes in pieces.

ghost use Rattle.std.specs.Prelude.{◌≡◌, ◌<◌, ◌++◌, List, ℕ, [], MatchOption, OnOk, IsTrue, length};
ghost use Rattle.pb_monitor.specs.Lines.{IsFront};

use crate::lines::LONGEST_LINE;
use std::alloc::{AllocError, Global};

/// The front of a line of which the end has not come, at most 4,096 characters.
#[derive(Drop)]
pub(crate) struct LineBuffer {
    front: Vec<u8>,
    is_too_long: bool,
}

impl LineBuffer {
    /// Nothing has come.
    pub(crate) fn new(alloc: Global) -> LineBuffer
        ensures { IsFront result [] }
    {
        LineBuffer {
            front: Vec::new(alloc),
            is_too_long: false,
        }
    }

    /// Whether nothing of a line has come.
    pub(crate) fn is_empty(&self) -> bool
        ensures { (front : List ℕ) → IsFront self.now front → IsTrue result → front ≡ [] }
    {
        self.front.is_empty() && !self.is_too_long
    }

    /// More of the line has come. Of a line that is too long nothing is kept.
    pub(crate) fn keep(&mut self, piece: &[u8]) -> Result<(), AllocError>
        ensures { OnOk result ((front : List ℕ) → IsFront self.old front
            → IsFront self.new (front ++ piece.now)) }
    {
        if self.is_too_long || piece.len() > LONGEST_LINE {
            self.is_too_long = true;
            return Ok(());
        }
        self.front.extend_from_slice(piece)?;
        if self.front.len() > LONGEST_LINE + 1 {
            self.is_too_long = true;
            self.front.clear();
        }
        Ok(())
    }

    /// The line that has come; `None` if it is too long.
    pub(crate) fn line(&self) -> Option<&[u8]>
        ensures { (front : List ℕ) → IsFront self.now front
            → MatchOption result (4096 < length front) (λ line. line.now ≡ front) }
    {
        if self.is_too_long {
            return None;
        }
        Some(self.front.as_slice())
    }

    /// The next line begins.
    pub(crate) fn restart(&mut self)
        ensures { IsFront self.new [] }
    {
        self.front.clear();
        self.is_too_long = false;
    }
}
