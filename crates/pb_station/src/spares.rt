//! Boxes of discarded stations, in which others are copied.

ghost use Rattle.std.specs.Prelude.{◌≡◌, IfOk};

use crate::stations::{Parts, Station};
use pb_faults::NoMemory;
use std::alloc::Global;

/// The most boxes that are kept.
const LIMIT: usize = 16;

/// Boxes of discarded stations. A copy that is made in one of them allocates nothing, and copies only what the station
/// has, not its capacity.
#[derive(Debug, Drop)]
pub struct Spares {
    rooms: Vec<Box<Parts>>,
}

impl Spares {
    /// No boxes.
    pub fn new(alloc: Global) -> Spares {
        Spares {
            rooms: Vec::new(alloc),
        }
    }

    /// An equal station, copied into a kept box, or into new memory if none is kept. If another box is kept, it is
    /// attached to the copy for a further copy.
    ///
    /// Fault: `NoMemory` if memory was refused.
    pub fn copy_of(&mut self, alloc: Global, station: &Station) -> Result<Station, NoMemory>
        ensures { IfOk result (λ s. s ≡ station.now) }
    {
        let copy = match self.rooms.pop() {
            Some(room) => station.copy_to(room),
            None => station.copy(alloc)?,
        };
        Ok(copy.with_room(self.rooms.pop()))
    }

    /// Keeps the boxes of two discarded stations, if there is place for both among 16 and memory for them is not
    /// refused. Otherwise both are freed.
    pub fn keep(&mut self, one: Station, other: Station) {
        if self.rooms.len() + 2 <= LIMIT && self.rooms.reserve(2).is_ok() {
            self.rooms.push_reserved(one.into_parts());
            self.rooms.push_reserved(other.into_parts());
        }
    }
}
