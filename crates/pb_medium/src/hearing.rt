//! Iterates over how a telegram reached each tap.

use crate::entries::Heard;
use crate::receptions::Reception;

/// How a telegram reached each remaining tap, in the order of the taps.
#[derive(Drop)]
pub struct HeardByTap<'a> {
    reception: &'a Reception,
    next: usize,
}

impl<'a> Iterator for HeardByTap<'a> {
    type Item = Heard;

    ghost use Rattle.std.specs.Iterator.{YieldsFirstBy, item_count};
    ghost use Rattle.pb_medium.specs.Entries.{heard_of};
    ghost use Rattle.pb_medium.specs.Walking.{heard_left};

    ghost next_gives = { YieldsFirstBy heard_of heard_left };

    ghost remaining = { item_count heard_left };

    fn next(&mut self) -> Option<Heard> {
        if self.next >= self.reception.len() {
            return None;
        }
        let heard = self.reception.at(self.next);
        self.next += 1;
        Some(heard)
    }
}

impl Reception {
    ghost use Rattle.std.specs.Prelude.{◌≡◌};
    ghost use Rattle.pb_medium.specs.Walking.{heard_left};

    /// How the telegram reached each tap, in the order of the taps.
    pub fn iter(&self) -> HeardByTap<'_>
        ensures { heard_left result ≡ self.now }
    {
        HeardByTap {
            reception: self,
            next: 0,
        }
    }
}
