//! The parts of a list of active stations.

ghost use Rattle.std.specs.Prelude.{◌≡◌, IsTrue, ◌↔◌};

use crate::addresses::Addresses;

/// A token telegram that was heard.
#[derive(Clone, Copy, Debug, PartialEq, Eq)]
pub struct HeardToken {
    pub source: u8,
    pub destination: u8,
}

/// The own station in the ring: its address, and how many tokens have skipped it, at most 255.
#[derive(Clone, Copy, Debug, PartialEq, Eq)]
pub struct Place {
    pub address: u8,
    pub skipped: u8,
}

/// How far the list is learned.
#[derive(Clone, Copy, Debug, PartialEq, Eq)]
pub enum Stage {
    /// Not complete: the sources of the rotation in progress, and the rotation closed before it.
    Learning(Addresses, Option<Addresses>),
    /// Complete: the active stations, and the own place once the station has joined the ring.
    Complete(Addresses, Option<Place>),
}

impl Stage {
    ghost use Rattle.std.specs.Prelude.{◌≡◌, IsTrue, ◌↔◌};

    /// Whether two stages are equal.
    pub(crate) fn is_same(&self, other: &Stage) -> bool
        ensures { IsTrue result ↔ (self.now ≡ other.now) }
    {
        match (self, other) {
            (Stage::Learning(rotation, closed), Stage::Learning(of_other, closed_of_other)) => {
                rotation.equals(*of_other) && is_same_rotation(closed, closed_of_other)
            }
            (Stage::Complete(members, place), Stage::Complete(of_other, place_of_other)) => {
                members.equals(*of_other) && place == place_of_other
            }
            _ => false,
        }
    }
}

fn is_same_rotation(one: &Option<Addresses>, other: &Option<Addresses>) -> bool
    ensures { IsTrue result ↔ (one.now ≡ other.now) }
{
    match (one, other) {
        (Some(one), Some(other)) => one.equals(*other),
        (None, None) => true,
        _ => false,
    }
}
