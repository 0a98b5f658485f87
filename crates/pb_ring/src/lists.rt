//! The list of active stations.

ghost use Rattle.std.specs.Prelude.{◌≡◌, ◌<◌, Bool, true, IsTrue, ◌↔◌};
ghost use Rattle.pb_ring.specs.AddressSets.{is_member, next_address, previous_address};
ghost use Rattle.pb_ring.specs.Las.{listening, claimed, heard, entered, removed, readied, is_complete, members_of, place_of, skips_of};

use crate::addresses::Addresses;
use crate::learning::{
    active_stations, entered_stage, hear_token, is_heard_again, readied_stage, removed_stage,
};
use crate::stages::{HeardToken, Place, Stage};
use std::marker::Model;

/// The list of active stations (LAS) of a station, learned from the token telegrams that it hears.
#[derive(Clone, Copy, Debug, PartialEq, Eq)]
pub struct Las {
    last: Option<HeardToken>,
    stage: Stage,
}

impl Model for Las {
    ghost use Rattle.pb_ring.specs.Las.{LasTable};

    ghost Value = { LasTable };

    ghost view = { λ las. record { last = las.last; stage = las.stage } };

    ghost inverse = { λ table. record { last = table.last; stage = table.stage } };
}

impl Las {
    /// The list of a station that starts to listen: nothing was heard, and the list is not complete. (LAS formation, in
    /// Listen_Token.)
    pub fn listening() -> Las
        ensures { result ≡ listening }
    {
        Las {
            last: None,
            stage: Stage::Learning(Addresses::none(), None),
        }
    }

    /// The list of a station with the address `ts`, 0 to 126, that has claimed the token. The list is complete, with
    /// the station as its only member, in the ring. No token counts as heard.
    pub fn claimed(ts: u8) -> Las
        requires { ts < 127 }
        ensures { result ≡ claimed ts }
    {
        let place = Place {
            address: ts,
            skipped: 0,
        };
        Las {
            last: None,
            stage: Stage::Complete(Addresses::only(ts), Some(place)),
        }
    }

    /// Whether two lists are equal.
    pub fn is_same(&self, other: &Las) -> bool
        ensures { IsTrue result ↔ (self.now ≡ other.now) }
    {
        self.last == other.last && self.stage.is_same(&other.stage)
    }

    /// Updates the list by a token telegram from `sa` to `da`, 0 to 126. A retry changes nothing. Before the list is
    /// complete, `sa` joins the rotation, and two equal rotations complete the list. After that, the addresses strictly
    /// between `sa` and `da` leave the list (except the own station in the ring), and `sa` and `da` enter it. (LAS
    /// formation and its corrections by heard tokens.)
    pub fn hear(&mut self, sa: u8, da: u8)
        requires source { sa < 127 }
        requires destination { da < 127 }
        ensures { self.new ≡ heard self.old sa da }
    {
        if !is_heard_again(self.last, sa, da) {
            hear_token(&mut self.stage, sa, da);
        }
        self.last = Some(HeardToken {
            source: sa,
            destination: da,
        });
    }

    /// Whether the list is complete.
    pub fn complete(&self) -> bool
        ensures { result ≡ is_complete self.now.stage }
    {
        match self.stage {
            Stage::Learning(_, _) => false,
            Stage::Complete(_, _) => true,
        }
    }

    /// Adds the station with this address, 0 to 126. The caller ensures that the list is complete. (GAP update: a new
    /// station has answered that it is ready.)
    pub fn enter(&mut self, address: u8)
        requires station { address < 127 }
        requires complete { is_complete self.old.stage ≡ true }
        ensures { self.new ≡ entered self.old address }
    {
        self.stage = entered_stage(self.stage, address);
    }

    /// Removes the station with this address, 0 to 126. The caller ensures that the list is complete. (Token passing: a
    /// next station that does not take the token.)
    pub fn remove(&mut self, address: u8)
        requires station { address < 127 }
        requires complete { is_complete self.old.stage ≡ true }
        ensures { self.new ≡ removed self.old address }
    {
        self.stage = removed_stage(self.stage, address);
    }

    /// Whether the station with this address, 0 to 126, is in the list. Before the list is complete, none is.
    pub fn contains(&self, address: u8) -> bool
        requires { address < 127 }
        ensures { result ≡ is_member (members_of self.now.stage) address }
    {
        active_stations(self.stage).contains(address)
    }

    /// The stations in the list. Before the list is complete, there are none.
    pub fn members(&self) -> Addresses
        ensures { result ≡ members_of self.now.stage }
    {
        active_stations(self.stage)
    }

    /// The own station's place in the ring, once it has joined.
    pub fn place(&self) -> Option<Place>
        ensures { result ≡ place_of self.now.stage }
    {
        match self.stage {
            Stage::Learning(_, _) => None,
            Stage::Complete(_, place) => place,
        }
    }

    /// The next station (NS) of the station `ts`, 0 to 126: the next higher address of the list, else the lowest. A
    /// station is its own next one if no other is in the list.
    pub fn ns(&self, ts: u8) -> u8
        requires { ts < 127 }
        ensures value { result ≡ next_address ts (members_of self.now.stage) }
        ensures station { result < 127 }
    {
        active_stations(self.stage).first_behind(ts).unwrap_or(ts)
    }

    /// The previous station (PS) of the station `ts`, 0 to 126: the next lower address of the list, else the highest. A
    /// station is its own previous one if no other is in the list.
    pub fn ps(&self, ts: u8) -> u8
        requires { ts < 127 }
        ensures { result ≡ previous_address ts (members_of self.now.stage) }
    {
        active_stations(self.stage).last_before(ts).unwrap_or(ts)
    }

    /// The station itself, with the address `ts`, 0 to 126, joins the ring and enters the list. The caller ensures that
    /// the list is complete. No token has skipped it yet. The last heard token stays remembered.
    pub fn ready(&mut self, ts: u8)
        requires station { ts < 127 }
        requires complete { is_complete self.old.stage ≡ true }
        ensures { self.new ≡ readied self.old ts }
    {
        self.stage = readied_stage(self.stage, ts);
    }

    /// How many token telegrams have skipped the station since it joined the ring, or since the last token from or to
    /// it: those between others, with the station strictly between them. The count saturates at 255. It is 0 if the
    /// station has not joined.
    pub fn skipped(&self) -> u8
        ensures { result ≡ skips_of (place_of self.now.stage) }
    {
        match self.stage {
            Stage::Complete(_, Some(place)) => place.skipped,
            _ => 0,
        }
    }
}
