//! The GAP of a station, and the rounds in which the station looks for new ones there.

ghost use Rattle.std.specs.Prelude.{◌≡◌, ◌<◌, ◌≤◌, ◌^◌};
ghost use Rattle.pb_ring.specs.AddressSets.{first_of, from_behind};
ghost use Rattle.pb_ring.specs.Gap.{gap_range, is_due, last_asked, left_to_ask, next_asked, round_after};
ghost use Rattle.pb_ring.specs.declared.gaps.Round.TheVariants.{Open, Closed};

use crate::addresses::Addresses;
use std::marker::Model;

/// A round through the GAP.
#[derive(Clone, Copy, Debug, PartialEq, Eq)]
pub enum Round {
    /// The round is open. It has the last address that it asked.
    Open(Option<u8>),
    /// The round is closed. It has the moment at which it was closed, in bit times.
    Closed(u64),
}

/// The GAP list of a station: how far its round through the addresses of its GAP has come.
#[derive(Clone, Copy, Debug, PartialEq, Eq)]
pub struct Gap {
    round: Round,
}

impl Model for Gap {
    ghost use Rattle.pb_ring.specs.declared.gaps.Round.{Round};

    ghost Value = { Round };

    ghost view = { λ gap. gap.round };

    ghost inverse = { λ round. record { round = round } };
}

impl Gap {
    /// An open round that has asked no address. (GAP update.)
    pub fn fresh() -> Gap
        ensures { result ≡ Open None }
    {
        Gap {
            round: Round::Open(None),
        }
    }

    /// The GAP of the station `ts` with the next station `ns`, both 0 to 126: the addresses strictly between them, in
    /// cyclic order, up to the highest station address `hsa`, 0 to 126. The GAP of a lone station, which is its own
    /// next one, is every other address up to `hsa`.
    pub fn range(ts: u8, ns: u8, hsa: u8) -> Addresses
        requires { hsa < 127 }
        ensures { result ≡ gap_range ts ns hsa }
    {
        Addresses::between(ts, ns, hsa)
    }

    /// Whether a round is due at `now`, in bit times: it is open, or it was closed at least `gap` target rotation times
    /// `ttr` ago. (GAP update: the GAP factor.)
    pub fn due(&self, now: u64, ttr: u32, gap: u32) -> bool
        ensures { result ≡ is_due self.now now ttr gap }
    {
        match self.round {
            Round::Open(_) => true,
            Round::Closed(at) => is_past(at, now, ttr, gap),
        }
    }

    /// The next address to ask, for the station `ts` with the next station `ns`: the first one of the GAP after the
    /// last one that the round asked, in cyclic order from `ts` on. It counts as asked, whatever the reply. A closed
    /// round starts again, due or not. If no address is left, the result is `None` and the round is closed at `now`, in
    /// bit times. All addresses are 0 to 126.
    pub fn next_to_ask(&mut self, ts: u8, ns: u8, hsa: u8, now: u64) -> Option<u8>
        requires own { ts < 127 }
        requires highest { hsa < 127 }
        ensures address { result ≡ next_asked ts ns hsa (last_asked self.old) }
        ensures round { self.new ≡ round_after (next_asked ts ns hsa (last_asked self.old)) now }
    {
        let next = first_left(self.round, ts, ns, hsa);
        self.round = round_then(next, now);
        next
    }

    /// The request to an address was answered or timed out. The round is unchanged.
    pub fn answered(&mut self, _address: u8)
        ensures { self.new ≡ self.old }
    {}
}

/// Whether `gap` target rotation times have passed since `at`.
fn is_past(at: u64, now: u64, ttr: u32, gap: u32) -> bool
    ensures { result ≡ is_due (Closed at) now ttr gap }
{
    at <= now && u64::from(gap) * u64::from(ttr) <= now - at
}

/// The first address that the round has not asked.
fn first_left(round: Round, ts: u8, ns: u8, hsa: u8) -> Option<u8>
    requires own { ts < 127 }
    requires highest { hsa < 127 }
    ensures { result ≡ next_asked ts ns hsa (last_asked round) }
{
    let asked = match round {
        Round::Open(asked) => asked,
        Round::Closed(_) => None,
    };
    left_of_round(ts, ns, hsa, asked).first_behind(ts)
}

/// The addresses of the GAP that are left after a round has asked up to an address.
fn left_of_round(ts: u8, ns: u8, hsa: u8, asked: Option<u8>) -> Addresses
    requires { hsa < 127 }
    ensures { result ≡ left_to_ask ts ns hsa asked }
{
    let behind = Addresses::between(asked.unwrap_or(ts), ts, 126);
    Gap::range(ts, ns, hsa).common(behind)
}

/// The round after a look for an address.
fn round_then(next: Option<u8>, now: u64) -> Round
    ensures { result ≡ round_after next now }
{
    match next {
        Some(address) => Round::Open(Some(address)),
        None => Round::Closed(now),
    }
}
