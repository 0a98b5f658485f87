//! How a heard token, or another change, updates a list of active stations.

ghost use Rattle.std.specs.Prelude.{◌≡◌, ◌<◌, Bool};
ghost use Rattle.pb_ring.specs.Las.{is_retry, is_repeated, closed_rotation, learnt, own_of, corrected, skips_after, place_after, stage_heard, stage_entered, stage_removed, stage_readied, members_of};

use crate::addresses::Addresses;
use crate::stages::{HeardToken, Place, Stage};
use crate::words::lies_between;

/// Whether a token is a retry: it goes to another station, and equals the last token heard.
pub fn is_heard_again(last: Option<HeardToken>, sa: u8, da: u8) -> bool
    ensures { result ≡ is_retry last sa da }
{
    match last {
        Some(token) => sa != da && token.source == sa && token.destination == da,
        None => false,
    }
}

/// Updates the list by a token that is no retry.
pub fn hear_token(stage: &mut Stage, sa: u8, da: u8)
    requires source { sa < 127 }
    requires destination { da < 127 }
    ensures { stage.new ≡ stage_heard stage.old sa da }
{
    match stage {
        Stage::Learning(rotation, closed) => {
            let learnt = learn(*rotation, *closed, sa, da);
            *stage = learnt;
        }
        Stage::Complete(members, place) => {
            correct(members, own_address(*place), sa, da);
            count_skips(place, sa, da);
        }
    }
}

/// Adds a station to a complete list.
pub fn entered_stage(stage: Stage, address: u8) -> Stage
    requires { address < 127 }
    ensures { result ≡ stage_entered stage address }
{
    match stage {
        Stage::Learning(rotation, closed) => Stage::Learning(rotation, closed),
        Stage::Complete(members, place) => {
            let mut more = members;
            more.insert(address);
            Stage::Complete(more, place)
        }
    }
}

/// Removes a station from a complete list.
pub fn removed_stage(stage: Stage, address: u8) -> Stage
    requires { address < 127 }
    ensures { result ≡ stage_removed stage address }
{
    match stage {
        Stage::Learning(rotation, closed) => Stage::Learning(rotation, closed),
        Stage::Complete(members, place) => {
            let mut fewer = members;
            fewer.remove(address);
            Stage::Complete(fewer, place)
        }
    }
}

/// Lets the own station join the ring of a complete list.
pub fn readied_stage(stage: Stage, ts: u8) -> Stage
    requires { ts < 127 }
    ensures { result ≡ stage_readied stage ts }
{
    match stage {
        Stage::Learning(rotation, closed) => Stage::Learning(rotation, closed),
        Stage::Complete(members, _) => {
            let mut more = members;
            more.insert(ts);
            let place = Place {
                address: ts,
                skipped: 0,
            };
            Stage::Complete(more, Some(place))
        }
    }
}

/// The active stations; none before the list is complete.
pub fn active_stations(stage: Stage) -> Addresses
    ensures { result ≡ members_of stage }
{
    match stage {
        Stage::Learning(_, _) => Addresses::none(),
        Stage::Complete(members, _) => members,
    }
}

/// Adds the source to the rotation, which is closed if the token is not passed to a higher address.
fn learn(rotation: Addresses, closed: Option<Addresses>, sa: u8, da: u8) -> Stage
    requires { sa < 127 }
    ensures { result ≡ learnt rotation closed sa da }
{
    let mut sources = rotation;
    sources.insert(sa);
    if sa < da {
        return Stage::Learning(sources, closed);
    }
    close_rotation(sources, closed)
}

/// The own address of a station in the ring.
fn own_address(place: Option<Place>) -> Option<u8>
    ensures { result ≡ own_of place }
{
    match place {
        Some(place) => Some(place.address),
        None => None,
    }
}

/// Corrects the members of a complete list by a token.
fn correct(members: &mut Addresses, own: Option<u8>, sa: u8, da: u8)
    requires source { sa < 127 }
    requires destination { da < 127 }
    ensures { members.new ≡ corrected members.old own sa da }
{
    *members = members.without_removed(own, sa, da);
    members.insert(da);
    members.insert(sa);
}

/// Updates the own station's count of tokens that skipped it.
fn count_skips(place: &mut Option<Place>, sa: u8, da: u8)
    ensures { place.new ≡ place_after place.old sa da }
{
    if let Some(own) = place {
        own.skipped = skips_heard(own.address, own.skipped, sa, da);
    }
}

/// Closes a rotation. If it equals the one closed before it, the list is complete.
fn close_rotation(rotation: Addresses, closed: Option<Addresses>) -> Stage
    ensures { result ≡ closed_rotation rotation closed }
{
    if repeats(rotation, closed) {
        Stage::Complete(rotation, None)
    } else {
        Stage::Learning(Addresses::none(), Some(rotation))
    }
}

/// How many tokens have skipped the station `ts`, after one more.
fn skips_heard(ts: u8, skipped: u8, sa: u8, da: u8) -> u8
    ensures { result ≡ skips_after ts skipped sa da }
{
    if sa == ts || da == ts {
        0
    } else if lies_between(sa, da, ts) {
        skipped.saturating_add(1)
    } else {
        skipped
    }
}

/// Whether a rotation equals the one closed before it.
fn repeats(rotation: Addresses, closed: Option<Addresses>) -> bool
    ensures { result ≡ is_repeated rotation closed }
{
    match closed {
        Some(before) => before.equals(rotation),
        None => false,
    }
}
