//! The definition of a segment's new world.

ghost use Rattle.std.specs.Prelude.{◌≡◌, ◌<◌, ◌↔◌, IsTrue, IfOk, Some, length, slice_get};
ghost use Rattle.law_runs.specs.Headline.{specs_of};
ghost use Rattle.pb_segment.specs.Origins.{IsMade};

use pb_timers::BusParams;
use pb_world::World;
use std::alloc::{AllocError, Global};
use std::marker::Model;

/// The definition of a new world: the parameters of its bus, and the definition of each tap.
#[derive(Drop)]
pub(crate) struct Origin {
    params: BusParams,
    members: Vec<Member>,
}

impl Model for Origin {
    ghost use Rattle.pb_segment.specs.Origins as specs;

    ghost Value = { specs.Origin };

    ghost view = { λ o. record { params = o.params; specs = o.members.items } };
}

/// The definition of a tap.
#[derive(Drop)]
struct Member {
    address: u8,
    master: bool,
    /// The data with which it replies to a request for data.
    reply: Vec<u8>,
}

impl Model for Member {
    ghost use Rattle.law_model.specs.Medium.{TapSpec};

    ghost Value = { TapSpec };

    ghost view = { λ m. record { address = m.address; master = m.master; reply = m.reply.items } };
}

impl Origin {
    ghost use Rattle.std.specs.Prelude.{◌≡◌, ◌↔◌, IsTrue, IfOk};
    ghost use Rattle.pb_segment.specs.Origins.{IsMade, origin_of};

    /// The definition of a new world.
    ///
    /// Fault: memory was refused.
    pub(crate) fn of(alloc: Global, world: &World) -> Result<Origin, AllocError>
        requires { IsMade world.now }
        ensures { IfOk result (λ o. o ≡ origin_of world.entry.now) }
    {
        let params = params_of(world);
        let members = members_of(alloc, world)?;
        Ok(Origin { params, members })
    }

    /// Whether two definitions are equal.
    pub(crate) fn is_same(&self, other: &Origin) -> bool
        ensures { IsTrue result ↔ (self.now ≡ other.now) }
    {
        other.params.is_same(&self.params) && are_same_members(&self.members, &other.members)
    }
}

/// The parameters of a new world's bus, as its first station has them.
fn params_of(world: &World) -> BusParams
    requires { IsMade world.now }
    ensures { result ≡ world.entry.now.params }
{
    let Some(first) = world.station(0) else {
        // `World::new` refuses an empty list of taps.
        unreachable!()
    };
    *first.params()
}

/// The definitions of a new world's taps.
///
/// Fault: memory was refused.
#[tactic(auto, using(crate::proofs::NewWorlds::next_spec))]
fn members_of(alloc: Global, world: &World) -> Result<Vec<Member>, AllocError>
    requires { IsMade world.now }
    ensures { IfOk result (λ members. members.items ≡ specs_of world.entry.now) }
{
    let mut members = Vec::new(alloc);
    for tap in 0..world.taps() {
        members.push(member_at(alloc, world, tap)?)?;
    }
    Ok(members)
}

/// The definition of a new world's tap with this index.
///
/// Fault: memory was refused.
fn member_at(alloc: Global, world: &World, tap: usize) -> Result<Member, AllocError>
    requires new { IsMade world.now }
    requires inside { tap < length world.now.taps }
    ensures { IfOk result (λ member. slice_get (specs_of world.entry.now) tap ≡ Some member) }
{
    let Some(station) = world.station(tap) else {
        // Each tap of a world has a station, and this tap exists.
        unreachable!()
    };
    let mut reply = Vec::new(alloc);
    reply.extend_from_slice(station.reply_data())?;
    Ok(Member {
        address: station.address(),
        master: station.is_master(),
        reply,
    })
}

fn are_same_members(one: &Vec<Member>, other: &Vec<Member>) -> bool
    ensures { IsTrue result ↔ (one.now.items ≡ other.now.items) }
{
    if one.len() != other.len() {
        return false;
    }
    for place in 0..one.len() {
        if !is_same_member(&one[place], &other[place]) {
            return false;
        }
    }
    true
}

fn is_same_member(one: &Member, other: &Member) -> bool
    ensures { IsTrue result ↔ (one.now ≡ other.now) }
{
    one.address == other.address && one.master == other.master && one.reply == other.reply
}
