//! The core of a station: all of it that a turn changes.

ghost use Rattle.std.specs.Prelude.{◌≡◌, ◌≤◌, Some};
ghost use Rattle.pb_transitions.specs.Clocks.{last_end};

use crate::addresses::Address;
use crate::cycles::Cycles;
use crate::past::Past;
use crate::replies::Reply;
use crate::waiting::Waiting;
use pb_ring::{Gap, Las};
use pb_rotation::Rotation;
use pb_telegram::{copy_octets, put_octets};
use pb_timers::Moment;
use pb_tokenfsm::Phase;

/// What a station keeps besides its phase and the waiting requests.
#[derive(Debug, Drop)]
pub struct Kept {
    pub address: Address,
    /// Whether a Begin was read and its End was not.
    pub busy: bool,
    pub past: Past,
    pub reply: Option<Reply>,
    pub las: Las,
    pub gap: Gap,
    pub rotation: Rotation,
    pub cycles: Cycles,
}

/// All of a station that a turn changes.
#[derive(Debug, Drop)]
pub struct Core {
    pub phase: Phase,
    pub kept: Kept,
    /// The requests that wait.
    pub waiting: Waiting,
}

impl Reply {
    fn copy(&self) -> Reply
        ensures { result ≡ self.now }
    {
        Reply {
            ready: self.ready,
            octets: copy_octets(self.octets.as_slice()),
            joins: self.joins,
        }
    }

    /// Overwrites this reply by another, in place.
    fn copy_from(&mut self, other: &Reply)
        ensures { self.new ≡ other.now }
    {
        self.ready = other.ready;
        put_octets(&mut self.octets, &other.octets);
        self.joins = other.joins;
    }
}

impl Kept {
    /// When the station's own last telegram began.
    pub fn own_begin(&self) -> Moment
        ensures { result ≡ self.now.past.begin }
    {
        self.past.begin
    }

    /// When the station's own last telegram ended.
    pub fn own_end(&self) -> Moment
        ensures value { result ≡ self.now.past.end }
        ensures bound { result ≤ last_end }
    {
        self.past.end.get()
    }

    /// Overwrites this value by another, in place.
    fn copy_from(&mut self, other: &Kept)
        ensures { self.new ≡ other.now }
    {
        self.address = other.address;
        self.busy = other.busy;
        self.past = other.past;
        if self.reply.is_some() || other.reply.is_some() {
            copy_reply(&mut self.reply, &other.reply);
        }
        self.las = other.las;
        self.gap = other.gap;
        self.rotation = other.rotation;
        self.cycles.copy_from(&other.cycles);
    }

    /// An equal value.
    pub fn copy(&self) -> Kept
        ensures { result ≡ self.now }
    {
        Kept {
            address: self.address,
            busy: self.busy,
            past: self.past,
            reply: self.reply.as_ref().map(Reply::copy),
            las: self.las,
            gap: self.gap,
            rotation: self.rotation,
            cycles: self.cycles.copy(),
        }
    }
}

impl Core {
    /// Overwrites this core by another, in place.
    pub fn copy_from(&mut self, other: &Core)
        ensures { self.new ≡ other.now }
    {
        self.phase = other.phase.copy();
        self.kept.copy_from(&other.kept);
        self.waiting.copy_from(&other.waiting);
    }
}

/// Slow path of `Kept::copy_from`, kept out of line: usually no reply waits, and its octets then need not be moved.
#[inline(never)]
fn copy_reply(reply: &mut Option<Reply>, other: &Option<Reply>)
    ensures { reply.new ≡ other.now }
{
    match other {
        Some(waits) => put_reply(reply, waits),
        None => *reply = None,
    }
}

/// Copies a waiting reply, in place if one waits already.
fn put_reply(reply: &mut Option<Reply>, waits: &Reply)
    ensures { reply.new ≡ Some waits.now }
{
    match reply {
        Some(reply) => reply.copy_from(waits),
        None => *reply = Some(waits.copy()),
    }
}
