//! The frame count bits of an initiator, for each address.

ghost use Rattle.std.specs.Prelude.{◌≡◌, ◌≢◌, ◌≤◌, ◌<◌, ◌^◌, ◌==◌, ℕ, true, false, bit_and};
ghost use Rattle.std.specs.Bool.{Decides};
ghost use Rattle.std.specs.Int.{bit_at};
ghost use Rattle.pb_cycles.specs.CountMasks.{count_of};

use pb_telegram::FrameCount;
use std::marker::Model;

/// The next frame count bits for each station, as the bits of two numbers: these are quick to copy and compare.
#[derive(Debug, Drop)]
pub(crate) struct FrameCounts {
    /// The stations whose next frame count bit is valid.
    counting: u128,
    /// Those of them for which it is 1. For other stations the bit has no meaning.
    set: u128,
}

impl Model for FrameCounts {
    ghost use Rattle.std.specs.Prelude.{List, ◌<◌, ◌^◌};
    ghost use Rattle.pb_cycles.specs.CountMasks.{counts_in};
    ghost use Rattle.pb_telegram.specs.declared.control.FrameCount.{FrameCount};

    ghost Value = { List FrameCount };

    ghost view = { λ c. counts_in c.counting c.set };

    ghost invariant = { λ c. c.counting < 2 ^ 127 };
}

impl FrameCounts {
    ghost use Rattle.std.specs.Prelude.{◌≡◌, ◌<◌, replicate, slice_set, IsTrue, ◌↔◌};
    ghost use Rattle.pb_cycles.specs.Counts.{count_at};
    ghost use Rattle.pb_telegram.specs.declared.control.FrameCount.TheVariants.{First, Clear, Set};

    /// The next request to each station is a first request.
    pub(crate) fn new() -> FrameCounts
        ensures { result ≡ replicate 127 First }
    {
        FrameCounts {
            counting: 0,
            set: 0,
        }
    }

    /// The frame count bits of the next request to a station.
    pub(crate) fn at(&self, address: u8) -> FrameCount
        requires { address < 127 }
        ensures { result ≡ count_at self.now address }
    {
        count_of(is_set(self.counting, address), is_set(self.set, address))
    }

    /// Sets the frame count bits of the next request to a station.
    pub(crate) fn put(&mut self, address: u8, count: FrameCount)
        requires { address < 127 }
        ensures { self.new ≡ slice_set self.old address count }
    {
        match count {
            FrameCount::First => self.put_first(address),
            FrameCount::Clear => self.put_clear(address),
            FrameCount::Set => self.put_set(address),
        }
    }

    fn put_first(&mut self, address: u8)
        requires { address < 127 }
        ensures { self.new ≡ slice_set self.old address First }
    {
        self.counting = without_bit(self.counting, address);
    }

    fn put_clear(&mut self, address: u8)
        requires { address < 127 }
        ensures { self.new ≡ slice_set self.old address Clear }
    {
        self.counting = with_bit(self.counting, address);
        self.set = without_bit(self.set, address);
    }

    fn put_set(&mut self, address: u8)
        requires { address < 127 }
        ensures { self.new ≡ slice_set self.old address Set }
    {
        self.counting = with_bit(self.counting, address);
        self.set = with_bit(self.set, address);
    }

    /// Equal frame count bits.
    pub(crate) fn copy(&self) -> FrameCounts
        ensures { result ≡ self.now }
    {
        FrameCounts {
            counting: self.counting,
            set: self.set,
        }
    }

    /// Whether the frame count bits for all stations are equal.
    pub(crate) fn is_same(&self, other: &FrameCounts) -> bool
        ensures { IsTrue result ↔ (self.now ≡ other.now) }
    {
        are_same(self.counting, self.set, other.counting, other.set)
    }
}

fn count_of(counting: bool, set: bool) -> FrameCount
    ensures { result ≡ count_of counting set }
{
    match (counting, set) {
        (false, _) => FrameCount::First,
        (true, false) => FrameCount::Clear,
        (true, true) => FrameCount::Set,
    }
}

/// Whether two sets of valid bits are equal, and so are the bits in them.
fn are_same(counting: u128, set: u128, other_counting: u128, other_set: u128) -> bool
    ensures { Decides result
        ((counting ≡ other_counting) × (bit_and set counting ≡ bit_and other_set other_counting)) }
{
    counting == other_counting && set & counting == other_set & other_counting
}

/// Whether the bit of a station is set.
fn is_set(bits: u128, address: u8) -> bool
    requires { address < 127 }
    ensures { result ≡ (bit_at bits address == 1) }
{
    (bits >> address) & 1 == 1
}

/// The bits with that of a station set.
fn with_bit(bits: u128, address: u8) -> u128
    requires { address < 127 }
    ensures set { (bit_at result address == 1) ≡ true }
    ensures others { (i : ℕ) → i < 127 → i ≢ address → bit_at result i ≡ bit_at bits i }
    ensures fits { bits < 2 ^ 127 → result < 2 ^ 127 }
{
    bits | (1 << address)
}

/// The bits with that of a station cleared.
fn without_bit(bits: u128, address: u8) -> u128
    requires { address < 127 }
    ensures clear { (bit_at result address == 1) ≡ false }
    ensures others { (i : ℕ) → i < 127 → i ≢ address → bit_at result i ≡ bit_at bits i }
    ensures fits { result ≤ bits }
{
    bits & !(1 << address)
}
