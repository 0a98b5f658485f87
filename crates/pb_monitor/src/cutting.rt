//! Cuts octets without boundaries into telegrams.

ghost use Rattle.std.specs.Prelude.{◌≡◌, ◌↔◌, ◌==◌, ◌+◌, ◌<◌, ◌≤◌, ◌++◌, ◌∷◌, [], IsTrue, IsFalse, drop, take, length, None, IfSome, OnSome};
ghost use Rattle.pb_monitor.specs.Cutting.{IsCutAs, IsSpelledBy, is_decided, need_by, need_of_data, needs};

use arrayvec::ArrayVec;
use pb_telegram::{
    FIXED_START, Receiver, SHORT_START, TOKEN_START, Telegram, TelegramFault, VAR_START,
    copy_octets, read_octets,
};
use std::marker::Model;

/// The most octets of a telegram.
const LONGEST: usize = 255;

/// What comes first in a stream of octets.
#[derive(Clone, Copy, Debug, PartialEq, Eq)]
pub enum Cut {
    /// A telegram.
    Whole,
    /// An octet at which no telegram begins.
    Skipped(u8),
}

/// What comes first of some octets, and how many of them it has.
#[derive(Clone, Copy, Debug, PartialEq, Eq)]
pub(crate) struct Front {
    pub(crate) cut: Cut,
    pub(crate) count: usize,
}

/// Cuts a stream of octets into telegrams. In contracts it is the octets that have come and are not cut yet, at most 255.
///
/// At each octet at which a telegram begins that telegram is cut off, whatever follows it; each other octet is skipped.
/// So after a fault it goes on at the next octet at which a telegram begins.
#[derive(Drop)]
pub struct Cutter {
    window: ArrayVec<u8, LONGEST>,
    receiver: Receiver,
}

impl Model for Cutter {
    ghost use Rattle.std.specs.Prelude.{List, ℕ};

    ghost Value = { List ℕ };

    ghost view = { λ c. c.window.items };
}

impl Cutter {
    /// A cutter of an empty stream.
    pub fn new() -> Cutter
        ensures { result ≡ [] }
    {
        Cutter {
            window: ArrayVec::new(),
            receiver: Receiver::new(),
        }
    }

    /// How many octets have come and are not cut yet.
    pub fn len(&self) -> usize
        ensures { result ≡ length self.now }
    {
        self.window.len()
    }

    /// Whether all octets that have come are cut.
    pub fn is_empty(&self) -> bool
        ensures { result ≡ (length self.now == 0) }
    {
        self.window.is_empty()
    }

    /// Whether 255 octets have come and are not cut yet.
    pub fn is_full(&self) -> bool
        ensures full { IsTrue result ↔ (length self.now ≡ 255) }
        ensures room { IsFalse result → length self.now < 255 }
    {
        self.window.is_full()
    }

    /// Takes the next octet of the stream. The caller ensures that fewer than 255 are not cut yet.
    pub fn push(&mut self, octet: u8)
        requires { length self.old < 255 }
        ensures { self.new ≡ self.old ++ octet ∷ [] }
    {
        self.window.push(octet);
    }

    /// Takes the next octets of the stream. The caller ensures that no more than 255 are then not cut yet.
    pub(crate) fn append(&mut self, octets: &[u8])
        requires { length self.old + length octets.now ≤ 255 }
        ensures { self.new ≡ self.old ++ octets.now }
    {
        self.window.try_extend_from_slice(octets).unwrap();
    }

    /// Whether it is known already what comes first.
    pub fn is_decided(&self) -> bool
        ensures decided { result ≡ is_decided self.now }
        ensures room { IsFalse result → length self.now < 255 }
    {
        match needed(&self.window) {
            Some(need) => need <= self.window.len(),
            None => false,
        }
    }

    /// Cuts off what comes first, if that is known already: a telegram, which is then in `telegram`, or an octet at which
    /// none begins, whatever follows. Otherwise fewer than 255 octets have come, and no octet is cut off.
    pub fn cut(&mut self, telegram: &mut Result<Telegram, TelegramFault>) -> Option<Cut>
        ensures piece { IfSome result (λ cut. IsCutAs cut telegram.new self.old self.new) }
        ensures shorter { OnSome result (length self.new < length self.old) }
        ensures waits { result ≡ None → self.new ≡ self.old }
        ensures room { result ≡ None → length self.old < 255 }
    {
        let front = cut_front(&self.window, &mut self.receiver, telegram)?;
        self.drop_front(front.count);
        Some(front.cut)
    }

    /// Cuts off the first octet, at the end of the stream: the telegram that may begin at it is not whole.
    pub fn skip(&mut self) -> Option<u8>
        ensures octet { IfSome result (λ octet. self.old ≡ octet ∷ self.new) }
        ensures none { result ≡ None → self.old ≡ [] }
        ensures same { result ≡ None → self.new ≡ [] }
    {
        let octet = self.window.first().copied()?;
        self.drop_front(1);
        Some(octet)
    }

    /// Removes so many octets from the front.
    fn drop_front(&mut self, count: usize)
        requires { count ≤ length self.old }
        ensures { self.new ≡ drop count self.old }
    {
        if self.window.len() == count {
            self.window.clear();
            return;
        }
        let rest = copy_octets(&self.window[count..]);
        self.window = rest;
    }
}

/// What comes first of some octets, if that is known: a telegram, which is then in `telegram`, or an octet at which none
/// begins, whatever follows. Otherwise there are fewer than 255.
#[inline(always)]
#[tactic(auto, using(crate::proofs::Fronts::none_begins, crate::proofs::Fronts::whole_front))]
pub(crate) fn cut_front(
    octets: &[u8],
    receiver: &mut Receiver,
    telegram: &mut Result<Telegram, TelegramFault>,
) -> Option<Front>
    ensures piece { IfSome result (λ f. IsCutAs f.cut telegram.new octets.now (drop f.count octets.now)) }
    ensures spelled { IfSome result (λ f. IsSpelledBy (take f.count octets.now) f.cut telegram.new) }
    ensures some { IfSome result (λ f. 0 < f.count) }
    ensures within { IfSome result (λ f. f.count ≤ length octets.now) }
    ensures room { result ≡ None → length octets.now < 255 }
{
    let count = needed(octets)?;
    if octets.len() < count {
        return None;
    }
    read_octets(&octets[..count], receiver, telegram);
    if telegram.is_ok() {
        return Some(Front {
            cut: Cut::Whole,
            count,
        });
    }
    Some(Front {
        cut: Cut::Skipped(octets[0]),
        count: 1,
    })
}

/// How many octets the telegram has that begins with these; 1 if none begins with the first. Of a telegram with data of
/// variable length the second octet tells. `None` if too few have come.
fn needed(octets: &[u8]) -> Option<usize>
    ensures value { result ≡ needs octets.now }
    ensures some { IfSome result (λ need. 0 < need) }
    ensures few { IfSome result (λ need. need ≤ 255) }
    ensures none { result ≡ None → length octets.now < 2 }
{
    match octets {
        [] => None,
        [VAR_START] => None,
        [VAR_START, count, ..] => Some(needed_of_data(*count)),
        [first, ..] => Some(needed_by(*first)),
    }
}

/// How many octets a telegram with data of variable length has, by its length octet; 1 if there is none.
fn needed_of_data(count: u8) -> usize
    ensures value { result ≡ need_of_data count }
    ensures some { 0 < result }
    ensures few { result ≤ 255 }
{
    if count < 4 || count > 249 {
        return 1;
    }
    usize::from(count) + 6
}

/// How many octets a telegram of fixed length has, by its first octet; 1 if there is none.
fn needed_by(first: u8) -> usize
    ensures value { result ≡ need_by first }
    ensures some { 0 < result }
    ensures few { result ≤ 255 }
{
    match first {
        SHORT_START => 6,
        FIXED_START => 14,
        TOKEN_START => 3,
        _ => 1,
    }
}
