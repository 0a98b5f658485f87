//! Marks: how a station hears that activity begins and ends.

ghost use Rattle.std.specs.Prelude.{◌≡◌, ◌≤◌, ◌+◌, ◌++◌, [], length, map};
ghost use Rattle.pb_telegram.specs.declared.chars.RxChar.TheVariants.{Good};
ghost use Rattle.law_turn.specs.Marks.{End, moment_of, seen_at};
ghost use Rattle.pb_station.specs.MarkViews.{mark_of, bringing, brought};

use arrayvec::ArrayVec;
use pb_telegram::RxChar;
use pb_timers::Moment;

/// From this many octets on, characters are made in a list of their own first.
const MANY: usize = 16;

/// A mark: activity of others begins or ends at a moment, as a station hears it. The mark is delivered at the moment
/// `seen`.
#[derive(Debug, PartialEq, Eq, Drop)]
pub enum Mark {
    /// Activity has begun.
    Begin {
        /// When it began.
        at: Moment,
        /// When the mark was delivered.
        seen: Moment,
    },
    /// Activity has ended, and has brought characters.
    End {
        /// When it ended.
        at: Moment,
        /// When the mark was delivered.
        seen: Moment,
        /// The characters that it brought.
        chars: ArrayVec<RxChar, 255>,
    },
}

impl Mark {
    /// An equal mark.
    pub fn copy(&self) -> Mark
        ensures { mark_of result ≡ mark_of self.now }
    {
        match self {
            Mark::Begin { at, seen } => Mark::Begin {
                at: *at,
                seen: *seen,
            },
            Mark::End { at, seen, chars } => Mark::End {
                at: *at,
                seen: *seen,
                chars: copy_chars(chars),
            },
        }
    }

    /// A mark of an end at a moment, without characters so far.
    #[inline(always)]
    pub(crate) fn ended(at: Moment, seen: Moment) -> Mark
        ensures { mark_of result ≡ End at seen [] }
    {
        Mark::End {
            at,
            seen,
            chars: ArrayVec::new(),
        }
    }

    /// Adds characters to the mark of an end that has none.
    #[inline(always)]
    pub(crate) fn bring(&mut self, more: &[RxChar])
        requires none { brought (mark_of self.old) ≡ [] }
        requires fits { length more.now ≤ 255 }
        ensures { mark_of self.new ≡ bringing (mark_of self.old) more.now }
    {
        if let Mark::End { chars, .. } = self {
            chars.try_extend_from_slice(more).unwrap();
        }
    }

    /// Adds undamaged octets to the mark of an end that has no characters.
    #[inline(always)]
    pub(crate) fn bring_good(&mut self, octets: &[u8])
        requires none { brought (mark_of self.old) ≡ [] }
        requires fits { length octets.now ≤ 255 }
        ensures { mark_of self.new ≡ bringing (mark_of self.old) (map Good octets.now) }
    {
        if let Mark::End { chars, .. } = self {
            push_good(chars, octets);
        }
    }

    /// The moment of the begin or end.
    pub(crate) fn moment(&self) -> Moment
        ensures { result ≡ moment_of (mark_of self.now) }
    {
        match self {
            Mark::Begin { at, .. } | Mark::End { at, .. } => *at,
        }
    }

    /// When the mark was delivered.
    pub(crate) fn seen(&self) -> Moment
        ensures { result ≡ seen_at (mark_of self.now) }
    {
        match self {
            Mark::Begin { seen, .. } | Mark::End { seen, .. } => *seen,
        }
    }
}

/// A copy of characters. The caller ensures that there are at most 255.
pub fn copy_chars(chars: &[RxChar]) -> ArrayVec<RxChar, 255>
    requires { length chars.now ≤ 255 }
    ensures { result.items ≡ chars.now }
{
    let mut copy = ArrayVec::new();
    copy.try_extend_from_slice(chars).unwrap();
    copy
}

/// Appends undamaged octets as characters.
fn push_good(chars: &mut ArrayVec<RxChar, 255>, octets: &[u8])
    requires { length chars.old.items + length octets.now ≤ 255 }
    ensures { chars.new.items ≡ chars.old.items ++ map Good octets.now }
{
    if octets.len() >= MANY {
        push_many(chars, octets);
        return;
    }
    for heard in octets {
        chars.push(RxChar::Good(*heard));
    }
}

/// Slow path of `push_good` for many octets. They are converted in a list of their own, which the compiler makes
/// faster. Kept out of line: its frame has room for that list.
#[inline(never)]
fn push_many(chars: &mut ArrayVec<RxChar, 255>, octets: &[u8])
    requires { length chars.old.items + length octets.now ≤ 255 }
    ensures { chars.new.items ≡ chars.old.items ++ map Good octets.now }
{
    chars.try_extend_from_slice(&good_chars(octets)).unwrap();
}

/// Undamaged octets as characters.
fn good_chars(octets: &[u8]) -> ArrayVec<RxChar, 255>
    requires { length octets.now ≤ 255 }
    ensures { result.items ≡ map Good octets.now }
{
    let mut chars = ArrayVec::new();
    for octet in octets {
        chars.push(RxChar::Good(*octet));
    }
    chars
}
