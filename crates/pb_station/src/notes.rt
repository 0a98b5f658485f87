//! Notes of marks, whose characters are stored elsewhere.

ghost use Rattle.std.specs.Prelude.{◌≡◌, ◌≤◌, [], ◌∷◌, IsTrue, ◌↔◌, length, map, take, drop};
ghost use Rattle.pb_telegram.specs.declared.chars.RxChar.TheVariants.{Good, Bad};
ghost use Rattle.law_turn.specs.Marks.{End, moment_of, seen_at};
ghost use Rattle.pb_station.specs.MarkViews.{mark_of};
ghost use Rattle.pb_station.specs.Notes.{chars_of, octets_of, mark_with};

use crate::marks::Mark;
use pb_telegram::RxChar;
use pb_timers::Moment;

/// A mark without its characters.
#[derive(Clone, Copy, Debug, PartialEq, Eq)]
pub(crate) enum Note {
    /// Activity has begun.
    Begin {
        /// When it began.
        at: Moment,
        /// When the mark was delivered.
        seen: Moment,
    },
    /// Activity has ended, and has brought characters.
    End {
        /// When it ended.
        at: Moment,
        /// When the mark was delivered.
        seen: Moment,
        /// How many characters it brought.
        count: usize,
    },
    /// Activity has ended, and has brought undamaged octets.
    GoodEnd {
        /// When it ended.
        at: Moment,
        /// When the mark was delivered.
        seen: Moment,
        /// How many octets it brought.
        count: usize,
    },
    /// Activity has ended, and has brought three undamaged octets, the length of a token. They are stored here.
    Three {
        /// When it ended.
        at: Moment,
        /// When the mark was delivered.
        seen: Moment,
        /// The octets that it brought.
        octets: [u8; 3],
    },
    /// Activity has ended, and has brought one damaged character, as noise does.
    Noise {
        /// When it ended.
        at: Moment,
        /// When the mark was delivered.
        seen: Moment,
    },
}

impl Note {
    /// Splits the remaining characters into those of this mark and the rest.
    #[inline(always)]
    pub(crate) fn split_chars<'a>(&self, left: &'a [RxChar]) -> (&'a [RxChar], &'a [RxChar])
        requires { chars_of self.now ≤ length left.now }
        ensures brought { result.0.now ≡ take (chars_of self.now) left.now }
        ensures behind { result.1.now ≡ drop (chars_of self.now) left.now }
    {
        left.split_at(self.chars())
    }

    /// Splits the remaining octets into those of this mark and the rest.
    #[inline(always)]
    pub(crate) fn split_octets<'a>(&self, left: &'a [u8]) -> (&'a [u8], &'a [u8])
        requires { octets_of self.now ≤ length left.now }
        ensures brought { result.0.now ≡ take (octets_of self.now) left.now }
        ensures behind { result.1.now ≡ drop (octets_of self.now) left.now }
    {
        left.split_at(self.octets())
    }

    /// How many characters of this mark are in the list of characters.
    fn chars(&self) -> usize
        ensures { result ≡ chars_of self.now }
    {
        match self {
            Note::End { count, .. } => *count,
            _ => 0,
        }
    }

    /// How many octets of this mark are in the list of octets.
    fn octets(&self) -> usize
        ensures { result ≡ octets_of self.now }
    {
        match self {
            Note::GoodEnd { count, .. } => *count,
            _ => 0,
        }
    }

    /// The moment of the begin or end.
    pub(crate) fn moment(&self) -> Moment
        ensures { result ≡ moment_of (mark_with self.now [] []) }
    {
        match self {
            Note::Begin { at, .. }
            | Note::End { at, .. }
            | Note::GoodEnd { at, .. }
            | Note::Three { at, .. }
            | Note::Noise { at, .. } => *at,
        }
    }

    /// When the mark was delivered.
    pub(crate) fn seen(&self) -> Moment
        ensures { result ≡ seen_at (mark_with self.now [] []) }
    {
        match self {
            Note::Begin { seen, .. }
            | Note::End { seen, .. }
            | Note::GoodEnd { seen, .. }
            | Note::Three { seen, .. }
            | Note::Noise { seen, .. } => *seen,
        }
    }

    /// Whether `mark` is this note with these characters and octets.
    pub(crate) fn is_noted(&self, chars: &[RxChar], octets: &[u8], mark: &Mark) -> bool
        ensures { IsTrue result ↔ (mark_of mark.now ≡ mark_with self.now chars.now octets.now) }
    {
        match (self, mark) {
            (
                Note::Begin { at, seen },
                Mark::Begin {
                    at: began,
                    seen: told,
                },
            ) => at == began && seen == told,
            (_, Mark::Begin { .. }) => false,
            (
                _,
                Mark::End {
                    at,
                    seen,
                    chars: brought,
                },
            ) => {
                self.moment() == *at && self.seen() == *seen && self.brings(chars, octets, brought)
            }
        }
    }

    /// Whether this is the note of an end that brought `brought`, given its characters and octets.
    fn brings(&self, chars: &[RxChar], octets: &[u8], brought: &[RxChar]) -> bool
        ensures { IsTrue result ↔ (mark_with self.now chars.now octets.now
            ≡ End (moment_of (mark_with self.now [] [])) (seen_at (mark_with self.now [] [])) brought.now) }
    {
        match self {
            Note::Begin { .. } => false,
            Note::End { .. } => are_same(chars, brought),
            Note::GoodEnd { .. } => are_good(octets, brought),
            Note::Three { octets: three, .. } => are_good(three, brought),
            Note::Noise { .. } => is_noise(brought),
        }
    }
}

/// Whether two lists have the same characters in the same order.
fn are_same(one: &[RxChar], other: &[RxChar]) -> bool
    ensures { IsTrue result ↔ (one.now ≡ other.now) }
{
    one == other
}

/// Whether characters are those of undamaged octets.
fn are_good(octets: &[u8], chars: &[RxChar]) -> bool
    ensures { IsTrue result ↔ (chars.now ≡ map Good octets.now) }
{
    if octets.len() != chars.len() {
        return false;
    }
    let mut all = true;
    for (place, octet) in octets.iter().enumerate() {
        all &= is_good(chars[place], *octet);
    }
    all
}

/// Whether characters are one damaged character, as noise brings.
fn is_noise(chars: &[RxChar]) -> bool
    ensures { IsTrue result ↔ (chars.now ≡ Bad ∷ []) }
{
    matches!(chars, [RxChar::Bad])
}

/// Whether a character is that of an undamaged octet.
fn is_good(char: RxChar, octet: u8) -> bool
    ensures { IsTrue result ↔ (char ≡ Good octet) }
{
    match char {
        RxChar::Good(it) => it == octet,
        RxChar::Bad => false,
    }
}
