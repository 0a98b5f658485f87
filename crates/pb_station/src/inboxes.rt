//! The unread marks of a tap, in memory that is reserved once.

ghost use Rattle.std.specs.Prelude.{◌≡◌, ◌+◌, ◌≤◌, ◌<◌, ◌++◌, ◌∷◌, [], ℕ, List, IsTrue, ◌↔◌, IfOk, length, map};
ghost use Rattle.std.specs.Vec.{vec_capacity};
ghost use Rattle.pb_telegram.specs.declared.chars.RxChar.{RxChar};
ghost use Rattle.pb_telegram.specs.declared.chars.RxChar.TheVariants.{Good};
ghost use Rattle.law_turn.specs.Marks.{End};
ghost use Rattle.law_turn.specs.Stations.{first_seen};
ghost use Rattle.pb_station.specs.MarkViews.{mark_of};
ghost use Rattle.pb_station.specs.Notes.{AreOf, mark_with, marks_in};

use crate::marks::Mark;
use crate::notes::Note;
use pb_telegram::RxChar;
use pb_timers::Moment;
use std::alloc::{AllocError, Global};
use std::marker::Model;

/// The most unread marks that a tap may have.
pub const MARK_LIMIT: usize = 64;

/// The most characters of all unread marks, 255 each.
const CHAR_LIMIT: usize = 16_320;

/// The unread marks of a tap, with memory reserved for all of them. In contracts it is a list of marks. The characters
/// of all marks are in one list, so only the characters that a mark brings are copied. The octets of undamaged marks,
/// which are most, are in a second list. A token's octets are in its note, and noise needs none.
#[derive(Debug, Drop)]
pub struct Inbox {
    notes: Vec<Note>,
    chars: Vec<RxChar>,
    octets: Vec<u8>,
}

impl Model for Inbox {
    ghost use Rattle.std.specs.Prelude.{◌≤◌, List, length};
    ghost use Rattle.std.specs.Vec.{vec_capacity};
    ghost use Rattle.law_turn.specs.Marks as model;
    ghost use Rattle.pb_station.specs.Notes.{AreOf, marks_in};

    ghost Value = { List model.Mark };

    ghost view = { λ b. marks_in b.notes.items b.chars.items b.octets.items };

    ghost invariant = { λ b. (64 ≤ vec_capacity b.notes) × (length b.notes.items ≤ 64)
        × (16320 ≤ vec_capacity b.chars) × (16320 ≤ vec_capacity b.octets)
        × AreOf b.notes.items b.chars.items b.octets.items };
}

/// Notes of marks, with all their characters and octets.
#[derive(Clone, Copy, Debug)]
pub(crate) struct Unread<'a> {
    pub(crate) notes: &'a [Note],
    pub(crate) chars: &'a [RxChar],
    pub(crate) octets: &'a [u8],
}

impl Inbox {
    ghost use Rattle.std.specs.Prelude.{◌≡◌, ◌≤◌, ◌<◌, ◌++◌, [], ◌∷◌, IsTrue, ◌↔◌, IfOk, length, map};
    ghost use Rattle.pb_telegram.specs.declared.chars.RxChar.TheVariants.{Good, Bad};
    ghost use Rattle.law_turn.specs.Marks as model;
    ghost use Rattle.law_turn.specs.Stations.{first_seen};
    ghost use Rattle.pb_station.specs.MarkViews.{mark_of};
    ghost use Rattle.pb_station.specs.Notes.{AreOf, chars_of, octets_of, mark_with, marks_in};

    /// An empty inbox with memory for all that it may have.
    ///
    /// Fault: memory was refused.
    pub fn new(alloc: Global) -> Result<Inbox, AllocError>
        ensures { IfOk result (λ b. b ≡ []) }
    {
        let notes = Vec::with_capacity(alloc, MARK_LIMIT)?;
        let chars = Vec::with_capacity(alloc, CHAR_LIMIT)?;
        let octets = Vec::with_capacity(alloc, CHAR_LIMIT)?;
        Ok(Inbox {
            notes,
            chars,
            octets,
        })
    }

    /// Appends a mark: activity has begun at `at`. The caller ensures that fewer than 64 marks are unread.
    pub fn push_begin(&mut self, at: Moment, seen: Moment)
        requires { length self.old < 64 }
        ensures { self.new ≡ self.old ++ model.Begin at seen ∷ [] }
    {
        self.push_note(Note::Begin { at, seen });
    }

    /// Appends a mark: activity has ended at `at` and brought these characters. The caller ensures that fewer than 64
    /// marks are unread, and that there are at most 255 characters.
    pub fn push_end(&mut self, at: Moment, seen: Moment, chars: &[RxChar])
        requires room { length self.old < 64 }
        requires fits { length chars.now ≤ 255 }
        ensures { self.new ≡ self.old ++ model.End at seen chars.now ∷ [] }
    {
        push_all(&mut self.chars, chars);
        self.notes.push_reserved(Note::End {
            at,
            seen,
            count: chars.len(),
        });
    }

    /// Appends a mark: activity has ended at `at` and brought one damaged character, as noise does. The caller ensures
    /// that fewer than 64 marks are unread.
    #[inline(always)]
    pub fn push_noise(&mut self, at: Moment, seen: Moment)
        requires { length self.old < 64 }
        ensures { self.new ≡ self.old ++ model.End at seen (Bad ∷ []) ∷ [] }
    {
        self.push_note(Note::Noise { at, seen });
    }

    /// Appends a mark: activity has ended at `at` and brought these undamaged octets. Three octets, the length of a
    /// token, are stored in the note. The caller ensures that fewer than 64 marks are unread, and that there are at
    /// most 255 octets.
    #[inline(always)]
    pub fn push_good_end(&mut self, at: Moment, seen: Moment, octets: &[u8])
        requires room { length self.old < 64 }
        requires fits { length octets.now ≤ 255 }
        ensures { self.new ≡ self.old ++ model.End at seen (map Good octets.now) ∷ [] }
    {
        match octets {
            [first, second, third] => self.push_note(Note::Three {
                at,
                seen,
                octets: [*first, *second, *third],
            }),
            _ => self.push_octets(at, seen, octets),
        }
    }

    /// Appends a mark whose characters are all in its note.
    #[inline(always)]
    fn push_note(&mut self, note: Note)
        requires room { length self.old < 64 }
        requires chars { chars_of note ≡ 0 }
        requires octets { octets_of note ≡ 0 }
        ensures { self.new ≡ self.old ++ mark_with note [] [] ∷ [] }
    {
        self.notes.push_reserved(note);
    }

    /// Appends a mark with any number of undamaged octets, which go into the second list. Kept out of line: a token's
    /// mark needs only its note.
    #[inline(never)]
    fn push_octets(&mut self, at: Moment, seen: Moment, octets: &[u8])
        requires room { length self.old < 64 }
        requires fits { length octets.now ≤ 255 }
        ensures { self.new ≡ self.old ++ model.End at seen (map Good octets.now) ∷ [] }
    {
        push_all(&mut self.octets, octets);
        self.notes.push_reserved(Note::GoodEnd {
            at,
            seen,
            count: octets.len(),
        });
    }

    /// Removes all marks, which have been read.
    pub fn clear(&mut self)
        ensures { self.new ≡ [] }
    {
        self.notes.clear();
        self.chars.clear();
        self.octets.clear();
    }

    /// How many marks are unread, 0 to 64.
    pub fn len(&self) -> usize
        ensures value { result ≡ length self.now }
        ensures few { result ≤ 64 }
    {
        self.notes.len()
    }

    /// Copies of all marks, the oldest first.
    ///
    /// Fault: memory was refused.
    pub fn copy_marks(&self, alloc: Global) -> Result<Vec<Mark>, AllocError>
        ensures { IfOk result (λ v. map mark_of v.items ≡ self.now) }
    {
        if self.notes.is_empty() {
            return Ok(Vec::new(alloc));
        }
        copy_all(alloc, &self.notes, &self.chars, &self.octets)
    }

    /// Whether the unread marks equal these, in the same order.
    pub fn are(&self, marks: &[Mark]) -> bool
        ensures { IsTrue result ↔ (map mark_of marks.now ≡ self.now) }
    {
        are_noted(&self.notes, &self.chars, &self.octets, marks)
    }

    /// When the first mark was delivered; `None` if there is none.
    pub(crate) fn first_seen(&self) -> Option<Moment>
        ensures { result ≡ first_seen self.now }
    {
        first_seen(&self.notes)
    }

    /// The unread marks, the oldest first.
    pub(crate) fn unread(&self) -> Unread<'_>
        ensures marks { marks_in result.notes.now result.chars.now result.octets.now ≡ self.now }
        ensures of { AreOf result.notes.now result.chars.now result.octets.now }
        ensures few { length result.notes.now ≤ 64 }
    {
        Unread {
            notes: &self.notes,
            chars: &self.chars,
            octets: &self.octets,
        }
    }
}

/// When the first of some marks was delivered; `None` if there is none.
pub(crate) fn first_seen(notes: &[Note]) -> Option<Moment>
    ensures { (chars : List RxChar) (octets : List ℕ)
        → result ≡ first_seen (marks_in notes.now chars octets) }
{
    match notes {
        [note, ..] => Some(note.seen()),
        [] => None,
    }
}

/// Appends what a mark brings, within the reserved memory.
pub(crate) fn push_all<T: Copy>(brought: &mut Vec<T>, more: &[T])
    requires { length brought.old.items + length more.now ≤ vec_capacity brought.old }
    ensures items { brought.new.items ≡ brought.old.items ++ more.now }
    ensures room { vec_capacity brought.old ≤ vec_capacity brought.new }
{
    brought.extend_from_slice(more).unwrap();
}

/// Copies of the marks.
///
/// Fault: memory was refused.
fn copy_all(
    alloc: Global,
    notes: &[Note],
    chars: &[RxChar],
    octets: &[u8],
) -> Result<Vec<Mark>, AllocError>
    requires { AreOf notes.now chars.now octets.now }
    ensures { IfOk result (λ v. map mark_of v.items ≡ marks_in notes.now chars.now octets.now) }
{
    let mut copies = Vec::with_capacity(alloc, notes.len())?;
    let mut left = chars;
    let mut good_left = octets;
    for note in notes {
        let (brought, behind) = note.split_chars(left);
        let (good, good_behind) = note.split_octets(good_left);
        push_copy(&mut copies, note, brought, good);
        left = behind;
        good_left = good_behind;
    }
    Ok(copies)
}

/// Appends a copy of a mark with its characters or octets, within the reserved memory. Inlined per kind: the mark of a
/// begin, which has no characters, is then copied without them.
#[inline(always)]
fn push_copy(copies: &mut Vec<Mark>, note: &Note, chars: &[RxChar], octets: &[u8])
    requires chars { length chars.now ≤ 255 }
    requires octets { length octets.now ≤ 255 }
    requires room { length copies.old.items < vec_capacity copies.old }
    ensures items { map mark_of copies.new.items
        ≡ map mark_of copies.old.items ++ mark_with note.now chars.now octets.now ∷ [] }
    ensures count { length copies.new.items ≡ length copies.old.items + 1 }
    ensures room { vec_capacity copies.new ≡ vec_capacity copies.old }
{
    match note {
        Note::Begin { at, seen } => copies.push_reserved(Mark::Begin {
            at: *at,
            seen: *seen,
        }),
        Note::End { at, seen, .. } => push_ended(copies, *at, *seen, chars),
        Note::GoodEnd { at, seen, .. } => push_good_ended(copies, *at, *seen, octets),
        Note::Three {
            at,
            seen,
            octets: three,
        } => push_good_ended(copies, *at, *seen, three),
        Note::Noise { at, seen } => push_ended(copies, *at, *seen, &[RxChar::Bad]),
    }
}

/// Appends a mark of an end with characters, within the reserved memory. The mark is built in place, and its characters
/// are added afterwards.
#[inline(always)]
fn push_ended(copies: &mut Vec<Mark>, at: Moment, seen: Moment, chars: &[RxChar])
    requires chars { length chars.now ≤ 255 }
    requires room { length copies.old.items < vec_capacity copies.old }
    ensures items { map mark_of copies.new.items
        ≡ map mark_of copies.old.items ++ End at seen chars.now ∷ [] }
    ensures count { length copies.new.items ≡ length copies.old.items + 1 }
    ensures room { vec_capacity copies.new ≡ vec_capacity copies.old }
{
    let place = copies.len();
    copies.push_reserved(Mark::ended(at, seen));
    copies[place].bring(chars);
}

/// Appends a mark of an end with undamaged octets, in the same way.
#[inline(always)]
fn push_good_ended(copies: &mut Vec<Mark>, at: Moment, seen: Moment, octets: &[u8])
    requires octets { length octets.now ≤ 255 }
    requires room { length copies.old.items < vec_capacity copies.old }
    ensures items { map mark_of copies.new.items
        ≡ map mark_of copies.old.items ++ End at seen (map Good octets.now) ∷ [] }
    ensures count { length copies.new.items ≡ length copies.old.items + 1 }
    ensures room { vec_capacity copies.new ≡ vec_capacity copies.old }
{
    let place = copies.len();
    copies.push_reserved(Mark::ended(at, seen));
    copies[place].bring_good(octets);
}

/// Whether these marks equal the noted ones.
fn are_noted(notes: &[Note], chars: &[RxChar], octets: &[u8], marks: &[Mark]) -> bool
    requires { AreOf notes.now chars.now octets.now }
    ensures { IsTrue result ↔ (map mark_of marks.now ≡ marks_in notes.now chars.now octets.now) }
{
    if notes.len() != marks.len() {
        return false;
    }
    let mut left = chars;
    let mut good_left = octets;
    for (place, note) in notes.iter().enumerate() {
        let (brought, behind) = note.split_chars(left);
        let (good, good_behind) = note.split_octets(good_left);
        if !note.is_noted(brought, good, &marks[place]) {
            return false;
        }
        left = behind;
        good_left = good_behind;
    }
    true
}
