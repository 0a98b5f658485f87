//! The unread marks of a port, and the requests that its last turn executed, in memory that is reserved once.

use crate::inboxes::{Unread, first_seen, push_all};
use crate::indications::Indication;
use crate::notes::Note;
use crate::reading::after_notes_into;
use pb_telegram::RxChar;
use pb_timers::{BusParams, Moment};
use pb_tokenfsm::Phase;
use pb_transitions::Kept;
use std::alloc::{AllocError, Global};
use std::marker::Model;

/// The most characters that a mark brings.
const MOST_CHARACTERS: usize = 255;

/// The unread marks of a port, and the requests of others that its station executed in its last turn, with memory
/// reserved for as many of each as the mailbox has room for. Characters and octets are kept as in an
/// [`Inbox`](crate::Inbox).
#[derive(Debug, Drop)]
pub struct Mailbox {
    /// How many marks may be unread.
    room: usize,
    notes: Vec<Note>,
    chars: Vec<RxChar>,
    octets: Vec<u8>,
    told: Vec<Indication>,
}

impl Model for Mailbox {
    ghost use Rattle.std.specs.Prelude.{◌≤◌, ◌*◌, length, map};
    ghost use Rattle.std.specs.Vec.{vec_capacity};
    ghost use Rattle.pb_station.specs.Indications.{fields_of};
    ghost use Rattle.pb_station.specs.Mailboxes.{MailboxView};
    ghost use Rattle.pb_station.specs.Notes.{AreOf, marks_in};

    ghost Value = { MailboxView };

    ghost view = { λ m. record {
      room = m.room;
      marks = marks_in m.notes.items m.chars.items m.octets.items;
      told = map fields_of m.told.items;
    } };

    ghost invariant = { λ m. (m.room ≤ vec_capacity m.notes) × (length m.notes.items ≤ m.room)
        × (255 * m.room ≤ vec_capacity m.chars) × (255 * m.room ≤ vec_capacity m.octets)
        × (m.room ≤ vec_capacity m.told) × AreOf m.notes.items m.chars.items m.octets.items };
}

impl Mailbox {
    ghost use Rattle.std.specs.Prelude.{◌≡◌, ◌≤◌, ◌<◌, ◌∷◌, [], IfOk, nat_le, length, map};
    ghost use Rattle.pb_cycles.specs.Queued.{Queued};
    ghost use Rattle.pb_telegram.specs.declared.chars.RxChar.TheVariants.{Good, Bad};
    ghost use Rattle.law_turn.specs.Marks as model;
    ghost use Rattle.law_turn.specs.Stations.{first_seen};
    ghost use Rattle.law_turn.specs.Turns.{after_marks};
    ghost use Rattle.pb_tokenfsm.specs.Phases.{phase_of};
    ghost use Rattle.pb_transitions.specs.Clocks.{last_turn};
    ghost use Rattle.pb_transitions.specs.Cores.{Becomes, station_with};
    ghost use Rattle.pb_station.specs.Indications.{fields_of};
    ghost use Rattle.pb_station.specs.Mailboxes.{empty_mail, read_mail, with_mark};
    ghost use Rattle.pb_station.specs.MarkViews.{AllOver};
    ghost use Rattle.pb_station.specs.Notes.{chars_of, octets_of, mark_with};

    /// An empty mailbox with room for so many unread marks, and memory for all that they may bring. The caller ensures
    /// that these are at most 64.
    ///
    /// Fault: memory was refused.
    pub fn new(alloc: Global, room: usize) -> Result<Mailbox, AllocError>
        requires { room ≤ 64 }
        ensures { IfOk result (λ m. m ≡ empty_mail room) }
    {
        let notes = Vec::with_capacity(alloc, room)?;
        let chars = Vec::with_capacity(alloc, MOST_CHARACTERS * room)?;
        let octets = Vec::with_capacity(alloc, MOST_CHARACTERS * room)?;
        let told = Vec::with_capacity(alloc, room)?;
        Ok(Mailbox {
            room,
            notes,
            chars,
            octets,
            told,
        })
    }

    /// Whether as many marks are unread as it has room for.
    pub fn is_full(&self) -> bool
        ensures { result ≡ nat_le self.now.room (length self.now.marks) }
    {
        self.notes.len() >= self.room
    }

    /// The requests that the station executed in its last turn, in the order in which they were executed.
    pub fn told(&self) -> &[Indication]
        ensures { map fields_of result.now ≡ self.now.told }
    {
        &self.told
    }

    /// Appends a mark: activity has begun at `at`. The caller ensures that there is room.
    pub fn push_begin(&mut self, at: Moment, seen: Moment)
        requires { length self.old.marks < self.old.room }
        ensures { self.new ≡ with_mark self.old (model.Begin at seen) }
    {
        self.push_note(Note::Begin { at, seen });
    }

    /// Appends a mark: activity has ended at `at` and brought these characters. The caller ensures that there is room,
    /// and that there are at most 255 characters.
    pub fn push_end(&mut self, at: Moment, seen: Moment, chars: &[RxChar])
        requires room { length self.old.marks < self.old.room }
        requires fits { length chars.now ≤ 255 }
        ensures { self.new ≡ with_mark self.old (model.End at seen chars.now) }
    {
        push_all(&mut self.chars, chars);
        self.notes.push_reserved(Note::End {
            at,
            seen,
            count: chars.len(),
        });
    }

    /// Appends a mark: activity has ended at `at` and brought one damaged character, as noise does. The caller ensures
    /// that there is room.
    #[inline(always)]
    pub fn push_noise(&mut self, at: Moment, seen: Moment)
        requires { length self.old.marks < self.old.room }
        ensures { self.new ≡ with_mark self.old (model.End at seen (Bad ∷ [])) }
    {
        self.push_note(Note::Noise { at, seen });
    }

    /// Appends a mark: activity has ended at `at` and brought these undamaged octets. Three octets, the length of a
    /// token, are stored in the note. The caller ensures that there is room, and that there are at most 255 octets.
    #[inline(always)]
    pub fn push_good_end(&mut self, at: Moment, seen: Moment, octets: &[u8])
        requires room { length self.old.marks < self.old.room }
        requires fits { length octets.now ≤ 255 }
        ensures { self.new ≡ with_mark self.old (model.End at seen (map Good octets.now)) }
    {
        match octets {
            [first, second, third] => self.push_note(Note::Three {
                at,
                seen,
                octets: [*first, *second, *third],
            }),
            _ => self.push_octets(at, seen, octets),
        }
    }

    /// Appends a mark whose characters are all in its note.
    #[inline(always)]
    fn push_note(&mut self, note: Note)
        requires room { length self.old.marks < self.old.room }
        requires chars { chars_of note ≡ 0 }
        requires octets { octets_of note ≡ 0 }
        ensures { self.new ≡ with_mark self.old (mark_with note [] []) }
    {
        self.notes.push_reserved(note);
    }

    /// Appends a mark with any number of undamaged octets, which go into the second list. Kept out of line: a token's
    /// mark needs only its note.
    #[inline(never)]
    fn push_octets(&mut self, at: Moment, seen: Moment, octets: &[u8])
        requires room { length self.old.marks < self.old.room }
        requires fits { length octets.now ≤ 255 }
        ensures { self.new ≡ with_mark self.old (model.End at seen (map Good octets.now)) }
    {
        push_all(&mut self.octets, octets);
        self.notes.push_reserved(Note::GoodEnd {
            at,
            seen,
            count: octets.len(),
        });
    }

    /// Removes all marks.
    pub fn drop_marks(&mut self)
        ensures { self.new ≡ record self.old { marks = [] } }
    {
        self.notes.clear();
        self.chars.clear();
        self.octets.clear();
    }

    /// Removes all marks and requests.
    pub fn clear(&mut self)
        ensures { self.new ≡ empty_mail self.old.room }
    {
        self.drop_marks();
        self.told.clear();
    }

    /// When the first mark was delivered; `None` if there is none.
    pub(crate) fn first_seen(&self) -> Option<Moment>
        ensures { result ≡ first_seen self.now.marks }
    {
        first_seen(&self.notes)
    }

    /// A station reads the marks, which are removed, and the timers that end before each. The requests that it executes
    /// replace those of its last turn.
    pub(crate) fn read(
        &mut self,
        phase: &mut Phase,
        kept: &mut Kept,
        params: &BusParams,
        now: Moment,
    )
        requires clock { now ≤ last_turn }
        requires over { AllOver now self.old.marks }
        ensures read { Becomes (λ s. after_marks params.now s self.old.marks)
            kept.old (phase_of phase.old) kept.new (phase_of phase.new) }
        ensures mail { (queue : Queued)
            → self.new ≡ read_mail params.now (station_with kept.old queue (phase_of phase.old)) self.old }
    {
        let told = &mut self.told;
        if self.notes.is_empty() {
            told.clear();
            return;
        }
        let unread = Unread {
            notes: &self.notes,
            chars: &self.chars,
            octets: &self.octets,
        };
        after_notes_into(phase, kept, params, &unread, now, told);
        self.drop_marks();
    }
}
