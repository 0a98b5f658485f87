//! How a station reads its unread marks.

ghost use Rattle.std.specs.Prelude.{◌≡◌, ◌≤◌, ℕ, [], ◌∷◌, length, map, take, drop};
ghost use Rattle.std.specs.Vec.{vec_capacity};
ghost use Rattle.pb_timers.specs.Timers.{Params};
ghost use Rattle.law_turn.specs.Arrivals.{Token, arrival_of};
ghost use Rattle.law_turn.specs.Hearing.{after_mark, ended};
ghost use Rattle.law_turn.specs.Marks.{moment_of, Begin, End};
ghost use Rattle.law_turn.specs.Phases.{is_offline};
ghost use Rattle.law_turn.specs.Turns.{after_marks};
ghost use Rattle.pb_tokenfsm.specs.Phases.{phase_of};
ghost use Rattle.pb_transitions.specs.Clocks.{last_turn};
ghost use Rattle.pb_transitions.specs.Cores.{Becomes, station_with};
ghost use Rattle.pb_cycles.specs.Queued.{Queued};
ghost use Rattle.pb_station.specs.Indications.{fields_of, indications_of};
ghost use Rattle.pb_station.specs.MarkViews.{mark_of, AreOver, AllOver};
ghost use Rattle.pb_station.specs.Notes.{chars_of, octets_of, mark_with, marks_in, AreOf};
ghost use Rattle.pb_telegram.specs.declared.chars.RxChar.TheVariants.{Good, Bad};

use crate::inboxes::Unread;
use crate::indications::{Indication, tell_into};
use crate::marks::Mark;
use crate::notes::Note;
use pb_telegram::RxChar;
use pb_timers::{BusParams, Moment};
use pb_tokenfsm::Phase;
use pb_transitions::{
    Kept, after_timer, begun, ended, ended_with_noise, ended_with_token, fall_quiet, is_for_others,
    only_answers, spelled_telegram, spelled_token, token_in, whole_telegram,
};

/// The characters and octets of marks that are not read yet.
#[derive(Clone, Copy, Debug)]
struct Left<'a> {
    chars: &'a [RxChar],
    octets: &'a [u8],
}

/// Reads noted marks, and the timers that end before each.
pub(crate) fn after_notes(
    phase: &mut Phase,
    kept: &mut Kept,
    params: &BusParams,
    notes: &[Note],
    chars: &[RxChar],
    octets: &[u8],
    now: Moment,
)
    requires clock { now ≤ last_turn }
    requires over { AllOver now (marks_in notes.now chars.now octets.now) }
    requires of { AreOf notes.now chars.now octets.now }
    ensures { Becomes (λ s. after_marks params.now s (marks_in notes.now chars.now octets.now))
        kept.old (phase_of phase.old) kept.new (phase_of phase.new) }
{
    let mut left = Left { chars, octets };
    for note in notes {
        after_timer(phase, kept, params, note.moment());
        left = after_note(phase, kept, params, note, left.chars, left.octets);
    }
}

/// The same, and replaces the content of `told` by the requests of others that the station executes. It has memory for
/// as many as there are marks.
pub(crate) fn after_notes_into(
    phase: &mut Phase,
    kept: &mut Kept,
    params: &BusParams,
    unread: &Unread<'_>,
    now: Moment,
    told: &mut Vec<Indication>,
)
    requires clock { now ≤ last_turn }
    requires over { AllOver now (marks_in unread.now.notes.now unread.now.chars.now unread.now.octets.now) }
    requires of { AreOf unread.now.notes.now unread.now.chars.now unread.now.octets.now }
    requires few { length unread.now.notes.now ≤ vec_capacity told.old }
    ensures read { let u = unread.now in
        Becomes (λ s. after_marks params.now s (marks_in u.notes.now u.chars.now u.octets.now))
        kept.old (phase_of phase.old) kept.new (phase_of phase.new) }
    ensures told { let u = unread.now in
        (queue : Queued) → map fields_of told.new.items
        ≡ indications_of params.now (station_with kept.old queue (phase_of phase.old))
        (marks_in u.notes.now u.chars.now u.octets.now) }
    ensures room { vec_capacity told.new ≡ vec_capacity told.old }
{
    let Unread {
        notes,
        chars,
        octets,
    } = *unread;
    told.clear();
    let mut left = Left { chars, octets };
    for note in notes {
        after_timer(phase, kept, params, note.moment());
        let before = kept.cycles.responder.executed();
        let behind = after_note(phase, kept, params, note, left.chars, left.octets);
        let after = kept.cycles.responder.executed();
        tell_into(told, before, after, note, left.chars, left.octets);
        left = behind;
    }
}

/// Reads marks, and the timers that end before each.
pub(crate) fn after_marks(
    phase: &mut Phase,
    kept: &mut Kept,
    params: &BusParams,
    marks: &[Mark],
    now: Moment,
)
    requires clock { now ≤ last_turn }
    requires over { AreOver now marks.now }
    ensures { Becomes (λ s. after_marks params.now s (map mark_of marks.now))
        kept.old (phase_of phase.old) kept.new (phase_of phase.new) }
{
    for mark in marks {
        after_timer(phase, kept, params, mark.moment());
        after_mark(phase, kept, params, mark);
    }
}

/// Reads a mark.
fn after_mark(phase: &mut Phase, kept: &mut Kept, params: &BusParams, mark: &Mark)
    requires { moment_of (mark_of mark.now) ≤ last_turn }
    ensures { Becomes (λ s. after_mark params.now s (mark_of mark.now))
        kept.old (phase_of phase.old) kept.new (phase_of phase.new) }
{
    match mark {
        Mark::Begin { at, .. } => after_begin(phase, kept, *at),
        Mark::End { at, chars, .. } => after_end(phase, kept, params, *at, chars),
    }
}

/// Reads a noted mark, which has the first of the remaining characters or octets. Returns those that remain after it.
#[inline(always)]
fn after_note<'a>(
    phase: &mut Phase,
    kept: &mut Kept,
    params: &BusParams,
    note: &Note,
    chars: &'a [RxChar],
    octets: &'a [u8],
) -> Left<'a>
    requires moment { moment_of (mark_with note.now [] []) ≤ last_turn }
    requires chars { chars_of note.now ≤ length chars.now }
    requires octets { octets_of note.now ≤ length octets.now }
    ensures read { Becomes
        (λ s. after_mark params.now s
        (mark_with note.now (take (chars_of note.now) chars.now) (take (octets_of note.now) octets.now)))
        kept.old (phase_of phase.old) kept.new (phase_of phase.new) }
    ensures chars { result.chars.now ≡ drop (chars_of note.now) chars.now }
    ensures octets { result.octets.now ≡ drop (octets_of note.now) octets.now }
{
    match note {
        Note::Begin { at, .. } => {
            after_begin(phase, kept, *at);
            Left { chars, octets }
        }
        Note::End { at, count, .. } => {
            let (brought, left) = chars.split_at(*count);
            after_end(phase, kept, params, *at, brought);
            Left {
                chars: left,
                octets,
            }
        }
        Note::GoodEnd { at, count, .. } => {
            let (brought, left) = octets.split_at(*count);
            after_good_end(phase, kept, params, *at, brought);
            Left {
                chars,
                octets: left,
            }
        }
        Note::Three {
            at,
            octets: three,
            ..
        } => {
            after_good_end(phase, kept, params, *at, three);
            Left { chars, octets }
        }
        Note::Noise { at, .. } => {
            after_noise(phase, kept, params, *at);
            Left { chars, octets }
        }
    }
}

/// Activity has begun at `at`. An offline station ignores it.
fn after_begin(phase: &mut Phase, kept: &mut Kept, at: Moment)
    ensures { (p : Params) (seen : ℕ) → Becomes (λ s. after_mark p s (Begin at seen))
        kept.old (phase_of phase.old) kept.new (phase_of phase.new) }
{
    if is_offline(phase) {
        return;
    }
    begun(phase, kept, at);
}

/// Activity has ended at `at` and brought characters. An offline station ignores it.
fn after_end(phase: &mut Phase, kept: &mut Kept, params: &BusParams, at: Moment, chars: &[RxChar])
    requires { at ≤ last_turn }
    ensures { (seen : ℕ) → Becomes (λ s. after_mark params.now s (End at seen chars.now))
        kept.old (phase_of phase.old) kept.new (phase_of phase.new) }
{
    if is_offline(phase) {
        return;
    }
    if let [RxChar::Bad, ..] = chars {
        return ended_with_noise(phase, kept, params, at);
    }
    match token_in(chars) {
        Some(token) => ended_with_token(phase, kept, params, at, token),
        None => after_others(phase, kept, params, at, chars),
    }
}

/// Activity has ended at `at` and brought undamaged octets. An offline station ignores it.
fn after_good_end(phase: &mut Phase, kept: &mut Kept, params: &BusParams, at: Moment, octets: &[u8])
    requires { at ≤ last_turn }
    ensures { (seen : ℕ) → Becomes (λ s. after_mark params.now s (End at seen (map Good octets.now)))
        kept.old (phase_of phase.old) kept.new (phase_of phase.new) }
{
    if is_offline(phase) {
        return;
    }
    if let Some(token) = spelled_token(octets) {
        ended_with_token(phase, kept, params, at, token);
    } else if only_answers(phase) && is_for_others(octets, kept.address.get()) {
        fall_quiet(kept, at);
    } else {
        after_other_octets(phase, kept, params, at, octets);
    }
}

/// Activity has ended at `at` and brought one damaged character, as noise does. An offline station ignores it.
fn after_noise(phase: &mut Phase, kept: &mut Kept, params: &BusParams, at: Moment)
    requires { at ≤ last_turn }
    ensures { (seen : ℕ) → Becomes (λ s. after_mark params.now s (End at seen (Bad ∷ [])))
        kept.old (phase_of phase.old) kept.new (phase_of phase.new) }
{
    if !is_offline(phase) {
        ended_with_noise(phase, kept, params, at);
    }
}

/// Activity has ended at `at` and brought any characters. Kept out of line: its frame has room for the longest
/// telegram.
#[inline(never)]
fn after_others(
    phase: &mut Phase,
    kept: &mut Kept,
    params: &BusParams,
    at: Moment,
    chars: &[RxChar],
)
    requires { at ≤ last_turn }
    ensures { Becomes (λ s. ended params.now s at (arrival_of chars.now))
        kept.old (phase_of phase.old) kept.new (phase_of phase.new) }
{
    ended(phase, kept, params, at, &whole_telegram(chars));
}

/// Activity has ended at `at` and brought any undamaged octets. Kept out of line for the same reason.
#[inline(never)]
fn after_other_octets(
    phase: &mut Phase,
    kept: &mut Kept,
    params: &BusParams,
    at: Moment,
    octets: &[u8],
)
    requires { at ≤ last_turn }
    ensures { Becomes (λ s. ended params.now s at (arrival_of (map Good octets.now)))
        kept.old (phase_of phase.old) kept.new (phase_of phase.new) }
{
    ended(phase, kept, params, at, &spelled_telegram(octets));
}

fn is_offline(phase: &Phase) -> bool
    ensures { result ≡ is_offline (phase_of phase.now) }
{
    matches!(phase, Phase::Offline(_))
}
