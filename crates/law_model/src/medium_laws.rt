//! Laws of the medium: bursts, and what a tap hears of them.

ghost use Rattle.std.specs.Prelude.{◌≡◌, ◌+◌, ◌≢◌, ◌≤◌, ◌<◌, ℕ, true, false, List, [], ◌∷◌, ◌++◌, map};
ghost use Rattle.pb_telegram.specs.declared.chars.RxChar.{RxChar};
ghost use Rattle.pb_telegram.specs.declared.chars.RxChar.TheVariants.{Bad};
ghost use Rattle.law_turn.specs.Spans.{Span};
ghost use Rattle.law_model.specs.Trace.{Record, Entry, Sent, entry_begin, with_entry, cut_at, is_noise_at, noisy_until, begins_from, unheard_at};
ghost use Rattle.law_model.specs.Medium.{Tap, sensed, burst_begins, burst_ends, fills_burst, burst_characters, is_whole_at, marks_between, entry_at};
ghost use Rattle.law_model.specs.Step.{change_first};
ghost use Rattle.law_model.specs.World.{next_end_of};
ghost use Rattle.law_model.specs.Laws.{is_open, AllFrom, AllOver, FillsBurst, FillsAlone};

/// A tap does not sense what it sends.
pub fn a_tap_does_not_hear_itself()
    ensures { (delay : ℕ) (tap since : ℕ) (r : Record) (trace : List Entry) → r.tap ≡ tap
        → sensed delay tap since (with_entry (Sent r) trace) ≡ sensed delay tap since trace }
{}

/// If two stretches only touch, one burst ends and another begins.
pub fn stretches_that_touch_stay_apart()
    ensures { (a b : Span) → a.begin < a.end → b.begin < b.end → a.end ≡ b.begin
        → (burst_ends (a ∷ b ∷ []) a.end ≡ true) × (burst_begins (a ∷ b ∷ []) b.begin ≡ true) }
{}

/// Two stretches that overlap are one burst, from the begin of the first to the end of the second. No burst begins
/// where the second one begins, or ends where the first one ends.
pub fn stretches_that_overlap_are_one_burst()
    ensures ends { (a b : Span) → a.begin < b.begin → b.begin < a.end → a.end < b.end
        → (burst_begins (a ∷ b ∷ []) a.begin ≡ true) × (burst_ends (a ∷ b ∷ []) b.end ≡ true) }
    ensures within { (a b : Span) → a.begin < b.begin → b.begin < a.end → a.end < b.end
        → (burst_begins (a ∷ b ∷ []) b.begin ≡ false) × (burst_ends (a ∷ b ∷ []) a.end ≡ false) }
{}

/// A burst brings the characters of a telegram exactly if that telegram filled the burst alone, and the tap heard it
/// from its begin and sent nothing meanwhile. Otherwise it brings one damaged character.
pub fn whole_telegrams_fill_their_bursts_alone()
    ensures brought { (delay : ℕ) (tap : ℕ) (t : Tap) (trace : List Entry) (m : ℕ)
        → burst_characters delay tap t trace m ≢ Bad ∷ []
        → FillsBurst delay tap t trace m (burst_characters delay tap t trace m) }
    ensures filled { (delay : ℕ) (tap : ℕ) (t : Tap) (trace : List Entry) (m : ℕ) (chars : List RxChar)
        → FillsBurst delay tap t trace m chars
        → FillsBurst delay tap t trace m (burst_characters delay tap t trace m) }
    ensures alone { (delay : ℕ) (tap : ℕ) (t : Tap) (trace : List Entry) (r : Record)
        → fills_burst delay tap t trace r ≡ true → FillsAlone delay tap t trace r }
    ensures lone { (delay : ℕ) (tap : ℕ) (t : Tap) (trace : List Entry) (r : Record)
        → FillsAlone delay tap t trace r → fills_burst delay tap t trace r ≡ true }
{}

/// Two telegrams that begin at one moment do not hear each other, if they last longer than the cable delay: neither
/// fills a burst at the tap that sends the other.
pub fn telegrams_of_one_instant_are_not_heard()
    ensures { (delay : ℕ) (tap : ℕ) (t : Tap) (trace before after : List Entry) (q r : Record)
        → trace ≡ before ++ Sent q ∷ after → q.tap ≡ tap → q.begin ≡ r.begin
        → r.begin + delay < q.end → r.begin < r.end
        → fills_burst delay tap t trace r ≡ false }
{}

/// Only a pass of time opens or closes a burst at a tap. At its start none is open. What begins now has opened none
/// yet, and a telegram whose speaker stops now has closed none yet. Noise that is extended leaves its burst open, and
/// what begins now and is lost at a tap was not open there.
pub fn only_a_pass_opens_a_burst()
    ensures started { (delay : ℕ) (tap now : ℕ) (trace : List Entry)
        → is_open (sensed delay tap now trace) now ≡ false }
    ensures begun { (delay : ℕ) (tap since now : ℕ) (e : Entry) (trace : List Entry)
        → entry_begin e ≡ now
        → is_open (sensed delay tap since (with_entry e trace)) now
        ≡ is_open (sensed delay tap since trace) now }
    ensures stopped { (delay : ℕ) (tap since now speaker : ℕ) (trace : List Entry)
        → is_open (sensed delay tap since (map (cut_at now speaker) trace)) now
        ≡ is_open (sensed delay tap since trace) now }
    ensures longer { (delay : ℕ) (tap since now end : ℕ) (trace : List Entry) → now < end
        → is_open (sensed delay tap since (change_first (is_noise_at now) (noisy_until end) trace)) now
        ≡ is_open (sensed delay tap since trace) now }
    ensures lost { (delay : ℕ) (tap since now at speaker : ℕ) (trace : List Entry)
        → is_open (sensed delay tap since (change_first (begins_from now speaker) (unheard_at at) trace)) now
        ≡ is_open (sensed delay tap since trace) now }
{}

/// Entries that ended at all taps before every recent entry began, and before the clock, have no more effect: a tap's
/// marks, the next end, and the reception of recent telegrams follow from the recent entries alone.
pub fn what_has_ended_matters_no_more()
    ensures ends { (delay : ℕ) (m now : ℕ) (old recent : List Entry) → AllOver delay m old → m ≤ now
        → next_end_of delay now (old ++ recent) ≡ next_end_of delay now recent }
    ensures telegrams { (delay : ℕ) (m from to : ℕ) (taps : List Tap) (old recent : List Entry)
        → AllOver delay m old → AllFrom delay m recent → m ≤ from
        → map (entry_at delay taps (old ++ recent) from to) (old ++ recent)
        ≡ old ++ map (entry_at delay taps recent from to) recent }
    ensures marks { (delay : ℕ) (tap m from to : ℕ) (t : Tap) (old recent : List Entry)
        → AllOver delay m old → AllFrom delay m recent → m ≤ from
        → marks_between delay tap t (old ++ recent) from to ≡ marks_between delay tap t recent from to }
{}
