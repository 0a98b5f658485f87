//! Why events are refused, and what a tap hears that starts or stops: examples on both sides of each limit.

ghost use Rattle.std.specs.Prelude.{◌≡◌, ◌<◌, ◌≤◌, ℕ, true, false, List, [], ◌∷◌, ◌++◌, length, replicate, Some, None, Err, is_some, slice_get};
ghost use Rattle.pb_telegram.specs.declared.chars.RxChar.TheVariants.{Bad};
ghost use Rattle.law_turn.specs.Marks.{Begin, End};
ghost use Rattle.law_turn.specs.Turns.{turn_of};
ghost use Rattle.law_model.specs.Trace as trace;
ghost use Rattle.law_model.specs.Trace.{Own, Whole, Damaged};
ghost use Rattle.law_model.specs.Medium.{Tap};
ghost use Rattle.law_model.specs.World.{World, Turn, Pass, Damage, Start, Stop, Queue, Noise, Unheard, NoSuchTap, Running, NotRunning, NothingInAir, ZeroTime, TooFar, ClockFull, QueueFull, InboxFull, TraceFull, NoTaps, TooManyTaps, BadAddress};
ghost use Rattle.law_model.specs.Step.{step, is_noisy};
ghost use Rattle.law_model.specs.Scenarios.{master, two_masters, master_and_passive, srd_high};
ghost use Rattle.law_model.specs.Refusals.{refusal, refusals_of, new_refusal, heard_of, marks_of, repeated};

/// An event is refused if its tap does not exist, already runs, or does not run.
pub fn an_event_needs_a_tap_that_may_do_it()
    ensures no_such_tap { refusals_of two_masters
        (Turn 2 ∷ Start 2 ∷ Stop 2 ∷ Queue 2 srd_high ∷ Damage 2 0 None ∷ Damage 0 2 None ∷ Unheard 2 0 ∷
        Unheard 0 2 ∷ [])
        ≡ replicate 8 (Some NoSuchTap) }
    ensures running { refusals_of two_masters (Start 0 ∷ Start 0 ∷ []) ≡ None ∷ Some Running ∷ [] }
    ensures not_running { refusals_of two_masters
        (Turn 0 ∷ Stop 0 ∷ Queue 0 srd_high ∷ Start 0 ∷ Turn 0 ∷ Stop 0 ∷ Turn 0 ∷ [])
        ≡ Some NotRunning ∷ Some NotRunning ∷ Some NotRunning ∷ None ∷ None ∷ None ∷ Some NotRunning ∷ [] }
    ensures passive { refusals_of master_and_passive (Start 1 ∷ Queue 1 srd_high ∷ [])
        ≡ None ∷ Some NotRunning ∷ [] }
    ensures queue_full { refusals_of two_masters (Start 0 ∷ replicate 17 (Queue 0 srd_high))
        ≡ replicate 17 None ++ Some QueueFull ∷ [] }
    ensures still_sending { refusals_of two_masters
        (Start 0 ∷ Pass 800 ∷ Turn 0 ∷ Stop 0 ∷ Start 0 ∷ Pass 11 ∷ Start 0 ∷ [])
        ≡ None ∷ None ∷ None ∷ None ∷ Some Running ∷ None ∷ None ∷ [] }
{}

/// A pass of time is at least one bit time. It ends at the latest at the next end on the bus or at the last clock, and
/// each tap must have room for its marks. The first of these limits that is violated is reported.
pub fn time_passes_within_its_bounds()
    ensures no_time { refusals_of two_masters (Pass 0 ∷ Noise 0 ∷ []) ≡ Some ZeroTime ∷ Some ZeroTime ∷ [] }
    ensures last_clock { refusals_of two_masters (Pass 1000000000001 ∷ Pass 1000000000000 ∷ Pass 1 ∷ [])
        ≡ Some ClockFull ∷ None ∷ Some ClockFull ∷ [] }
    ensures too_far { refusals_of two_masters (Noise 30 ∷ Pass 31 ∷ Pass 1000000000001 ∷ Pass 30 ∷ [])
        ≡ None ∷ Some (TooFar 30) ∷ Some (TooFar 30) ∷ None ∷ [] }
    ensures inbox { refusals_of (master 1 ∷ [])
        (Start 0 ∷ repeated 32 (Noise 1 ∷ Pass 1 ∷ []) ++ Noise 1 ∷ Pass 1 ∷ Turn 0 ∷ Pass 1 ∷ [])
        ≡ replicate 66 None ++ Some (InboxFull 0) ∷ None ∷ None ∷ [] }
{}

/// A telegram can be damaged only while it is on the bus and at a character that it has; it can be lost only when it
/// has just begun. Neither can happen at its speaker.
pub fn only_what_is_in_the_air_is_damaged()
    ensures damaged { refusals_of two_masters
        (Start 0 ∷ Start 1 ∷ Pass 800 ∷ Damage 1 0 None ∷ Turn 0 ∷ Damage 0 0 None ∷ Damage 1 0 (Some 3) ∷
        Damage 1 0 (Some 2) ∷ Damage 1 0 None
        ∷ Pass 32 ∷ Damage 1 0 None ∷ Pass 1 ∷ Damage 1 0 None ∷ [])
        ≡ None ∷ None ∷ None ∷ Some NothingInAir ∷ None ∷ Some NothingInAir ∷ Some NothingInAir ∷ None ∷ None
        ∷ None ∷ None ∷ None ∷ Some NothingInAir ∷ [] }
    ensures lost { refusals_of two_masters
        (Start 0 ∷ Start 1 ∷ Pass 800 ∷ Unheard 1 0 ∷ Turn 0 ∷ Unheard 0 0 ∷ Unheard 1 0 ∷ Pass 1 ∷ Unheard 1
        0 ∷ [])
        ≡ None ∷ None ∷ None ∷ Some NothingInAir ∷ None ∷ Some NothingInAir ∷ None ∷ None
        ∷ Some NothingInAir ∷ [] }
    ensures every_character { marks_of two_masters
        (Start 0 ∷ Start 1 ∷ Pass 800 ∷ Turn 0 ∷ Damage 1 0 None ∷ Pass 33 ∷ [])
        ≡ [] ∷ (Begin 800 833 ∷ End 833 833 (Bad ∷ Bad ∷ Bad ∷ []) ∷ []) ∷ [] }
{}

/// A trace of 100,000 entries is full: a turn that speaks and new noise are refused. Before that, neither is refused
/// for this reason.
pub fn a_full_trace_takes_no_more()
    ensures noise { (w : World) (bits : ℕ) → 0 < bits → is_noisy w ≡ false → w.limit ≤ length w.trace
        → step w (Noise bits) ≡ Err TraceFull }
    ensures noise_fits { (w : World) (bits : ℕ) → 0 < bits → length w.trace < w.limit
        → refusal (step w (Noise bits)) ≡ None }
    ensures noise_lasts { (w : World) (bits : ℕ) → 0 < bits → is_noisy w ≡ true
        → refusal (step w (Noise bits)) ≡ None }
    ensures speech { (w : World) (tap : ℕ) (t : Tap) → slice_get w.taps tap ≡ Some t → t.running ≡ true
        → is_some (turn_of w.params t.station t.marks w.now).1 ≡ true
        → w.limit ≤ length w.trace → step w (Turn tap) ≡ Err TraceFull }
    ensures speech_fits { (w : World) (tap : ℕ) (t : Tap) → slice_get w.taps tap ≡ Some t → t.running ≡ true
        → length w.trace < w.limit → refusal (step w (Turn tap)) ≡ None }
    ensures silence { (w : World) (tap : ℕ) (t : Tap) → slice_get w.taps tap ≡ Some t → t.running ≡ true
        → is_some (turn_of w.params t.station t.marks w.now).1 ≡ false
        → refusal (step w (Turn tap)) ≡ None }
{}

/// A world has 1 to 127 taps. The address of a master is at most the highest station address of the bus; that of a
/// passive station is at most 126.
pub fn a_world_has_taps_with_addresses()
    ensures none { new_refusal [] ≡ Some NoTaps }
    ensures most { new_refusal (replicate 127 (master 1)) ≡ None }
    ensures too_many { new_refusal (replicate 128 (master 6)) ≡ Some TooManyTaps }
    ensures highest { new_refusal (master 5 ∷ []) ≡ None }
    ensures too_high { new_refusal (master 5 ∷ master 6 ∷ master 7 ∷ []) ≡ Some (BadAddress 1) }
    ensures passive { new_refusal (record { address = 126; master = false; reply = [] } ∷ []) ≡ None }
    ensures passive_too_high { new_refusal (record { address = 127; master = false; reply = [] } ∷ [])
        ≡ Some (BadAddress 0) }
{}

/// A tap hears a telegram whole if the telegram begins at the tap's start or later, and the tap still runs at its end.
/// It does not hear whole a telegram that is already on the bus at its start. A tap that stops has no unread marks. Of
/// entries that begin at one moment, noise comes first.
pub fn a_tap_hears_from_its_start_to_its_stop()
    ensures in_its_instant { heard_of two_masters (Start 0 ∷ Pass 800 ∷ Start 1 ∷ Turn 0 ∷ Pass 33 ∷ [])
        ≡ (Own ∷ Whole ∷ []) ∷ [] }
    ensures amid { heard_of two_masters (Start 0 ∷ Pass 800 ∷ Turn 0 ∷ Start 1 ∷ Pass 33 ∷ [])
        ≡ (Own ∷ Damaged ∷ []) ∷ [] }
    ensures within { heard_of two_masters (Start 0 ∷ Pass 800 ∷ Turn 0 ∷ Pass 5 ∷ Start 1 ∷ Pass 28 ∷ [])
        ≡ (Own ∷ Damaged ∷ []) ∷ [] }
    ensures stopped { heard_of two_masters
        (Start 0 ∷ Start 1 ∷ Pass 800 ∷ Turn 0 ∷ Pass 5 ∷ Stop 1 ∷ Pass 28 ∷ []) ≡ (Own ∷ Damaged ∷ []) ∷ [] }
    ensures unread { marks_of two_masters (Start 0 ∷ Start 1 ∷ Pass 800 ∷ Turn 0 ∷ Pass 5 ∷ Stop 1 ∷ [])
        ≡ [] ∷ [] ∷ [] }
    ensures noise_first { heard_of two_masters
        (Start 0 ∷ Start 1 ∷ Pass 800 ∷ Turn 0 ∷ Noise 5 ∷ Pass 5 ∷ Pass 28 ∷ [])
        ≡ [] ∷ (Own ∷ Damaged ∷ []) ∷ [] }
{}
