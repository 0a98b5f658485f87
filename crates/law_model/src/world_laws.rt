//! Laws of the world: its clock, refused events, and marks.

ghost use Rattle.std.specs.Prelude.{◌≡◌, ◌≤◌, ℕ, Bool, true, List, [], ◌∷◌, Ok, Err, Some, slice_get};
ghost use Rattle.pb_timers.specs.Timers.{Params};
ghost use Rattle.law_model.specs.Medium.{TapSpec, Tap};
ghost use Rattle.law_model.specs.World.{World, Event, Turn, Pass, Reply, Fault, IsNewWorld};
ghost use Rattle.law_model.specs.Step.{step, replay};
ghost use Rattle.law_model.specs.Behind.{behind, all_behind, IsPast};
ghost use Rattle.law_model.specs.Trace.{Entry};
ghost use Rattle.law_model.specs.Laws.{AllInOrder, AllFit, AreEvents, PassTells};

/// The clock never decreases, whatever the events.
pub fn the_clock_never_falls()
    ensures { (w : World) (events : List Event) → w.now ≤ (replay w events).now }
{}

/// A refused event changes nothing.
pub fn a_refused_event_changes_nothing()
    ensures { (w : World) (event : Event) (fault : Fault) → step w event ≡ Err fault
        → replay w (event ∷ []) ≡ w }
{}

/// The unread marks of every tap are in order of time, up to the clock.
pub fn marks_stand_in_order_of_time()
    ensures { (p : Params) (specs : List TapSpec) (w : World) (events : List Event)
        → AllFit specs → AreEvents events → IsNewWorld p specs w
        → AllInOrder (replay w events).now (replay w events).taps }
{}

/// A pass of time appends to a running tap's unread marks the bursts that begin and end in it. Begins and Ends
/// alternate; the first one depends on whether a burst is open before, and the last one on whether one is open
/// afterwards.
pub fn what_a_pass_tells_a_tap()
    ensures { (p : Params) (specs : List TapSpec) (w : World) (events : List Event) (d tap : ℕ)
        (next : World) (reply : Reply) (t : Tap)
        → AllFit specs → AreEvents events → IsNewWorld p specs w
        → step (replay w events) (Pass d) ≡ Ok (next, reply)
        → slice_get (replay w events).taps tap ≡ Some t → t.running ≡ true
        → PassTells (replay w events) next tap t }
{}

/// A world goes on as if the entries that were let go still stood in front of its own.
pub fn what_is_over_may_be_let_go()
    ensures turn { (old : List Entry) (w : World) (tap : ℕ) → IsPast old w
        → step (behind old w) (Turn tap) ≡ all_behind old (step w (Turn tap)) }
    ensures pass { (old : List Entry) (w : World) (d : ℕ) → IsPast old w
        → step (behind old w) (Pass d) ≡ all_behind old (step w (Pass d)) }
{}
