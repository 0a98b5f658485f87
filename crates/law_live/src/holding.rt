//! How long a station holds the token after its last receipt: at most the target rotation time and two cycles.

ghost use Rattle.std.specs.Prelude.{◌≡◌, ◌≤◌, ◌+◌, ℕ, Bool, true, Some, IfSome};
ghost use Rattle.pb_timers.specs.Timers.{Params};
ghost use Rattle.law_turn.specs.Laws.{HasOpenRequest};
ghost use Rattle.law_turn.specs.Marks.{Mark};
ghost use Rattle.law_turn.specs.Hearing.{after_timer, after_mark};
ghost use Rattle.law_turn.specs.Stations.{Station, started, speaks_at};
ghost use Rattle.law_turn.specs.Turns.{speech};
ghost use Rattle.law_live.specs.Holding.{Spends, Comes, PhaseSays, IsCycling, limit};

/// `recent` is a moment by which the station had its last receipt, `d` one by which it had the receipt before that.
/// A station that starts has all its time left. Marks that it reads in time, timers that end, and what it sends in time
/// keep it within its time. Thus what a holder sends is a token, or leaves time for all that follows it.
pub fn a_holder_keeps_within_its_time()
    ensures started { (p : Params) (recent d now : ℕ) (s : Station) (master : Bool)
        → Spends p recent d (started p s master now) }
    ensures timer { (p : Params) (recent d bound : ℕ) (s : Station) → Spends p recent d s
        → Spends p recent d (after_timer p bound s) }
    ensures mark { (p : Params) (recent d : ℕ) (s : Station) (m : Mark) → Comes p recent d s m
        → Spends p recent d s → Spends p recent d (after_mark p s m) }
    ensures speech { (p : Params) (recent d : ℕ) (s : Station) (now : ℕ) → p.tid2 + p.lag ≤ p.tsl
        → IfSome (speaks_at s) (λ moment. now ≤ moment + p.lag) → HasOpenRequest s → Spends p recent d s
        → PhaseSays p recent d now s.phase (speech p s (speaks_at s) now) }
{}

/// A station that uses the token and has to speak does so within the target rotation time and two cycles after its last
/// receipts.
pub fn a_holder_speaks_in_time()
    ensures { (p : Params) (recent d moment : ℕ) (s : Station) → speaks_at s ≡ Some moment → IsCycling s.phase
        → Spends p recent d s → moment + p.lag ≤ limit p recent d true }
{}
