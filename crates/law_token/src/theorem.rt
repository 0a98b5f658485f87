//! The token theorem: one holder at a time, named by the trace, and only legal telegrams.

ghost use Rattle.std.specs.Prelude.{List};
ghost use Rattle.law_model.specs.World.{World};
ghost use Rattle.law_runs.specs.Headline.{HasAtMostOneHolder, TokenTheorem};
ghost use Rattle.law_runs.specs.Premises.{Waited};
ghost use Rattle.law_token.specs.Invariant.{Invariant};
ghost use Rattle.law_token.specs.Promises.{OneToken, TokenTheoremOfDelay};

/// If the premises hold, at most one station may initiate at a time, it is the one that the trace names, and each
/// telegram that only a holder sends is legal after the one before it. This holds after every list of events, with
/// every lag, noise and stops, and every cable delay that the bus parameters leave time for.
pub fn the_token_is_exclusive()
    ensures exclusive { TokenTheorem }
    ensures with_delay { TokenTheoremOfDelay }
{}

/// The invariant implies at most one holder, named by the trace.
pub fn the_invariant_allows_one_holder()
    ensures { (w : World) (waited : List Waited) → Invariant w waited → HasAtMostOneHolder w }
{}

/// The theorem as readers of a world need it: a stopped station may not initiate either.
pub fn a_run_leaves_one_token()
    ensures { OneToken }
{}
