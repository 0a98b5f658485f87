//! Worked runs: a station of a ring waits almost as long as it may; and longer if another one stops.

ghost use Rattle.std.specs.Prelude.{◌≡◌, [], Some, true, false};
ghost use Rattle.law_rings.specs.Examples.{
  wait_on,
  slow_replies,
  two_and_a_replier,
  to_the_ring,
  token_is_passed,
  holder_stops,
};

/// The premises can be met, and the bound is almost reached: of two stations the first still waits 66356 bit times after it
/// received the token, and may wait for less than 66613.
pub fn the_bound_is_almost_reached()
    ensures { wait_on slow_replies two_and_a_replier to_the_ring token_is_passed 0
        ≡ Some (record { broken = []; settled = true; calm = true; waits = Some 66356; bound = 66613 }) }
{}

/// If the holder stops, the other waits for longer.
pub fn calm_events_are_needed()
    ensures { wait_on slow_replies two_and_a_replier to_the_ring holder_stops 0
        ≡ Some (record { broken = []; settled = true; calm = false; waits = Some 156324; bound = 66613 }) }
{}
