//! Worked runs: the bound is reached; longer stretches without a token if a premise is broken.

ghost use Rattle.std.specs.Prelude.{◌≡◌, [], ◌∷◌, Some, true, false};
ghost use Rattle.law_live.specs.Examples.{
  slow_bus,
  slow_bus_with_retries,
  three_and_a_replier,
  long_hold,
  long_hold_with_retries,
};
ghost use Rattle.law_live.specs.Examples.{
  noise_goes_on,
  no_turn_comes,
  prompt_bus,
  namesakes,
  namesakes_hold,
  two_hold,
  request_is_lost,
};
ghost use Rattle.law_live.specs.Stretches.{Stretch, stretch_on, quiet};

/// The premises can be met, and the bound is reached, without retries and with one. The last of three masters has been
/// without a token for so long that a token must come in the next bit time.
pub fn the_bound_is_reached()
    ensures once { stretch_on slow_bus three_and_a_replier long_hold 2 3018 ≡ quiet [] 15360 15360 }
    ensures again { stretch_on slow_bus_with_retries three_and_a_replier long_hold_with_retries 2 3018
        ≡ quiet [] 27690 27690 }
{}

/// If noise continues or a premise is broken, the bus may be without a token for longer than the bound: forever if
/// noise does not end or a master takes no turn, else as long as two holders keep each other waiting. No such run is
/// known in which only the fourth premise is broken: stations that claim at once hear each other and give the token up.
pub fn three_premises_are_needed()
    ensures noise { stretch_on slow_bus three_and_a_replier noise_goes_on 2 0
        ≡ Some (record { broken = []; noise = true; token = false; lasts = 16000; bound = 15360 }) }
    ensures late { stretch_on slow_bus three_and_a_replier no_turn_comes 2 0 ≡ quiet (3 ∷ []) 16000 15360 }
    ensures namesakes { stretch_on prompt_bus namesakes namesakes_hold 3 5490 ≡ quiet (1 ∷ []) 29749 27690 }
    ensures loss { stretch_on prompt_bus two_hold request_is_lost 2 4822 ≡ quiet (2 ∷ []) 29739 27690 }
{}
