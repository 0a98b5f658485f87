//! Worked runs: a passive tap's capture, and whom it names.

ghost use Rattle.std.specs.Prelude.{◌∷◌, [], take};
ghost use Rattle.law_model.specs.World.{Pass};
ghost use Rattle.law_model.specs.Scenarios.{example_bus};
ghost use Rattle.law_runs.specs.JudgedScenarios.{bus_with_delay};
ghost use Rattle.law_runs.specs.Traces.{token, question, answer};
ghost use Rattle.pb_monitor.specs.declared.holders.Holder.TheVariants.{One, OfferedTo};
ghost use Rattle.pb_monitor.specs.Examples.{at, disturbed};
ghost use Rattle.law_monitor.specs.Examples.{IsCaptured, IsHeardThere, IsNamed, beside_second, with_passive, heard_with_delay, heard_amid, damaged_at};

/// A passive tap hears two masters form a ring, each telegram a cable delay after it was sent. Another starts amid a
/// token, hears what follows damaged, and then a token with noise behind it.
pub fn passive_taps_capture_a_ring()
    ensures with_delay { IsCaptured bus_with_delay with_passive heard_with_delay 2 0
        (at 815 (token 1 1) ∷ at 885 (token 1 1) ∷ at 955 (question 2 1) ∷ at 1047 (answer 1 2)
        ∷ at 1165 (token 2 1) ∷ at 1250 (question 3 2) ∷ at 1416 (token 1 2) ∷ []) }
    ensures amid { IsCaptured example_bus with_passive heard_amid 2 1130
        (disturbed 1130 1153 ∷ damaged_at 1190 (question 3 2) ∷ at 1356 (token 1 2)
        ∷ disturbed 1389 1409 ∷ []) }
{}

/// A listener beside the second station hears the same ring, the second's telegrams as they are sent.
pub fn listeners_beside_a_station_hear_a_ring()
    ensures { IsHeardThere bus_with_delay with_passive heard_with_delay beside_second 0
        (at 815 (token 1 1) ∷ at 885 (token 1 1) ∷ at 955 (question 2 1) ∷ at 1032 (answer 1 2)
        ∷ at 1165 (token 2 1) ∷ at 1235 (question 3 2) ∷ at 1401 (token 1 2) ∷ []) }
{}

/// The listener names the first station while that claims the token, and the second once it has been passed the token: in
/// both worlds that station may initiate.
pub fn holders_are_named()
    ensures claims { IsNamed bus_with_delay with_passive (take 14 heard_with_delay) (Pass 22 ∷ []) 0 0
        (at 815 (token 1 1) ∷ []) (One 1) }
    ensures takes { IsNamed bus_with_delay with_passive (take 58 heard_with_delay) (Pass 37 ∷ []) 1 0
        (at 815 (token 1 1) ∷ at 885 (token 1 1) ∷ at 955 (question 2 1) ∷ at 1047 (answer 1 2)
        ∷ at 1165 (token 2 1) ∷ [])
        (OfferedTo 2) }
{}
