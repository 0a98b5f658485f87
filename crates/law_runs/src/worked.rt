//! Worked scenarios and traces, judged by the definitions.

ghost use Rattle.std.specs.Prelude.{◌≡◌, ℕ, ◌∷◌, [], true, false, Some, None};
ghost use Rattle.pb_timers.specs.Timers.{Params};
ghost use Rattle.law_model.specs.Medium.{Tap};
ghost use Rattle.law_model.specs.Scenarios.{master, two_masters, alone, ring_formed, taker_damaged, taker_unheard, speaker_stopped, noise_heard};
ghost use Rattle.law_model.specs.Trace.{Damaged, Unheard};
ghost use Rattle.law_runs.specs.Headline.{tap_may_initiate};
ghost use Rattle.law_runs.specs.Premises.{is_late};
ghost use Rattle.law_runs.specs.RunsAlike as runs;
ghost use Rattle.law_runs.specs.JudgedScenarios.{verdict_of, verdict_on, kept, breaks, bus_with_lag, bus_with_delay, passive};
ghost use Rattle.law_runs.specs.Traces.{illegal_in, illegal_on, named_at, claimed, passed, passed_as, takes_at, by_first, by_second, by_third, noise, token, question, answer, acknowledgement, scrap};

/// The worked scenarios that break no premise. Their traces are legal, and at each moment they name the station that
/// may initiate.
pub fn scenarios_that_keep_the_premises()
    ensures alone { verdict_of (master 1 ∷ []) alone ≡ kept }
    ensures ring { verdict_of two_masters ring_formed ≡ kept }
    ensures damage { verdict_of two_masters taker_damaged ≡ kept }
    ensures stop { verdict_of two_masters speaker_stopped ≡ kept }
    ensures noise { verdict_of (master 1 ∷ []) noise_heard ≡ kept }
    ensures noise_between { verdict_of two_masters runs.noise_between ≡ kept }
    ensures at_the_lag { verdict_on bus_with_lag two_masters runs.taken_at_the_lag ≡ kept }
    ensures successor_gone { verdict_of two_masters runs.successor_gone ≡ kept }
    ensures namesake_stopped { verdict_of (master 1 ∷ master 1 ∷ []) runs.namesake_stopped ≡ kept }
    ensures started { verdict_of (master 1 ∷ master 0 ∷ []) runs.started_in_silence ≡ kept }
    ensures stopped { verdict_of (master 1 ∷ master 0 ∷ []) runs.stopped_in_silence ≡ kept }
    ensures passive { verdict_of (master 1 ∷ passive 0 ∷ []) runs.first_claims ≡ kept }
    ensures refused { verdict_of two_masters runs.loss_refused ≡ kept }
    ensures waits_out_next { verdict_of two_masters runs.waits_out_next ≡ kept }
    ensures delay { verdict_on bus_with_delay two_masters runs.ring_with_delay ≡ kept }
{}

/// Each premise is broken by the first event that breaks it.
pub fn scenarios_that_break_a_premise()
    ensures namesakes { verdict_of (master 1 ∷ master 1 ∷ []) runs.namesakes ≡ breaks 1 100 None true }
    ensures passive { verdict_of (master 1 ∷ passive 1 ∷ []) runs.first_claims ≡ breaks 1 0 None true }
    ensures later_taps { verdict_of (passive 9 ∷ master 1 ∷ master 1 ∷ []) runs.last_two_start
        ≡ breaks 1 0 None true }
    ensures unheard { verdict_of two_masters taker_unheard ≡ breaks 2 1190 (Some 6) false }
    ensures late { verdict_of two_masters runs.taken_62_late ≡ breaks 3 1252 None true }
    ensures later { verdict_of two_masters runs.taken_63_late ≡ breaks 3 1253 (Some 6) false }
    ensures both_claim { verdict_of two_masters runs.both_claim ≡ breaks 4 1000 (Some 1) false }
    ensures after_noise { verdict_of two_masters runs.both_claim_after_noise ≡ breaks 4 1150 (Some 2) false }
    ensures delay { verdict_on bus_with_delay two_masters runs.claims_with_delay
        ≡ breaks 4 1010 (Some 1) false }
    ensures at_the_delay { verdict_on bus_with_delay two_masters runs.claims_at_the_delay
        ≡ breaks 4 1015 (Some 1) false }
    ensures with_lag { verdict_on bus_with_lag two_masters runs.both_claim ≡ breaks 4 1000 (Some 1) false }
    ensures late_with_delay { verdict_on bus_with_delay two_masters runs.both_are_late
        ≡ breaks 3 1001 None true }
    ensures least_number { verdict_of two_masters runs.both_are_late ≡ breaks 3 1001 None true }
{}

/// Which initiator records are legal after the one before, at both ends of each stretch of time.
pub fn traces_are_judged()
    ensures first { illegal_in (by_first 800 (question 2 1) ∷ []) ≡ Some 0 }
    ensures unclaimed { illegal_in (by_first 800 (token 2 1) ∷ []) ≡ Some 0 }
    ensures goes_on { illegal_in (claimed (by_first 833 (question 2 1) ∷ by_first 900 (token 2 1) ∷ []))
        ≡ None }
    ensures not_ended { illegal_in (claimed (by_first 832 (question 2 1) ∷ [])) ≡ Some 1 }
    ensures intrudes { illegal_in (claimed (by_second 870 (question 3 2) ∷ [])) ≡ Some 1 }
    ensures answered { illegal_in
        (claimed (by_first 870 (question 2 1) ∷ by_second 947 (answer 1 2) ∷ by_first 1050 (token 2 1) ∷ []))
        ≡ None }
    ensures intrudes_later { illegal_in
        (claimed (by_first 870 (question 2 1) ∷ by_second 947 (answer 1 2) ∷ by_second 1050 (question 3 2) ∷
        [])) ≡ Some 3 }
    ensures acknowledged { illegal_in
        (claimed (by_second 870 acknowledgement ∷ by_first 900 (token 2 1) ∷ [])) ≡ None }
    ensures scrapped { illegal_in (claimed (by_second 870 scrap ∷ by_first 900 (token 2 1) ∷ [])) ≡ None }
    ensures passed_again { illegal_in (passed (by_first 1003 (token 2 1) ∷ [])) ≡ None }
    ensures too_soon { illegal_in (passed (by_first 1002 (token 2 1) ∷ [])) ≡ Some 2 }
    ensures disturbed { illegal_in (passed (noise 1002 1003 ∷ by_first 1003 (token 2 1) ∷ [])) ≡ Some 3 }
    ensures begun_before { illegal_in
        (claimed (noise 860 904 ∷ by_first 870 (token 2 1) ∷ by_first 1003 (token 2 1) ∷ [])) ≡ Some 3 }
    ensures only_before { illegal_in
        (claimed (noise 860 903 ∷ by_first 870 (token 2 1) ∷ noise 1003 1010 ∷ by_first 1003 (token 2 1) ∷
        [])) ≡ None }
    ensures taken { illegal_in (passed (takes_at 1002 ∷ [])) ≡ None }
    ensures taken_late { illegal_in (passed (takes_at 1003 ∷ [])) ≡ Some 2 }
    ensures damaged { illegal_in (passed_as Damaged (takes_at 940 ∷ [])) ≡ Some 2 }
    ensures unheard { illegal_in (passed_as Unheard (takes_at 940 ∷ [])) ≡ Some 2 }
    ensures another { illegal_in (passed (by_third 940 (question 2 3) ∷ [])) ≡ Some 2 }
    ensures claim { illegal_in (passed (by_second 1903 (token 2 2) ∷ [])) ≡ None }
    ensures claim_early { illegal_in (passed (by_second 1902 (token 2 2) ∷ [])) ≡ Some 2 }
    ensures claim_in_noise { illegal_in (noise 100 110 ∷ by_first 909 (token 1 1) ∷ []) ≡ Some 1 }
    ensures claim_after_noise { illegal_in (noise 100 110 ∷ by_first 910 (token 1 1) ∷ []) ≡ None }
    ensures claim_for_another { illegal_in (claimed (by_second 1833 (token 1 1) ∷ [])) ≡ Some 1 }
    ensures from_another { illegal_in (claimed (by_second 1833 (token 2 1) ∷ [])) ≡ Some 1 }
    ensures delayed { illegal_on bus_with_delay (claimed (by_second 1848 (token 2 2) ∷ [])) ≡ None }
    ensures delayed_too_early { illegal_on bus_with_delay (claimed (by_second 1847 (token 2 2) ∷ []))
        ≡ Some 1 }
    ensures own_not_delayed { illegal_on bus_with_delay (passed (by_first 1003 (token 2 1) ∷ [])) ≡ None }
    ensures taken_late_with_delay { illegal_on bus_with_delay (passed (takes_at 1003 ∷ [])) ≡ Some 2 }
    ensures ended_with_delay { illegal_on bus_with_delay
        (passed (by_second 885 scrap ∷ by_first 1003 (token 2 1) ∷ [])) ≡ Some 3 }
    ensures begun_with_delay { illegal_on bus_with_delay
        (passed (by_second 995 scrap ∷ by_first 1003 (token 2 1) ∷ [])) ≡ None }
    ensures to_another { illegal_in (claimed (by_second 1833 (token 1 2) ∷ [])) ≡ Some 1 }
{}

/// Which station the trace names, at both ends of each stretch of time.
pub fn traces_name_a_station()
    ensures holder { named_at (0 ∷ 799 ∷ 800 ∷ 832 ∷ 833 ∷ 5000 ∷ []) (claimed [])
        ≡ None ∷ None ∷ Some 0 ∷ Some 0 ∷ Some 0 ∷ Some 0 ∷ [] }
    ensures offered { named_at (869 ∷ 870 ∷ 902 ∷ 903 ∷ 1002 ∷ 1003 ∷ []) (passed [])
        ≡ Some 0 ∷ Some 0 ∷ Some 0 ∷ Some 1 ∷ Some 1 ∷ Some 0 ∷ [] }
    ensures taken { named_at (939 ∷ 940 ∷ 1100 ∷ []) (passed (takes_at 940 ∷ []))
        ≡ Some 1 ∷ Some 1 ∷ Some 1 ∷ [] }
    ensures answered { named_at (870 ∷ 2000 ∷ []) (claimed (by_second 870 (answer 1 2) ∷ []))
        ≡ Some 0 ∷ Some 0 ∷ [] }
    ensures lost { named_at (902 ∷ 903 ∷ 1002 ∷ 1003 ∷ []) (passed_as Damaged [])
        ≡ Some 0 ∷ None ∷ None ∷ Some 0 ∷ [] }
    ensures disturbed { named_at (1002 ∷ 1003 ∷ 5000 ∷ []) (passed (noise 950 951 ∷ []))
        ≡ Some 1 ∷ None ∷ None ∷ [] }
{}

/// A stopped tap may not initiate and is not late, whatever its station was about to do.
pub fn a_stopped_tap_has_no_part()
    ensures initiates { (t : Tap) → t.running ≡ false → tap_may_initiate t ≡ false }
    ensures late { (p : Params) (now : ℕ) (t : Tap) → t.running ≡ false → is_late p now t ≡ false }
{}
