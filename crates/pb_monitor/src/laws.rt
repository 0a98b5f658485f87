//! What a listener's alarms mean, and worked captures.

ghost use Rattle.std.specs.Prelude.{◌≡◌, ◌∷◌, []};
ghost use Rattle.law_runs.specs.Traces.{token, question, answer};
ghost use Rattle.pb_monitor.specs.declared.alarms.Alarm.TheVariants.{SpokeWithoutToken, SpokeOutOfTurn, PassedAgainTooEarly, PassedAgainThoughHeard, TookAfterSlot, ClaimedTooEarly, SpokeAfterLoss, ClaimedTooEarlyAfterLoss, TookLate, TookTooSoon};
ghost use Rattle.pb_monitor.specs.Cutting.{TelegramsAreCut};
ghost use Rattle.pb_monitor.specs.Promises.{LegalOrdersAreRight, LegalTracesRaiseNone};
ghost use Rattle.pb_monitor.specs.Examples.{at, disturbed, alarms_in, loose_alarms_in, ring};

/// Whatever a listener hears of a legal trace raises no alarm of legality, whatever the premises.
pub fn legal_traces_raise_no_alarm()
    ensures { LegalTracesRaiseNone }
{}

/// Nor is any of its telegrams wrong by their order alone.
pub fn legal_orders_are_right()
    ensures { LegalOrdersAreRight }
{}

/// Which captures raise an alarm, at both ends of each stretch of time.
pub fn captures_are_judged()
    ensures ring { alarms_in (ring (at 1190 (question 3 2) ∷ at 1356 (token 1 2) ∷ [])) ≡ [] }
    ensures intrudes { alarms_in (at 800 (token 1 1) ∷ at 870 (question 3 2) ∷ [])
        ≡ (870, SpokeWithoutToken) ∷ [] }
    ensures third { alarms_in (ring (at 1190 (question 4 3) ∷ [])) ≡ (1190, SpokeOutOfTurn) ∷ [] }
    ensures again { alarms_in (ring (at 1253 (token 2 1) ∷ [])) ≡ [] }
    ensures again_early { alarms_in (ring (at 1252 (token 2 1) ∷ [])) ≡ (1252, PassedAgainTooEarly) ∷ [] }
    ensures again_though { alarms_in (ring (at 1190 (answer 1 2) ∷ at 1293 (token 2 1) ∷ []))
        ≡ (1293, PassedAgainThoughHeard) ∷ [] }
    ensures blind { alarms_in (ring (disturbed 1190 1256 ∷ at 1293 (token 2 1) ∷ [])) ≡ [] }
    ensures taken_first { alarms_in (ring (at 1190 (question 3 2) ∷ [])) ≡ [] }
    ensures taken_soon { alarms_in (ring (at 1189 (question 3 2) ∷ [])) ≡ (1189, TookTooSoon) ∷ [] }
    ensures taken_late { alarms_in (ring (at 1191 (question 3 2) ∷ [])) ≡ (1191, TookLate) ∷ [] }
    ensures taken_after { alarms_in (ring (at 1253 (question 3 2) ∷ [])) ≡ (1253, TookAfterSlot) ∷ [] }
    ensures claims { alarms_in (ring (at 1953 (token 1 1) ∷ [])) ≡ [] }
    ensures claims_early { alarms_in (ring (at 1253 (token 3 3) ∷ [])) ≡ (1253, ClaimedTooEarly) ∷ [] }
    ensures claims_behind { alarms_in (at 0 (token 2 1) ∷ at 34 (token 5 5) ∷ [])
        ≡ (34, ClaimedTooEarly) ∷ [] }
    ensures claims_lost { alarms_in (ring (at 2152 (token 2 2) ∷ []))
        ≡ (2152, ClaimedTooEarlyAfterLoss) ∷ [] }
    ensures claims_after_ttos { alarms_in (ring (at 2153 (token 2 2) ∷ [])) ≡ [] }
    ensures claims_loosely { loose_alarms_in (ring (at 1190 (question 3 2) ∷ at 1356 (token 0 0) ∷ [])) ≡ [] }
    ensures claims_early_loosely { loose_alarms_in (ring (at 1190 (question 3 2) ∷ at 1355 (token 0 0) ∷ []))
        ≡ (1355, ClaimedTooEarly) ∷ [] }
    ensures speaks_lost { alarms_in (ring (at 1254 (question 3 2) ∷ [])) ≡ (1254, SpokeAfterLoss) ∷ [] }
{}

/// A stream that is telegrams one behind the other is cut into just these: whatever cuts it passes over no telegram that
/// begins where the piece before it ends.
pub fn telegrams_are_cut_into_themselves()
    ensures { TelegramsAreCut }
{}
