//! Worked lists of events and the traces that they leave, computed by the definitions.

ghost use Rattle.std.specs.Prelude.{◌≡◌, ◌∷◌, []};
ghost use Rattle.law_model.specs.Scenarios.{master, world_of, trace_of, phases_of, two_masters, alone, alone_trace, ring_formed, ring_formed_trace, taker_damaged, taker_damaged_trace, taker_damaged_phases, taker_unheard, taker_unheard_trace, taker_unheard_phases, noise_heard, noise_heard_trace, speaker_stopped, speaker_stopped_trace, master_and_passive, data_requested, data_requested_trace, executed_of, outcomes_of};
ghost use Rattle.std.specs.Prelude.{Some, None};
ghost use Rattle.pb_cycles.specs.declared.outcomes.Outcome.TheVariants.{Data};

/// A lone master claims the token after its time-out, keeps it, and asks the stations of its GAP one by one.
pub fn a_master_alone_keeps_the_token()
    ensures { trace_of (world_of (master 1 ∷ []) alone) ≡ alone_trace }
{}

/// Two masters form a ring on an idle bus: the first claims the token and asks the second, which is ready by then, and
/// passes the token to it.
pub fn two_masters_form_a_ring()
    ensures { trace_of (world_of two_masters ring_formed) ≡ ring_formed_trace }
{}

/// Damage alone makes no second holder: a station that has passed the token takes any activity as the sign that the
/// token was taken, also if it is received damaged.
pub fn damage_alone_makes_no_second_holder()
    ensures trace { trace_of (world_of two_masters taker_damaged) ≡ taker_damaged_trace }
    ensures phases { phases_of (world_of two_masters taker_damaged) ≡ taker_damaged_phases }
{}

/// If the telegram of the station that took the token is lost at the station that passed it, that station passes the
/// token again, and two stations hold it. Nothing that it hears shows that the token was taken.
pub fn what_is_lost_at_a_tap_makes_two_holders()
    ensures trace { trace_of (world_of two_masters taker_unheard) ≡ taker_unheard_trace }
    ensures phases { phases_of (world_of two_masters taker_unheard) ≡ taker_unheard_phases }
{}

/// Noise that begins during other noise extends it. A time-out counts from its end.
pub fn noise_lasts_to_the_later_end()
    ensures { trace_of (world_of (master 1 ∷ []) noise_heard) ≡ noise_heard_trace }
{}

/// A station that stops while it speaks leaves a telegram that no station hears whole. After a silence another station
/// claims the token.
pub fn a_stopped_speaker_is_heard_damaged()
    ensures { trace_of (world_of two_masters speaker_stopped) ≡ speaker_stopped_trace }
{}

/// A master requests data from a passive station three times. The second reply is received damaged: the request is sent
/// again with the same frame count bits and gets the kept reply. Three requests are executed.
pub fn a_damaged_reply_is_asked_for_again()
    ensures trace { trace_of (world_of master_and_passive data_requested) ≡ data_requested_trace }
    ensures executed { executed_of (world_of master_and_passive data_requested) ≡ 0 ∷ 3 ∷ [] }
    ensures outcome { outcomes_of (world_of master_and_passive data_requested)
        ≡ Some (7, Data (record { items = 0xaa ∷ 0xbb ∷ [] })) ∷ None ∷ [] }
{}
