//! Each kind of event keeps the invariant, or breaks a premise.

ghost use Rattle.std.specs.Prelude.{ℕ, Option};
ghost use Rattle.pb_cycles.specs.RequestFields.{RequestFields};
ghost use Rattle.law_model.specs.World.{World, Turn, Pass, Damage, Start, Stop, Queue, Noise};
ghost use Rattle.law_token.specs.Invariant.{BeginsWithInvariant, KeepsInvariant};
ghost use Rattle.law_token.specs.Runs.{LossesBreak};

/// A new world satisfies the invariant, if the bus parameters leave enough time and each station's reply fits in a
/// telegram.
pub fn a_new_world_has_the_invariant()
    ensures { BeginsWithInvariant }
{}

/// A turn that breaks no premise keeps the invariant, whether the station sends nothing, a reply, or a telegram of a
/// holder.
pub fn a_turn_keeps_the_invariant()
    ensures { (w : World) (tap : ℕ) → KeepsInvariant w (Turn tap) }
{}

/// A pass of time keeps the invariant: a telegram ends for all that hear it, and no turn is later than the lag.
pub fn a_pass_keeps_the_invariant()
    ensures { (w : World) (bits : ℕ) → KeepsInvariant w (Pass bits) }
{}

/// Damage keeps the invariant: it never adds a telegram that is heard whole.
pub fn damage_keeps_the_invariant()
    ensures { (w : World) (tap speaker : ℕ) (place : Option ℕ) → KeepsInvariant w (Damage tap speaker place) }
{}

/// The start of a station keeps the invariant: the station knows nothing yet.
pub fn a_start_keeps_the_invariant()
    ensures { (w : World) (tap : ℕ) → KeepsInvariant w (Start tap) }
{}

/// The stop of a station keeps the invariant: the telegram that it was sending ends later than the clock.
pub fn a_stop_keeps_the_invariant()
    ensures { (w : World) (tap : ℕ) → KeepsInvariant w (Stop tap) }
{}

/// A new request at a station keeps the invariant.
pub fn a_request_keeps_the_invariant()
    ensures { (w : World) (tap : ℕ) (request : RequestFields) → KeepsInvariant w (Queue tap request) }
{}

/// Noise keeps the invariant: it ends a check as any activity does.
pub fn noise_keeps_the_invariant()
    ensures { (w : World) (bits : ℕ) → KeepsInvariant w (Noise bits) }
{}

/// The loss of a telegram at a tap breaks a premise, so the invariant need not be kept.
pub fn a_loss_breaks_a_premise()
    ensures { LossesBreak }
{}
