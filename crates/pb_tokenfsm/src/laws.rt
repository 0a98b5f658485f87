//! A state is determined by its phase.

ghost use Rattle.std.specs.Prelude.{◌≡◌};
ghost use Rattle.pb_tokenfsm.specs.Phases.{phase_of};
ghost use Rattle.pb_tokenfsm.specs.declared.phases.Phase.{Phase};

/// Two states with equal phases are equal.
pub fn states_seen_alike_are_equal()
    ensures { (a b : Phase) → phase_of a ≡ phase_of b → a ≡ b }
{}
