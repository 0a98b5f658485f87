//! Turns of one instant commute.

ghost use Rattle.std.specs.Prelude.{◌≢◌, ℕ};
ghost use Rattle.law_model.specs.World.{World, Reply};
ghost use Rattle.law_runs.specs.Commuting.{BothTurn};

/// Two turns of different taps in one instant do not read each other's results: if they are accepted in one order, they
/// are accepted in the other, with the same replies, and lead to the same world.
pub fn turns_of_one_instant_commute()
    ensures { (w after : World) (i j : ℕ) (first second : Reply) → i ≢ j → BothTurn w i j after first second
        → BothTurn w j i after second first }
{}
