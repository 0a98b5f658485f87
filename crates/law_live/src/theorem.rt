//! The law that the bus is never dead.

ghost use Rattle.std.specs.Prelude.{◌≡◌, ◌+◌, ◌-◌, ◌*◌, ℕ};
ghost use Rattle.pb_timers.specs.Timers.{Params, tto};
ghost use Rattle.law_live.specs.NeverDead.{cycle, longest_without, NeverDead};

/// The bus is never dead: in every run that keeps the premises, no stretch without noise, in which some master runs and
/// is not offline, is without a token telegram for longer than the bound. The bound is the target rotation time, two
/// cycles of which the second ends with its reply, that master's time-out, the lag and the cable delay.
pub fn the_bus_is_never_dead()
    ensures law { NeverDead }
    ensures bound { (p : Params) (address : ℕ)
        → longest_without p address + p.tid1 ≡ (p.ttr - 1) + 2 * cycle p + tto p address + p.ttd }
{}
