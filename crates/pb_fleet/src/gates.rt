//! The gate: a hook before each turn.

/// What a worker asks before it decides a turn.
pub trait Gate: Sync {
    /// Whether a tap, with its index from 0, may take the turn that it is offered. A worker calls this outside the
    /// lock, between its glance and its commit. It may therefore wait for the turn of a later tap of the same instant,
    /// as long as fewer turns wait than there are workers. `false` ends the run. The caller ensures that it returns.
    fn between(&self, tap: usize) -> bool;

    /// Whether [`between`](Gate::between) returns true at once for every tap. Then it need not be called, and a turn is
    /// decided and taken while the lock is held, which takes less time.
    fn is_open(&self) -> bool {
        false
    }
}
