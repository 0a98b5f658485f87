//! Outlooks: when each tap is due, and when something else changes.

ghost use Rattle.std.specs.Prelude.{◌≡◌, ◌↔◌, ◌≤◌, IsTrue, IfOk, length};
ghost use Rattle.law_runs.specs.Bus.{dues};
ghost use Rattle.pb_segment.specs.Dues.{moments_in};
ghost use Rattle.pb_segment.specs.Outlooks.{ShowsWorld};

use arrayvec::ArrayVec;
use pb_timers::Moment;
use pb_world::World;
use std::alloc::{AllocError, Global};
use std::marker::Model;
use std::sync::Arc;

/// The state of the world after the first `place` events of the history, as the conductor sees it.
#[derive(Debug, Drop)]
pub struct Outlook {
    /// How many events of the history were before it.
    pub place: usize,
    /// The clock, in bit times.
    pub now: Moment,
    /// When each tap is due.
    pub due: Dues,
    /// The next moment at which something else changes, if there is one.
    pub next_change: Option<Moment>,
}

impl Outlook {
    /// The outlook of a world with `taps` taps, after `place` events.
    ///
    /// Fault: memory was refused.
    pub(crate) fn of(
        alloc: Global,
        world: &World,
        taps: usize,
        place: usize,
    ) -> Result<Outlook, AllocError>
        requires { taps ≡ length world.now.taps }
        ensures shows { IfOk result (ShowsWorld world.entry.now) }
        ensures place { IfOk result (λ o. o.place ≡ place) }
    {
        Ok(Outlook {
            place,
            now: world.now(),
            due: due_moments(alloc, world, taps)?,
            next_change: world.next_change(),
        })
    }

    /// An equal outlook, which shares the moments.
    ///
    /// Fault: they are shared too often.
    pub(crate) fn copy(&self) -> Result<Outlook, AllocError>
        ensures { IfOk result (λ o. o ≡ self.entry.now) }
    {
        Ok(Outlook {
            place: self.place,
            now: self.now,
            due: self.due.copy()?,
            next_change: self.next_change,
        })
    }

    /// Whether two outlooks are equal.
    pub(crate) fn is_same(&self, other: &Outlook) -> bool
        ensures { IsTrue result ↔ (self.entry.now ≡ other.entry.now) }
    {
        self.place == other.place
            && self.now == other.now
            && self.next_change == other.next_change
            && self.due.is_same(&other.due)
    }
}

/// When each tap is due, in the order of the taps; `None` for a tap that does not run or waits for nothing.
#[derive(Debug, Drop)]
pub struct Dues {
    moments: Moments,
}

impl Model for Dues {
    ghost use Rattle.std.specs.Prelude.{List, Option, ℕ};
    ghost use Rattle.pb_segment.specs.Dues.{moments_in};

    ghost Value = { List (Option ℕ) };

    ghost view = { λ d. moments_in d.moments };
}

impl Dues {
    ghost use Rattle.std.specs.Prelude.{◌≡◌, ◌↔◌, IsTrue, IfOk};

    /// When each tap is due, in bit times. There are as many elements as taps.
    pub fn moments(&self) -> &[Option<Moment>]
        ensures { result.now ≡ self.now }
    {
        moments_of(&self.moments)
    }

    /// The same moments, shared.
    ///
    /// Fault: they are shared too often.
    fn copy(&self) -> Result<Dues, AllocError>
        ensures { IfOk result (λ d. d ≡ self.now) }
    {
        Ok(Dues {
            moments: shared(&self.moments)?,
        })
    }

    fn is_same(&self, other: &Dues) -> bool
        ensures { IsTrue result ↔ (self.now ≡ other.now) }
    {
        are_same(self.moments(), other.moments())
    }
}

/// Up to how many moments are stored in place.
const FEW: usize = 4;

/// The moments of all taps, shared. Up to four take one allocation; more of them also have a list that fits.
#[derive(Debug, Drop)]
enum Moments {
    Few(Arc<ArrayVec<Option<Moment>, FEW>, Global>),
    Many(Arc<Vec<Option<Moment>>, Global>),
}

/// The moments, in either form.
fn moments_of(moments: &Moments) -> &[Option<Moment>]
    ensures { result.now ≡ moments_in moments.now }
{
    match moments {
        Moments::Few(moments) => moments,
        Moments::Many(moments) => moments,
    }
}

/// The same moments, shared once more.
///
/// Fault: they are shared too often.
fn shared(moments: &Moments) -> Result<Moments, AllocError>
    ensures { IfOk result (λ same. moments_in same ≡ moments_in moments.now) }
{
    Ok(match moments {
        Moments::Few(few) => Moments::Few(Arc::try_clone(few)?),
        Moments::Many(many) => Moments::Many(Arc::try_clone(many)?),
    })
}

fn are_same(one: &[Option<Moment>], other: &[Option<Moment>]) -> bool
    ensures { IsTrue result ↔ (one.now ≡ other.now) }
{
    if one.len() != other.len() {
        return false;
    }
    for place in 0..one.len() {
        if one[place] != other[place] {
            return false;
        }
    }
    true
}

/// When each tap of a world is due.
///
/// Fault: memory was refused.
fn due_moments(alloc: Global, world: &World, taps: usize) -> Result<Dues, AllocError>
    requires { taps ≡ length world.now.taps }
    ensures { IfOk result (λ d. d ≡ dues world.entry.now) }
{
    let moments = if taps <= FEW {
        Moments::Few(Arc::new(alloc, few_moments(world, taps))?)
    } else {
        Moments::Many(Arc::new(alloc, many_moments(alloc, world, taps)?)?)
    };
    Ok(Dues { moments })
}

/// When each of at most four taps is due.
#[tactic(auto, using(crate::proofs::Showing::next_due))]
fn few_moments(world: &World, taps: usize) -> ArrayVec<Option<Moment>, FEW>
    requires all { taps ≡ length world.now.taps }
    requires few { taps ≤ 4 }
    ensures { result.items ≡ dues world.entry.now }
{
    let mut moments = ArrayVec::new();
    for tap in 0..taps {
        moments.push(world.due(tap));
    }
    moments
}

/// When each tap is due.
///
/// Fault: memory was refused.
#[tactic(auto, using(crate::proofs::Showing::next_due))]
fn many_moments(
    alloc: Global,
    world: &World,
    taps: usize,
) -> Result<Vec<Option<Moment>>, AllocError>
    requires { taps ≡ length world.now.taps }
    ensures { IfOk result (λ moments. moments.items ≡ dues world.entry.now) }
{
    let mut moments = Vec::with_capacity(alloc, taps)?;
    for tap in 0..taps {
        moments.push(world.due(tap))?;
    }
    Ok(moments)
}
