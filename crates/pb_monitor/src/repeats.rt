//! Whether a token or a request is the last one again.

ghost use Rattle.std.specs.Prelude.{◌≡◌, nat_eq};
ghost use Rattle.std.specs.Cmp.Lexicographic.{pointwise};

use arrayvec::ArrayVec;
use pb_telegram::put_octets;
use std::marker::Model;

/// The octets of the last token or request. Those of tokens, which most telegrams are, have a place of their own, so that
/// they need not be cleared for a long request, nor it for them.
#[derive(Drop)]
pub(crate) struct Repeats {
    token: Option<[u8; 3]>,
    /// Those of the last one, if it is no token.
    octets: ArrayVec<u8, 255>,
}

impl Model for Repeats {
    ghost use Rattle.std.specs.Prelude.{ℕ, List};
    ghost use Rattle.pb_monitor.specs.Repeats.{last_octets};

    ghost Value = { List ℕ };

    ghost view = { λ r. last_octets r.token r.octets.items };
}

impl Repeats {
    ghost use Rattle.std.specs.Prelude.{◌≡◌, ◌≤◌, [], length, nat_eq};
    ghost use Rattle.std.specs.Cmp.Lexicographic.{pointwise};

    /// No token and no request is known.
    pub(crate) fn new() -> Repeats
        ensures { result ≡ [] }
    {
        Repeats {
            token: None,
            octets: ArrayVec::new(),
        }
    }

    /// Forgets the last one.
    pub(crate) fn forget(&mut self)
        ensures { self.new ≡ [] }
    {
        self.token = None;
        self.octets.clear();
    }

    /// Hears a token. It is what `hear` does with its three octets, without a loop.
    #[inline(always)]
    pub(crate) fn hear_token(&mut self, octets: &[u8; 3]) -> bool
        ensures result { result ≡ pointwise nat_eq self.old octets.now }
        ensures last { self.new ≡ octets.now }
    {
        let is_last = match &self.token {
            Some(last) => are_equal(last, octets),
            None => self.octets.as_slice() == octets.as_slice(),
        };
        self.token = Some(*octets);
        is_last
    }

    /// Hears the octets of the next one, at most 255, and returns whether they are those of the last one, if that is known.
    #[inline(always)]
    pub(crate) fn hear(&mut self, octets: &[u8]) -> bool
        requires { length octets.now ≤ 255 }
        ensures result { result ≡ pointwise nat_eq self.old octets.now }
        ensures last { self.new ≡ octets.now }
    {
        if let Some(last) = &self.token {
            let is_last = last.as_slice() == octets;
            self.token = None;
            put_octets(&mut self.octets, octets);
            return is_last;
        }
        if self.octets.as_slice() == octets {
            return true;
        }
        put_octets(&mut self.octets, octets);
        false
    }
}

/// Whether two tokens have the same octets.
#[inline(always)]
fn are_equal(one: &[u8; 3], other: &[u8; 3]) -> bool
    ensures { result ≡ pointwise nat_eq one.now other.now }
{
    one[0] == other[0] && one[1] == other[1] && one[2] == other[2]
}
