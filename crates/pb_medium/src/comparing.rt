//! Equality of telegrams: all that a user sees of them is equal.

ghost use Rattle.std.specs.Prelude.{◌≡◌, nat_eq};
ghost use Rattle.std.specs.Cmp.Lexicographic.{pointwise};
ghost use Rattle.std.specs.Ordering.{on};
ghost use Rattle.pb_medium.specs.Comparing.{code_of};
ghost use Rattle.pb_medium.specs.Entries.{heard_of};

use crate::entries::{Heard, Record};
use crate::receptions::Reception;

impl PartialEq for Reception {
    ghost use Rattle.std.specs.Prelude.{nat_eq};
    ghost use Rattle.std.specs.Cmp.{partial_equiv_from_equiv};
    ghost use Rattle.std.proofs.lemmas.Cmp.{lists_equiv, nat_eq_equiv, on_equiv};
    ghost use Rattle.pb_medium.specs.Comparing.{code_of, is_heard_alike};

    ghost eq = { is_heard_alike };

    ghost laws = { partial_equiv_from_equiv (lists_equiv (on_equiv code_of nat_eq_equiv)) };

    fn eq(&self, other: &Reception) -> bool {
        is_heard_alike(self, other)
    }
}

impl Eq for Reception {
    ghost use Rattle.std.proofs.lemmas.Cmp.{lists_equiv, nat_eq_equiv, on_equiv};
    ghost use Rattle.pb_medium.specs.Comparing.{code_of};

    ghost laws = { lists_equiv (on_equiv code_of nat_eq_equiv) };
}

impl PartialEq for Record {
    ghost use Rattle.std.specs.Cmp.{partial_equiv_from_equiv};
    ghost use Rattle.pb_medium.specs.Comparing.{is_same_record, same-record-equiv};

    ghost eq = { is_same_record };

    ghost laws = { partial_equiv_from_equiv same-record-equiv };

    fn eq(&self, other: &Record) -> bool {
        self.tap == other.tap
            && self.octets == other.octets
            && self.begin == other.begin
            && self.end == other.end
            && self.heard == other.heard
    }
}

impl Eq for Record {
    ghost use Rattle.pb_medium.specs.Comparing.{same-record-equiv};

    ghost laws = { same-record-equiv };
}

/// Whether two telegrams reached each tap in the same way.
fn is_heard_alike(one: &Reception, other: &Reception) -> bool
    ensures { result ≡ pointwise (on code_of nat_eq) one.now other.now }
{
    if one.len() != other.len() {
        return false;
    }
    for tap in 0..one.len() {
        if code_of(one.at(tap)) != code_of(other.at(tap)) {
            return false;
        }
    }
    true
}

/// A number for each way in which a telegram may reach a tap.
fn code_of(how: Heard) -> u8
    ensures { result ≡ code_of (heard_of how) }
{
    match how {
        Heard::Own => 0,
        Heard::Whole => 1,
        Heard::Damaged => 2,
        Heard::Unheard => 3,
        Heard::Pending => 4,
    }
}
