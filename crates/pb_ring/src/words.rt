//! Sets of addresses as the bits of a number.

ghost use Rattle.std.specs.Prelude.{◌≡◌, ℕ, ◌-◌, ◌<◌, ◌≤◌, ◌==◌, ◌&&◌, ◌^◌, min, not, nat_le, nat_lt, filter, IfSome};
ghost use Rattle.std.specs.Int.{bit_at};
ghost use Rattle.pb_ring.specs.AddressSets.{addresses, is_between, is_own, removes, first_of, last_of};
ghost use Rattle.pb_ring.specs.Words.{listed, IsSetOf};

/// Whether an address is strictly between two others, in cyclic order.
pub fn lies_between(from: u8, to: u8, address: u8) -> bool
    ensures { result ≡ is_between from to address }
{
    if from < to {
        from < address && address < to
    } else {
        from < address || address < to
    }
}

/// Whether the bit of an address is set.
pub fn is_set(bits: u128, address: u8) -> bool
    requires { address < 127 }
    ensures { result ≡ (bit_at bits address == 1) }
{
    (bits >> address) & 1 == 1
}

/// The lowest address from `low` on and below `high` whose bit is set.
pub fn lowest_set(bits: u128, low: u8, high: u8) -> Option<u8>
    requires { high ≤ 127 }
    ensures value { result ≡ first_of (filter (λ x. nat_le low x && nat_lt x high) (listed bits)) }
    ensures below { IfSome result (λ address. address < high) }
{
    let left = within(bits, low, high);
    if left == 0 {
        return None;
    }
    Some(lowest_bit(left))
}

/// The highest address from `low` on and below `high` whose bit is set.
pub fn highest_set(bits: u128, low: u8, high: u8) -> Option<u8>
    requires { high ≤ 127 }
    ensures { result ≡ last_of (filter (λ x. nat_le low x && nat_lt x high) (listed bits)) }
{
    let left = within(bits, low, high);
    if left == 0 {
        return None;
    }
    Some(highest_bit(left))
}

/// The bits of all addresses, up to a highest one, that a token removes from a list: those strictly between source and
/// destination, except the own station in the ring.
pub fn set_removed(own: Option<u8>, sa: u8, da: u8, highest: u8) -> u128
    requires { highest < 127 }
    ensures value { listed result ≡ filter (λ x. removes own sa da x && nat_le x highest) addresses }
    ensures fits { result < 2 ^ 127 }
{
    set_between(sa, da) & all_but(own) & below(highest + 1)
}

/// The bits of the addresses strictly between two others, in cyclic order.
fn set_between(from: u8, to: u8) -> u128
    ensures { IsSetOf (is_between from to) result }
{
    let behind = !below(from.saturating_add(1));
    let before = below(to);
    if from < to {
        behind & before
    } else {
        behind | before
    }
}

/// The bits of all addresses except the own one, if there is one.
fn all_but(own: Option<u8>) -> u128
    ensures { IsSetOf (λ x. not (is_own own x)) result }
{
    match own {
        Some(own) if own < 127 => !(1u128 << own),
        _ => u128::MAX,
    }
}

/// The bits of a set from `low` on and below `high`.
fn within(bits: u128, low: u8, high: u8) -> u128
    requires { high ≤ 127 }
    ensures { (x : ℕ) → (bit_at result x == 1) ≡ (bit_at bits x == 1 && (nat_le low x && nat_lt x high)) }
{
    bits & below(high) & !below(low)
}

/// The bits of all addresses below an address.
fn below(address: u8) -> u128
    ensures { result ≡ 2 ^ min address 127 - 1 }
{
    (1u128 << address.min(127)) - 1
}

/// The index of the lowest set bit.
fn lowest_bit(bits: u128) -> u8
    requires { 0 < bits }
    ensures set { bit_at bits result ≡ 1 }
    ensures lowest { (x : ℕ) → x < result → bit_at bits x ≡ 0 }
{
    bits.trailing_zeros() as u8
}

/// The index of the highest set bit.
fn highest_bit(bits: u128) -> u8
    requires { 0 < bits }
    ensures set { bit_at bits result ≡ 1 }
    ensures highest { (x : ℕ) → result < x → bit_at bits x ≡ 0 }
{
    bits.ilog2() as u8
}
