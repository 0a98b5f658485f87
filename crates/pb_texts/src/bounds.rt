//! The numbers of what is proved of a bus. All in bit times.

ghost use Rattle.std.specs.Prelude.{◌≡◌, ◌≤◌, ◌+◌, ◌-◌, ◌*◌, length, map};
ghost use Rattle.pb_taps.specs.Taps.{spec_of};
ghost use Rattle.law_rings.specs.Rotation as rings;
ghost use Rattle.pb_texts.specs.Bounds as bounds;

use pb_taps::{Kind, TapSpec};
use pb_timers::{BusParams, bits};
use pb_world::longest_cycle;

/// The octets of a token.
const TOKEN: usize = 3;

/// How long a running master of an address that is not offline is left in silence at most, in bit times: its time-out,
/// the lag and the cable delay.
pub fn silence_bound(params: &BusParams, address: u8) -> u64
    ensures { result ≡ bounds.silence_bound params.now address }
{
    params.tto(address) + u64::from(params.lag()) + u64::from(params.ttd())
}

/// How long a station of a settled ring of up to 127 masters waits for the token at most, in bit times, while only turns,
/// time and requests happen (law_rings, `a_rotation_is_bounded`): the target rotation time, the longest cycle, and for each
/// master that cycle, the passing of the token, the idle time and the lag.
pub fn rotation_bound(params: &BusParams, masters: usize) -> u64
    requires { masters ≤ 127 }
    ensures { result ≡ rings.rotation_time params.now masters }
{
    u64::from(params.ttr()) + beyond_ttr(params, masters)
}

/// How much of that is beyond the target rotation time, in bit times.
pub fn beyond_ttr(params: &BusParams, masters: usize) -> u64
    requires { masters ≤ 127 }
    ensures value { result ≡ bounds.beyond_ttr params.now masters }
    ensures short { result ≤ 128 * 70000000000 }
{
    let cycle = longest_cycle(params);
    cycle + masters as u64 * (cycle + shortest_hold(params) + u64::from(params.lag()))
}

/// How long before its slot ends a station takes a token, in bit times, if it takes it as late as it may; at least 1.
pub fn take_margin(params: &BusParams) -> u64
    ensures { result ≡ bounds.take_margin params.now }
{
    margin(params, params.tid2())
}

/// How long before its slot ends a reply begins, in bit times, if it is sent as late as it may; at least 1.
pub fn reply_margin(params: &BusParams) -> u64
    ensures { result ≡ bounds.reply_margin params.now }
{
    margin(params, params.tsdr())
}

/// How much larger the lag may be, in bit times.
pub fn lag_margin(params: &BusParams) -> u64
    ensures { result ≡ bounds.lag_margin params.now }
{
    take_margin(params)
        .min(reply_margin(params))
        .saturating_sub(1)
}

/// What is left of the slot after some wait, the lag and the way there and back.
fn margin(params: &BusParams, wait: u32) -> u64
    ensures { result ≡ bounds.margin_of params.now wait }
{
    let way = 2 * u64::from(params.ttd());
    let spent = u64::from(wait) + u64::from(params.lag()) + way;
    u64::from(params.tsl()).saturating_sub(spent)
}

/// How many of some taps are masters.
pub fn masters_of(taps: &[TapSpec]) -> usize
    ensures { result ≡ bounds.masters_of (map spec_of taps.now) }
{
    let mut masters = 0;
    for tap in taps {
        if is_master(tap) {
            masters += 1;
        }
    }
    masters
}

/// Whether a tap is a master.
pub(crate) fn is_master(tap: &TapSpec) -> bool
    ensures { result ≡ bounds.is_master (spec_of tap.now) }
{
    match tap.kind {
        Kind::Master => true,
        Kind::Passive => false,
    }
}

/// The shortest rotation of up to 127 masters, in bit times: each waits for its idle time and passes the token on.
pub fn shortest_rotation(params: &BusParams, masters: usize) -> u64
    requires { masters ≤ 127 }
    ensures value { result ≡ bounds.shortest_rotation params.now masters }
    ensures short { result ≤ 127 * 20000000000 }
{
    if masters == 1 {
        return u64::from(params.tid1()) + bits(TOKEN);
    }
    masters as u64 * shortest_hold(params)
}

/// How long a master has the token that only passes it on, in bit times.
fn shortest_hold(params: &BusParams) -> u64
    ensures value { result ≡ bounds.shortest_hold params.now }
    ensures short { result ≤ 20000000000 }
{
    u64::from(params.tid1()) + bits(TOKEN) + u64::from(params.ttd())
}

/// Whether up to 127 masters have no holding time for a GAP request once they have measured a rotation, however short
/// that is.
pub fn never_asks(params: &BusParams, masters: usize) -> bool
    requires { masters ≤ 127 }
    ensures { result ≡ bounds.never_asks params.now masters }
{
    u64::from(params.ttr()) <= shortest_asking(params, masters)
}

/// The shortest rotation of up to 127 masters and an idle time, in bit times: the target rotation time with which they
/// have holding time for a GAP request is longer.
pub(crate) fn shortest_asking(params: &BusParams, masters: usize) -> u64
    requires { masters ≤ 127 }
    ensures { result ≡ bounds.shortest_asking params.now masters }
{
    shortest_rotation(params, masters) + u64::from(params.tid1())
}

/// Whether a GAP round of all addresses that have none of up to 127 masters, one a rotation, takes longer than it is to
/// be until the next.
pub fn is_round_long(params: &BusParams, masters: usize) -> bool
    requires { masters ≤ 127 }
    ensures { result ≡ bounds.is_round_long params.now masters }
{
    let asked = u64::from(params.gap()) * u64::from(params.ttr());
    u128::from(asked) < shortest_round(params, masters)
}

/// The shortest GAP round of all addresses that have none of up to 127 masters, one a rotation, in bit times.
pub(crate) fn shortest_round(params: &BusParams, masters: usize) -> u128
    requires { masters ≤ 127 }
    ensures { result ≡ bounds.shortest_round params.now masters }
{
    let free = free_addresses(params, masters);
    u128::from(free) * u128::from(shortest_rotation(params, masters))
}

/// How many addresses none of some masters has.
fn free_addresses(params: &BusParams, masters: usize) -> u64
    ensures value { result ≡ bounds.free_addresses params.now masters }
    ensures few { result ≤ 4294967296 }
{
    (u64::from(params.hsa()) + 1).saturating_sub(masters as u64)
}
