//! Updates a list of active stations, whether it is complete or not.

ghost use Rattle.std.specs.Prelude.{◌≡◌, ◌<◌};
ghost use Rattle.pb_ring.specs.Las.{heard, entered, removed, readied};

use pb_ring::Las;
use pb_telegram::TokenTelegram;

/// Updates the list by a heard token.
pub fn hear(las: &mut Las, token: &TokenTelegram)
    ensures { las.new ≡ heard las.old token.now.sa token.now.da }
{
    las.hear(token.sa, token.da);
}

/// The list with a station added; unchanged if it is not complete.
#[tactic(auto, using(crate::proofs::Incomplete::none_enters))]
pub fn entered(las: Las, address: u8) -> Las
    requires { address < 127 }
    ensures { result ≡ entered las address }
{
    if !las.complete() {
        return las;
    }
    let mut list = las;
    list.enter(address);
    list
}

/// The list with a station removed; unchanged if it is not complete.
#[tactic(auto, using(crate::proofs::Incomplete::none_leaves))]
pub fn removed(las: Las, address: u8) -> Las
    requires { address < 127 }
    ensures { result ≡ removed las address }
{
    if !las.complete() {
        return las;
    }
    let mut list = las;
    list.remove(address);
    list
}

/// The list after the own station has joined the ring; unchanged if it is not complete.
#[tactic(auto, using(crate::proofs::Incomplete::none_joins))]
pub fn readied(las: Las, ts: u8) -> Las
    requires { ts < 127 }
    ensures { result ≡ readied las ts }
{
    if !las.complete() {
        return las;
    }
    let mut list = las;
    list.ready(ts);
    list
}
