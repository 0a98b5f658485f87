//! What a burst brings to a station: the telegram that its characters spell, by pb_telegram's fast path, as definitions of a
//! station's turn name it.

ghost use Rattle.std.specs.Prelude.{◌≡◌, map, slice_index, true, false, IfSome};
ghost use Rattle.law_turn.specs.Arrivals as turn;
ghost use Rattle.pb_telegram.specs.Faults.{is_token, da_place};
ghost use Rattle.pb_telegram.specs.declared.chars.RxChar.TheVariants.{Good};
ghost use Rattle.pb_transitions.specs.Arrivals.{brings};
ghost use Rattle.pb_transitions.specs.Replies.{is_for_others};

use crate::replies::is_for;
use pb_telegram::{
    ACKNOWLEDGEMENT, FIXED_START, RxChar, SHORT_START, Telegram, TokenTelegram, VAR_START,
    spelled_by, spelled_unit_is_the_telegrams, what_is_spelled_has_no_fault,
};

/// The telegram that the characters of a burst spell; `None` if they spell none.
#[inline(always)]
pub fn whole_telegram(chars: &[RxChar]) -> Option<Telegram>
    ensures { brings result ≡ turn.arrival_of chars.now }
{
    spelled_unit_is_the_telegrams();
    what_is_spelled_has_no_fault();
    spelled_by(chars)
}

/// The telegram of undamaged octets; `None` if they spell none.
#[inline(always)]
pub fn spelled_telegram(octets: &[u8]) -> Option<Telegram>
    ensures { brings result ≡ turn.arrival_of (map Good octets.now) }
{
    spelled_unit_is_the_telegrams();
    what_is_spelled_has_no_fault();
    pb_telegram::spelled_telegram(octets)
}

/// The token that characters spell.
#[inline(always)]
pub fn token_in(chars: &[RxChar]) -> Option<TokenTelegram>
    ensures { IfSome result (λ t. turn.Token t.da t.sa ≡ turn.arrival_of chars.now) }
{
    spelled_unit_is_the_telegrams();
    what_is_spelled_has_no_fault();
    pb_telegram::token_in(chars)
}

/// The token that undamaged octets spell.
#[inline(always)]
pub fn spelled_token(octets: &[u8]) -> Option<TokenTelegram>
    ensures { IfSome result (λ t. turn.Token t.da t.sa ≡ turn.arrival_of (map Good octets.now)) }
{
    spelled_unit_is_the_telegrams();
    what_is_spelled_has_no_fault();
    pb_telegram::spelled_token(octets)
}

/// Whether undamaged octets are no token and have another destination than the station `ts` and all stations. Only
/// their destination is read. If it cannot be read, the result is `false`.
#[tactic(auto, using(crate::proofs::Arriving::arrives_for_others))]
pub fn is_for_others(octets: &[u8], ts: u8) -> bool
    ensures { result ≡ true → is_for_others ts (turn.arrival_of (map Good octets.now)) ≡ true }
{
    if let [ACKNOWLEDGEMENT] = octets {
        return true;
    }
    match destination(octets) {
        Some(da) => !is_for(ts, da),
        None => false,
    }
}

/// The destination of octets that begin like a telegram with a control octet and include it.
fn destination(octets: &[u8]) -> Option<u8>
    ensures { IfSome result (λ da. (is_token octets.now ≡ false)
        × (da ≡ slice_index octets.now (da_place octets.now))) }
{
    match octets {
        [VAR_START, _, _, _, da, ..] => Some(*da),
        [SHORT_START | FIXED_START, da, ..] => Some(*da),
        _ => None,
    }
}
