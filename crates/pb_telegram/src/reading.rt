//! The fast path of reading: a telegram that is there whole is read from where its octets stand, and by a [`Receiver`] only
//! if that finds none.

ghost use Rattle.std.specs.Prelude.{◌≡◌, ◌≢◌, ◌<◌, ◌≤◌, ◌%◌, ◌+◌, ◌∷◌, ◌++◌, [], List, length, map, IfErr, IfNone, IfOk, IfSome, IsOkAnd, OnErr, IsTrue, None, Some};
ghost use Rattle.pb_telegram.specs.Faults.{fault_of};
ghost use Rattle.pb_telegram.specs.Grammar.{sd1, sd2, sd3, ed, fcs_of, spelling, Spells};
ghost use Rattle.pb_telegram.specs.Receiving.{StandsFor};
ghost use Rattle.pb_telegram.specs.declared.chars.RxChar.TheVariants.{Good};
ghost use Rattle.pb_telegram.specs.declared.chars.RxChar.{RxChar};
ghost use Rattle.pb_telegram.specs.declared.telegrams.Telegram.TheVariants.{Fixed8, Short, Token, Var};
ghost use Rattle.pb_telegram.specs.declared.telegrams.Telegram.{Telegram};
ghost use Rattle.pb_telegram.specs.declared.telegrams.TokenTelegram.{TokenTelegram};

use crate::chars::RxChar;
use crate::control::fcs;
use crate::copying::{copy_octets, put_octets};
use crate::faults::TelegramFault;
use crate::parsing::parse;
use crate::receiving::Receiver;
use crate::telegrams::{
    ACKNOWLEDGEMENT, END, FIXED_START, Fixed8Telegram, SHORT_START, ShortTelegram, TOKEN_START,
    Telegram, TokenTelegram, VAR_START, VarTelegram,
};
use arrayvec::ArrayVec;

/// The telegram that characters spell; `None` if they spell none, and [`crate::parse`] then names the fault.
pub fn spelled_by(chars: &[RxChar]) -> Option<Telegram>
    ensures whole { IfSome result (Spells chars.now) }
    ensures none { IfNone result (fault_of chars.now ≢ None) }
{
    match chars {
        [RxChar::Good(_), ..] => read_as_octets(chars),
        _ => None,
    }
}

/// The telegram that undamaged octets spell; `None` if they spell none.
///
/// Never inlined: else the frame of a caller that hears a token has room for a unit.
#[inline(never)]
pub fn spelled_telegram(octets: &[u8]) -> Option<Telegram>
    ensures whole { IfSome result (λ t. octets.now ≡ spelling t) }
    ensures none { IfNone result (fault_of (map Good octets.now) ≢ None) }
{
    if let [ACKNOWLEDGEMENT] = octets {
        return Some(Telegram::Ack);
    }
    if let Some(token) = spelled_token(octets) {
        return Some(Telegram::Token(token));
    }
    if let Some(short) = short_in(octets) {
        return Some(Telegram::Short(short));
    }
    if let Some(var) = var_in(octets) {
        return Some(Telegram::Var(var));
    }
    received_octets(octets)
}

/// The token that characters spell. Most telegrams are tokens, so this is read directly.
pub fn token_in(chars: &[RxChar]) -> Option<TokenTelegram>
    ensures whole { IfSome result (λ t. Spells chars.now (Token t)) }
    ensures none { IfNone result ((t : TokenTelegram) → Spells chars.now (Token t) → ⊥) }
{
    match chars {
        [
            RxChar::Good(TOKEN_START),
            RxChar::Good(da),
            RxChar::Good(sa),
        ] => token_of(*da, *sa),
        _ => None,
    }
}

/// The token that undamaged octets spell.
pub fn spelled_token(octets: &[u8]) -> Option<TokenTelegram>
    ensures whole { IfSome result (λ t. octets.now ≡ spelling (Token t)) }
    ensures none { IfNone result ((t : TokenTelegram) → octets.now ≡ spelling (Token t) → ⊥) }
{
    match octets {
        [TOKEN_START, da, sa] => token_of(*da, *sa),
        _ => None,
    }
}

/// Replaces `telegram` by the telegram that undamaged octets spell, or by their first fault. One of the same form is
/// overwritten in place. The receiver is room for octets that are not read directly; what it was fed is discarded.
#[inline(always)]
pub fn read_octets(
    octets: &[u8],
    receiver: &mut Receiver,
    telegram: &mut Result<Telegram, TelegramFault>,
)
    ensures whole { IfOk telegram.new (λ t. octets.now ≡ spelling t) }
    ensures none { OnErr telegram.new ((t : Telegram) → octets.now ≡ spelling t → ⊥) }
    ensures fault { IfErr telegram.new (λ fault. fault_of (map Good octets.now) ≡ Some fault) }
{
    match octets {
        [TOKEN_START, da, sa] if *da < 127 && *sa < 127 => {
            let token = TokenTelegram { da: *da, sa: *sa };
            match telegram {
                Ok(Telegram::Token(room)) => *room = token,
                _ => *telegram = Ok(Telegram::Token(token)),
            }
        }
        [ACKNOWLEDGEMENT] => match telegram {
            Ok(Telegram::Ack) => {}
            _ => *telegram = Ok(Telegram::Ack),
        },
        _ => read_framed(octets, receiver, telegram),
    }
}

/// The same, of octets that are neither a token nor a short acknowledgement.
#[inline(never)]
fn read_framed(
    octets: &[u8],
    receiver: &mut Receiver,
    telegram: &mut Result<Telegram, TelegramFault>,
)
    ensures whole { IfOk telegram.new (λ t. octets.now ≡ spelling t) }
    ensures none { OnErr telegram.new ((t : Telegram) → octets.now ≡ spelling t → ⊥) }
    ensures fault { IfErr telegram.new (λ fault. fault_of (map Good octets.now) ≡ Some fault) }
{
    if !put_var(octets, telegram) {
        read_other(octets, receiver, telegram);
    }
}

/// The same, of octets that are no telegram with data of variable length either.
#[inline(never)]
fn read_other(
    octets: &[u8],
    receiver: &mut Receiver,
    telegram: &mut Result<Telegram, TelegramFault>,
)
    ensures whole { IfOk telegram.new (λ t. octets.now ≡ spelling t) }
    ensures none { OnErr telegram.new ((t : Telegram) → octets.now ≡ spelling t → ⊥) }
    ensures fault { IfErr telegram.new (λ fault. fault_of (map Good octets.now) ≡ Some fault) }
{
    if let Some(short) = short_in(octets) {
        *telegram = Ok(Telegram::Short(short));
    } else if let Some(fixed) = fixed_in(octets) {
        *telegram = Ok(Telegram::Fixed8(fixed));
    } else {
        receiver.restart();
        feed_octets(receiver, octets);
        *telegram = receiver.answer();
    }
}

/// Reads characters as octets if none is damaged, else by a receiver.
///
/// Never inlined: else the frame of a caller that hears noise has room for octets.
#[inline(never)]
fn read_as_octets(chars: &[RxChar]) -> Option<Telegram>
    ensures whole { IfSome result (Spells chars.now) }
    ensures none { IfNone result (fault_of chars.now ≢ None) }
{
    match octets_of(chars) {
        Some(octets) => spelled_telegram(&octets),
        None => parsed(chars),
    }
}

/// The octets of characters, if none is damaged and there are at most 255. Most are copied four at a time, for speed.
fn octets_of(chars: &[RxChar]) -> Option<ArrayVec<u8, 255>>
    ensures { IfSome result (λ octets. chars.now ≡ map Good octets.items) }
{
    if chars.len() > 255 {
        return None;
    }
    let mut octets = ArrayVec::new();
    let mut left = chars;
    while let [
        RxChar::Good(first),
        RxChar::Good(second),
        RxChar::Good(third),
        RxChar::Good(fourth),
        more @ ..,
    ] = left
    {
        octets.push(*first);
        octets.push(*second);
        octets.push(*third);
        octets.push(*fourth);
        left = more;
    }
    for char in left {
        match char {
            RxChar::Good(octet) => octets.push(*octet),
            RxChar::Bad => return None,
        }
    }
    Some(octets)
}

/// The telegram of characters, read by a receiver.
#[inline(never)]
fn parsed(chars: &[RxChar]) -> Option<Telegram>
    ensures whole { IfSome result (Spells chars.now) }
    ensures none { IfNone result (fault_of chars.now ≢ None) }
{
    match parse(chars) {
        Ok(telegram) => Some(telegram),
        Err(_) => None,
    }
}

/// The token with two addresses, if both are those of stations.
fn token_of(da: u8, sa: u8) -> Option<TokenTelegram>
    ensures whole { IfSome result (λ t. (t.da ≡ da) × (t.sa ≡ sa)) }
    ensures none { IfNone result ((t : TokenTelegram) → t.da ≡ da → t.sa ≡ sa → ⊥) }
{
    if da < 127 && sa < 127 {
        return Some(TokenTelegram { da, sa });
    }
    None
}

/// The telegram without data that octets spell.
#[inline(always)]
fn short_in(octets: &[u8]) -> Option<ShortTelegram>
    ensures { IfSome result (λ t. octets.now ≡ spelling (Short t)) }
{
    match octets {
        [SHORT_START, da, sa, fc, check, END] => short_of(*da, *sa, *fc, *check),
        _ => None,
    }
}

/// The telegram with these octets between its delimiters, if they are valid.
#[inline(always)]
fn short_of(da: u8, sa: u8, fc: u8, check: u8) -> Option<ShortTelegram>
    ensures { IfSome result (λ t. sd1 ∷ da ∷ sa ∷ fc ∷ check ∷ ed ∷ [] ≡ spelling (Short t)) }
{
    if !is_valid(da, sa, fc, &[], check) {
        return None;
    }
    Some(ShortTelegram { da, sa, fc })
}

/// The telegram with data of variable length that octets spell.
#[inline(always)]
fn var_in(octets: &[u8]) -> Option<VarTelegram>
    ensures { IfSome result (λ t. octets.now ≡ spelling (Var t)) }
{
    match octets {
        [
            VAR_START,
            length,
            again,
            VAR_START,
            da,
            sa,
            fc,
            unit @ ..,
            check,
            END,
        ] if length == again && usize::from(*length) == unit.len() + 3 => {
            var_of(*da, *sa, *fc, unit, *check)
        }
        _ => None,
    }
}

/// The telegram with these octets and this unit between its delimiters, if they are valid.
#[inline(always)]
fn var_of(da: u8, sa: u8, fc: u8, unit: &[u8], check: u8) -> Option<VarTelegram>
    ensures { IfSome result (λ t. sd2 ∷ (length unit.now + 3) ∷ (length unit.now + 3) ∷ sd2 ∷ da ∷ sa ∷ fc
        ∷ (unit.now ++ check ∷ ed ∷ []) ≡ spelling (Var t)) }
{
    if unit.is_empty() || unit.len() > 246 || !is_valid(da, sa, fc, unit, check) {
        return None;
    }
    Some(VarTelegram {
        da,
        sa,
        fc,
        unit: copy_octets(unit),
    })
}

/// Replaces `telegram` by the telegram with data of variable length that octets spell. Returns whether they spell one.
#[inline(always)]
fn put_var(octets: &[u8], telegram: &mut Result<Telegram, TelegramFault>) -> bool
    ensures { IsTrue result → IsOkAnd telegram.new (λ t. octets.now ≡ spelling t) }
{
    match octets {
        [
            VAR_START,
            length,
            again,
            VAR_START,
            da,
            sa,
            fc,
            unit @ ..,
            check,
            END,
        ] if length == again && usize::from(*length) == unit.len() + 3 => {
            put_var_of(*da, *sa, *fc, unit, *check, telegram)
        }
        _ => false,
    }
}

/// Replaces `telegram` by the one with these octets and this unit between its delimiters, if they are valid. Returns whether
/// they are.
#[inline(always)]
fn put_var_of(
    da: u8,
    sa: u8,
    fc: u8,
    unit: &[u8],
    check: u8,
    telegram: &mut Result<Telegram, TelegramFault>,
) -> bool
    ensures { IsTrue result → IsOkAnd telegram.new (λ t. sd2 ∷ (length unit.now + 3) ∷ (length unit.now + 3)
        ∷ sd2 ∷ da ∷ sa ∷ fc ∷ (unit.now ++ check ∷ ed ∷ []) ≡ spelling t) }
{
    if unit.is_empty() || unit.len() > 246 || !is_valid(da, sa, fc, unit, check) {
        return false;
    }
    match telegram {
        Ok(Telegram::Var(room)) => {
            room.da = da;
            room.sa = sa;
            room.fc = fc;
            put_octets(&mut room.unit, unit);
        }
        _ => replace_by_var(da, sa, fc, unit, telegram),
    }
    true
}

/// Replaces `telegram`, which is of another form.
#[inline(never)]
fn replace_by_var(
    da: u8,
    sa: u8,
    fc: u8,
    unit: &[u8],
    telegram: &mut Result<Telegram, TelegramFault>,
)
    requires source { sa % 128 < 127 }
    requires control { fc < 128 }
    requires some { 0 < length unit.now }
    requires fits { length unit.now ≤ 246 }
    ensures { IsOkAnd telegram.new (λ t. sd2 ∷ (length unit.now + 3) ∷ (length unit.now + 3) ∷ sd2 ∷ da ∷ sa
        ∷ fc ∷ (unit.now ++ fcs_of da sa fc unit.now ∷ ed ∷ []) ≡ spelling t) }
{
    *telegram = Ok(Telegram::Var(VarTelegram {
        da,
        sa,
        fc,
        unit: copy_octets(unit),
    }));
}

/// The telegram with eight octets of data that octets spell.
#[inline(always)]
fn fixed_in(octets: &[u8]) -> Option<Fixed8Telegram>
    ensures { IfSome result (λ t. octets.now ≡ spelling (Fixed8 t)) }
{
    match octets {
        [FIXED_START, da, sa, fc, unit @ .., check, END] if unit.len() == 8 => {
            fixed_of(*da, *sa, *fc, unit, *check)
        }
        _ => None,
    }
}

/// The telegram with these octets and this unit between its delimiters, if they are valid.
#[inline(always)]
fn fixed_of(da: u8, sa: u8, fc: u8, unit: &[u8], check: u8) -> Option<Fixed8Telegram>
    requires { length unit.now ≡ 8 }
    ensures { IfSome result (λ t. sd3 ∷ da ∷ sa ∷ fc ∷ (unit.now ++ check ∷ ed ∷ [])
        ≡ spelling (Fixed8 t)) }
{
    if !is_valid(da, sa, fc, unit, check) {
        return None;
    }
    let mut data = [0; 8];
    data.copy_from_slice(unit);
    Some(Fixed8Telegram {
        da,
        sa,
        fc,
        unit: data,
    })
}

/// Whether the octets between the delimiters are valid: the source is a station, bit 7 of the control octet is clear,
/// and the check octet is the sum of the others.
#[inline(always)]
fn is_valid(da: u8, sa: u8, fc: u8, unit: &[u8], check: u8) -> bool
    ensures source { IsTrue result → sa % 128 < 127 }
    ensures control { IsTrue result → fc < 128 }
    ensures sum { IsTrue result → check ≡ fcs_of da sa fc unit.now }
{
    sa % 128 != 127 && fc < 128 && check == fcs(da, sa, fc, unit)
}

/// The telegram of undamaged octets, read by a receiver.
#[inline(never)]
fn received_octets(octets: &[u8]) -> Option<Telegram>
    ensures whole { IfSome result (λ t. octets.now ≡ spelling t) }
    ensures none { IfNone result (fault_of (map Good octets.now) ≢ None) }
{
    let mut receiver = Receiver::new();
    feed_octets(&mut receiver, octets);
    match receiver.answer() {
        Ok(telegram) => Some(telegram),
        Err(_) => None,
    }
}

/// Feeds undamaged octets to a receiver that was fed nothing.
#[inline(always)]
fn feed_octets(receiver: &mut Receiver, octets: &[u8])
    requires { StandsFor receiver.old [] }
    ensures { StandsFor receiver.new (map Good octets.now) }
{
    for octet in octets {
        receiver.feed(RxChar::Good(*octet));
    }
}
