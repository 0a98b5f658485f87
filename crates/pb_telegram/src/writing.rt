//! Encodes a telegram as octets.

ghost use Rattle.std.specs.Prelude.{◌≡◌};
ghost use Rattle.pb_telegram.specs.Grammar.{spelling};

use crate::control::fcs;
use crate::copying::put_octets;
use crate::telegrams::{
    ACKNOWLEDGEMENT, END, FIXED_START, SHORT_START, TOKEN_START, Telegram, VAR_START,
};
use arrayvec::ArrayVec;

/// The octets of a telegram, at most 255: its only spelling (IEC 61158-4-3, telegram formats).
#[inline(always)]
pub fn write(telegram: &Telegram) -> ArrayVec<u8, 255>
    ensures { result.items ≡ spelling telegram.now }
{
    let mut octets = ArrayVec::new();
    write_in(telegram, &mut octets);
    octets
}

/// Replaces the content of `octets` by the octets of a telegram, as [`write`] returns them.
#[inline(always)]
pub fn write_in(telegram: &Telegram, octets: &mut ArrayVec<u8, 255>)
    ensures { octets.new.items ≡ spelling telegram.now }
{
    match telegram {
        Telegram::Short(short) => {
            let check = fcs(short.da, short.sa, short.fc, &[]);
            let short = [SHORT_START, short.da, short.sa, short.fc, check, END];
            put_octets(octets, &short);
        }
        Telegram::Var(var) => {
            let count = var.unit.len() as u8 + 3;
            let head = [VAR_START, count, count, VAR_START, var.da, var.sa, var.fc];
            put_octets(octets, &head);
            octets.try_extend_from_slice(&var.unit).unwrap();
            octets.push(fcs(var.da, var.sa, var.fc, &var.unit));
            octets.push(END);
        }
        Telegram::Fixed8(fixed) => {
            let head = [FIXED_START, fixed.da, fixed.sa, fixed.fc];
            put_octets(octets, &head);
            octets.try_extend_from_slice(&fixed.unit).unwrap();
            octets.push(fcs(fixed.da, fixed.sa, fixed.fc, &fixed.unit));
            octets.push(END);
        }
        Telegram::Token(token) => put_octets(octets, &[TOKEN_START, token.da, token.sa]),
        Telegram::Ack => put_octets(octets, &[ACKNOWLEDGEMENT]),
    }
}
