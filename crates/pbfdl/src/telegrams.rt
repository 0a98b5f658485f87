//! Octets into telegrams, and back.

ghost use Rattle.std.specs.Prelude.{◌≡◌, ◌≢◌, ◌+◌, ◌<◌, ◌≤◌, ◌++◌, true, false, None, length, map, take};
ghost use Rattle.pb_telegram.specs.declared.chars.RxChar.TheVariants.{Good};
ghost use Rattle.pb_telegram.specs.Faults.{fault_of};
ghost use Rattle.pb_telegram.specs.Grammar.{spelling};
ghost use Rattle.pb_telegram.specs.Receiving.{StandsFor};
ghost use Rattle.pbfdl.specs.Codes.{code_unless, telegram_code};
ghost use Rattle.pbfdl.specs.Telegrams.{is_no_kind, octets_of, TellsSpelled, TellsTelegram, unit_of};

use crate::codes::{BAD_KIND, NO_ROOM, telegram_code};
use arrayvec::ArrayVec;
use pb_telegram::{
    ACKNOWLEDGEMENT, END, FIXED_START, Receiver, RxChar, SHORT_START, TOKEN_START, Telegram,
    VAR_START, fcs,
};

/// A telegram: its kind is 1 for one without data (SD1), 2 with data of variable length (SD2), 3 with eight octets of
/// data (SD3), 4 for a token (SD4), and 5 for the short acknowledgement (SC).
#[repr(C)]
#[derive(Clone, Copy)]
pub struct FdlTelegram {
    pub kind: u8,
    pub da: u8,
    pub sa: u8,
    pub fc: u8,
    pub count: u8,
    pub unit: [u8; 246],
}

/// The telegram that octets spell; fields that its kind doesn't have are 0. Codes: 1 to 12, the first fault; the telegram
/// is unchanged then.
#[unsafe(no_mangle)]
pub extern "C" fn fdl_parse(octets: &[u8], telegram: &mut FdlTelegram) -> u32
    ensures code { result ≡ code_unless telegram_code (fault_of (map Good octets.now)) }
    ensures spelled { result ≡ 0 → octets_of telegram.new ≡ octets.now }
    ensures told { result ≡ 0 → TellsSpelled telegram.new (map Good octets.now) }
    ensures refused { result ≢ 0 → telegram.new ≡ telegram.old }
{
    match received(octets).end() {
        Ok(found) => {
            tell(&found, telegram);
            0
        }
        Err(fault) => telegram_code(fault),
    }
}

/// The octets of a telegram, at most 255, and how many they are. Codes, in order: 67 where the kind isn't 1 to 5 or the
/// data is over 246 octets; 1 to 12, the fault of its octets where they spell no telegram; 68 where there is no room.
#[unsafe(no_mangle)]
pub extern "C" fn fdl_write(telegram: &FdlTelegram, out: &mut [u8], count: &mut usize) -> u32
    ensures kind { is_no_kind telegram.now ≡ true → result ≡ 67 }
    ensures fault { is_no_kind telegram.now ≡ false → fault_of (map Good (octets_of telegram.now)) ≢ None
        → result ≡ code_unless telegram_code (fault_of (map Good (octets_of telegram.now))) }
    ensures room { is_no_kind telegram.now ≡ false → fault_of (map Good (octets_of telegram.now)) ≡ None
        → length out.old < length (octets_of telegram.now) → result ≡ 68 }
    ensures fits { is_no_kind telegram.now ≡ false → fault_of (map Good (octets_of telegram.now)) ≡ None
        → length (octets_of telegram.now) ≤ length out.old → result ≡ 0 }
    ensures written { result ≡ 0 → (fault_of (map Good (octets_of telegram.now)) ≡ None)
        × (count.new ≡ length (octets_of telegram.now)) × (take count.new out.new ≡ octets_of telegram.now) }
    ensures refused { result ≢ 0 → (count.new ≡ 0) × (out.new ≡ out.old) }
{
    *count = 0;
    if telegram.kind == 0 || telegram.kind > 5 || telegram.count > 246 {
        return BAD_KIND;
    }
    let octets = octets_of(telegram);
    if let Err(fault) = received(&octets).end() {
        return telegram_code(fault);
    }
    if out.len() < octets.len() {
        return NO_ROOM;
    }
    out[..octets.len()].copy_from_slice(&octets);
    *count = octets.len();
    0
}

/// What a receiver has of octets that came good.
fn received(octets: &[u8]) -> Receiver
    ensures { StandsFor result (map Good octets.now) }
{
    let mut receiver = Receiver::new();
    for octet in octets {
        receiver.feed(RxChar::Good(*octet));
    }
    receiver
}

/// Tells C a telegram.
pub(crate) fn tell(found: &Telegram, telegram: &mut FdlTelegram)
    ensures octets { octets_of telegram.new ≡ spelling found.now }
    ensures told { TellsTelegram telegram.new found.now }
{
    match found {
        Telegram::Short(short) => head(telegram, 1, short.da, short.sa, short.fc),
        Telegram::Var(var) => {
            head(telegram, 2, var.da, var.sa, var.fc);
            put_unit(telegram, &var.unit);
        }
        Telegram::Fixed8(fixed) => {
            head(telegram, 3, fixed.da, fixed.sa, fixed.fc);
            put_unit(telegram, &fixed.unit);
        }
        Telegram::Token(token) => head(telegram, 4, token.da, token.sa, 0),
        Telegram::Ack => head(telegram, 5, 0, 0, 0),
    }
}

/// The octets of a telegram before its data, and no data.
fn head(telegram: &mut FdlTelegram, kind: u8, da: u8, sa: u8, fc: u8)
    ensures { telegram.new ≡ record telegram.old { kind = kind; da = da; sa = sa; fc = fc; count = 0 } }
{
    telegram.kind = kind;
    telegram.da = da;
    telegram.sa = sa;
    telegram.fc = fc;
    telegram.count = 0;
}

/// The data of a telegram, at most 246 octets, the caller's condition. The rest of the room stays as it is.
fn put_unit(telegram: &mut FdlTelegram, unit: &[u8])
    requires { length unit.now ≤ 246 }
    ensures unit { unit_of telegram.new ≡ unit.now }
    ensures others { telegram.new
        ≡ record telegram.old { count = length unit.now; unit = telegram.new.unit } }
{
    telegram.unit[..unit.len()].copy_from_slice(unit);
    telegram.count = unit.len() as u8;
}

/// The octets of a telegram of one of the five kinds, the caller's condition.
fn octets_of(telegram: &FdlTelegram) -> ArrayVec<u8, 255>
    requires { is_no_kind telegram.now ≡ false }
    ensures { result.items ≡ octets_of telegram.now }
{
    let FdlTelegram { da, sa, fc, .. } = *telegram;
    let unit = &telegram.unit[..usize::from(telegram.count)];
    let mut octets = ArrayVec::new();
    match telegram.kind {
        1 => push_all(
            &mut octets,
            &[SHORT_START, da, sa, fc, fcs(da, sa, fc, &[]), END],
        ),
        2 => {
            let length = telegram.count + 3;
            push_all(
                &mut octets,
                &[VAR_START, length, length, VAR_START, da, sa, fc],
            );
            push_all(&mut octets, unit);
            push_all(&mut octets, &[fcs(da, sa, fc, unit), END]);
        }
        3 => {
            push_all(&mut octets, &[FIXED_START, da, sa, fc]);
            push_all(&mut octets, unit);
            push_all(&mut octets, &[fcs(da, sa, fc, unit), END]);
        }
        4 => push_all(&mut octets, &[TOKEN_START, da, sa]),
        _ => push_all(&mut octets, &[ACKNOWLEDGEMENT]),
    }
    octets
}

/// Octets stand behind others, where there is room, the caller's condition.
fn push_all(octets: &mut ArrayVec<u8, 255>, more: &[u8])
    requires { length octets.old.items + length more.now ≤ 255 }
    ensures { octets.new.items ≡ octets.old.items ++ more.now }
{
    octets.try_extend_from_slice(more).unwrap();
}
