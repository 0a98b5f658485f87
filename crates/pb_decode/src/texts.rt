//! The texts of telegrams and of their faults.

ghost use Rattle.std.specs.Prelude.{◌≡◌, ◌≤◌, ◌++◌, ◌∷◌, [], OnOk, codes, decimal, length};
ghost use Rattle.hex.specs.Hex.{encode_lower, encode_with};
ghost use Rattle.pb_telegram.specs.declared.telegrams.Telegram.TheVariants.{Ack};
ghost use Rattle.pb_decode.specs.Texts.{address_text, addresses_text, head_text, data_text, telegram_text, place_text, fault_text};

use itoa::{Buffer, Integer};
use pb_telegram::{Telegram, TelegramFault};
use std::alloc::AllocError;

/// The most octets of a unit.
const LONGEST_UNIT: usize = 246;

/// Appends the text of a telegram.
pub fn push_telegram(text: &mut Vec<u8>, telegram: &Telegram) -> Result<(), AllocError>
    ensures { OnOk result (text.new.items ≡ text.old.items ++ telegram_text telegram.now) }
{
    match telegram {
        Telegram::Short(short) => {
            text.extend_from_slice(b"short")?;
            push_head(text, short.da, short.sa, short.fc)?;
        }
        Telegram::Var(var) => {
            text.extend_from_slice(b"var")?;
            push_data(text, var.da, var.sa, var.fc, &var.unit)?;
        }
        Telegram::Fixed8(fixed) => {
            text.extend_from_slice(b"fixed")?;
            push_data(text, fixed.da, fixed.sa, fixed.fc, &fixed.unit)?;
        }
        Telegram::Token(token) => {
            text.extend_from_slice(b"token")?;
            push_addresses(text, token.da, token.sa)?;
        }
        Telegram::Ack => push_acknowledgement(text)?,
    }
    Ok(())
}

/// Appends the text of a short acknowledgement.
pub fn push_acknowledgement(text: &mut Vec<u8>) -> Result<(), AllocError>
    ensures { OnOk result (text.new.items ≡ text.old.items ++ telegram_text Ack) }
{
    text.extend_from_slice(b"ack")
}

/// Appends the text of a fault.
pub fn push_fault(text: &mut Vec<u8>, fault: &TelegramFault) -> Result<(), AllocError>
    ensures { OnOk result (text.new.items ≡ text.old.items ++ fault_text fault.now) }
{
    text.extend_from_slice(b"fault ")?;
    push_number(text, fault.number())?;
    text.extend_from_slice(b" ")?;
    text.extend_from_slice(fault.name().as_bytes())?;
    push_place(text, fault)
}

/// Appends the index of the damaged character. Other faults have none.
fn push_place(text: &mut Vec<u8>, fault: &TelegramFault) -> Result<(), AllocError>
    ensures { OnOk result (text.new.items ≡ text.old.items ++ place_text fault.now) }
{
    match fault {
        TelegramFault::Faulty(place) => {
            text.extend_from_slice(b" ")?;
            push_number(text, *place)
        }
        _ => Ok(()),
    }
}

/// Appends the addresses and the control octet.
fn push_head(text: &mut Vec<u8>, da: u8, sa: u8, fc: u8) -> Result<(), AllocError>
    ensures { OnOk result (text.new.items ≡ text.old.items ++ head_text da sa fc) }
{
    push_addresses(text, da, sa)?;
    text.extend_from_slice(b" fc=")?;
    push_octet(text, fc)
}

/// Appends the addresses, the control octet and the unit.
fn push_data(text: &mut Vec<u8>, da: u8, sa: u8, fc: u8, unit: &[u8]) -> Result<(), AllocError>
    requires { length unit.now ≤ 246 }
    ensures { OnOk result (text.new.items ≡ text.old.items ++ data_text da sa fc unit.now) }
{
    push_head(text, da, sa, fc)?;
    text.extend_from_slice(b" unit=")?;
    push_unit(text, unit)
}

/// Appends the octets of a unit, each as two lower-case hex digits.
fn push_unit(text: &mut Vec<u8>, unit: &[u8]) -> Result<(), AllocError>
    requires { length unit.now ≤ 246 }
    ensures { OnOk result (text.new.items ≡ text.old.items ++ encode_lower unit.now) }
{
    let mut room = [0; 2 * LONGEST_UNIT];
    let digits = &mut room[..2 * unit.len()];
    hex::encode_to_slice(unit, digits).unwrap();
    text.extend_from_slice(digits)
}

/// Appends the destination address and the source address.
fn push_addresses(text: &mut Vec<u8>, da: u8, sa: u8) -> Result<(), AllocError>
    ensures { OnOk result (text.new.items ≡ text.old.items ++ addresses_text da sa) }
{
    text.extend_from_slice(b" da=")?;
    push_address(text, da)?;
    text.extend_from_slice(b" sa=")?;
    push_address(text, sa)
}

/// Appends an address, and a plus sign if bit 7 of its octet is set.
fn push_address(text: &mut Vec<u8>, octet: u8) -> Result<(), AllocError>
    ensures { OnOk result (text.new.items ≡ text.old.items ++ address_text octet) }
{
    push_number(text, octet % 128)?;
    if octet >= 128 {
        text.extend_from_slice(b"+")?;
    }
    Ok(())
}

/// Appends a number in decimal digits.
fn push_number<N: Integer>(text: &mut Vec<u8>, number: N) -> Result<(), AllocError>
    ensures { OnOk result (text.new.items ≡ text.old.items ++ N.text number) }
{
    text.extend_from_slice(Buffer::new().format(number).as_bytes())
}

/// Appends an octet as two lower-case hex digits.
#[tactic(auto, unfolding(hex::specs::Hex::encode_with))]
fn push_octet(text: &mut Vec<u8>, octet: u8) -> Result<(), AllocError>
    ensures { OnOk result (text.new.items ≡ text.old.items ++ encode_lower (octet ∷ [])) }
{
    let mut digits = [0; 2];
    hex::encode_to_slice([octet].as_slice(), &mut digits).unwrap();
    text.extend_from_slice(&digits)
}
