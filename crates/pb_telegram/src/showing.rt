//! The text of a telegram, as the program `ringplay decode` prints it.

use crate::telegrams::Telegram;
use std::fmt;
use std::fmt::{Formatter, Write};

impl fmt::Display for Telegram {
    /// As in `short da=2 sa=1 fc=49`, `var da=2 sa=1 fc=6d unit=0102`, `fixed ..`, `token da=2 sa=1` and `ack`. Addresses
    /// are decimal, with a plus sign where bit 7 of the octet is set; `fc` and `unit` are hexadecimal.
    fn fmt<W: Write>(&self, f: &mut Formatter<W>) -> fmt::Result {
        match self {
            Telegram::Short(short) => {
                f.write_str("short")?;
                write_head(f, short.da, short.sa, short.fc)
            }
            Telegram::Var(var) => {
                f.write_str("var")?;
                write_head(f, var.da, var.sa, var.fc)?;
                write_unit(f, &var.unit)
            }
            Telegram::Fixed8(fixed) => {
                f.write_str("fixed")?;
                write_head(f, fixed.da, fixed.sa, fixed.fc)?;
                write_unit(f, &fixed.unit)
            }
            Telegram::Token(token) => {
                f.write_str("token")?;
                write_addresses(f, token.da, token.sa)
            }
            Telegram::Ack => f.write_str("ack"),
        }
    }
}

/// Writes the addresses and the control octet.
fn write_head<W: Write>(f: &mut Formatter<W>, da: u8, sa: u8, fc: u8) -> fmt::Result {
    write_addresses(f, da, sa)?;
    write!(f, " fc={fc:02x}")
}

/// Writes the destination address and the source address.
fn write_addresses<W: Write>(f: &mut Formatter<W>, da: u8, sa: u8) -> fmt::Result {
    f.write_str(" da=")?;
    write_address(f, da)?;
    f.write_str(" sa=")?;
    write_address(f, sa)
}

/// Writes an address, and a plus sign if bit 7 of its octet is set.
fn write_address<W: Write>(f: &mut Formatter<W>, octet: u8) -> fmt::Result {
    let address = octet % 128;
    write!(f, "{address}")?;
    if octet >= 128 {
        f.write_str("+")
    } else {
        Ok(())
    }
}

/// Writes the octets of a unit.
fn write_unit<W: Write>(f: &mut Formatter<W>, unit: &[u8]) -> fmt::Result {
    f.write_str(" unit=")?;
    for octet in unit {
        write!(f, "{octet:02x}")?;
    }
    Ok(())
}
