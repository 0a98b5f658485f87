//! The text of an entry of a trace, as the program `ringplay run` prints it, with its tap's index in place of a name.

use crate::entries::{Entry, Heard, Record};
use std::fmt;
use std::fmt::{Formatter, Write};

impl fmt::Display for Entry {
    /// As [`Record`]'s text, and as in `1200 1233 ~ noise`.
    fn fmt<W: Write>(&self, f: &mut Formatter<W>) -> fmt::Result {
        match self {
            Entry::Sent(record) => write!(f, "{record}"),
            Entry::Noise { begin, end } => write!(f, "{begin} {end} ~ noise"),
        }
    }
}

impl fmt::Display for Record {
    /// As in `1356 1389 tap 1 dc0102 w-`: begin and end (bit times), the tap that sent it, its octets, and how it reached
    /// each tap ([`Heard`]).
    fn fmt<W: Write>(&self, f: &mut Formatter<W>) -> fmt::Result {
        let Record {
            tap,
            begin,
            end,
            ..
        } = self;
        write!(f, "{begin} {end} tap {tap} ")?;
        for octet in &self.octets {
            write!(f, "{octet:02x}")?;
        }
        f.write_str(" ")?;
        for tap in 0..self.heard.len() {
            let how = self.heard.at(tap);
            write!(f, "{how}")?;
        }
        Ok(())
    }
}

impl fmt::Display for Heard {
    /// `-` its own, `w` whole, `d` damaged, `u` unheard, `.` pending.
    fn fmt<W: Write>(&self, f: &mut Formatter<W>) -> fmt::Result {
        f.write_str(match self {
            Heard::Own => "-",
            Heard::Whole => "w",
            Heard::Damaged => "d",
            Heard::Unheard => "u",
            Heard::Pending => ".",
        })
    }
}
