//! What an export may be asked for.

ghost use Rattle.std.specs.Prelude.{◌≤◌};

use pb_scenario::Entry;

/// A form of an export.
#[derive(Clone, Copy, Debug, PartialEq, Eq)]
pub enum Form {
    /// A JSON object a line: the bus first, then each entry.
    Json,
    /// A capture file (pcap, with nanoseconds).
    Pcap,
    /// A capture file with comments (pcapng).
    Pcapng,
    /// A picture.
    Svg,
    /// The lines of the stations and of the bus, bit by bit (value change dump).
    Vcd,
}

/// The link type of a capture file.
#[derive(Clone, Copy, Debug, PartialEq, Eq)]
pub enum Link {
    /// 147, for private use: Wireshark lets a dissector of one's own read it.
    User,
    /// 257, that of PROFIBUS.
    Profibus,
}

/// Whether a VCD file has strings, which not every tool reads.
#[derive(Clone, Copy, Debug, PartialEq, Eq)]
pub enum Strings {
    /// It has them.
    Shown,
    /// It has lines alone.
    LeftOut,
}

/// The latest moment that a window may have, in bit times: that of a clock.
pub const LATEST: u64 = 1_000_000_000_000;

/// The moments in which a shown entry may begin, in bit times (0 to 1,000,000,000,000): both ends are included.
#[derive(Clone, Copy, Debug, PartialEq, Eq)]
pub struct Window {
    /// The first of them.
    pub from: u64,
    /// The last of them.
    pub until: u64,
    ghost from_fits: { from ≤ 1000000000000 },
    ghost until_fits: { until ≤ 1000000000000 },
}

/// What an export is to be.
#[derive(Clone, Copy, Debug, PartialEq, Eq)]
pub struct Export {
    /// Its form.
    pub form: Form,
    /// Which entries it shows.
    pub window: Window,
    /// How many bits a second the bus has, for times in nanoseconds.
    pub baud: u32,
    /// The link type of a capture file.
    pub link: Link,
    /// Whether a VCD file has strings.
    pub strings: Strings,
}

/// A form of an export that is written entry by entry.
#[derive(Clone, Copy, Debug, PartialEq, Eq)]
pub enum StreamForm {
    /// A JSON object a line: the bus first, then each entry.
    Json,
    /// A capture file (pcap, with nanoseconds).
    Pcap,
    /// A capture file with comments (pcapng).
    Pcapng,
    /// The lines of the stations and of the bus, bit by bit (value change dump).
    Vcd,
}

/// What an export that is written entry by entry is to be.
#[derive(Clone, Copy, Debug, PartialEq, Eq)]
pub struct StreamExport {
    /// Its form.
    pub form: StreamForm,
    /// Which entries it shows.
    pub window: Window,
    /// How many bits a second the bus has, for times in nanoseconds.
    pub baud: u32,
    /// The link type of a capture file.
    pub link: Link,
    /// Whether a VCD file has strings.
    pub strings: Strings,
}

impl Export {
    ghost use Rattle.std.specs.Prelude.{◌≡◌, IfSome};
    ghost use Rattle.pb_export.specs.Streamed.{IsSame, streamed_of};

    /// The same entry by entry, if its form is one that is written so: a picture is not.
    pub fn streamed(&self) -> Option<StreamExport>
        ensures value { result ≡ streamed_of self.now }
        ensures same { IfSome result (IsSame self.now) }
    {
        let form = match self.form {
            Form::Json => StreamForm::Json,
            Form::Pcap => StreamForm::Pcap,
            Form::Pcapng => StreamForm::Pcapng,
            Form::Vcd => StreamForm::Vcd,
            Form::Svg => return None,
        };
        Some(StreamExport {
            form,
            window: self.window,
            baud: self.baud,
            link: self.link,
            strings: self.strings,
        })
    }
}

impl Link {
    ghost use Rattle.std.specs.Prelude.{◌≡◌};
    ghost use Rattle.pb_export.specs.Pcap.{link_number};

    /// Its number.
    pub fn number(self) -> u16
        ensures { result ≡ link_number self }
    {
        match self {
            Link::User => 147,
            Link::Profibus => 257,
        }
    }
}

impl Window {
    ghost use Rattle.std.specs.Prelude.{◌≡◌};
    ghost use Rattle.pb_medium.specs.Entries.{entry_of};
    ghost use Rattle.pb_export.specs.Windows.{is_shown};

    /// Whether it shows an entry.
    pub fn shows(self, entry: &Entry) -> bool
        ensures { result ≡ is_shown self (entry_of entry.now) }
    {
        let begin = entry.begin();
        self.from <= begin && begin <= self.until
    }
}
