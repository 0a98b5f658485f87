//! The frame control octet (FC) and the check octet (FCS).

ghost use Rattle.std.specs.Prelude.{◌≡◌, ◌≤◌, ◌<◌, ◌↔◌, ◌+◌, ◌*◌, ◌/◌, ◌%◌, IsTrue, IsBitSet};
ghost use Rattle.pb_telegram.specs.Control.{type_bits, count_bits, count_after, bits_of_count};
ghost use Rattle.pb_telegram.specs.Grammar.{fcs_of};

/// A frame control octet (IEC 61158-4-3, frame control field).
///
/// Bit 6 is set in a request and clear in a reply. In a request, bit 5 is the frame count bit, and bit 4 says whether
/// it is valid. In a reply, bits 5 and 4 are the station type.
#[derive(Clone, Copy, Debug, PartialEq, Eq)]
pub struct Fc(pub u8);

/// The station type in a reply (IEC 61158-4-3, frame control field).
#[derive(Clone, Copy, Debug, PartialEq, Eq)]
pub enum StationType {
    /// A passive station.
    Passive,
    /// A master that is not ready to enter the ring.
    NotReady,
    /// A master that is ready to enter the ring.
    Ready,
    /// A master in the ring.
    InRing,
}

impl StationType {
    /// Its two bits, as a number from 0 to 3.
    pub fn bits(self) -> u8
        ensures value { result ≡ type_bits self }
        ensures bound { result ≤ 3 }
    {
        match self {
            StationType::Passive => 0,
            StationType::NotReady => 1,
            StationType::Ready => 2,
            StationType::InRing => 3,
        }
    }
}

/// The frame count bits of a request (IEC 61158-4-3, frame control field).
#[derive(Clone, Copy, Debug, Default, PartialEq, Eq)]
pub enum FrameCount {
    /// A first request: its frame count bit is 1 and not valid.
    #[default]
    First,
    /// The frame count bit is valid, and is 0.
    Clear,
    /// The frame count bit is valid, and is 1.
    Set,
}

impl FrameCount {
    /// Bits 5 and 4 where they stand in the control octet: 0x20, 0x10 or 0x30.
    pub fn bits(self) -> u8
        ensures value { result ≡ count_bits self }
        ensures bound { result ≤ 0x30 }
    {
        match self {
            FrameCount::First => 0x20,
            FrameCount::Clear => 0x10,
            FrameCount::Set => 0x30,
        }
    }

    /// The frame count bits of the request after this one: 0 after a first request, then 1 and 0 in turn.
    pub fn next(self) -> FrameCount
        ensures { result ≡ count_after self }
    {
        match self {
            FrameCount::First | FrameCount::Set => FrameCount::Clear,
            FrameCount::Clear => FrameCount::Set,
        }
    }
}

impl Fc {
    /// Request FDL Status: function code 9, without a frame count bit.
    pub const STATUS_REQUEST: Fc = Fc(0x49);

    /// The control octet of a request with a function code, 0 to 15. `count` is `None` where the service has no frame
    /// count bits: bits 5 and 4 are 0 then.
    pub fn request(count: Option<FrameCount>, code: u8) -> Fc
        requires { code < 16 }
        ensures { result.0 ≡ 0x40 + bits_of_count count + code }
    {
        match count {
            Some(count) => Fc(0x40 + count.bits() + code),
            None => Fc(0x40 + code),
        }
    }

    /// The control octet of a reply with a station type, as [`StationType::bits`] has it, and a function code, 0 to 15.
    pub fn reply(station_type: u8, code: u8) -> Fc
        requires type_bits { station_type ≤ 3 }
        requires code_bits { code < 16 }
        ensures { result.0 ≡ 16 * station_type + code }
    {
        Fc(16 * station_type + code)
    }

    /// Whether the telegram is a request: bit 6 is set. If it is clear, the telegram is a reply.
    pub fn is_request(self) -> bool
        ensures { IsTrue result ↔ IsBitSet self.0 6 }
    {
        self.0 & 0x40 != 0
    }

    /// The frame count bit of a request, bit 5.
    pub fn fcb(self) -> bool
        ensures { IsTrue result ↔ IsBitSet self.0 5 }
    {
        self.0 & 0x20 != 0
    }

    /// Whether the frame count bit of a request is valid: bit 4.
    pub fn fcv(self) -> bool
        ensures { IsTrue result ↔ IsBitSet self.0 4 }
    {
        self.0 & 0x10 != 0
    }

    /// The function code, bits 3 to 0: 0 to 15.
    pub fn code(self) -> u8
        ensures { result ≡ self.0 % 16 }
    {
        self.0 % 16
    }

    /// The station type of a reply, bits 5 and 4, as [`StationType::bits`] has it: 0 to 3.
    pub fn station_type(self) -> u8
        ensures { result ≡ self.0 / 16 % 4 }
    {
        self.0 / 16 % 4
    }
}

/// The check octet FCS: the sum modulo 256 of the octets from the destination address to the last octet of the unit
/// (IEC 61158-4-3, frame check sequence).
pub fn fcs(da: u8, sa: u8, fc: u8, unit: &[u8]) -> u8
    ensures { result ≡ fcs_of da sa fc unit.now }
{
    let mut sum = da.wrapping_add(sa).wrapping_add(fc);
    for octet in unit {
        sum = sum.wrapping_add(*octet);
    }
    sum
}
