//! The five forms of a telegram, and their delimiters.

ghost use Rattle.std.specs.Prelude.{◌≡◌, ◌≤◌, ◌<◌, ◌%◌, length};
ghost use Rattle.std.specs.List.{All};

use arrayvec::ArrayVec;

/// The start delimiter SD1 of a telegram without data.
pub const SHORT_START: u8 = 0x10;

/// The start delimiter SD2 of a telegram with data of variable length.
pub const VAR_START: u8 = 0x68;

/// The start delimiter SD3 of a telegram with eight octets of data.
pub const FIXED_START: u8 = 0xa2;

/// The start delimiter SD4 of a token telegram.
pub const TOKEN_START: u8 = 0xdc;

/// The single character SC, the short acknowledgement.
pub const ACKNOWLEDGEMENT: u8 = 0xe5;

/// The end delimiter ED.
pub const END: u8 = 0x16;

/// A telegram (IEC 61158-4-3, telegram formats).
#[derive(Debug, PartialEq, Eq, Drop)]
pub enum Telegram {
    /// A telegram of fixed length without data.
    Short(ShortTelegram),
    /// A telegram with data of variable length.
    Var(VarTelegram),
    /// A telegram of fixed length with eight octets of data.
    Fixed8(Fixed8Telegram),
    /// A token telegram: `sa` passes the token to `da`.
    Token(TokenTelegram),
    /// The short acknowledgement.
    Ack,
}

/// A telegram of fixed length without data.
///
/// An address is the low seven bits of its octet: 0 to 126 are stations, and 127 as `da` addresses all stations. Bit 7
/// announces an address extension. A telegram without data has no octets for one, so the bit is kept and has no effect.
#[derive(Clone, Copy, Debug, PartialEq, Eq)]
pub struct ShortTelegram {
    /// The destination address octet, as sent.
    pub da: u8,
    /// The source address octet, as sent. Its low seven bits are 0 to 126.
    pub sa: u8,
    /// The frame control octet, whose bit 7 is clear ([`crate::Fc`] reads the others).
    pub fc: u8,
    ghost da_octet: { da < 256 },
    ghost sa_octet: { sa < 256 },
    ghost sa_station: { sa % 128 < 127 },
    ghost fc_bit_7_clear: { fc < 128 },
}

/// A telegram with data of variable length.
///
/// The octets before the data are as in a [`ShortTelegram`]. Bit 7 of an address announces an address extension at the
/// front of the data; it is left there.
#[derive(Debug, PartialEq, Eq, Drop)]
pub struct VarTelegram {
    /// The destination address octet, as sent.
    pub da: u8,
    /// The source address octet, as sent. Its low seven bits are 0 to 126.
    pub sa: u8,
    /// The frame control octet, whose bit 7 is clear.
    pub fc: u8,
    /// The data, 1 to 246 octets.
    pub unit: ArrayVec<u8, 246>,
    ghost da_octet: { da < 256 },
    ghost sa_octet: { sa < 256 },
    ghost sa_station: { sa % 128 < 127 },
    ghost fc_bit_7_clear: { fc < 128 },
    ghost some_unit: { 0 < length unit.items },
    ghost unit_fits: { length unit.items ≤ 246 },
    ghost unit_octets: { All (λ octet. octet < 256) unit.items },
}

/// A telegram of fixed length with eight octets of data.
///
/// The octets before the data are as in a [`VarTelegram`].
#[derive(Clone, Copy, Debug, PartialEq, Eq)]
pub struct Fixed8Telegram {
    /// The destination address octet, as sent.
    pub da: u8,
    /// The source address octet, as sent. Its low seven bits are 0 to 126.
    pub sa: u8,
    /// The frame control octet, whose bit 7 is clear.
    pub fc: u8,
    /// The data.
    pub unit: [u8; 8],
    ghost da_octet: { da < 256 },
    ghost sa_octet: { sa < 256 },
    ghost sa_station: { sa % 128 < 127 },
    ghost fc_bit_7_clear: { fc < 128 },
    ghost eight_octets: { length unit ≡ 8 },
    ghost unit_octets: { All (λ octet. octet < 256) unit },
}

/// A token telegram.
#[derive(Clone, Copy, Debug, PartialEq, Eq)]
pub struct TokenTelegram {
    /// The address of the station that receives the token, 0 to 126.
    pub da: u8,
    /// The address of the station that passes the token, 0 to 126.
    pub sa: u8,
    ghost da_station: { da ≤ 126 },
    ghost sa_station: { sa ≤ 126 },
}
