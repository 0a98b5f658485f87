//! What telegrams with a control octet have in common: addresses, control octet and data.

use crate::telegrams::Telegram;

/// The addresses and the control octet of a telegram, whatever its form. The octets are as in a
/// [`ShortTelegram`](crate::ShortTelegram).
#[derive(Clone, Copy, Debug, PartialEq, Eq)]
pub struct Head {
    /// The destination address octet, as sent.
    pub da: u8,
    /// The source address octet, as sent.
    pub sa: u8,
    /// The frame control octet.
    pub fc: u8,
}

impl Telegram {
    ghost use Rattle.std.specs.Prelude.{◌≡◌, ◌≤◌, length};
    ghost use Rattle.pb_telegram.specs.Heads.{head_of, unit_of};

    /// The addresses and the control octet, as sent; `None` for a token and for the short acknowledgement, which have
    /// no control octet (IEC 61158-4-3, telegram formats).
    pub fn head(&self) -> Option<Head>
        ensures { result ≡ head_of self.now }
    {
        let (da, sa, fc) = match self {
            Telegram::Short(t) => (t.da, t.sa, t.fc),
            Telegram::Var(t) => (t.da, t.sa, t.fc),
            Telegram::Fixed8(t) => (t.da, t.sa, t.fc),
            Telegram::Token(_) | Telegram::Ack => return None,
        };
        Some(Head { da, sa, fc })
    }

    /// The data, at most 246 octets; empty in a form without data (IEC 61158-4-3, telegram formats).
    pub fn unit(&self) -> &[u8]
        ensures data { result.now ≡ unit_of self.now }
        ensures bound { length result.now ≤ 246 }
    {
        match self {
            Telegram::Var(t) => t.unit.as_slice(),
            Telegram::Fixed8(t) => t.unit.as_slice(),
            Telegram::Short(_) | Telegram::Token(_) | Telegram::Ack => [].as_slice(),
        }
    }
}
