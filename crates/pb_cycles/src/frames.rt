//! A telegram with a control octet, as four fields.

ghost use Rattle.std.specs.Prelude.{◌≡◌, ◌≤◌, ◌<◌, ◌%◌, length, IsBitSet};
ghost use Rattle.pb_telegram.specs.Grammar.{spelling};
ghost use Rattle.pb_telegram.specs.Initiators.{IsInitiator};
ghost use Rattle.pb_cycles.specs.Messages.{frame_octets, message_of};
ghost use Rattle.pb_cycles.specs.declared.messages.Message.TheVariants.{Framed};

use arrayvec::ArrayVec;
use pb_telegram::{Fixed8Telegram, ShortTelegram, Telegram, VarTelegram, copy_octets, put_octets};
use std::marker::Model;

/// A telegram with a control octet, whatever its form.
#[derive(Debug, PartialEq, Eq, Drop)]
pub struct Frame {
    da: u8,
    sa: u8,
    fc: u8,
    unit: ArrayVec<u8, 246>,
}

impl Model for Frame {
    ghost use Rattle.std.specs.Prelude.{◌<◌, ◌%◌};
    ghost use Rattle.pb_cycles.specs.Fields.{Fields};

    ghost Value = { Fields };

    ghost view = { λ f. record { da = f.da; sa = f.sa; fc = f.fc; unit = f.unit.items } };

    ghost invariant = { λ f. (f.sa % 128 < 127) × (f.fc < 128) };

    ghost inverse = { λ f. record { da = f.da; sa = f.sa; fc = f.fc; unit = record { items = f.unit } } };
}

impl Frame {
    /// A frame of these fields. The caller ensures that bits 0 to 6 of SA are the address of a station, at most 126,
    /// and that bit 7 of FC is clear.
    pub fn new(da: u8, sa: u8, fc: u8, unit: ArrayVec<u8, 246>) -> Frame
        requires sa { sa % 128 < 127 }
        requires fc { fc < 128 }
        ensures { result ≡ record { da = da; sa = sa; fc = fc; unit = unit.items } }
    {
        Frame { da, sa, fc, unit }
    }

    /// The octet DA: bits 0 to 6 are the destination address; bit 7 says that an address extension comes first in the
    /// data.
    pub fn da(&self) -> u8
        ensures { result ≡ self.now.da }
    {
        self.da
    }

    /// The octet SA: the same for the source.
    pub fn sa(&self) -> u8
        ensures { result ≡ self.now.sa }
    {
        self.sa
    }

    /// The control octet.
    pub fn fc(&self) -> u8
        ensures { result ≡ self.now.fc }
    {
        self.fc
    }

    /// The data, at most 246 octets.
    pub fn unit(&self) -> &[u8]
        ensures value { result.now ≡ self.now.unit }
        ensures fits { length result.now ≤ 246 }
    {
        &self.unit
    }

    /// An equal frame.
    pub fn copy(&self) -> Frame
        ensures { result ≡ self.now }
    {
        Frame {
            da: self.da,
            sa: self.sa,
            fc: self.fc,
            unit: copy_octets(&self.unit),
        }
    }

    /// Overwrites this frame by another, in place.
    pub fn copy_from(&mut self, other: &Frame)
        ensures { self.new ≡ other.now }
    {
        let Frame { da, sa, fc, unit } = self;
        *da = other.da;
        *sa = other.sa;
        *fc = other.fc;
        put_octets(unit, &other.unit);
    }

    /// The telegram. The number of octets of data decides its form.
    pub fn telegram(&self) -> Telegram
        ensures octets { spelling result ≡ frame_octets self.now }
        ensures message { message_of result ≡ Framed self.now }
        ensures initiator { IsBitSet self.now.fc 6 → IsInitiator result }
    {
        form(self.da, self.sa, self.fc, &self.unit)
    }
}

/// The telegram of these fields. The number of octets of data decides its form.
fn form(da: u8, sa: u8, fc: u8, unit: &[u8]) -> Telegram
    requires sa { sa % 128 < 127 }
    requires fc { fc < 128 }
    requires unit { length unit.now ≤ 246 }
    ensures octets { spelling result ≡ frame_octets (record { da = da; sa = sa; fc = fc; unit = unit.now }) }
    ensures message { message_of result ≡ Framed (record { da = da; sa = sa; fc = fc; unit = unit.now }) }
    ensures initiator { IsBitSet fc 6 → IsInitiator result }
{
    if unit.is_empty() {
        return Telegram::Short(ShortTelegram { da, sa, fc });
    }
    if unit.len() == 8 {
        return Telegram::Fixed8(Fixed8Telegram {
            da,
            sa,
            fc,
            unit: eight_octets(unit),
        });
    }
    Telegram::Var(VarTelegram {
        da,
        sa,
        fc,
        unit: copy_octets(unit),
    })
}

/// Eight octets as an array.
fn eight_octets(unit: &[u8]) -> [u8; 8]
    requires { length unit.now ≡ 8 }
    ensures { result ≡ unit.now }
{
    let mut eight = [0; 8];
    eight.copy_from_slice(unit);
    eight
}
