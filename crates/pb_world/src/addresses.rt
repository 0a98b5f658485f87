//! The addresses of taps, as a judge of a trace reads them.

ghost use Rattle.std.specs.Prelude.{◌≡◌, map};
ghost use Rattle.law_runs.specs.Legality as legality;
ghost use Rattle.pb_taps.specs.Taps.{spec_of};
ghost use Rattle.pb_world.specs.Judging.{specs_at};

use pb_taps::{Tap, TapSpec};

/// An address of no tap: the largest one in a telegram is 127.
pub(crate) const NO_ADDRESS: u8 = 255;

/// The addresses of the taps of a bus, or of a list of taps.
#[derive(Clone, Copy)]
pub(crate) enum Addresses<'a> {
    /// The addresses of the stations of a bus.
    OfTaps(&'a [Tap]),
    /// The addresses in a list of taps.
    OfSpecs(&'a [TapSpec]),
}

impl<'a> Addresses<'a> {
    ghost use Rattle.std.specs.Prelude.{◌≡◌};
    ghost use Rattle.law_runs.specs.Legality as legality;
    ghost use Rattle.pb_world.specs.Judging.{specs_in};

    /// How many taps there are.
    pub(crate) fn len(self) -> usize {
        match self {
            Addresses::OfTaps(taps) => taps.len(),
            Addresses::OfSpecs(specs) => specs.len(),
        }
    }

    /// The address of a tap; if there is no such tap, an address that no telegram has.
    pub(crate) fn at(self, tap: usize) -> u8
        ensures { result ≡ legality.address_at (specs_in self.entry) tap }
    {
        match self {
            Addresses::OfTaps(taps) => address_of_tap(taps, tap),
            Addresses::OfSpecs(specs) => address_in_list(specs, tap),
        }
    }
}

fn address_of_tap(taps: &[Tap], tap: usize) -> u8
    ensures { result ≡ legality.address_at (specs_at taps.now) tap }
{
    match taps.get(tap) {
        Some(tap) => tap.station.address(),
        None => NO_ADDRESS,
    }
}

fn address_in_list(specs: &[TapSpec], tap: usize) -> u8
    ensures { result ≡ legality.address_at (map spec_of specs.now) tap }
{
    match specs.get(tap) {
        Some(spec) => spec.address,
        None => NO_ADDRESS,
    }
}
