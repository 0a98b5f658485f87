//! The names and the addresses of a scenario's taps.

ghost use Rattle.std.specs.Prelude.{◌≡◌};
ghost use Rattle.pb_export.specs.Names.{address_at, name_at};

use pb_scenario::Scenario;

/// The name of a tap; none if the scenario has no such tap.
pub(crate) fn name_of(scenario: &Scenario, tap: usize) -> &[u8]
    ensures { result.now ≡ name_at scenario.now tap }
{
    if tap < scenario.taps().len() {
        scenario.name(tap).as_bytes()
    } else {
        b""
    }
}

/// The address of a tap; 127, which is no station's, if the scenario has no such tap.
pub(crate) fn address_of(scenario: &Scenario, tap: usize) -> u64
    ensures { result ≡ address_at scenario.now tap }
{
    match scenario.taps().get(tap) {
        Some(spec) => u64::from(spec.address),
        None => 127,
    }
}
