//! Taps of the bus, as listeners.

ghost use Rattle.law_monitor.specs.Taps.{TapsCapture, TapsRaiseNone};

/// What a tap hears while it runs and sends nothing is what a listener hears of the trace since the tap's start, whatever
/// the premises. If the run keeps them, it raises no alarm of any class.
pub fn a_tap_hears_a_capture()
    ensures capture { TapsCapture }
    ensures none { TapsRaiseNone }
{}
