//! Actions: events, and changes between them of the data with which taps reply.

ghost use Rattle.law_monitor.specs.Actions.{
  TelegramsNameTheirSpeakersByActions,
  RunsAreTimelyByActions,
  RunsRaiseNoneByActions,
  RunsRaiseNoneAnywhereByActions,
  AlarmsProveABrokenPremiseByActions,
};
ghost use Rattle.law_monitor.specs.Actions.{NamedOrNobodyByActions, TapsCaptureByActions, TapsRaiseNoneByActions};

/// Each token and each request has its speaker's address as its source with changes of data between the events.
pub fn telegrams_name_their_speakers_whatever_the_data()
    ensures { TelegramsNameTheirSpeakersByActions }
{}

/// If the events keep the premises, each token and each request comes in time with changes of data between them: a reply
/// has other octets then, and the next telegram comes as long after its end.
pub fn runs_are_timely_whatever_the_data()
    ensures { RunsAreTimelyByActions }
{}

/// If the events keep the premises, a listener raises no alarm of any class, whatever data change between them.
pub fn runs_raise_no_alarm_whatever_the_data()
    ensures { RunsRaiseNoneByActions }
{}

/// Nor does a listener anywhere on the line: so an alarm of any class means that an event broke a premise.
pub fn runs_raise_no_alarm_anywhere_whatever_the_data()
    ensures none { RunsRaiseNoneAnywhereByActions }
    ensures broken { AlarmsProveABrokenPremiseByActions }
{}

/// While the events keep the premises, the station that a listener names between two bursts is the one that may initiate a
/// cable delay before, or nobody may, whatever data change between them.
pub fn the_holder_is_named_or_nobody_whatever_the_data()
    ensures { NamedOrNobodyByActions }
{}

/// What a tap hears while it runs and sends nothing is what a listener hears of the trace since the tap's start, whatever
/// the premises, with changes of data between the events. If the events keep the premises, it raises no alarm.
pub fn a_tap_hears_a_capture_whatever_the_data()
    ensures capture { TapsCaptureByActions }
    ensures none { TapsRaiseNoneByActions }
{}
