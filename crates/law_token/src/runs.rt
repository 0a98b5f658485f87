//! Laws of runs: what a run never changes, and how runs are joined and split.

ghost use Rattle.law_token.specs.Runs.{RunsKeepTheBus, RunsJoin, RunsPart, BeginningsKeepPremises};
ghost use Rattle.law_token.specs.Runs.{StoppedAreOffline, TurnsKeepTheReply, RunsKeepTheReply, HoldersKeepNoReply};

/// A run keeps the bus parameters, and the kind and address of each tap.
pub fn a_run_keeps_its_bus()
    ensures { RunsKeepTheBus }
{}

/// Two consecutive runs are one run of both lists, and a run of two lists is a run of each.
pub fn runs_append()
    ensures joined { RunsJoin }
    ensures parted { RunsPart }
{}

/// If a list keeps the premises, so does each of its prefixes.
pub fn premises_are_kept_by_beginnings()
    ensures { BeginningsKeepPremises }
{}

/// A station whose tap doesn't run is offline.
pub fn a_stopped_station_is_offline()
    ensures { StoppedAreOffline }
{}

/// A turn keeps the data with which a station replies to a request for data. In every run this data is that of the tap
/// list.
pub fn the_data_to_reply_stays()
    ensures turn { TurnsKeepTheReply }
    ensures run { RunsKeepTheReply }
{}

/// A station that holds the token, or checks whether it was taken, keeps no unsent reply. A busy station has nothing to
/// send. Begins and Ends alternate at every running tap, whatever the events.
pub fn no_holder_keeps_a_reply()
    ensures { HoldersKeepNoReply }
{}
