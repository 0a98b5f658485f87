//! Actions: events, and changes between them of the data with which taps reply.

ghost use Rattle.law_token.specs.Actions.{NoneInSilenceOfActions, OneTokenOfActions, TokenTheoremOfActions};
ghost use Rattle.law_token.specs.Data.{DataKeepInvariant};

/// A change of the data with which a tap replies keeps the invariant, whatever the station has heard and not read, and
/// whether the tap runs: a reply has other octets then, and lasts longer or shorter, but is sent at the same moment.
pub fn a_change_of_data_keeps_the_invariant()
    ensures { DataKeepInvariant }
{}

/// The token theorem with changes of data between the events: if the events break no premise, at most one station may
/// initiate at a time, it is the one that the trace names, and each telegram that only a holder sends is legal after
/// the one before it.
pub fn the_token_is_exclusive_whatever_the_data()
    ensures with_delay { TokenTheoremOfActions }
    ensures readers { OneTokenOfActions }
{}

/// The silence bound with changes of data between the events: if no event loses a telegram or lets a turn be late, no
/// running master that is not offline is in silence for longer than its time-out and the lag, as it hears the bus.
pub fn no_master_is_left_in_silence_whatever_the_data()
    ensures { NoneInSilenceOfActions }
{}
