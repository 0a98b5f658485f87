//! What a passive listener knows of a bus: it judges tokens and requests, names who holds the token, keeps statistics, and
//! reads captures of any length in constant memory.
//!
//! A [`Judge`] hears a capture burst by burst. It keeps a few moments, and no list. A [`Monitor`] reads the bytes of a
//! capture as they come, and makes lines of text of them.
#![tactic(auto)]

mod alarms;
mod buffers;
mod bursts;
mod cutting;
mod feeding;
mod formats;
mod heard_bursts;
mod holders;
mod judges;
mod judging;
mod laws;
mod lines;
mod meanings;
mod monitors;
mod orders;
mod pcap;
mod pcapng;
mod repeats;
mod reports;
mod spreads;
mod states;
mod stations;
mod statistics;
mod summaries;
mod tallies;
mod texts;
mod traffic;
mod words;

pub use alarms::{Alarm, AlarmClass, Classes};
pub use bursts::Burst;
pub use cutting::{Cut, Cutter};
pub use formats::{Form, Options, SummaryForm};
pub use heard_bursts::{HeardBurst, MOST_CHARACTERS, Named};
pub use holders::Holder;
pub use judges::Judge;
pub use laws::{
    captures_are_judged, legal_orders_are_right, legal_traces_raise_no_alarm,
    telegrams_are_cut_into_themselves,
};
pub use meanings::{InitiatorTelegram, Meaning, meaning_in};
pub use monitors::Monitor;
pub use spreads::Spread;
pub use states::{LastHeard, State};
pub use stations::{Role, Station};
pub use statistics::Statistics;
pub use traffic::{Damaged, Traffic};
pub use words::Words;
