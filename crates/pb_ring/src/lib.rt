//! The list of active stations and the GAP list of a station.
//!
//! A station keeps the list of active stations (LAS) from the token telegrams that it hears: `Las`. The next and the
//! previous station of the ring are read from it. In the GAP, the addresses up to its next station, it looks for new
//! stations, one address at a time: `Gap`. Addresses are 0 to 126.
#![tactic(auto)]

mod addresses;
mod examples;
mod gap_laws;
mod gaps;
mod learning;
mod list_laws;
mod lists;
mod stages;
mod words;

pub use addresses::Addresses;
pub use examples::{
    a_claim_begins_a_list, a_listener_learns_three_stations, gaps_and_rounds_wrap_round,
};
pub use gap_laws::{
    a_round_asks_each_address_once, a_round_stands_for_its_looks,
    gaps_share_out_the_other_addresses, only_the_gap_is_asked,
};
pub use gaps::Gap;
pub use list_laws::{
    a_list_stands_for_what_was_heard_and_done, a_lone_station_is_its_own_neighbour,
    a_new_list_stands_for_nothing_heard, neighbours_are_each_others_inverse, skips_are_counted,
    the_members_are_a_set,
};
pub use lists::Las;
pub use stages::Place;
