//! Which taps have a lane in a picture.

ghost use Rattle.std.specs.Prelude.{◌≡◌, ◌≤◌, ◌<◌, ◌==◌, ◌++◌, IfOk, IfSome, OnOk, length, map, position};
ghost use Rattle.std.specs.List.{list_any};
ghost use Rattle.pb_medium.specs.Entries.{entry_of};
ghost use Rattle.pb_taps.specs.Taps.{spec_of};
ghost use Rattle.pb_export.specs.Rosters as rosters;

use pb_scenario::{Entry, Kind, Scenario, TapSpec};
use std::alloc::{AllocError, Global};

/// On a bus with at most so many taps, each has a lane.
const FEW: usize = 16;

/// The most lanes of a picture: as many as a bus has taps.
const MOST: usize = 127;

/// The taps that have a lane, from the top: on a bus of at most 16 each tap, else the masters and those that send
/// something.
pub(crate) fn lanes_of(
    alloc: Global,
    scenario: &Scenario,
    entries: &[Entry],
) -> Result<Vec<usize>, AllocError>
    ensures few { IfOk result (λ lanes. length lanes.items ≤ 127) }
    ensures lanes { IfOk result
        (λ lanes. lanes.items ≡ rosters.lanes_of scenario.now.scenario.taps (map entry_of entries.now)) }
{
    let mut lanes = all_lanes(alloc, scenario.taps(), entries)?;
    lanes.truncate(MOST);
    Ok(lanes)
}

/// The same of some taps, however many lanes that are.
fn all_lanes(alloc: Global, taps: &[TapSpec], entries: &[Entry]) -> Result<Vec<usize>, AllocError>
    ensures { IfOk result
        (λ lanes. lanes.items ≡ rosters.all_lanes (map spec_of taps.now) (map entry_of entries.now)) }
{
    let mut lanes = Vec::new(alloc);
    for tap in 0..taps.len() {
        let has_lane = has_lane(taps.len(), entries, tap, &taps[tap]);
        push_if(&mut lanes, has_lane, tap)?;
    }
    Ok(lanes)
}

/// Appends a lane, if the tap has one.
fn push_if(lanes: &mut Vec<usize>, has_lane: bool, tap: usize) -> Result<(), AllocError>
    ensures { OnOk result (lanes.new.items ≡ lanes.old.items ++ rosters.lane_if has_lane tap) }
{
    if has_lane {
        lanes.push(tap)?;
    }
    Ok(())
}

/// Whether one of so many taps has a lane.
fn has_lane(taps: usize, entries: &[Entry], tap: usize, spec: &TapSpec) -> bool
    ensures { result ≡ rosters.has_lane taps (map entry_of entries.now) tap (spec_of spec.now) }
{
    taps <= FEW || is_master(spec) || sends(entries, tap)
}

/// Whether a tap is a master.
fn is_master(tap: &TapSpec) -> bool
    ensures { result ≡ (spec_of tap.now).master }
{
    match tap.kind {
        Kind::Master => true,
        Kind::Passive => false,
    }
}

/// Whether a tap sends something.
fn sends(entries: &[Entry], tap: usize) -> bool
    ensures { result ≡ list_any (rosters.is_from tap) (map entry_of entries.now) }
{
    entries.iter().any(|entry| is_from(entry, tap))
}

/// Whether an entry is a telegram of a tap.
fn is_from(entry: &Entry, tap: usize) -> bool
    ensures { result ≡ rosters.is_from tap (entry_of entry.now) }
{
    match entry {
        Entry::Sent(telegram) => telegram.tap == tap,
        Entry::Noise { .. } => false,
    }
}

/// The lane of a tap, from 0; `None` if it has none.
pub(crate) fn lane_of(lanes: &[usize], tap: usize) -> Option<usize>
    ensures lane { result ≡ position (λ other. other == tap) lanes.now }
    ensures bound { IfSome result (λ lane. lane < length lanes.now) }
{
    lanes.iter().position(|other| *other == tap)
}
