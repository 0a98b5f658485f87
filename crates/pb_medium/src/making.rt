//! Telegrams that a user of the library makes, to judge a trace from anywhere.

ghost use Rattle.std.specs.Prelude.{◌≡◌, ◌≤◌, IfOk, IfErr, OnOk, Some, None, [], map, nat_lt, not, if◌then◌else◌, ◌||◌, ◌==◌};
ghost use Rattle.pb_faults.specs.FirstFault.{first_fault};
ghost use Rattle.law_model.specs.World.{clock_limit};
ghost use Rattle.pb_medium.specs.Entries.{heard_of, record_of};
ghost use Rattle.pb_medium.specs.Making.{fits_taps, is_own, is_own_alone, record_faults};

use crate::entries::{Heard, Record};
use crate::receptions::Reception;
use arrayvec::ArrayVec;
use std::alloc::Global;
use thiserror::Error;

/// The most taps of a bus.
const MOST_TAPS: usize = 127;

/// The last moment of the clock, in bit times.
const LAST_MOMENT: u64 = 1_000_000_000_000;

/// Why a telegram is refused.
#[derive(Clone, Copy, Debug, PartialEq, Eq, Error)]
pub enum RecordFault {
    /// 1: it does not end after it begins.
    #[error("Ends")]
    Ends,
    /// 2: it begins or ends past 1,000,000,000,000 bit times, the clock's limit.
    #[error("ClockFull")]
    ClockFull,
    /// 3: how it was heard does not fit: there are more than 127 taps, its speaker is not one of them, it is not its
    /// speaker's own, or it is another tap's own.
    #[error("Hears")]
    Hears,
}

impl Record {
    ghost use Rattle.std.specs.Prelude.{◌≡◌, IfOk, IfErr, OnOk, Some, None, [], map};
    ghost use Rattle.pb_faults.specs.FirstFault.{first_fault};
    ghost use Rattle.pb_medium.specs.Entries.{heard_of, record_of};
    ghost use Rattle.pb_medium.specs.Making.{record_faults};

    /// A telegram of the tap with this index, from 0: all octets that were to be sent, when it began and ended, in bit
    /// times, and how it reached each tap of the bus, in their order. No memory is allocated.
    ///
    /// Faults, the first that applies: `Ends` if it does not end after it begins; `ClockFull` if a moment is past
    /// 1,000,000,000,000; `Hears` if `heard` is no list of a bus with this speaker: it has more than 127 taps, the
    /// speaker is not one of them, another tap has it as `Own`, or the speaker does not.
    pub fn new(
        alloc: Global,
        tap: usize,
        octets: ArrayVec<u8, 255>,
        begin: u64,
        end: u64,
        heard: &[Heard],
    ) -> Result<Record, RecordFault>
        ensures value { IfOk result (λ r. record_of r ≡ record {
          tap = tap;
          octets = octets.items;
          begin = begin;
          end = end;
          hits = [];
          heard = map heard_of heard.now;
        }) }
        ensures fault { IfErr result
            (λ fault. first_fault (record_faults tap begin end (map heard_of heard.now)) ≡ Some fault) }
        ensures ok { OnOk result (first_fault (record_faults tap begin end (map heard_of heard.now)) ≡ None) }
    {
        if end <= begin {
            return Err(RecordFault::Ends);
        }
        if is_past(begin, end) {
            return Err(RecordFault::ClockFull);
        }
        if !fits_taps(tap, heard) {
            return Err(RecordFault::Hears);
        }
        Ok(Record {
            tap,
            octets,
            begin,
            end,
            heard: Reception::of(tap, heard),
            hits: Vec::new(alloc),
        })
    }
}

/// Whether a moment is past the last moment of the clock.
fn is_past(begin: u64, end: u64) -> bool
    ensures { result ≡ (nat_lt clock_limit begin || nat_lt clock_limit end) }
{
    begin > LAST_MOMENT || end > LAST_MOMENT
}

/// Whether a list is how a telegram of this speaker may have reached each tap of a bus.
fn fits_taps(speaker: usize, heard: &[Heard]) -> bool
    ensures { result ≡ fits_taps speaker (map heard_of heard.now) }
{
    heard.len() <= MOST_TAPS && speaker < heard.len() && is_own_alone(speaker, heard)
}

/// Whether the telegram is the speaker's own and no other tap's.
fn is_own_alone(speaker: usize, heard: &[Heard]) -> bool
    ensures { result ≡ is_own_alone speaker 0 (map heard_of heard.now) }
{
    for (tap, how) in heard.iter().enumerate() {
        if !fits_tap(speaker, tap, *how) {
            return false;
        }
    }
    true
}

/// Whether the telegram is a tap's own exactly if the tap is the speaker.
fn fits_tap(speaker: usize, tap: usize, how: Heard) -> bool
    ensures { result ≡ (if tap == speaker then is_own (heard_of how) else not (is_own (heard_of how))) }
{
    if tap == speaker {
        is_own(how)
    } else {
        !is_own(how)
    }
}

fn is_own(how: Heard) -> bool
    ensures { result ≡ is_own (heard_of how) }
{
    matches!(how, Heard::Own)
}
