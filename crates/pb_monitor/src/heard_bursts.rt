//! Bursts as a monitor hands them on, for exports.

ghost use Rattle.std.specs.Prelude.{◌≡◌, ◌≤◌};
ghost use Rattle.pb_monitor.specs.Holders.{holder_of};
ghost use Rattle.pb_monitor.specs.Times.{bits_of_characters};

use crate::alarms::Alarm;
use crate::holders::{Holder, named_holder};
use crate::states::{State, live};
use arrayvec::ArrayVec;
use pb_decode::character;
use pb_telegram::RxChar;
use pb_timers::{BusParams, CHARACTER_BITS};
use std::alloc::{AllocError, Global};
use std::mem::replace;

/// The most characters of a burst that are handed on: one more than a telegram has, so that the front of a longer burst
/// is no telegram.
pub const MOST_CHARACTERS: usize = 256;

/// How many bit times a bus is idle between two bursts without moments: as long as before a request, at least.
const IDLE: u64 = 33;

/// Who may send tokens and requests just before a burst.
#[derive(Clone, Copy, Debug, PartialEq, Eq)]
pub struct Named {
    /// Who may.
    pub holder: Holder,
    /// Until when the one was named who was named behind the burst before, in bit times: at most the begin of this burst.
    pub since: u64,
}

/// A burst that a monitor has heard, and what it knew then.
#[derive(Clone, Debug, PartialEq, Eq, Drop)]
pub struct HeardBurst {
    /// When it began, in bit times.
    pub begin: u64,
    /// When it ended, in bit times.
    pub end: u64,
    /// Whether the capture gives these moments. If not, it begins 33 bit times behind the last burst, or at 0.
    pub is_timed: bool,
    /// Its first characters, at most 256.
    pub chars: ArrayVec<RxChar, MOST_CHARACTERS>,
    /// How many characters it has.
    pub count: u64,
    /// Who may send tokens and requests just before it, if that is judged and something was heard before.
    pub before: Option<Named>,
    /// Who may send tokens and requests behind it, if that is judged.
    pub holder: Option<Holder>,
    /// What is wrong with its telegram.
    pub alarm: Option<Alarm>,
}

/// When a burst was on the bus, and what a monitor knew then.
#[derive(Clone, Copy, Debug)]
pub(crate) struct Known {
    /// From when to when; `None` if the capture doesn't say.
    pub(crate) span: Option<(u64, u64)>,
    /// How many characters it has.
    pub(crate) count: u64,
    pub(crate) before: Option<Named>,
    pub(crate) holder: Option<Holder>,
    pub(crate) alarm: Option<Alarm>,
}

/// The bursts that were heard and not handed on yet, if they are wanted.
#[derive(Drop)]
pub(crate) struct Kept {
    is_wanted: bool,
    /// The first characters of the burst that is being read.
    chars: ArrayVec<RxChar, MOST_CHARACTERS>,
    /// The end of the last burst.
    last: Option<u64>,
    bursts: Vec<HeardBurst>,
}

impl Kept {
    ghost use Rattle.std.specs.Prelude.{◌≡◌, [], true};

    /// None is wanted.
    pub(crate) fn new(alloc: Global) -> Kept {
        Kept {
            is_wanted: false,
            chars: ArrayVec::new(),
            last: None,
            bursts: Vec::new(alloc),
        }
    }

    /// From now on they are wanted.
    pub(crate) fn want(&mut self)
        ensures { self.new ≡ record self.old { is_wanted = true } }
    {
        self.is_wanted = true;
    }

    /// Whether they are wanted.
    pub(crate) fn is_wanted(&self) -> bool
        ensures { result ≡ self.now.is_wanted }
    {
        self.is_wanted
    }

    /// Those that were not handed on yet.
    pub(crate) fn bursts(&self) -> &[HeardBurst]
        ensures { result.now ≡ self.now.bursts.items }
    {
        &self.bursts
    }

    /// All were handed on.
    pub(crate) fn clear(&mut self)
        ensures { self.new.bursts.items ≡ [] }
    {
        self.bursts.clear();
    }

    /// A burst begins.
    pub(crate) fn begin(&mut self) {
        self.chars.clear();
    }

    /// A character of the burst comes.
    pub(crate) fn note(&mut self, char: RxChar) {
        let _ = self.chars.try_push(char);
    }

    /// The characters of the burst, in hex without blanks.
    pub(crate) fn note_hex(&mut self, hex: &[u8]) {
        self.begin();
        for place in 0..hex.len() / 2 {
            if self.chars.is_full() {
                return;
            }
            if let Some(char) = character(hex[2 * place], hex[2 * place + 1]) {
                self.note(char);
            }
        }
    }

    /// The octets of a telegram.
    pub(crate) fn note_octets(&mut self, octets: &[u8]) {
        self.begin();
        for octet in octets {
            self.note(RxChar::Good(*octet));
        }
    }

    /// The burst ends.
    pub(crate) fn end(&mut self, known: Known) -> Result<(), AllocError>
        ensures { self.new.is_wanted ≡ self.old.is_wanted }
    {
        let Known {
            span,
            count,
            before,
            holder,
            alarm,
        } = known;
        let (begin, end) = span.unwrap_or(self.laid(count));
        self.last = Some(end);
        self.bursts.push(HeardBurst {
            begin,
            end,
            is_timed: span.is_some(),
            chars: replace(&mut self.chars, ArrayVec::new()),
            count,
            before,
            holder,
            alarm,
        })?;
        Ok(())
    }

    /// From when to when a burst of so many characters is, behind the last one.
    fn laid(&self, count: u64) -> (u64, u64) {
        let begin = match self.last {
            Some(last) => last.saturating_add(IDLE),
            None => 0,
        };
        (begin, begin.saturating_add(bits(count)))
    }
}

/// Who may send tokens and requests just before a burst that begins at a moment.
pub(crate) fn named_before(params: &BusParams, slack: u32, state: State, begin: u64) -> Named
    ensures holder { result.holder ≡ holder_of params.now slack state begin }
    ensures since { result.since ≤ begin }
{
    Named {
        holder: named_holder(params, slack, state, begin),
        since: named_until(params, slack, state).min(begin),
    }
}

/// Until when the one is named who is named behind the last burst, if nothing more is heard.
fn named_until(params: &BusParams, slack: u32, state: State) -> u64 {
    let silence = state.quiet.saturating_add(live(params, slack));
    match state.last {
        Some(last) if last.offered.is_some() => {
            let slot = last.end.saturating_add(u64::from(params.tsl()));
            slot.saturating_sub(u64::from(slack)).min(silence)
        }
        _ => silence,
    }
}

/// How long so many characters take, in bit times.
pub(crate) fn bits(count: u64) -> u64
    ensures { result ≡ bits_of_characters count }
{
    CHARACTER_BITS.saturating_mul(count)
}
