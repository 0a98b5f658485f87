//! What a listener hears of a run, as lines of a capture, while the run settles.

ghost use Rattle.std.specs.Prelude.{◌≡◌, IfOk, MatchOption, Some, slice_get};
ghost use Rattle.pb_texts.specs.Captures.{IsNoTaps, no_tap_line};

use pb_medium::{Heard, Record, telegram_characters};
use pb_scenario::{Deed, Entry, Event, Scenario, push_number};
use pb_telegram::RxChar;
use std::alloc::{AllocError, Global};

/// The index of a tap that is none: what it receives is undamaged.
const NO_TAP: usize = usize::MAX;

/// The digits of an octet.
const DIGITS: [u8; 16] = *b"0123456789abcdef";

/// A listener: the tap that it is, if any, and how much later telegrams reach it.
#[derive(Clone, Copy, Debug)]
struct Listener {
    tap: usize,
    delay: u64,
}

/// A stretch of time in which a listener listens.
#[derive(Clone, Copy, Debug)]
struct Stay {
    from: u64,
    /// `None` while it lasts.
    to: Option<u64>,
    /// Whether lines of it may have been appended.
    is_begun: bool,
}

/// A stretch of time in which an entry of the trace is active at a listener.
#[derive(Clone, Copy)]
struct Sensed {
    begin: u64,
    end: u64,
    entry: usize,
    /// Whether the listener can hear it from its begin.
    is_whole: bool,
}

/// What a listener hears of a run, a line for each burst: begin, end and characters, as `monitor` reads them; and `gap`
/// between two stretches of time in which it listens. It is given the entries of the trace as they are over, and keeps none.
#[derive(Debug, Drop)]
pub struct Capture {
    listener: Listener,
    /// When it listens: the stretches of which there may be more to hear.
    stays: Vec<Stay>,
    /// Whether there were others before.
    is_behind: bool,
}

impl Capture {
    ghost use Rattle.std.specs.Prelude.{MatchOption};
    ghost use Rattle.pb_texts.specs.Captures.{IsNoTaps, IsTaps};

    /// That of a listener that hears each telegram undamaged at its speaker's moments, from 0 on.
    ///
    /// Fault: memory was refused.
    pub fn everywhere(alloc: Global) -> Result<Capture, AllocError> {
        let mut stays = Vec::new(alloc);
        stays.push(new_stay(0))?;
        Ok(Capture {
            listener: Listener {
                tap: NO_TAP,
                delay: 0,
            },
            stays,
            is_behind: false,
        })
    }

    /// That of the tap of a name, if there is one, which hears while it runs what it senses.
    pub fn of_tap(alloc: Global, scenario: &Scenario, name: &str) -> Option<Capture>
        ensures { MatchOption result (IsNoTaps scenario.now.names name.now)
            (λ _. IsTaps scenario.now.names name.now) }
    {
        let tap = tap_named(scenario, name)?;
        Some(Capture {
            listener: Listener {
                tap,
                delay: u64::from(scenario.params().ttd()),
            },
            stays: Vec::new(alloc),
            is_behind: false,
        })
    }

    /// Notes what steps do at a moment, in bit times, before its instant is played: a tap listens from its start to its
    /// stop.
    ///
    /// Fault: memory was refused.
    pub fn note(&mut self, now: u64, deeds: &[&Deed]) -> Result<(), AllocError> {
        for deed in deeds {
            match deed {
                Deed::Happens(Event::Start(tap)) if *tap == self.listener.tap => self.start(now)?,
                Deed::Happens(Event::Stop(tap)) if *tap == self.listener.tap => self.stop(now),
                _ => {}
            }
        }
        Ok(())
    }

    /// It listens from now on, unless it already does.
    fn start(&mut self, now: u64) -> Result<(), AllocError> {
        match self.stays.last() {
            Some(Stay { to: None, .. }) => Ok(()),
            _ => Ok(self.stays.push(new_stay(now))?),
        }
    }

    /// It listens no longer.
    fn stop(&mut self, now: u64) {
        if let Some(stay) = self.stays.last_mut()
            && stay.to.is_none()
        {
            stay.to = Some(now);
        }
    }

    /// Appends the lines of what it hears of the first entries, so many, which are over. The others reach no tap before
    /// these have ended, and the clock is behind all that was noted.
    ///
    /// Fault: memory was refused.
    pub fn hear(
        &mut self,
        alloc: Global,
        entries: &[Entry],
        over: usize,
        text: &mut Vec<u8>,
    ) -> Result<(), AllocError> {
        let mut left = Vec::new(alloc);
        for stay in &self.stays {
            // Nothing is heard of a stretch behind one of which there is more to hear.
            if !left.is_empty() {
                left.push(*stay)?;
                continue;
            }
            if self.is_behind && !stay.is_begun {
                text.extend_from_slice(b"gap\n")?;
            }
            self.is_behind = true;
            push_stay(alloc, text, entries, over, self.listener, *stay)?;
            if !stay.is_over(entries, over, self.listener) {
                left.push(Stay {
                    is_begun: true,
                    ..*stay
                })?;
            }
        }
        self.stays = left;
        Ok(())
    }

    /// Appends the lines of what it hears of the entries that are left, where the run ends at a moment, in bit times.
    ///
    /// Fault: memory was refused.
    pub fn finish(
        &mut self,
        alloc: Global,
        entries: &[Entry],
        now: u64,
        text: &mut Vec<u8>,
    ) -> Result<(), AllocError> {
        self.stop(now);
        self.hear(alloc, entries, entries.len(), text)
    }
}

impl Stay {
    /// Whether nothing more is heard in it, once so many entries are over.
    fn is_over(&self, entries: &[Entry], over: usize, listener: Listener) -> bool {
        match self.to {
            Some(to) => entries.iter().skip(over).all(|entry| match reach(entry, listener) {
                Some(sensed) => sensed.end > to,
                None => true,
            }),
            None => false,
        }
    }
}

/// A stretch of time from a moment on.
fn new_stay(from: u64) -> Stay {
    Stay {
        from,
        to: None,
        is_begun: false,
    }
}

/// The index of the tap of a name.
fn tap_named(scenario: &Scenario, name: &str) -> Option<usize>
    ensures { MatchOption result (IsNoTaps scenario.now.names name.now)
        (λ tap. slice_get scenario.now.names tap ≡ Some name.now) }
{
    for tap in 0..scenario.taps().len() {
        if scenario.name(tap) == name {
            return Some(tap);
        }
    }
    None
}

/// The line for a name that no tap has.
///
/// Fault: memory was refused.
pub fn no_tap_line(alloc: Global, name: &str) -> Result<Vec<u8>, AllocError>
    ensures { IfOk result (λ line. line.items ≡ no_tap_line name.now) }
{
    let mut text = Vec::from_slice(alloc, b"no tap is named ")?;
    text.extend_from_slice(name.as_bytes())?;
    text.extend_from_slice(b"\n")?;
    Ok(text)
}

/// Appends the lines of the bursts that end while a listener listens, of the first entries, so many.
fn push_stay(
    alloc: Global,
    text: &mut Vec<u8>,
    entries: &[Entry],
    over: usize,
    listener: Listener,
    stay: Stay,
) -> Result<(), AllocError> {
    let is_amid = entries
        .iter()
        .take(over)
        .any(|entry| is_through(entry, listener, stay.from));
    let mut spans = Vec::new(alloc);
    for (place, entry) in entries.iter().enumerate().take(over) {
        if let Some(sensed) = sensed_of(entry, place, listener, stay.from, is_amid) {
            spans.push(sensed)?;
        }
    }
    spans.sort_by_key(|sensed| sensed.begin)?;
    push_bursts(text, entries, listener, stay.to.unwrap_or(u64::MAX), &spans)
}

/// Whether an entry is active at a listener before and after a moment.
fn is_through(entry: &Entry, listener: Listener, moment: u64) -> bool {
    match reach(entry, listener) {
        Some(sensed) => sensed.begin < moment && moment < sensed.end,
        None => false,
    }
}

/// When an entry is active at a listener, if it is.
fn reach(entry: &Entry, listener: Listener) -> Option<Sensed> {
    match entry {
        Entry::Noise { begin, end } => Some(Sensed {
            begin: *begin,
            end: *end,
            entry: 0,
            is_whole: false,
        }),
        Entry::Sent(telegram) => if is_sensed(telegram, listener.tap) {
            Some(Sensed {
                begin: telegram.begin.saturating_add(listener.delay),
                end: telegram.end.saturating_add(listener.delay),
                entry: 0,
                is_whole: true,
            })
        } else {
            None
        },
    }
}

/// Whether a tap senses a telegram: it is another's, and not lost there.
fn is_sensed(telegram: &Record, tap: usize) -> bool {
    match telegram.heard.get(tap) {
        Some(Heard::Unheard) => false,
        _ => telegram.tap != tap,
    }
}

/// When an entry is active at a listener that listens from a moment on, which may be amid a burst.
fn sensed_of(
    entry: &Entry,
    place: usize,
    listener: Listener,
    from: u64,
    is_amid: bool,
) -> Option<Sensed> {
    let sensed = reach(entry, listener)?;
    if sensed.end <= from {
        return None;
    }
    let is_from_begin = from < sensed.begin || (from == sensed.begin && !is_amid);
    Some(Sensed {
        begin: sensed.begin.max(from),
        end: sensed.end,
        entry: place,
        is_whole: sensed.is_whole && is_from_begin,
    })
}

/// Appends the lines of bursts: stretches of time that overlap are one burst.
fn push_bursts(
    text: &mut Vec<u8>,
    entries: &[Entry],
    listener: Listener,
    to: u64,
    spans: &[Sensed],
) -> Result<(), AllocError> {
    let mut burst: Option<Sensed> = None;
    for span in spans {
        burst = match burst {
            Some(before) if span.begin < before.end => Some(Sensed {
                begin: before.begin,
                end: before.end.max(span.end),
                entry: before.entry,
                is_whole: false,
            }),
            Some(before) => {
                push_burst(text, entries, listener, to, before)?;
                Some(*span)
            }
            None => Some(*span),
        };
    }
    match burst {
        Some(last) => push_burst(text, entries, listener, to, last),
        None => Ok(()),
    }
}

/// Appends the line of a burst, if it ends while the listener listens.
fn push_burst(
    text: &mut Vec<u8>,
    entries: &[Entry],
    listener: Listener,
    to: u64,
    burst: Sensed,
) -> Result<(), AllocError> {
    if burst.end > to {
        return Ok(());
    }
    push_number(text, burst.begin)?;
    text.extend_from_slice(b" ")?;
    push_number(text, burst.end)?;
    text.extend_from_slice(b" ")?;
    match entries.get(burst.entry) {
        Some(Entry::Sent(telegram)) if burst.is_whole && !is_sending(entries, listener, burst) => {
            push_characters(text, telegram, listener.tap)?;
        }
        _ => text.extend_from_slice(b"--")?,
    }
    text.extend_from_slice(b"\n")
}

/// Whether the listener sends during a burst.
fn is_sending(entries: &[Entry], listener: Listener, burst: Sensed) -> bool {
    listener.tap != NO_TAP
        && entries.iter().any(|entry| match entry {
            Entry::Sent(telegram) => telegram.tap == listener.tap
                && telegram.begin < burst.end
                && burst.begin < telegram.end,
            Entry::Noise { .. } => false,
        })
}

/// Appends the characters of a telegram as a tap receives them.
fn push_characters(text: &mut Vec<u8>, telegram: &Record, tap: usize) -> Result<(), AllocError> {
    for char in &telegram_characters(telegram, tap) {
        match char {
            RxChar::Good(octet) => {
                text.push(DIGITS[usize::from(*octet / 16)])?;
                text.push(DIGITS[usize::from(*octet % 16)])?;
            }
            RxChar::Bad => text.extend_from_slice(b"--")?,
        }
    }
    Ok(())
}
