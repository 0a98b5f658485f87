//! The beginnings and ends of bursts, from characters that a receiver takes off the line one by one.

ghost use Rattle.std.specs.Prelude.{◌≡◌, List, Some, None};
ghost use Rattle.pb_faults.specs.FirstFault.{first_fault};
ghost use Rattle.pb_telegram.specs.Receiving.{StandsFor};
ghost use Rattle.pb_telegram.specs.declared.chars.RxChar.{RxChar};
ghost use Rattle.pb_port.specs.Feeds.{is_whole};

use arrayvec::ArrayVec;
use pb_telegram::{Receiver, RxChar};
use std::marker::Model;
use thiserror::Error;

/// The last moment: 2^61.
const LAST_MOMENT: u64 = 1 << 61;

/// How many characters a telegram has at most.
const MOST_CHARACTERS: usize = 255;

/// How long a character takes.
const CHARACTER_BITS: u64 = 11;

/// How long after a character the line is idle.
const IDLE_BITS: u64 = 16;

/// What a station is to be told: activity has begun or ended at a moment.
#[derive(Clone, Copy, Debug, PartialEq, Eq)]
pub enum FeedMark {
    /// It has begun.
    Begin(u64),
    /// It has ended, and has brought [`Feed::characters`].
    End(u64),
}

/// Why a feed refuses something: the first fault that applies. The feed is unchanged then.
#[derive(Clone, Copy, Debug, PartialEq, Eq, Error)]
pub enum FeedFault {
    /// The moment is past 2^61 bit times.
    #[error("TooLate")]
    TooLate,
    /// The moment is before the last one.
    #[error("Backwards")]
    Backwards,
    /// The open burst has ended before the moment: call [`Feed::tick`] first.
    #[error("EndFirst")]
    EndFirst,
    /// No start bit was seen before the character.
    #[error("NoStart")]
    NoStart,
}

/// Makes marks of single characters, as a UART gives them at their ends.
///
/// Either the driver sees start bits too, and the station hears in time. Or it doesn't, and the station hears
/// everything 11 bit times later than it is on the line: a burst begins for it at the end of the first character, and
/// ends 11 bit times after the last one. The cable delay of the parameters contains these 11 then.
///
/// A burst ends with a whole telegram, or when no character has ended for 16 bit times.
#[derive(Drop)]
pub struct Feed {
    late: bool,
    active: bool,
    last: u64,
    characters: ArrayVec<RxChar, 255>,
    receiver: Receiver,
    /// Whether the characters spell a telegram.
    whole: bool,
}

impl Model for Feed {
    ghost use Rattle.std.specs.Prelude.{◌≡◌, ◌≤◌, length};
    ghost use Rattle.pb_transitions.specs.Clocks.{last_turn};
    ghost use Rattle.pb_telegram.specs.Receiving.{StandsFor};
    ghost use Rattle.pb_port.specs.Feeds.{FeedView, is_whole};

    ghost Value = { FeedView };

    ghost view = { λ f. record {
      late = f.late;
      active = f.active;
      last = f.last;
      characters = f.characters.items;
    } };

    ghost invariant = { λ f. StandsFor f.receiver f.characters.items × (length f.characters.items ≤ 255)
        × (f.whole ≡ is_whole f.characters.items) × (f.last ≤ last_turn) };
}

impl Feed {
    ghost use Rattle.std.specs.Prelude.{◌≡◌, ◌≤◌, false, [], Some, None, OnOk, MatchResult};
    ghost use Rattle.pb_faults.specs.FirstFault.{first_fault};
    ghost use Rattle.pb_transitions.specs.Clocks.{last_turn};
    ghost use Rattle.pb_port.specs.Feeds.{with_character, start_faults, after_start, start_mark, character_faults, after_character, character_mark, end_due, after_tick, tick_mark};

    /// A feed for a driver that sees start bits, or for one whose station hears late.
    pub fn new(late: bool) -> Feed
        ensures { result ≡ record { late = late; active = false; last = 0; characters = [] } }
    {
        Feed {
            late,
            active: false,
            last: 0,
            characters: ArrayVec::new(),
            receiver: Receiver::new(),
            whole: false,
        }
    }

    /// A start bit has begun at a moment. Only the first one of a burst makes a mark, and none where the station hears
    /// late.
    ///
    /// Faults: `TooLate` past 2^61; `Backwards` before the last moment; `EndFirst` where the open burst's end has to be
    /// told first.
    pub fn start_bit(&mut self, at: u64) -> Result<Option<FeedMark>, FeedFault>
        ensures { MatchResult result
            (λ mark. (first_fault (start_faults self.old at) ≡ None) × (mark ≡ start_mark self.old at)
            × (self.new ≡ after_start self.old at))
            (λ fault. (first_fault (start_faults self.old at) ≡ Some fault) × (self.new ≡ self.old)) }
    {
        self.check(at)?;
        if self.late || self.active {
            return Ok(None);
        }
        self.forget();
        self.active = true;
        self.last = at;
        Ok(Some(FeedMark::Begin(at)))
    }

    /// A character has ended at a moment, good or damaged. No telegram has more than 255 characters: further ones of a
    /// burst are left out.
    ///
    /// Faults: those of [`start_bit`](Feed::start_bit), and last `NoStart` where the station hears in time and no start
    /// bit began the burst.
    pub fn character(&mut self, at: u64, character: RxChar) -> Result<Option<FeedMark>, FeedFault>
        ensures { MatchResult result
            (λ mark. (first_fault (character_faults self.old at) ≡ None)
            × (mark ≡ character_mark self.old at character)
            × (self.new ≡ after_character self.old at character))
            (λ fault. (first_fault (character_faults self.old at) ≡ Some fault) × (self.new ≡ self.old)) }
    {
        self.check(at)?;
        if !self.late && !self.active {
            return Err(FeedFault::NoStart);
        }
        let begins = !self.active;
        if begins {
            self.forget();
        }
        self.take(character);
        self.last = at;
        self.active = self.late || !self.whole;
        if begins {
            return Ok(Some(FeedMark::Begin(at)));
        }
        if self.active {
            return Ok(None);
        }
        Ok(Some(FeedMark::End(at)))
    }

    /// When the end of the open burst has to be told, by [`tick`](Feed::tick): 16 bit times after its last character, or
    /// 11 where the station hears late and the telegram is whole. None where no burst is open.
    pub fn due(&self) -> Option<u64>
        ensures { result ≡ end_due self.now }
    {
        if !self.active {
            return None;
        }
        let wait = if self.late && self.whole {
            CHARACTER_BITS
        } else {
            IDLE_BITS
        };
        Some(self.last + wait)
    }

    /// Time has passed to a moment. The end of the open burst is told if it is due.
    pub fn tick(&mut self, now: u64) -> Option<FeedMark>
        ensures mark { result ≡ tick_mark self.old now }
        ensures feed { self.new ≡ after_tick self.old now }
    {
        let due = self.due()?;
        if due > now {
            return None;
        }
        self.active = false;
        let delay = if self.late { CHARACTER_BITS } else { 0 };
        Some(FeedMark::End(self.last + delay))
    }

    /// The characters of the last burst.
    pub fn characters(&self) -> &[RxChar]
        ensures { result.now ≡ self.entry.now.characters }
    {
        &self.characters
    }

    /// Why something that begins or ends at a moment is refused.
    fn check(&self, at: u64) -> Result<(), FeedFault>
        ensures faults { MatchResult result (λ _. first_fault (start_faults self.now at) ≡ None)
            (λ fault. first_fault (start_faults self.now at) ≡ Some fault) }
        ensures bound { OnOk result (at ≤ last_turn) }
    {
        if at > LAST_MOMENT {
            return Err(FeedFault::TooLate);
        }
        if at < self.last {
            return Err(FeedFault::Backwards);
        }
        if self.active && self.last + IDLE_BITS <= at {
            return Err(FeedFault::EndFirst);
        }
        Ok(())
    }

    /// The characters of the last burst are forgotten.
    fn forget(&mut self)
        ensures { self.new ≡ record self.old { characters = [] } }
    {
        self.characters.clear();
        self.receiver.restart();
        self.whole = false;
    }

    /// A further character of the burst, if it has fewer than 255.
    fn take(&mut self, character: RxChar)
        ensures { self.new ≡ record self.old { characters = with_character self.old.characters character } }
    {
        if self.characters.len() < MOST_CHARACTERS {
            self.characters.push(character);
            self.receiver.feed(character);
            self.whole = is_whole(&self.receiver);
        }
    }
}

/// Whether the characters that came to a receiver spell a telegram.
fn is_whole(receiver: &Receiver) -> bool
    ensures { (chars : List RxChar) → StandsFor receiver.now chars → result ≡ is_whole chars }
{
    match receiver.answer() {
        Ok(_) => true,
        Err(_) => false,
    }
}
