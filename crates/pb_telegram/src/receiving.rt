//! A receiver: takes characters one at a time, and gives the telegram or the first fault.

ghost use Rattle.std.specs.Prelude.{◌≡◌, ◌+◌, ◌-◌, ◌%◌, ◌^◌, ◌<◌, ◌≤◌, ◌⊎◌, List, [], ◌∷◌, ◌++◌, IsTrue, ◌↔◌, Ok, Some, None, IfOk, IfErr, OnOk, length};
ghost use Rattle.pb_faults.specs.FirstFault.{first_fault};
ghost use Rattle.pb_telegram.specs.Grammar.{sd1, sd2, sd3, sd4, Spells};
ghost use Rattle.pb_telegram.specs.Faults.{fault_of};
ghost use Rattle.pb_telegram.specs.Receiving.{nothing_received, taken, with_length, with_head, with_unit, with_end, da_from, check_at, received_more, StandsFor, plain_faults, var_faults, token_faults, form_faults, faults_from_addresses, Finds};
ghost use Rattle.pb_telegram.specs.declared.telegrams.Telegram.TheVariants.{Short, Var, Fixed8, Token, Ack};
ghost use Rattle.pb_telegram.specs.declared.chars.RxChar.{RxChar};
ghost use Rattle.pb_telegram.specs.declared.telegrams.Telegram.{Telegram};

use crate::chars::RxChar;
use crate::copying::copy_octets;
use crate::faults::TelegramFault;
use crate::telegrams::{
    ACKNOWLEDGEMENT, END, FIXED_START, Fixed8Telegram, SHORT_START, ShortTelegram, TOKEN_START,
    Telegram, TokenTelegram, VAR_START, VarTelegram,
};
use arrayvec::ArrayVec;
use std::marker::Model;

/// How many octets a telegram with data of variable length has before the destination address.
const VAR_HEAD: u64 = 4;

/// How many octets are between the start or the lengths and the unit: both addresses and the control octet.
const HEAD: u64 = 3;

const TOKEN_LENGTH: u64 = 3;

/// Takes the characters of a telegram one at a time, without storing a list of them (IEC 61158-4-3, telegram formats).
///
/// Calls on the path of most octets and of each answer are inlined: the telegram is then built in the caller's memory
/// and not moved there.
///
/// ```
/// let mut receiver = Receiver::new();
/// receiver.feed(RxChar::Good(0xdc));
/// receiver.feed(RxChar::Good(2));
/// assert_eq!(rt; receiver.answer(), Err(TelegramFault::Truncated));
/// receiver.feed(RxChar::Good(1));
/// let telegram = Telegram::Token(TokenTelegram { da: 2, sa: 1 });
/// assert_eq!(rt; receiver.end(), Ok(telegram));
/// ```
#[derive(Drop)]
pub struct Receiver {
    /// How many characters were fed.
    fed: u64,
    /// The index of the first damaged character, from 0.
    bad: Option<usize>,
    start: u8,
    /// The length octet, its repetition, and the start delimiter that follows them.
    length_octet: u8,
    again: u8,
    second: u8,
    da: u8,
    sa: u8,
    fc: u8,
    /// The sum, modulo 256, of the octets from the destination address to the last octet of the unit.
    sum_octet: u8,
    check: u8,
    last: u8,
    unit: ArrayVec<u8, 246>,
    /// The index of the destination address.
    from: u64,
    /// The index of the check octet.
    end: u64,
}

impl Model for Receiver {
    ghost use Rattle.std.specs.Prelude.{◌≡◌, ◌+◌, ◌-◌, ◌<◌, ◌≤◌, min, length};
    ghost use Rattle.std.specs.List.{All};
    ghost use Rattle.pb_telegram.specs.Receiving.{Received, da_from, check_at};

    ghost Value = { Received };

    ghost view = { λ r. record {
      fed = r.fed;
      bad = r.bad;
      start = r.start;
      length_octet = r.length_octet;
      again = r.again;
      second = r.second;
      da = r.da;
      sa = r.sa;
      fc = r.fc;
      unit = r.unit.items;
      sum_octet = r.sum_octet;
      check = r.check;
      last = r.last;
    } };

    ghost invariant = { λ r.
        (r.from ≡ da_from r.start)
        × (r.end ≡ check_at r.start r.length_octet)
        × (length r.unit.items ≡ min r.fed r.end - (r.from + 3))
        × (r.da < 256)
        × (r.sa < 256)
        × All (λ octet. octet < 256) r.unit.items };
}

impl Receiver {
    /// A receiver that has been fed no character.
    pub fn new() -> Receiver
        ensures fresh { result ≡ nothing_received }
        ensures stands { StandsFor result [] }
    {
        Receiver {
            fed: 0,
            bad: None,
            start: 0,
            length_octet: 0,
            again: 0,
            second: 0,
            da: 0,
            sa: 0,
            fc: 0,
            unit: ArrayVec::new(),
            sum_octet: 0,
            check: 0,
            last: 0,
            from: 1,
            end: 4,
        }
    }

    /// Discards all characters: the receiver equals a new one.
    pub fn restart(&mut self)
        ensures fresh { self.new ≡ nothing_received }
        ensures stands { StandsFor self.new [] }
    {
        (self.fed, self.bad) = (0, None);
        (self.start, self.length_octet, self.again, self.second) = (0, 0, 0, 0);
        (self.da, self.sa, self.fc) = (0, 0, 0);
        self.unit.clear();
        (self.sum_octet, self.check, self.last) = (0, 0, 0);
        (self.from, self.end) = (1, 4);
    }

    /// Feeds the next character. The caller ensures that fewer than 2^64 - 1 were fed before.
    #[inline(always)]
    pub fn feed(&mut self, char: RxChar)
        requires { self.old.fed < 2 ^ 64 - 1 }
        ensures more { self.new ≡ received_more self.old char }
        ensures stands { (chars : List RxChar) → StandsFor self.old chars
            → StandsFor self.new (chars ++ char ∷ []) }
    {
        match char {
            RxChar::Good(octet) => self.take(octet),
            RxChar::Bad => {
                if self.bad.is_none() {
                    self.bad = Some(self.fed as usize);
                }
                self.take(0);
            }
        }
    }

    /// How many characters were fed.
    pub fn fed(&self) -> u64
        ensures fed { result ≡ self.now.fed }
        ensures stands { (chars : List RxChar) → StandsFor self.now chars → result ≡ length chars }
    {
        self.fed
    }

    /// Returns the telegram that the characters spell, or the first fault that applies: the result of [`crate::parse`]
    /// for the list of them (IEC 61158-4-3, telegram formats).
    ///
    /// Faults, in order: `Empty` if no character was fed; `Faulty` with the index of the first damaged one, from 0;
    /// `BadStart` if the first octet starts no telegram; `Truncated` if the telegram needs more octets, and for fewer
    /// than 4 octets of one with data of variable length; for such a telegram `BadLength` if the length octet is not 4
    /// to 249, `LengthsDiffer` if its repetition differs, and `BadSecondStart` if the start delimiter is not repeated;
    /// `BadAddress` for a token with an address octet over 126, or another telegram with the source address 127;
    /// `BadFc` for a control octet with bit 7 set; `BadFcs` for a check octet that is not the sum; `BadEnd` for another
    /// end delimiter; `Trailing` for octets after the end.
    pub fn end(self) -> Result<Telegram, TelegramFault>
        ensures telegram { (chars : List RxChar) → StandsFor self chars → IfOk result (Spells chars) }
        ensures sound { (chars : List RxChar) → StandsFor self chars → OnOk result (fault_of chars ≡ None) }
        ensures spelled { (chars : List RxChar) → StandsFor self chars → (t : Telegram) → Spells chars t
            → result ≡ Ok t }
        ensures fault { (chars : List RxChar) → StandsFor self chars
            → IfErr result (λ fault. fault_of chars ≡ Some fault) }
    {
        self.answer()
    }

    /// What [`Receiver::end`] would return now, with the same faults. The receiver is unchanged.
    #[inline(always)]
    pub fn answer(&self) -> Result<Telegram, TelegramFault>
        ensures telegram { (chars : List RxChar) → StandsFor self.now chars → IfOk result (Spells chars) }
        ensures sound { (chars : List RxChar) → StandsFor self.now chars
            → OnOk result (fault_of chars ≡ None) }
        ensures spelled { (chars : List RxChar) → StandsFor self.now chars → (t : Telegram) → Spells chars t
            → result ≡ Ok t }
        ensures fault { (chars : List RxChar) → StandsFor self.now chars
            → IfErr result (λ fault. fault_of chars ≡ Some fault) }
    {
        if self.fed == 0 {
            return Err(TelegramFault::Empty);
        }
        match self.bad {
            Some(place) => Err(TelegramFault::Faulty(place)),
            None => self.telegram(),
        }
    }

    /// Whether the characters spell a short acknowledgement (IEC 61158-4-3, telegram formats). [`Receiver::answer`]
    /// says so too, but its frame has room for a unit.
    #[inline(always)]
    pub fn is_acknowledgement(&self) -> bool
        ensures { (chars : List RxChar) → StandsFor self.now chars → IsTrue result ↔ Spells chars Ack }
    {
        self.fed == 1 && self.bad.is_none() && self.start == ACKNOWLEDGEMENT
    }

    /// The telegram that the octets spell, or the first fault. There is at least one octet.
    #[inline(always)]
    fn telegram(&self) -> Result<Telegram, TelegramFault>
        requires { 0 < self.now.fed }
        ensures { Finds self.now (form_faults self.now) (λ telegram. telegram) result }
    {
        match self.start {
            SHORT_START => Ok(Telegram::Short(self.short()?)),
            VAR_START => Ok(Telegram::Var(self.var()?)),
            FIXED_START => Ok(Telegram::Fixed8(self.fixed()?)),
            TOKEN_START => Ok(Telegram::Token(self.token()?)),
            ACKNOWLEDGEMENT if self.fed == 1 => Ok(Telegram::Ack),
            ACKNOWLEDGEMENT => Err(TelegramFault::Trailing),
            _ => Err(TelegramFault::BadStart),
        }
    }

    #[inline(always)]
    fn short(&self) -> Result<ShortTelegram, TelegramFault>
        requires { self.now.start ≡ sd1 }
        ensures { Finds self.now (plain_faults self.now 4) Short result }
    {
        if self.fed < self.end + 2 {
            return Err(TelegramFault::Truncated);
        }
        if let Some(fault) = self.framed_fault() {
            return Err(fault);
        }
        Ok(ShortTelegram {
            da: self.da,
            sa: self.sa,
            fc: self.fc,
        })
    }

    #[inline(always)]
    fn var(&self) -> Result<VarTelegram, TelegramFault>
        requires { self.now.start ≡ sd2 }
        ensures { Finds self.now (var_faults self.now) Var result }
    {
        if self.fed < VAR_HEAD {
            return Err(TelegramFault::Truncated);
        }
        if !(4..=249).contains(&self.length_octet) {
            return Err(TelegramFault::BadLength);
        }
        if self.fed < self.end + 2 {
            return Err(TelegramFault::Truncated);
        }
        if self.again != self.length_octet {
            return Err(TelegramFault::LengthsDiffer);
        }
        if self.second != VAR_START {
            return Err(TelegramFault::BadSecondStart);
        }
        if let Some(fault) = self.framed_fault() {
            return Err(fault);
        }
        Ok(VarTelegram {
            da: self.da,
            sa: self.sa,
            fc: self.fc,
            unit: copy_octets(&self.unit),
        })
    }

    #[inline(always)]
    fn fixed(&self) -> Result<Fixed8Telegram, TelegramFault>
        requires { self.now.start ≡ sd3 }
        ensures { Finds self.now (plain_faults self.now 12) Fixed8 result }
    {
        if self.fed < self.end + 2 {
            return Err(TelegramFault::Truncated);
        }
        if let Some(fault) = self.framed_fault() {
            return Err(fault);
        }
        let mut unit = [0; 8];
        unit.copy_from_slice(self.unit.as_slice());
        Ok(Fixed8Telegram {
            da: self.da,
            sa: self.sa,
            fc: self.fc,
            unit,
        })
    }

    #[inline(always)]
    fn token(&self) -> Result<TokenTelegram, TelegramFault>
        requires { self.now.start ≡ sd4 }
        ensures { Finds self.now (token_faults self.now) Token result }
    {
        if self.fed < TOKEN_LENGTH {
            return Err(TelegramFault::Truncated);
        }
        if self.da > 126 || self.sa > 126 {
            return Err(TelegramFault::BadAddress);
        }
        if self.fed > TOKEN_LENGTH {
            return Err(TelegramFault::Trailing);
        }
        Ok(TokenTelegram {
            da: self.da,
            sa: self.sa,
        })
    }

    /// The first fault from the addresses on, of a telegram with a control octet.
    #[inline(always)]
    fn framed_fault(&self) -> Option<TelegramFault>
        requires { check_at self.now.start self.now.length_octet + 2 ≤ self.now.fed }
        ensures { result ≡ first_fault (faults_from_addresses self.now) }
    {
        if self.sa % 128 == 127 {
            return Some(TelegramFault::BadAddress);
        }
        if self.fc >= 128 {
            return Some(TelegramFault::BadFc);
        }
        if self.check != self.sum_octet {
            return Some(TelegramFault::BadFcs);
        }
        if self.last != END {
            return Some(TelegramFault::BadEnd);
        }
        if self.fed > self.end + 2 {
            return Some(TelegramFault::Trailing);
        }
        None
    }

    /// Takes the octet of the next character, or 0 for a damaged one. Most octets are a start or data; the others are
    /// taken out of line, for speed.
    #[inline(always)]
    fn take(&mut self, octet: u8)
        requires { self.old.fed < 2 ^ 64 - 1 }
        ensures { self.new ≡ taken self.old octet }
    {
        if self.fed == 0 {
            self.take_start(octet)
        } else if self.from + HEAD <= self.fed && self.fed < self.end {
            self.take_unit(octet)
        } else {
            self.take_around(octet)
        }
    }

    fn take_unit(&mut self, octet: u8)
        requires behind { da_from self.old.start + 3 ≤ self.old.fed }
        requires place { self.old.fed < check_at self.old.start self.old.length_octet }
        ensures { self.new ≡ with_unit self.old octet }
    {
        self.sum_octet = self.sum_octet.wrapping_add(octet);
        self.unit.push(octet);
        self.fed += 1;
    }

    /// Takes an octet after the start that is not part of the unit.
    #[inline(never)]
    fn take_around(&mut self, octet: u8)
        requires room { self.old.fed < 2 ^ 64 - 1 }
        requires some { 0 < self.old.fed }
        requires no_unit { self.old.fed < da_from self.old.start + 3
            ⊎ check_at self.old.start self.old.length_octet ≤ self.old.fed }
        ensures { self.new ≡ taken self.old octet }
    {
        if self.fed < self.from {
            self.take_length(octet)
        } else if self.fed < self.end {
            self.take_head(octet)
        } else {
            self.take_end(octet)
        }
    }

    #[inline(always)]
    fn take_start(&mut self, octet: u8)
        requires { self.old.fed ≡ 0 }
        ensures { self.new ≡ record (self.old) { fed = 1; start = octet; length_octet = 0 } }
    {
        (self.from, self.end) = match octet {
            VAR_START => (4, 7),
            FIXED_START => (1, 12),
            _ => (1, 4),
        };
        self.start = octet;
        self.length_octet = 0;
        self.fed = 1;
    }

    /// Takes a length octet, or the repeated start delimiter, of a telegram with data of variable length.
    fn take_length(&mut self, octet: u8)
        requires some { 0 < self.old.fed }
        requires place { self.old.fed < da_from self.old.start }
        ensures { self.new ≡ with_length self.old octet }
    {
        match self.fed {
            1 => {
                self.length_octet = octet;
                self.end = if (4..=249).contains(&octet) {
                    u64::from(octet) + 4
                } else {
                    7
                };
            }
            2 => self.again = octet,
            _ => self.second = octet,
        }
        self.fed += 1;
    }

    /// Takes an address or the control octet.
    fn take_head(&mut self, octet: u8)
        requires behind { da_from self.old.start ≤ self.old.fed }
        requires place { self.old.fed < da_from self.old.start + 3 }
        ensures { self.new ≡ with_head self.old (self.old.fed - da_from self.old.start) octet }
    {
        self.sum_octet = self.sum_octet.wrapping_add(octet);
        match self.fed - self.from {
            0 => self.da = octet,
            1 => self.sa = octet,
            _ => self.fc = octet,
        }
        self.fed += 1;
    }

    /// Takes an octet at or after the index of the check octet.
    fn take_end(&mut self, octet: u8)
        requires room { self.old.fed < 2 ^ 64 - 1 }
        requires place { check_at self.old.start self.old.length_octet ≤ self.old.fed }
        ensures { self.new ≡ with_end self.old (check_at self.old.start self.old.length_octet) octet }
    {
        if self.fed == self.end {
            self.check = octet;
        } else if self.fed == self.end + 1 {
            self.last = octet;
        }
        self.fed += 1;
    }
}
