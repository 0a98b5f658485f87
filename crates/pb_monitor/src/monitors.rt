//! A monitor: from the bytes of a capture to lines of text, as they come.

ghost use Rattle.std.specs.Prelude.{◌≡◌, List, ◌++◌, IfOk, IsFalse, IsTrue, None, OnOk, Result, Some, is_some, length, map, take};
ghost use Rattle.pb_telegram.specs.Grammar.{spelling};
ghost use Rattle.pb_telegram.specs.Receiving.{StandsFor};
ghost use Rattle.pb_telegram.specs.declared.chars.RxChar.{RxChar};
ghost use Rattle.pb_telegram.specs.declared.chars.RxChar.TheVariants.{Good};
ghost use Rattle.pb_telegram.specs.declared.telegrams.Telegram.{Telegram};
ghost use Rattle.pb_telegram.specs.declared.faults.TelegramFault.{TelegramFault};
ghost use Rattle.pb_monitor.specs.BurstTexts.{baud_text, burst_text, order_refused_text, refused_text, unit_of, untimed_text};
ghost use Rattle.pb_monitor.specs.Hearing.{has_lines, heard_text, heard_untimed_text, judge_behind, judge_for, judge_from, known_behind, known_timed, known_untimed, last_for, last_from, line_if, overlapped, raised_as, raised_by, raised_text, timed_text, untimed_line_if, wrong_by_order, wrong_text};
ghost use Rattle.pb_monitor.specs.Known.{alarmed, alarmed_if, forgotten, plus, refused};
ghost use Rattle.pb_monitor.specs.Lines.{IsTold};
ghost use Rattle.pb_monitor.specs.declared.lines.When.TheVariants.{From};
ghost use Rattle.pb_monitor.specs.Listening.{AreSaid, IsReadAs, behind, behind_line, behind_timed, burst_of, heard_of, line_told, one_line_more, setting_of, told, told_timed};
ghost use Rattle.pb_monitor.specs.Meanings.{arrival_in, meaning_of};
ghost use Rattle.pb_monitor.specs.Orders.{last_in};

use crate::alarms::Alarm;
use crate::buffers::LineBuffer;
use crate::bursts::{Burst, Rooms, octets_of};
use crate::cutting::Cutter;
use crate::formats::{Form, Options, why_unjudged};
use crate::heard_bursts::{HeardBurst, Kept, Known, Named, bits, named_before};
use crate::judges::Judge;
use crate::lines::{
    Characters, LONGEST_TELEGRAM, Line, LineFault, TimedLine, Told, When, push_line_fault,
    read_hex, read_line, timed_line,
};
use crate::meanings::{InitiatorTelegram, Meaning, meaning_in};
use crate::orders::{Order, Wrong};
use crate::pcap::Packets;
use crate::reports::{
    Raised, push_alarm, push_refused, push_untimed_alarm, put_content, put_named,
};
use crate::states::State;
use crate::statistics::Statistics;
use crate::summaries::push_summary;
use crate::texts::{push_counted, put, put_number};
use arrayvec::ArrayVec;
use bstr::ByteSlice;
use pb_telegram::{Receiver, read_octets};
use pb_timers::BusParams;
use std::alloc::{AllocError, Global};

/// Reads a capture as it comes, in constant memory: answers each burst with a line, judges it, and keeps statistics.
///
/// After input that is refused, a moment that falls, or a gap, the judge begins anew, as one that has just begun to listen.
#[derive(Drop)]
pub struct Monitor {
    pub(crate) params: Option<BusParams>,
    pub(crate) options: Options,
    pub(crate) judge: Option<Judge>,
    pub(crate) order: Order,
    pub(crate) statistics: Statistics,
    pub(crate) receiver: Receiver,
    pub(crate) lines: LineBuffer,
    pub(crate) kept: Kept,
    pub(crate) cutter: Cutter,
    pub(crate) packets: Packets,
    /// How many lines, octets or packets came before.
    pub(crate) place: u64,
    /// How many octets were skipped in a row.
    pub(crate) skipped: u64,
    /// When the first packet came, in bit times since the file's epoch.
    pub(crate) origin: Option<u128>,
    /// The same, if it has 64 bits.
    pub(crate) near_origin: Option<u64>,
    /// When the next summary is due.
    pub(crate) due: Option<u64>,
    /// The summaries, where they are kept apart.
    pub(crate) apart: Option<Vec<u8>>,
}

impl Monitor {
    ghost use Rattle.std.specs.Prelude.{◌≡◌, ◌<◌, ◌≤◌, ◌||◌, nat_lt, [], length, true, IfSome, MatchOption, None};

    /// A monitor of a bus with these parameters. Without parameters it decodes and counts, and judges nothing.
    ///
    /// Fault: memory was refused.
    pub fn new(
        alloc: Global,
        params: Option<BusParams>,
        options: Options,
    ) -> Result<Monitor, AllocError> {
        let statistics = Statistics::new(alloc, params.as_ref(), options.slack)?;
        Ok(Monitor {
            params,
            options,
            judge: None,
            order: Order::new(),
            statistics,
            receiver: Receiver::new(),
            lines: LineBuffer::new(alloc),
            kept: Kept::new(alloc),
            cutter: Cutter::new(),
            packets: Packets::new(),
            place: 0,
            skipped: 0,
            origin: None,
            near_origin: None,
            due: None,
            apart: None,
        })
    }

    /// Reads the next bytes of the capture, and appends the lines for what they complete.
    ///
    /// Fault: memory was refused.
    pub fn feed(&mut self, bytes: &[u8], text: &mut Vec<u8>) -> Result<(), AllocError> {
        match self.options.form {
            Form::Lines => self.feed_lines(bytes, text),
            Form::Raw => self.feed_octets(bytes, text),
            Form::Pcap => self.feed_packets(bytes, text),
        }
    }

    /// The capture ends: appends the lines for what is left of it, and the summary.
    ///
    /// Fault: memory was refused.
    pub fn finish(&mut self, text: &mut Vec<u8>) -> Result<(), AllocError> {
        match self.options.form {
            Form::Lines => if !self.lines.is_empty() {
                self.end_line(text)?;
            },
            Form::Raw => self.end_octets(text)?,
            Form::Pcap => if let Some(item) = self.packets.end() {
                self.hear_item(item, text)?;
            },
        }
        self.statistics.close();
        if self.kept.is_wanted() {
            return Ok(());
        }
        self.push_summary(text)
    }

    /// From now on summaries are kept apart from the other lines, those of bursts, of alarms and of refused input.
    pub fn set_apart(&mut self, alloc: Global)
        ensures apart { MatchOption self.new.apart ⊥ (λ kept. kept.items ≡ []) }
        ensures rest { record self.new { apart = None } ≡ record self.old { apart = None } }
    {
        self.apart = Some(Vec::new(alloc));
    }

    /// The summaries since the last call of [`clear_summaries`](Monitor::clear_summaries), if they are kept apart.
    pub fn summaries(&self) -> &[u8]
        ensures { MatchOption self.now.apart (result.now ≡ []) (λ kept. result.now ≡ kept.items) }
    {
        match &self.apart {
            Some(kept) => kept.as_slice(),
            None => &[],
        }
    }

    /// Forgets the summaries that were kept apart.
    pub fn clear_summaries(&mut self)
        ensures apart { MatchOption self.new.apart (self.old.apart ≡ None) (λ kept. kept.items ≡ []) }
        ensures rest { record self.new { apart = None } ≡ record self.old { apart = None } }
    {
        if let Some(kept) = &mut self.apart {
            kept.clear();
        }
    }

    /// From now on bursts are handed on, in place of a line for each and a summary.
    pub fn hand_on(&mut self)
        ensures { self.new ≡ record self.old { kept = record self.old.kept { is_wanted = true } } }
    {
        self.kept.want();
    }

    /// The bursts that were heard since the last call of [`clear_heard`](Monitor::clear_heard), if they are handed on.
    pub fn heard(&self) -> &[HeardBurst]
        ensures { result.now ≡ self.now.kept.bursts.items }
    {
        self.kept.bursts()
    }

    /// Forgets the bursts that were handed on.
    pub fn clear_heard(&mut self)
        ensures { self.new.kept.bursts.items ≡ [] }
    {
        self.kept.clear();
    }

    /// What is known of the bus.
    pub fn statistics(&self) -> &Statistics
        ensures { result.now ≡ self.now.statistics }
    {
        &self.statistics
    }

    /// Whether input was refused or an alarm raised.
    pub fn is_refused(&self) -> bool
        ensures { result ≡ (nat_lt 0 self.now.statistics.traffic.refused
            || nat_lt 0 self.now.statistics.traffic.alarms) }
    {
        let traffic = self.statistics.traffic();
        traffic.refused > 0 || traffic.alarms > 0
    }

    // ---- lines

    fn feed_lines(&mut self, bytes: &[u8], text: &mut Vec<u8>) -> Result<(), AllocError> {
        let mut room = [0; LONGEST_TELEGRAM];
        let mut rooms = Rooms::new();
        let is_kept = self.kept.is_wanted();
        let mut left = bytes;
        while !left.is_empty() {
            let timed = if is_kept || !self.lines.is_empty() {
                None
            } else {
                timed_line(left, &mut room)
            };
            let taken = match timed {
                Some(line) => {
                    self.hear_timed_line(line, &room, &mut rooms, text)?;
                    line.taken
                }
                None => self.feed_line(left, &mut room, &mut rooms, text)?,
            };
            left = &left[taken..];
        }
        Ok(())
    }

    /// A line comes that gives both moments and spells these octets.
    #[inline(always)]
    fn hear_timed_line(
        &mut self,
        line: TimedLine,
        room: &[u8; LONGEST_TELEGRAM],
        rooms: &mut Rooms,
        text: &mut Vec<u8>,
    ) -> Result<(), AllocError>
        requires { line.count ≤ 255 }
        ensures text { (r : Result Telegram TelegramFault) → IsReadAs (map Good (take line.count room.now)) r
            → self.old.options.every ≡ None → OnOk result (text.new.items ≡ text.old.items
            ++ told_timed (setting_of self.old) (one_line_more (heard_of self.old))
            (record { begin = line.begin; end = line.end; telegram = r })) }
        ensures heard { (r : Result Telegram TelegramFault)
            → IsReadAs (map Good (take line.count room.now)) r
            → OnOk result (heard_of self.new ≡ behind_timed (setting_of self.old)
            (record { begin = line.begin; end = line.end; telegram = r })
            (one_line_more (heard_of self.old))) }
        ensures setting { OnOk result (setting_of self.new ≡ setting_of self.old) }
        ensures lines { OnOk result (self.new.lines ≡ self.old.lines) }
    {
        self.place = self.place.saturating_add(1);
        let when = When::Within {
            begin: line.begin,
            end: line.end,
        };
        self.hear_octets(when, &room[..line.count], rooms, text)
    }

    /// Reads the next line, or what has come of it, and returns how many bytes it took.
    #[inline(never)]
    fn feed_line(
        &mut self,
        bytes: &[u8],
        room: &mut [u8; LONGEST_TELEGRAM],
        rooms: &mut Rooms,
        text: &mut Vec<u8>,
    ) -> Result<usize, AllocError>
        requires { 0 < length bytes.now }
        ensures some { IfOk result (λ taken. 0 < taken) }
        ensures within { IfOk result (λ taken. taken ≤ length bytes.now) }
    {
        let Some(end) = bytes.find_byte(b'\n') else {
            self.lines.keep(bytes)?;
            return Ok(bytes.len());
        };
        if self.lines.is_empty() {
            self.hear_line(&bytes[..end], room, rooms, text)?;
        } else {
            self.lines.keep(&bytes[..end])?;
            self.end_line(text)?;
        }
        Ok(end + 1)
    }

    /// The line that came in pieces ends.
    #[inline(never)]
    fn end_line(&mut self, text: &mut Vec<u8>) -> Result<(), AllocError> {
        self.place = self.place.saturating_add(1);
        let mut room = [0; LONGEST_TELEGRAM];
        let mut rooms = Rooms::new();
        let line = match self.lines.line() {
            Some(line) => read_line(line),
            None => Line::Refused(LineFault::TooLong),
        };
        let told = tell(
            line,
            self.place,
            &mut room,
            &mut self.receiver,
            &mut self.kept,
            text,
        )?;
        self.lines.restart();
        self.hear_told(told, &room, &mut rooms, text)
    }

    /// A whole line comes. `room` and `rooms` are overwritten.
    fn hear_line(
        &mut self,
        line: &[u8],
        room: &mut [u8; LONGEST_TELEGRAM],
        rooms: &mut Rooms,
        text: &mut Vec<u8>,
    ) -> Result<(), AllocError> {
        self.place = self.place.saturating_add(1);
        let told = tell(
            read_line(line),
            self.place,
            room,
            &mut self.receiver,
            &mut self.kept,
            text,
        )?;
        self.hear_told(told, room, rooms, text)
    }

    fn hear_told(
        &mut self,
        told: Told,
        room: &[u8; LONGEST_TELEGRAM],
        rooms: &mut Rooms,
        text: &mut Vec<u8>,
    ) -> Result<(), AllocError>
        requires { IsTold told }
        ensures text { (chars : List RxChar) → AreSaid told room.now self.old.receiver chars
            → (r : Result Telegram TelegramFault) → IsReadAs chars r → self.old.options.every ≡ None
            → OnOk result (text.new.items ≡ text.old.items
            ++ line_told (setting_of self.old) (heard_of self.old) told (length chars) r) }
        ensures heard { (chars : List RxChar) → AreSaid told room.now self.old.receiver chars
            → (r : Result Telegram TelegramFault) → IsReadAs chars r → OnOk result (heard_of self.new
            ≡ behind_line (setting_of self.old) told (length chars) r (heard_of self.old)) }
        ensures setting { OnOk result (setting_of self.new ≡ setting_of self.old) }
        ensures lines { OnOk result (self.new.lines ≡ self.old.lines) }
    {
        match told {
            Told::Nothing => Ok(()),
            Told::Gap => {
                self.begin_anew();
                Ok(())
            }
            Told::Refused => {
                self.refuse();
                Ok(())
            }
            Told::Burst(when, Characters::Octets(count)) => {
                self.hear_rare_octets(when, &room[..count], rooms, text)
            }
            Told::Burst(when, Characters::Fed) => self.hear_fed(when, 0, text),
        }
    }

    /// A burst of these octets has come, outside of the loops in which most come.
    #[inline(never)]
    pub(crate) fn hear_rare_octets(
        &mut self,
        when: When,
        octets: &[u8],
        rooms: &mut Rooms,
        text: &mut Vec<u8>,
    ) -> Result<(), AllocError>
        ensures text { (r : Result Telegram TelegramFault) → IsReadAs (map Good octets.now) r
            → self.old.options.every ≡ None → OnOk result (text.new.items ≡ text.old.items
            ++ told (setting_of self.old) (heard_of self.old) when (burst_of when (length octets.now) r)) }
        ensures heard { (r : Result Telegram TelegramFault) → IsReadAs (map Good octets.now) r
            → OnOk result (heard_of self.new ≡ behind (setting_of self.old) when
            (burst_of when (length octets.now) r) (heard_of self.old)) }
        ensures setting { OnOk result (setting_of self.new ≡ setting_of self.old) }
        ensures lines { OnOk result (self.new.lines ≡ self.old.lines) }
    {
        self.hear_octets(when, octets, rooms, text)
    }

    /// A burst of these octets has come. `rooms` is overwritten.
    #[inline(always)]
    pub(crate) fn hear_octets(
        &mut self,
        when: When,
        octets: &[u8],
        rooms: &mut Rooms,
        text: &mut Vec<u8>,
    ) -> Result<(), AllocError>
        ensures text { (r : Result Telegram TelegramFault) → IsReadAs (map Good octets.now) r
            → self.old.options.every ≡ None → OnOk result (text.new.items ≡ text.old.items
            ++ told (setting_of self.old) (heard_of self.old) when (burst_of when (length octets.now) r)) }
        ensures heard { (r : Result Telegram TelegramFault) → IsReadAs (map Good octets.now) r
            → OnOk result (heard_of self.new ≡ behind (setting_of self.old) when
            (burst_of when (length octets.now) r) (heard_of self.old)) }
        ensures setting { OnOk result (setting_of self.new ≡ setting_of self.old) }
        ensures lines { OnOk result (self.new.lines ≡ self.old.lines) }
    {
        let burst = rooms.room(octets);
        read_octets(octets, &mut self.receiver, &mut burst.telegram);
        self.hear_when(when, burst, octets, octets.len() as u64, text)
    }

    /// A burst of these octets has come, from a moment on. `rooms` is overwritten.
    #[inline(always)]
    pub(crate) fn hear_octets_from(
        &mut self,
        begin: u64,
        octets: &[u8],
        rooms: &mut Rooms,
        text: &mut Vec<u8>,
    ) -> Result<(), AllocError>
        ensures text { (r : Result Telegram TelegramFault) → IsReadAs (map Good octets.now) r
            → self.old.options.every ≡ None → OnOk result (text.new.items ≡ text.old.items
            ++ told (setting_of self.old) (heard_of self.old) (From begin)
            (burst_of (From begin) (length octets.now) r)) }
        ensures heard { (r : Result Telegram TelegramFault) → IsReadAs (map Good octets.now) r
            → OnOk result (heard_of self.new ≡ behind (setting_of self.old) (From begin)
            (burst_of (From begin) (length octets.now) r) (heard_of self.old)) }
        ensures setting { OnOk result (setting_of self.new ≡ setting_of self.old) }
        ensures lines { OnOk result (self.new.lines ≡ self.old.lines) }
    {
        let count = octets.len() as u64;
        let burst = rooms.room(octets);
        burst.begin = begin;
        burst.end = begin.saturating_add(bits(count));
        read_octets(octets, &mut self.receiver, &mut burst.telegram);
        self.hear_timed(burst, octets, count, text)
    }

    /// A burst of the characters that the receiver was fed has come, and of so many that it was not fed.
    #[inline(never)]
    pub(crate) fn hear_fed(
        &mut self,
        when: When,
        unfed: u64,
        text: &mut Vec<u8>,
    ) -> Result<(), AllocError>
        ensures text { (chars : List RxChar) → StandsFor self.old.receiver chars
            → (r : Result Telegram TelegramFault) → IsReadAs chars r → self.old.options.every ≡ None
            → OnOk result (text.new.items ≡ text.old.items ++ told (setting_of self.old)
            (heard_of self.old) when (burst_of when (plus (length chars) unfed) r)) }
        ensures heard { (chars : List RxChar) → StandsFor self.old.receiver chars
            → (r : Result Telegram TelegramFault) → IsReadAs chars r → OnOk result (heard_of self.new
            ≡ behind (setting_of self.old) when (burst_of when (plus (length chars) unfed) r)
            (heard_of self.old)) }
        ensures setting { OnOk result (setting_of self.new ≡ setting_of self.old) }
        ensures lines { OnOk result (self.new.lines ≡ self.old.lines) }
    {
        let mut burst = Burst::none();
        burst.telegram = self.receiver.answer();
        let octets = octets_of(&burst.telegram);
        let count = self.receiver.fed().saturating_add(unfed);
        self.hear_when(when, &mut burst, &octets, count, text)
    }

    /// A burst of so many characters has come. These are the octets of its telegram, if it has one.
    #[inline(always)]
    fn hear_when(
        &mut self,
        when: When,
        burst: &mut Burst,
        octets: &[u8],
        count: u64,
        text: &mut Vec<u8>,
    ) -> Result<(), AllocError>
        requires { IfOk burst.old.telegram (λ t. octets.now ≡ spelling t) }
        ensures text { self.old.options.every ≡ None → OnOk result (text.new.items ≡ text.old.items
            ++ told (setting_of self.old) (heard_of self.old) when
            (burst_of when count burst.old.telegram)) }
        ensures heard { OnOk result (heard_of self.new ≡ behind (setting_of self.old) when
            (burst_of when count burst.old.telegram) (heard_of self.old)) }
        ensures setting { OnOk result (setting_of self.new ≡ setting_of self.old) }
        ensures lines { OnOk result (self.new.lines ≡ self.old.lines) }
    {
        match when {
            When::Within { begin, end } => {
                burst.begin = begin;
                burst.end = end;
            }
            When::From(begin) => {
                burst.begin = begin;
                burst.end = begin.saturating_add(bits(count));
            }
            When::Unknown => {
                burst.begin = 0;
                burst.end = 0;
                return self.hear_untimed(burst, octets, count, text);
            }
        }
        self.hear_timed(burst, octets, count, text)
    }

    // ---- bursts

    /// Something was missed.
    pub(crate) fn begin_anew(&mut self)
        ensures anew { self.new ≡ record self.old {
          judge = None;
          order = self.new.order;
          statistics = forgotten self.old.statistics;
        } }
        ensures order { self.new.order.last ≡ None }
    {
        self.judge = None;
        self.order = Order::new();
        self.statistics.forget();
    }

    /// Some input was refused.
    pub(crate) fn refuse(&mut self)
        ensures anew { self.new ≡ record self.old {
          judge = None;
          order = self.new.order;
          statistics = refused (forgotten self.old.statistics);
        } }
        ensures order { self.new.order.last ≡ None }
    {
        self.begin_anew();
        self.statistics.refuse();
    }

    /// A burst with moments, of so many characters. These are the octets of its telegram, if it has one. One that begins
    /// before the end of the last one is told, and heard as the first of all.
    #[inline(always)]
    #[tactic(auto, using(crate::proofs::Appending::front))]
    fn hear_timed(
        &mut self,
        burst: &Burst,
        octets: &[u8],
        count: u64,
        text: &mut Vec<u8>,
    ) -> Result<(), AllocError>
        requires { IfOk burst.now.telegram (λ t. octets.now ≡ spelling t) }
        ensures text { self.old.options.every ≡ None → OnOk result (text.new.items ≡ text.old.items
            ++ timed_text self.old.params self.old.options self.old.kept.is_wanted self.old.place
            self.old.statistics.quiet burst.now self.old.judge) }
        ensures judge { OnOk result (self.new.judge ≡ judge_behind burst.now
            (judge_for self.old.params self.old.options self.old.statistics.quiet burst.now.begin
            self.old.judge)) }
        ensures statistics { OnOk result (self.new.statistics
            ≡ known_timed self.old.params self.old.options burst.now self.old.judge self.old.statistics) }
        ensures last { OnOk result (self.new.order.last ≡ last_for self.old.params self.old.options
            self.old.statistics.quiet burst.now.begin self.old.judge self.old.order.last) }
        ensures kept { OnOk result (self.new.kept.is_wanted ≡ self.old.kept.is_wanted) }
        ensures rest { OnOk result (self.new ≡ record self.old {
          judge = self.new.judge;
          order = self.new.order;
          statistics = self.new.statistics;
          kept = self.new.kept;
          due = self.new.due;
          apart = self.new.apart;
        }) }
    {
        if let Some(quiet) = self.overlapped(burst.begin) {
            self.refuse_order(burst.begin, quiet, text)?;
        }
        self.hear_next(burst, octets, count, text)
    }

    /// The end of the last burst, if one that begins at a moment begins before it.
    #[inline(always)]
    fn overlapped(&self, begin: u64) -> Option<u64>
        ensures { result ≡ overlapped self.now.statistics.quiet self.now.options.slack begin }
    {
        let quiet = self.statistics.quiet()?;
        if begin.saturating_add(u64::from(self.options.slack)) < quiet {
            return Some(quiet);
        }
        None
    }

    /// The next burst with moments, which begins no sooner than the last one ends.
    #[inline(always)]
    #[tactic(auto, using(crate::proofs::Hearing::line_alone, crate::proofs::Hearing::known_alone))]
    fn hear_next(
        &mut self,
        burst: &Burst,
        octets: &[u8],
        count: u64,
        text: &mut Vec<u8>,
    ) -> Result<(), AllocError>
        requires { IfOk burst.now.telegram (λ t. octets.now ≡ spelling t) }
        ensures text { self.old.options.every ≡ None → OnOk result (text.new.items ≡ text.old.items
            ++ heard_text self.old.params self.old.options self.old.kept.is_wanted burst.now
            (judge_from self.old.params self.old.options burst.now.begin self.old.judge)) }
        ensures judge { OnOk result (self.new.judge ≡ judge_behind burst.now
            (judge_from self.old.params self.old.options burst.now.begin self.old.judge)) }
        ensures statistics { OnOk result (self.new.statistics ≡ known_behind burst.now
            (judge_from self.old.params self.old.options burst.now.begin self.old.judge)
            self.old.statistics) }
        ensures last { self.new.order.last
            ≡ last_from self.old.params self.old.judge self.old.order.last }
        ensures kept { OnOk result (self.new.kept.is_wanted ≡ self.old.kept.is_wanted) }
        ensures rest { self.new ≡ record self.old {
          judge = self.new.judge;
          order = self.new.order;
          statistics = self.new.statistics;
          kept = self.new.kept;
          due = self.new.due;
          apart = self.new.apart;
        } }
    {
        self.statistics.hear_spelled(burst, octets);
        if self.kept.is_wanted() {
            return self.keep_timed(burst, count, text);
        }
        self.begin_judging(burst.begin);
        if self.is_wrong(burst) {
            return self.hear_wrong(burst, text);
        }
        self.tell_burst(burst, text)?;
        self.summarize(burst.end, text)
    }

    /// Whether a burst raises an alarm. If not, the judge, if there is one, hears it.
    #[inline(always)]
    fn is_wrong(&mut self, burst: &Burst) -> bool
        ensures wrong { IsTrue result → self.new ≡ self.old }
        ensures right { IsFalse result → self.new ≡ record self.old { judge = judge_behind burst.now self.old.judge } }
        ensures none { IsFalse result → raised_by burst.now self.old.judge ≡ None }
    {
        let Some(judge) = &mut self.judge else {
            return false;
        };
        let meaning = meaning_in(&burst.telegram);
        // Only tokens and requests raise alarms; a path for each kind keeps more in registers.
        match meaning {
            Meaning::Initiator(telegram) => {
                let meaning = Meaning::Initiator(telegram);
                if judge.alarm(burst, meaning).is_some() {
                    return true;
                }
                judge.keep(burst, meaning);
            }
            Meaning::Reply => judge.keep(burst, Meaning::Reply),
            Meaning::NoTelegram => judge.keep(burst, Meaning::NoTelegram),
        }
        false
    }

    /// A burst that raises an alarm.
    #[inline(never)]
    #[tactic(auto, using(crate::proofs::Appending::front))]
    fn hear_wrong(&mut self, burst: &Burst, text: &mut Vec<u8>) -> Result<(), AllocError>
        ensures text { self.old.options.every ≡ None → OnOk result (text.new.items ≡ text.old.items
            ++ heard_text self.old.params self.old.options self.old.kept.is_wanted burst.now
            (judge_from self.old.params self.old.options burst.now.begin self.old.judge)) }
        ensures statistics { OnOk result (self.new.statistics ≡ alarmed_if (is_some (raised_by burst.now
            (judge_from self.old.params self.old.options burst.now.begin self.old.judge)))
            self.old.statistics) }
        ensures rest { self.new ≡ record self.old {
          judge = judge_behind burst.now
              (judge_from self.old.params self.old.options burst.now.begin self.old.judge);
          order = self.new.order;
          statistics = self.new.statistics;
          due = self.new.due;
          apart = self.new.apart;
        } }
        ensures last { self.new.order.last
            ≡ last_from self.old.params self.old.judge self.old.order.last }
    {
        let wrong = self.judge(burst);
        self.tell_burst(burst, text)?;
        self.tell_raised(&wrong, burst.begin, text)?;
        self.summarize(burst.end, text)
    }

    /// A burst that begins before the end of the last one.
    #[inline(never)]
    fn refuse_order(&mut self, begin: u64, quiet: u64, text: &mut Vec<u8>) -> Result<(), AllocError>
        ensures text { OnOk result (text.new.items ≡ text.old.items
            ++ order_refused_text self.old.options.form self.old.place begin quiet) }
        ensures anew { OnOk result (self.new ≡ record self.old {
          judge = None;
          order = self.new.order;
          statistics = refused (forgotten self.old.statistics);
        }) }
        ensures order { OnOk result (self.new.order.last ≡ None) }
    {
        self.push_order(begin, quiet, text)?;
        self.refuse();
        Ok(())
    }

    /// Appends the line of a burst that begins before the end of the last one.
    fn push_order(&self, begin: u64, quiet: u64, text: &mut Vec<u8>) -> Result<(), AllocError>
        ensures { OnOk result (text.new.items ≡ text.old.items
            ++ order_refused_text self.now.options.form self.now.place begin quiet) }
    {
        self.push_place(text)?;
        push_counted(text, b"the burst begins at ", begin)?;
        push_counted(text, b", before the last one ends at ", quiet)?;
        text.extend_from_slice(b"; wanted: bursts in order")?;
        text.extend_from_slice(baud_question(self.options.form).as_bytes())?;
        text.extend_from_slice(b"\n")
    }

    /// Judges a burst with moments that is handed on.
    #[inline(never)]
    fn keep_timed(
        &mut self,
        burst: &Burst,
        count: u64,
        text: &mut Vec<u8>,
    ) -> Result<(), AllocError>
        ensures text { self.old.options.every ≡ None → OnOk result (text.new.items ≡ text.old.items
            ++ raised_text self.old.params self.old.options.slack burst.now.begin (raised_by burst.now
            (judge_from self.old.params self.old.options burst.now.begin self.old.judge))) }
        ensures statistics { OnOk result (self.new.statistics ≡ alarmed_if (is_some (raised_by burst.now
            (judge_from self.old.params self.old.options burst.now.begin self.old.judge)))
            self.old.statistics) }
        ensures rest { self.new ≡ record self.old {
          judge = judge_behind burst.now
              (judge_from self.old.params self.old.options burst.now.begin self.old.judge);
          order = self.new.order;
          statistics = self.new.statistics;
          kept = self.new.kept;
          due = self.new.due;
          apart = self.new.apart;
        } }
        ensures last { self.new.order.last
            ≡ last_from self.old.params self.old.judge self.old.order.last }
        ensures kept { self.new.kept.is_wanted ≡ self.old.kept.is_wanted }
    {
        let before = self.named_before(burst.begin);
        let raised = self.judge(burst);
        self.keep(burst, count, before, raised.as_ref())?;
        self.tell_raised(&raised, burst.begin, text)?;
        self.summarize(burst.end, text)
    }

    /// The judge listens since the first burst that it hears, which begins at a moment.
    fn begin_judging(&mut self, begin: u64)
        ensures begun { self.new ≡ record self.old {
          judge = judge_from self.old.params self.old.options begin self.old.judge;
          order = self.new.order;
        } }
        ensures last { self.new.order.last
            ≡ last_from self.old.params self.old.judge self.old.order.last }
    {
        if self.judge.is_none()
            && let Some(params) = &self.params
        {
            let Options { classes, slack, .. } = self.options;
            self.judge = Some(Judge::new(params, slack, classes, begin));
            // What comes between bursts without moments is not judged by their order.
            self.order = Order::new();
        }
    }

    /// The alarm that a burst raises.
    fn judge(&mut self, burst: &Burst) -> Option<Raised>
        ensures raised { result ≡ raised_by burst.now
            (judge_from self.old.params self.old.options burst.now.begin self.old.judge) }
        ensures rest { self.new ≡ record self.old {
          judge = judge_behind burst.now
              (judge_from self.old.params self.old.options burst.now.begin self.old.judge);
          order = self.new.order;
        } }
        ensures last { self.new.order.last
            ≡ last_from self.old.params self.old.judge self.old.order.last }
    {
        self.begin_judging(burst.begin);
        self.judge_next(burst)
    }

    /// The alarm that a burst raises, if there is a judge.
    fn judge_next(&mut self, burst: &Burst) -> Option<Raised>
        ensures raised { result ≡ raised_by burst.now self.old.judge }
        ensures rest { self.new ≡ record self.old { judge = judge_behind burst.now self.old.judge } }
    {
        let Some(judge) = &mut self.judge else {
            return None;
        };
        hear_raised(judge, burst)
    }

    /// Whether bursts have lines: neither a summary alone is wanted, nor that bursts are handed on.
    pub(crate) fn is_told(&self) -> bool
        ensures { result ≡ has_lines self.now.options self.now.kept.is_wanted }
    {
        self.options.summary.is_none() && !self.kept.is_wanted()
    }

    /// Who may send tokens and requests just before a burst that begins at a moment.
    fn named_before(&self, begin: u64) -> Option<Named>
        ensures { IfSome result (λ named. named.since ≤ begin) }
    {
        let params = self.params.as_ref()?;
        let judge = self.judge.as_ref()?;
        Some(named_before(params, self.options.slack, judge.state(), begin))
    }

    /// Keeps a burst with moments, to hand it on.
    fn keep(
        &mut self,
        burst: &Burst,
        count: u64,
        before: Option<Named>,
        raised: Option<&Raised>,
    ) -> Result<(), AllocError>
        ensures kept { self.new.kept.is_wanted ≡ self.old.kept.is_wanted }
        ensures rest { self.new ≡ record self.old { kept = self.new.kept } }
    {
        let holder = match &self.judge {
            Some(judge) => Some(judge.holder(burst.end)),
            None => None,
        };
        self.kept.end(Known {
            span: Some((burst.begin, burst.end)),
            count,
            before,
            holder,
            alarm: raised.map(|raised| raised.alarm),
        })
    }

    /// Appends the line of a burst.
    #[inline(never)]
    #[tactic(auto, using(crate::proofs::Appending::line_with_end, crate::proofs::Appending::line_with_more))]
    fn push_burst(&self, burst: &Burst, text: &mut Vec<u8>) -> Result<(), AllocError>
        ensures { OnOk result (text.new.items ≡ text.old.items ++ burst_text burst.now self.now.judge) }
    {
        let mut line = ArrayVec::new();
        put_number(&mut line, burst.begin);
        put(&mut line, b" ");
        put_number(&mut line, burst.end);
        put(&mut line, b" ");
        put_content(&mut line, &burst.telegram, text)?;
        put_named(&mut line, &self.judge, burst.end);
        put(&mut line, b"\n");
        text.extend_from_slice(&line)
    }

    /// Appends the line of a burst, if bursts have lines.
    #[inline(always)]
    fn tell_burst(&self, burst: &Burst, text: &mut Vec<u8>) -> Result<(), AllocError>
        ensures { OnOk result (text.new.items ≡ text.old.items
            ++ line_if (has_lines self.now.options self.now.kept.is_wanted) burst.now self.now.judge) }
    {
        if !self.is_told() {
            return Ok(());
        }
        self.push_burst(burst, text)
    }

    /// Counts an alarm and appends its line, if there is one.
    fn tell_raised(
        &mut self,
        raised: &Option<Raised>,
        begin: u64,
        text: &mut Vec<u8>,
    ) -> Result<(), AllocError>
        ensures text { OnOk result (text.new.items ≡ text.old.items
            ++ raised_text self.old.params self.old.options.slack begin raised.now) }
        ensures rest { self.new ≡ record self.old {
          statistics = alarmed_if (is_some raised.now) self.old.statistics;
        } }
    {
        match raised {
            Some(raised) => self.tell_alarm(raised, begin, text),
            None => Ok(()),
        }
    }

    /// Counts an alarm and appends its line.
    fn tell_alarm(
        &mut self,
        raised: &Raised,
        begin: u64,
        text: &mut Vec<u8>,
    ) -> Result<(), AllocError>
        ensures text { OnOk result (text.new.items ≡ text.old.items
            ++ raised_text self.old.params self.old.options.slack begin (Some raised.now)) }
        ensures rest { self.new ≡ record self.old { statistics = alarmed self.old.statistics } }
    {
        self.statistics.raise();
        match &self.params {
            Some(params) => push_alarm(text, params, self.options.slack, raised, begin),
            None => Ok(()),
        }
    }

    /// Appends a summary if one is due.
    #[inline(always)]
    fn summarize(&mut self, moment: u64, text: &mut Vec<u8>) -> Result<(), AllocError>
        ensures none { self.old.options.every ≡ None → text.new.items ≡ text.old.items }
        ensures rest { self.new ≡ record self.old { due = self.new.due; apart = self.new.apart } }
    {
        match self.options.every {
            Some(every) => self.summarize_every(every, moment, text),
            None => Ok(()),
        }
    }

    /// Appends a summary if so many bit times have passed.
    #[inline(never)]
    fn summarize_every(
        &mut self,
        every: u64,
        moment: u64,
        text: &mut Vec<u8>,
    ) -> Result<(), AllocError>
        ensures { self.new ≡ record self.old { due = self.new.due; apart = self.new.apart } }
    {
        let due = self.due.unwrap_or(moment.saturating_add(every));
        self.due = Some(due);
        if moment < due {
            return Ok(());
        }
        self.due = Some(moment.saturating_add(every));
        self.push_summary(text)
    }

    /// Appends a summary in the form that is asked for.
    fn push_summary(&mut self, text: &mut Vec<u8>) -> Result<(), AllocError>
        ensures { self.new ≡ record self.old { apart = self.new.apart } }
    {
        let Options { form, classes, .. } = self.options;
        let has_moments = self.statistics.traffic().has_moments();
        let unjudged = why_unjudged(self.params.is_some(), form, classes, has_moments);
        let form = self.options.summary;
        match &mut self.apart {
            Some(kept) => push_summary(kept, &self.statistics, unjudged, form),
            None => push_summary(text, &self.statistics, unjudged, form),
        }
    }

    /// A burst without moments: it is judged by the order of telegrams alone. These are the octets of its telegram, if it
    /// has one.
    #[tactic(auto, using(crate::proofs::Appending::front))]
    fn hear_untimed(
        &mut self,
        burst: &Burst,
        octets: &[u8],
        count: u64,
        text: &mut Vec<u8>,
    ) -> Result<(), AllocError>
        requires { IfOk burst.now.telegram (λ t. octets.now ≡ spelling t) }
        ensures text { OnOk result (text.new.items ≡ text.old.items ++ heard_untimed_text self.old.params
            self.old.options self.old.kept.is_wanted burst.now self.old.order.last) }
        ensures judge { self.new.judge ≡ None }
        ensures last { OnOk result (self.new.order.last
            ≡ last_in self.old.order.last (meaning_of (arrival_in burst.now.telegram))) }
        ensures statistics { OnOk result (self.new.statistics ≡ known_untimed self.old.params
            self.old.options burst.now self.old.order.last self.old.statistics) }
        ensures kept { self.new.kept.is_wanted ≡ self.old.kept.is_wanted }
        ensures rest { self.new ≡ record self.old {
          judge = self.new.judge;
          order = self.new.order;
          statistics = self.new.statistics;
          kept = self.new.kept;
        } }
    {
        self.judge = None;
        let meaning = meaning_in(&burst.telegram);
        self.statistics.hear_untimed(burst, octets);
        self.tell_untimed(burst, text)?;
        let last = self.order.last();
        let wrong = self.judge_order(meaning);
        if self.kept.is_wanted() {
            self.kept.end(Known {
                span: None,
                count,
                before: None,
                holder: None,
                alarm: wrong.map(|wrong| wrong.alarm),
            })?;
        }
        self.tell_wrong(wrong, last, text)
    }

    /// Appends the line of a burst without moments, if bursts have lines.
    fn tell_untimed(&self, burst: &Burst, text: &mut Vec<u8>) -> Result<(), AllocError>
        ensures { OnOk result (text.new.items ≡ text.old.items
            ++ untimed_line_if (has_lines self.now.options self.now.kept.is_wanted) burst.now) }
    {
        if !self.is_told() {
            return Ok(());
        }
        push_untimed(burst, text)
    }

    /// Counts an alarm of a burst without moments and appends its line, if there is one.
    fn tell_wrong(
        &mut self,
        wrong: Option<Wrong>,
        last: Option<InitiatorTelegram>,
        text: &mut Vec<u8>,
    ) -> Result<(), AllocError>
        ensures text { OnOk result (text.new.items ≡ text.old.items ++ wrong_text last wrong) }
        ensures rest { self.new ≡ record self.old {
          statistics = alarmed_if (is_some wrong) self.old.statistics;
        } }
    {
        match wrong {
            Some(Wrong { alarm, source }) => {
                self.statistics.raise();
                push_untimed_alarm(text, alarm, last, source)
            }
            None => Ok(()),
        }
    }

    /// The alarm that a telegram without moments raises.
    fn judge_order(&mut self, meaning: Meaning) -> Option<Wrong>
        ensures wrong { result ≡ wrong_by_order self.old.params self.old.options self.old.order.last meaning }
        ensures last { self.new.order.last ≡ last_in self.old.order.last meaning }
        ensures rest { self.new ≡ record self.old { order = self.new.order } }
    {
        let raised = self.order.hear(meaning);
        if self.params.is_none() || !self.options.classes.legality {
            return None;
        }
        raised
    }

    /// Appends the begin of a line for input that is refused.
    pub(crate) fn push_place(&self, text: &mut Vec<u8>) -> Result<(), AllocError>
        ensures { OnOk result (text.new.items ≡ text.old.items
            ++ refused_text (unit_of self.now.options.form) self.now.place) }
    {
        match self.options.form {
            Form::Lines => push_refused(text, b"line", self.place),
            Form::Raw => push_refused(text, b"offset", self.place),
            Form::Pcap => push_refused(text, b"packet", self.place),
        }
    }
}

/// Reads the characters of a line that is a burst, and keeps them, if they are to be handed on. Of a line that is refused it
/// appends why.
fn tell(
    line: Line<'_>,
    number: u64,
    room: &mut [u8; LONGEST_TELEGRAM],
    receiver: &mut Receiver,
    kept: &mut Kept,
    text: &mut Vec<u8>,
) -> Result<Told, AllocError>
    ensures { IfOk result IsTold }
{
    let fault = match line {
        Line::Blank => return Ok(Told::Nothing),
        Line::Gap => return Ok(Told::Gap),
        Line::Burst(when, hex) => match read_hex(hex, room, receiver) {
            Some(characters) => {
                if kept.is_wanted() {
                    kept.note_hex(hex);
                }
                return Ok(Told::Burst(when, characters));
            }
            None => LineFault::NotHex(hex),
        },
        Line::Refused(fault) => fault,
    };
    push_line_fault(fault, number, text)?;
    Ok(Told::Refused)
}

/// Has a judge hear a burst. Returns the alarm that it raises.
fn hear_raised(judge: &mut Judge, burst: &Burst) -> Option<Raised>
    ensures raised { result ≡ raised_by burst.now (Some judge.old) }
    ensures heard { Some judge.new ≡ judge_behind burst.now (Some judge.old) }
{
    let meaning = meaning_in(&burst.telegram);
    let raised = match judge.alarm(burst, meaning) {
        Some(alarm) => raised(alarm, meaning, judge.state()),
        None => None,
    };
    judge.keep(burst, meaning);
    raised
}

/// An alarm of a token or a request, with what was known before it.
#[inline(never)]
fn raised(alarm: Alarm, meaning: Meaning, before: State) -> Option<Raised>
    ensures { result ≡ raised_as alarm meaning before }
{
    match meaning {
        Meaning::Initiator(telegram) => Some(Raised {
            alarm,
            telegram,
            before,
        }),
        Meaning::Reply | Meaning::NoTelegram => None,
    }
}

/// Asks whether the bits a second are right, where moments are made of a file's times.
fn baud_question(form: Form) -> &'static str
    ensures { result.now ≡ baud_text form }
{
    match form {
        Form::Lines | Form::Raw => "",
        Form::Pcap => " (is --baud that of the bus?)",
    }
}

/// Appends the line of a burst without moments.
#[inline(never)]
#[tactic(auto, using(crate::proofs::Appending::line_with_end))]
fn push_untimed(burst: &Burst, text: &mut Vec<u8>) -> Result<(), AllocError>
    ensures { OnOk result (text.new.items ≡ text.old.items ++ untimed_text burst.now) }
{
    let mut line = ArrayVec::new();
    put_content(&mut line, &burst.telegram, text)?;
    put(&mut line, b"\n");
    text.extend_from_slice(&line)
}
