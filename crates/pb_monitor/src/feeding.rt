//! Captures of octets without boundaries, and files of packets.

ghost use Rattle.std.specs.Prelude.{◌≡◌, ◌-◌, ◌<◌, ◌≤◌, ◌++◌, [], length, max, IfOk, None, OnOk};
ghost use Rattle.pb_monitor.specs.Hearing.{cut_line_if, cut_off_text, has_lines, known_past, skips_text};
ghost use Rattle.pb_monitor.specs.Known.{forgotten, heard_untimed, refused};
ghost use Rattle.pb_monitor.specs.Times.{nearest_bits};
ghost use Rattle.pb_monitor.specs.BurstTexts.{cut_text, skipped_text};
ghost use Rattle.pb_telegram.specs.Grammar.{spelling};

use crate::bursts::{Burst, Rooms, octets_of};
use crate::cutting::{Cut, cut_front};
use crate::heard_bursts::Known;
use crate::lines::When;
use crate::monitors::Monitor;
use crate::pcap::{Heads, Item, Part, PcapFault, Stamp, Time};
use crate::reports::{push_refused, put_content};
use crate::texts::{push_number, put, put_number};
use arrayvec::ArrayVec;
use pb_telegram::RxChar;
use std::alloc::AllocError;

impl Monitor {
    /// Octets without boundaries come.
    pub(crate) fn feed_octets(
        &mut self,
        bytes: &[u8],
        text: &mut Vec<u8>,
    ) -> Result<(), AllocError> {
        let taken = self.feed_cutter(bytes, text)?;
        self.cut_octets(&bytes[taken..], text)?;
        self.tell_skipped(text)
    }

    /// Octets come behind some that are not cut yet: takes as many as it needs to cut all, and returns how many.
    #[inline(never)]
    fn feed_cutter(&mut self, bytes: &[u8], text: &mut Vec<u8>) -> Result<usize, AllocError>
        ensures within { IfOk result (λ taken. taken ≤ length bytes.now) }
        ensures cut { IfOk result (λ taken. taken < length bytes.now → self.new.cutter ≡ []) }
    {
        for place in 0..bytes.len() {
            if self.cutter.is_empty() {
                return Ok(place);
            }
            if !self.cutter.is_full() {
                self.cutter.push(bytes[place]);
            }
            if self.cutter.is_decided() {
                self.cut_all(text)?;
            }
        }
        Ok(bytes.len())
    }

    /// Cuts octets where they are, and keeps those that don't tell yet what comes first.
    fn cut_octets(&mut self, bytes: &[u8], text: &mut Vec<u8>) -> Result<(), AllocError>
        requires { 0 < length bytes.now → self.old.cutter ≡ [] }
    {
        let mut rooms = Rooms::new();
        let mut left = bytes;
        while !left.is_empty() {
            let burst = rooms.room(left);
            let Some(front) = cut_front(left, &mut self.receiver, &mut burst.telegram) else {
                self.cutter.append(left);
                return Ok(());
            };
            match front.cut {
                Cut::Whole => self.hear_cut(burst, &left[..front.count], text)?,
                Cut::Skipped(_) => self.pass_octet(),
            }
            left = &left[front.count..];
        }
        Ok(())
    }

    /// The octets end.
    pub(crate) fn end_octets(&mut self, text: &mut Vec<u8>) -> Result<(), AllocError> {
        for _octet in 0..self.cutter.len() {
            if self.cutter.skip().is_some() {
                self.pass_octet();
            }
            self.cut_all(text)?;
        }
        self.tell_skipped(text)
    }

    /// Cuts off all that is known of the octets that have come.
    #[inline(never)]
    fn cut_all(&mut self, text: &mut Vec<u8>) -> Result<(), AllocError> {
        let mut burst = Burst::none();
        while self.cutter.is_decided() {
            match self.cutter.cut(&mut burst.telegram) {
                Some(Cut::Whole) => self.hear_cut(&burst, &octets_of(&burst.telegram), text)?,
                Some(Cut::Skipped(_)) => self.pass_octet(),
                None => break,
            }
        }
        Ok(())
    }

    /// An octet is skipped.
    fn pass_octet(&mut self)
        ensures { self.new.cutter ≡ self.old.cutter }
    {
        self.skipped = self.skipped.saturating_add(1);
        self.place = self.place.saturating_add(1);
    }

    /// Tells how many octets were skipped in a row.
    #[inline(always)]
    fn tell_skipped(&mut self, text: &mut Vec<u8>) -> Result<(), AllocError>
        ensures none { self.old.skipped ≡ 0 → text.new.items ≡ text.old.items }
        ensures text { OnOk result (text.new.items ≡ text.old.items
            ++ skips_text self.old.place self.old.skipped) }
        ensures statistics { OnOk result (self.new.statistics
            ≡ known_past self.old.skipped self.old.statistics) }
        ensures rest { self.new ≡ record self.old {
          skipped = self.new.skipped;
          judge = self.new.judge;
          order = self.new.order;
          statistics = self.new.statistics;
        } }
    {
        if self.skipped == 0 {
            return Ok(());
        }
        self.refuse_skipped(text)
    }

    /// The same, where some were.
    #[inline(never)]
    fn refuse_skipped(&mut self, text: &mut Vec<u8>) -> Result<(), AllocError>
        ensures text { OnOk result (text.new.items ≡ text.old.items
            ++ skipped_text (self.old.place - self.old.skipped) self.old.skipped) }
        ensures anew { OnOk result (self.new ≡ record self.old {
          skipped = 0;
          judge = None;
          order = self.new.order;
          statistics = refused (forgotten self.old.statistics);
        }) }
        ensures rest { self.new ≡ record self.old {
          skipped = self.new.skipped;
          judge = self.new.judge;
          order = self.new.order;
          statistics = self.new.statistics;
        } }
    {
        push_skipped(text, self.place.saturating_sub(self.skipped), self.skipped)?;
        self.skipped = 0;
        self.refuse();
        Ok(())
    }

    /// A telegram of these octets is cut off.
    fn hear_cut(
        &mut self,
        burst: &Burst,
        octets: &[u8],
        text: &mut Vec<u8>,
    ) -> Result<(), AllocError>
        requires { IfOk burst.now.telegram (λ t. octets.now ≡ spelling t) }
        ensures cutter { self.new.cutter ≡ self.old.cutter }
        ensures text { OnOk result (text.new.items ≡ text.old.items ++ cut_off_text self.old.options
            self.old.kept.is_wanted self.old.place self.old.skipped burst.now) }
        ensures statistics { OnOk result (self.new.statistics
            ≡ heard_untimed burst.now (known_past self.old.skipped self.old.statistics)) }
    {
        self.tell_skipped(text)?;
        let offset = self.place;
        self.place = self.place.saturating_add(octets.len() as u64);
        self.statistics.hear_untimed(burst, octets);
        self.tell_cut(offset, burst, text)?;
        if self.kept.is_wanted() {
            self.keep_cut(octets)?;
        }
        Ok(())
    }

    /// Appends the line of a telegram at an offset, if bursts have lines.
    #[inline(always)]
    fn tell_cut(&self, offset: u64, burst: &Burst, text: &mut Vec<u8>) -> Result<(), AllocError>
        ensures { OnOk result (text.new.items ≡ text.old.items
            ++ cut_line_if (has_lines self.now.options self.now.kept.is_wanted) offset burst.now) }
    {
        if !self.is_told() {
            return Ok(());
        }
        push_cut(text, offset, burst)
    }

    /// Keeps a telegram that is cut off, to hand it on.
    #[inline(never)]
    fn keep_cut(&mut self, octets: &[u8]) -> Result<(), AllocError>
        ensures { self.new ≡ record self.old { kept = self.new.kept } }
    {
        self.kept.note_octets(octets);
        self.kept.end(Known {
            span: None,
            count: octets.len() as u64,
            before: None,
            holder: None,
            alarm: None,
        })
    }

    /// The bytes of a file of packets come.
    pub(crate) fn feed_packets(
        &mut self,
        bytes: &[u8],
        text: &mut Vec<u8>,
    ) -> Result<(), AllocError> {
        let mut rooms = Rooms::new();
        let mut left = bytes;
        while !left.is_empty() {
            if let Some(heads) = self.packets.heads() {
                let taken = self.hear_packets(heads, left, &mut rooms, text)?;
                self.packets.pass(taken);
                left = &left[taken..];
            }
            if !left.is_empty() {
                let taken = self.feed_part(left, &mut rooms, text)?;
                left = &left[taken..];
            }
        }
        Ok(())
    }

    /// Hears the packets of a pcap file that are there whole at the front of some octets, and returns how many octets they
    /// have.
    fn hear_packets(
        &mut self,
        heads: Heads,
        octets: &[u8],
        rooms: &mut Rooms,
        text: &mut Vec<u8>,
    ) -> Result<usize, AllocError>
        ensures { IfOk result (λ taken. taken ≤ length octets.now) }
    {
        let is_kept = self.kept.is_wanted();
        let mut left = octets;
        while let Some(whole) = heads.whole(left) {
            if is_kept {
                self.kept.note_octets(whole.octets);
            }
            self.hear_packet(heads, whole.time, whole.octets, rooms, text)?;
            left = whole.behind;
        }
        Ok(octets.len() - left.len())
    }

    /// Reads the next part of a file of packets from some octets, and returns how many it took.
    #[inline(never)]
    fn feed_part(
        &mut self,
        octets: &[u8],
        rooms: &mut Rooms,
        text: &mut Vec<u8>,
    ) -> Result<usize, AllocError>
        requires { 0 < length octets.now }
        ensures some { IfOk result (λ taken. 0 < taken) }
        ensures within { IfOk result (λ taken. taken ≤ length octets.now) }
    {
        if self.kept.is_wanted() {
            self.note_piece(octets);
        }
        let step = self.packets.read(octets, &mut self.receiver);
        let taken = step.taken;
        match step.item {
            Some(Item::Packet { stamp, .. }) if step.is_whole => {
                self.place = self.place.saturating_add(1);
                let when = self.when(stamp);
                self.hear_rare_octets(when, &octets[..taken], rooms, text)?
            }
            Some(item) => self.hear_item(item, text)?,
            None => {}
        }
        Ok(taken)
    }

    /// Octets come, of which the first ones may be some of a packet.
    #[inline(never)]
    fn note_piece(&mut self, octets: &[u8]) {
        if self.packets.part != Part::Packet || self.receiver.fed() == 0 {
            self.kept.begin();
        }
        if self.packets.part == Part::Packet {
            let count = self.packets.left.min(octets.len() as u64) as usize;
            for octet in &octets[..count] {
                self.kept.note(RxChar::Good(*octet));
            }
        }
    }

    /// A packet whose octets the receiver was fed, or something that is refused.
    #[inline(never)]
    pub(crate) fn hear_item(&mut self, item: Item, text: &mut Vec<u8>) -> Result<(), AllocError> {
        match item {
            Item::Packet { stamp, missing } => {
                self.place = self.place.saturating_add(1);
                if missing > 0 && self.kept.is_wanted() {
                    self.kept.note(RxChar::Bad);
                }
                let when = self.when(stamp);
                self.hear_fed(when, missing.saturating_sub(1), text)
            }
            Item::Refused(offset, fault) => self.refuse_packet(offset, fault, text),
        }
    }

    /// A packet of a pcap file, of these octets.
    #[inline(always)]
    fn hear_packet(
        &mut self,
        heads: Heads,
        time: Time,
        octets: &[u8],
        rooms: &mut Rooms,
        text: &mut Vec<u8>,
    ) -> Result<(), AllocError> {
        self.place = self.place.saturating_add(1);
        let Some(baud) = self.options.baud else {
            return self.hear_unknown(octets, rooms, text);
        };
        let begin = match heads.bits(time, baud) {
            Some(bits) if let Some(origin) = self.near_origin => bits.saturating_sub(origin),
            _ => self.moment_of(heads.stamp(time), baud),
        };
        self.hear_octets_from(begin, octets, rooms, text)
    }

    /// A packet of these octets, of which no moment is known.
    #[inline(never)]
    fn hear_unknown(
        &mut self,
        octets: &[u8],
        rooms: &mut Rooms,
        text: &mut Vec<u8>,
    ) -> Result<(), AllocError> {
        self.hear_octets(When::Unknown, octets, rooms, text)
    }

    /// When a packet was on the bus, as far as the file says.
    fn when(&mut self, stamp: Option<Stamp>) -> When {
        match (stamp, self.options.baud) {
            (Some(stamp), Some(baud)) => When::From(self.moment_of(stamp, baud)),
            _ => When::Unknown,
        }
    }

    /// The moment of a time, in bit times since the first packet: the nearest one, since a file's times are rounded down.
    #[inline(never)]
    fn moment_of(&mut self, stamp: Stamp, baud: u32) -> u64 {
        let bits = bits_of(stamp, baud);
        let origin = self.origin.unwrap_or(bits);
        self.origin = Some(origin);
        self.near_origin = u64::try_from(origin).ok();
        bits.saturating_sub(origin).min(u128::from(u64::MAX)) as u64
    }

    /// A part of a file of packets is refused.
    fn refuse_packet(
        &mut self,
        offset: u64,
        fault: PcapFault,
        text: &mut Vec<u8>,
    ) -> Result<(), AllocError> {
        push_refused(text, b"offset", offset)?;
        text.extend_from_slice(fault.words().as_bytes())?;
        if let PcapFault::LinkType(link) = fault {
            text.extend_from_slice(b"; this is ")?;
            push_number(text, link)?;
        }
        text.extend_from_slice(b"\n")?;
        self.refuse();
        Ok(())
    }
}

/// How many bit times a time is behind the file's epoch: the nearest number.
fn bits_of(stamp: Stamp, baud: u32) -> u128
    ensures { result ≡ nearest_bits stamp.ticks (max 1 stamp.per_second) baud }
{
    let per_second = u128::from(stamp.per_second.max(1));
    let ticks = u128::from(stamp.ticks) * u128::from(baud);
    (ticks + per_second / 2) / per_second
}

/// Appends the line of octets that were skipped, so many from an offset on.
fn push_skipped(text: &mut Vec<u8>, offset: u64, count: u64) -> Result<(), AllocError>
    ensures { OnOk result (text.new.items ≡ text.old.items ++ skipped_text offset count) }
{
    push_refused(text, b"offset", offset)?;
    push_number(text, count)?;
    text.extend_from_slice(b" octets skipped; no telegram begins at them\n")
}

/// Appends the line of a telegram at an offset.
#[inline(never)]
#[tactic(auto, using(crate::proofs::Appending::line_with_end))]
fn push_cut(text: &mut Vec<u8>, offset: u64, burst: &Burst) -> Result<(), AllocError>
    ensures { OnOk result (text.new.items ≡ text.old.items ++ cut_text offset burst.now) }
{
    let mut line = ArrayVec::new();
    put_number(&mut line, offset);
    put(&mut line, b" ");
    put_content(&mut line, &burst.telegram, text)?;
    put(&mut line, b"\n");
    text.extend_from_slice(&line)
}
