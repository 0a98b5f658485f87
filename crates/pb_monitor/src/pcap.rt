//! Reads files of packets, pcap and pcapng, as they come: piece by piece, whole heads and packets where they are all there.

ghost use Rattle.std.specs.Prelude.{◌≡◌, ◌<◌, ◌≤◌, ◌+◌, ◌*◌, ◌++◌, length, take, IfSome};
ghost use Rattle.pb_monitor.specs.Times.{nearest_bits, parts_of_second};

use arrayvec::ArrayVec;
use pb_telegram::{Receiver, RxChar};
use std::mem::replace;

/// The link type of PROFIBUS telegrams.
const PROFIBUS: u32 = 257;

/// The first link type for private use.
const PRIVATE: u32 = 147;

/// How many interfaces a section of pcapng may have here. Packets of others are refused.
const MOST_INTERFACES: usize = 16;

/// The longest head that is looked at whole, in octets.
const LONGEST_HEAD: usize = 24;

/// How many octets the head of a packet of a pcap file has.
const PACKET_HEAD: usize = 16;

/// How many parts of a second a timestamp counts: microseconds, unless the file says otherwise.
pub(crate) const MICROS: u64 = 1_000_000;

const NANOS: u64 = 1_000_000_000;

/// What has been read of a file of packets.
#[derive(Debug, PartialEq, Eq, Drop)]
pub(crate) enum Item {
    /// A packet ended, whose octets the receiver was fed.
    Packet {
        /// Its time, if the file gives one.
        stamp: Option<Stamp>,
        /// How many octets it had on the line that the file does not have. The receiver was fed one damaged character for them.
        missing: u64,
    },
    /// Something is refused, from an offset on.
    Refused(u64, PcapFault),
}

/// A packet that is there whole.
#[derive(Clone, Copy, Debug)]
pub(crate) struct Whole<'a> {
    /// Its time.
    pub(crate) time: Time,
    /// Its octets.
    pub(crate) octets: &'a [u8],
    /// The octets behind it.
    pub(crate) behind: &'a [u8],
}

/// What is read of the front of some octets.
#[derive(Debug, PartialEq, Eq, Drop)]
pub(crate) struct Step {
    /// How many octets.
    pub(crate) taken: usize,
    /// What they end.
    pub(crate) item: Option<Item>,
    /// Whether they are all the octets of a packet.
    pub(crate) is_whole: bool,
}

/// How many octets a packet has.
#[derive(Clone, Copy, Debug)]
pub(crate) struct Size {
    /// In the file.
    pub(crate) kept: u64,
    /// On the line.
    pub(crate) sent: u64,
}

/// The time of a packet of a pcap file.
#[derive(Clone, Copy, Debug, PartialEq, Eq)]
pub(crate) struct Time {
    /// How many seconds since the file's epoch.
    pub(crate) seconds: u32,
    /// How many parts of a second after that.
    pub(crate) parts: u32,
}

/// What the head of a packet of a pcap file says.
#[derive(Clone, Copy, Debug)]
struct PacketHead {
    time: Time,
    /// How many octets of the packet the file has.
    kept: u32,
    /// How many it had on the line.
    sent: u32,
}

/// The time of a packet.
#[derive(Clone, Copy, Debug, PartialEq, Eq)]
pub(crate) struct Stamp {
    /// How many parts of a second since the file's epoch.
    pub(crate) ticks: u64,
    /// How many parts a second has; not 0.
    pub(crate) per_second: u64,
}

/// Why a file of packets, or a part of it, is refused.
#[derive(Clone, Copy, Debug, PartialEq, Eq)]
pub(crate) enum PcapFault {
    /// It begins as neither pcap nor pcapng.
    NoMagic,
    /// Its packets are of another link type.
    LinkType(u32),
    /// A packet of an interface of another link type, or of one that the section doesn't describe.
    OtherInterface,
    /// A block is shorter than its head, or has a length that is no multiple of four. Nothing more can be read.
    BadBlock,
    /// The file ends within a packet or a head.
    Cut,
}

impl PcapFault {
    /// What is wrong, and what is wanted.
    pub(crate) fn words(&self) -> &'static str {
        match self {
            PcapFault::NoMagic => "this is no file of packets; wanted: pcap or pcapng",
            PcapFault::LinkType(_) => {
                "the packets are of another link type; wanted: 257 (PROFIBUS) or 147"
            }
            PcapFault::OtherInterface => {
                "the packet is of an interface of another link type; wanted: 257 (PROFIBUS) or 147"
            }
            PcapFault::BadBlock => "a block has a bad length; nothing behind it can be read",
            PcapFault::Cut => "the file ends within a packet or a head",
        }
    }
}

/// An interface of a section of pcapng.
#[derive(Clone, Copy, Debug, Default)]
pub(crate) struct Interface {
    pub(crate) is_profibus: bool,
    pub(crate) per_second: u64,
}

/// What the next octets are.
#[derive(Clone, Copy, Debug, PartialEq, Eq)]
pub(crate) enum Part {
    /// The first four octets of the file.
    Magic,
    /// The rest of the head of a pcap file.
    FileHead,
    /// The head of a packet of a pcap file.
    PacketHead,
    /// The octets of a packet.
    Packet,
    /// The octets of a packet that is refused.
    OtherPacket,
    /// The type of a block of pcapng.
    BlockType,
    /// The length of a block of pcapng.
    BlockLength,
    /// The length of a section's head, and the mark of its byte order.
    SectionMark,
    /// The head of a description of an interface.
    InterfaceHead,
    /// The head of an option of an interface.
    OptionHead,
    /// The value of an option that is skipped.
    OptionValue,
    /// The value of the option that says what a timestamp counts.
    Resolution,
    /// The head of an enhanced packet.
    EnhancedHead,
    /// The head of a simple packet.
    SimpleHead,
    /// The rest of a block.
    Rest,
    /// What can't be read.
    Nothing,
}

/// Reads a file of packets, a piece at a time, in constant memory.
#[derive(Drop)]
pub(crate) struct Packets {
    pub(crate) part: Part,
    /// The octets of the head that is being read.
    pub(crate) head: ArrayVec<u8, LONGEST_HEAD>,
    /// How many octets of a packet, or of octets that are skipped, are to come.
    pub(crate) left: u64,
    /// How many octets of the packet the file does not have.
    missing: u64,
    /// How many octets of the block are to come behind this part.
    pub(crate) rest: u64,
    /// The type of the block of pcapng.
    pub(crate) block: u32,
    pub(crate) is_big: bool,
    /// Whether it is pcap, and no pcapng.
    pub(crate) is_plain: bool,
    pub(crate) per_second: u64,
    pub(crate) stamp: Option<Stamp>,
    pub(crate) interfaces: ArrayVec<Interface, MOST_INTERFACES>,
    pub(crate) offset: u64,
    /// The offset of the packet or head that is being read.
    pub(crate) start: u64,
}

impl Packets {
    /// Nothing is read yet.
    pub(crate) fn new() -> Packets {
        Packets {
            part: Part::Magic,
            head: ArrayVec::new(),
            left: 0,
            missing: 0,
            rest: 0,
            block: 0,
            is_big: false,
            is_plain: false,
            per_second: MICROS,
            stamp: None,
            interfaces: ArrayVec::new(),
            offset: 0,
            start: 0,
        }
    }

    /// How the heads of the packets of a pcap file are read, if the next octet begins one.
    pub(crate) fn heads(&self) -> Option<Heads> {
        if self.part != Part::PacketHead || !self.head.is_empty() {
            return None;
        }
        Some(self.file_heads())
    }

    /// How the heads of the packets of a pcap file are read.
    fn file_heads(&self) -> Heads {
        Heads {
            is_big: self.is_big,
            is_nano: self.per_second == NANOS,
        }
    }

    /// Packets of so many octets, with their heads, were read by other means.
    pub(crate) fn pass(&mut self, octets: usize) {
        self.offset = self.offset.saturating_add(octets as u64);
        self.start = self.offset;
    }

    /// Reads the front of some octets, at most until a packet or a head ends. There is at least one.
    ///
    /// Of a packet that ends, the step says whether all its octets are those that were read. If not, the receiver has been
    /// fed that packet's octets alone.
    pub(crate) fn read(&mut self, octets: &[u8], receiver: &mut Receiver) -> Step
        requires { 0 < length octets.now }
        ensures some { 0 < result.taken }
        ensures within { result.taken ≤ length octets.now }
    {
        match self.part {
            Part::Packet => self.read_packet(octets, receiver),
            Part::OtherPacket | Part::OptionValue | Part::Rest => {
                let taken = self.come(octets.len());
                Step {
                    taken,
                    item: self.end_of_part(),
                    is_whole: false,
                }
            }
            Part::Nothing => Step {
                taken: octets.len(),
                item: None,
                is_whole: false,
            },
            _ => self.read_head(octets, receiver),
        }
    }

    /// Reads octets of a packet.
    fn read_packet(&mut self, octets: &[u8], receiver: &mut Receiver) -> Step
        requires { 0 < length octets.now }
        ensures some { 0 < result.taken }
        ensures within { result.taken ≤ length octets.now }
    {
        let is_first = receiver.fed() == 0;
        let taken = self.come(octets.len());
        let is_whole = is_first && self.left == 0 && self.missing == 0;
        if !is_whole {
            feed_all(&octets[..taken], receiver);
        }
        if self.left == 0 {
            self.feed_missing(receiver);
        }
        Step {
            taken,
            item: self.end_of_part(),
            is_whole,
        }
    }

    /// Reads a head where it is, or of one that comes in pieces the next octet.
    fn read_head(&mut self, octets: &[u8], receiver: &mut Receiver) -> Step
        requires { 0 < length octets.now }
        ensures some { 0 < result.taken }
        ensures within { result.taken ≤ length octets.now }
    {
        let wanted = self.wanted();
        if self.head.is_empty() && wanted <= octets.len() {
            self.offset = self.offset.saturating_add(wanted as u64);
            return Step {
                taken: wanted,
                item: self.end_head(&octets[..wanted], receiver),
                is_whole: false,
            };
        }
        Step {
            taken: 1,
            item: self.read_octet(octets[0], receiver),
            is_whole: false,
        }
    }

    /// Reads the next octet of a head.
    #[inline(never)]
    fn read_octet(&mut self, octet: u8, receiver: &mut Receiver) -> Option<Item> {
        self.offset = self.offset.saturating_add(1);
        if self.head.try_push(octet).is_err() || self.head.len() < self.wanted() {
            return None;
        }
        let head = replace(&mut self.head, ArrayVec::new());
        self.end_head(&head, receiver)
    }

    /// Of so many octets that are there, those of a packet or of what is skipped come: how many they are.
    fn come(&mut self, count: usize) -> usize
        requires { 0 < count }
        ensures some { 0 < result }
        ensures within { result ≤ count }
    {
        let taken = self.left.max(1).min(count as u64);
        self.left = self.left.saturating_sub(taken);
        self.offset = self.offset.saturating_add(taken);
        taken as usize
    }

    /// The file ends.
    pub(crate) fn end(&self) -> Option<Item> {
        let is_between = match self.part {
            Part::PacketHead | Part::BlockType => self.head.is_empty(),
            Part::Nothing => true,
            _ => false,
        };
        if is_between {
            return None;
        }
        Some(Item::Refused(self.start, PcapFault::Cut))
    }

    /// How many octets the head has that is being read.
    fn wanted(&self) -> usize
        ensures { 0 < result }
    {
        match self.part {
            Part::FileHead | Part::EnhancedHead => 20,
            Part::PacketHead => PACKET_HEAD,
            Part::SectionMark | Part::InterfaceHead => 8,
            Part::Resolution => 1,
            _ => 4,
        }
    }

    /// A packet, or what is skipped, ends, if no octet of it is to come.
    fn end_of_part(&mut self) -> Option<Item> {
        if self.left > 0 {
            return None;
        }
        match self.part {
            Part::Packet => {
                self.skip_rest();
                Some(Item::Packet {
                    stamp: self.stamp,
                    missing: self.missing,
                })
            }
            Part::OtherPacket => {
                self.skip_rest();
                Some(Item::Refused(self.start, PcapFault::OtherInterface))
            }
            Part::OptionValue => {
                self.next_option();
                None
            }
            _ => {
                self.next_block();
                None
            }
        }
    }

    /// The next block, or the next packet of pcap, comes.
    pub(crate) fn next_block(&mut self) {
        self.start = self.offset;
        self.part = if self.is_plain {
            Part::PacketHead
        } else {
            Part::BlockType
        };
    }

    /// What is left of the block is skipped.
    pub(crate) fn skip_rest(&mut self) {
        self.left = self.rest;
        self.rest = 0;
        if self.left == 0 {
            self.next_block();
        } else {
            self.part = Part::Rest;
        }
    }

    /// A head of the block ends, of which so many octets were left: what comes next is a part of the block.
    pub(crate) fn take(&mut self, octets: u64, part: Part) -> Option<Item> {
        if self.rest < octets {
            return self.give_up(PcapFault::BadBlock);
        }
        self.rest -= octets;
        self.part = part;
        None
    }

    /// Nothing more can be read.
    pub(crate) fn give_up(&mut self, fault: PcapFault) -> Option<Item> {
        self.part = Part::Nothing;
        Some(Item::Refused(self.start, fault))
    }

    /// The number of four octets of a head, from an index on.
    #[inline(always)]
    pub(crate) fn long(&self, head: &[u8], place: usize) -> u32 {
        long_in(head, place, self.is_big)
    }

    /// The number of two octets of a head, from an index on.
    pub(crate) fn short(&self, head: &[u8], place: usize) -> u16 {
        let octets = match head.get(place..) {
            Some([first, second, ..]) => [*first, *second],
            _ => [0; 2],
        };
        if self.is_big {
            u16::from_be_bytes(octets)
        } else {
            u16::from_le_bytes(octets)
        }
    }

    /// A head is whole.
    fn end_head(&mut self, head: &[u8], receiver: &mut Receiver) -> Option<Item> {
        match self.part {
            Part::Magic => self.end_magic(head),
            Part::FileHead => self.end_file_head(head),
            Part::PacketHead => self.end_packet_head(head, receiver),
            Part::BlockType => self.end_block_type(head),
            Part::BlockLength => self.end_block_length(head),
            Part::SectionMark => self.end_section_mark(head),
            Part::InterfaceHead => self.end_interface_head(head),
            Part::OptionHead => self.end_option_head(head),
            Part::Resolution => self.end_resolution(head),
            Part::EnhancedHead => self.end_enhanced_head(head, receiver),
            Part::SimpleHead => self.end_simple_head(head, receiver),
            Part::Packet | Part::OtherPacket | Part::OptionValue | Part::Rest | Part::Nothing =>
                None,
        }
    }

    /// The first four octets tell the format, and of pcap the byte order and what a timestamp counts.
    fn end_magic(&mut self, head: &[u8]) -> Option<Item> {
        self.is_plain = true;
        self.part = Part::FileHead;
        match head {
            [0xd4, 0xc3, 0xb2, 0xa1] => {}
            [0xa1, 0xb2, 0xc3, 0xd4] => self.is_big = true,
            [0x4d, 0x3c, 0xb2, 0xa1] => self.per_second = NANOS,
            [0xa1, 0xb2, 0x3c, 0x4d] => {
                self.is_big = true;
                self.per_second = NANOS;
            }
            [0x0a, 0x0d, 0x0d, 0x0a] => {
                self.is_plain = false;
                self.part = Part::SectionMark;
                self.rest = 0;
            }
            _ => return self.give_up(PcapFault::NoMagic),
        }
        None
    }

    /// The link type of a pcap file. Its upper bits say something else.
    fn end_file_head(&mut self, head: &[u8]) -> Option<Item> {
        let link = self.long(head, 16) & 0xffff;
        if !is_profibus(link) {
            return self.give_up(PcapFault::LinkType(link));
        }
        self.next_block();
        None
    }

    /// A packet of a pcap file comes.
    fn end_packet_head(&mut self, head: &[u8], receiver: &mut Receiver) -> Option<Item> {
        let heads = self.file_heads();
        let known = heads.head(head);
        self.stamp = Some(heads.stamp(known.time));
        let size = Size {
            kept: u64::from(known.kept),
            sent: u64::from(known.sent),
        };
        self.begin_packet(size, true, receiver)
    }

    /// The octets of a packet come.
    pub(crate) fn begin_packet(
        &mut self,
        size: Size,
        is_wanted: bool,
        receiver: &mut Receiver,
    ) -> Option<Item> {
        receiver.restart();
        self.left = size.kept;
        self.missing = size.sent.saturating_sub(size.kept);
        self.part = if is_wanted {
            Part::Packet
        } else {
            Part::OtherPacket
        };
        if size.kept > 0 {
            return None;
        }
        self.feed_missing(receiver);
        self.end_of_part()
    }

    /// Of a packet whose octets are not all in the file, the others are one damaged character.
    fn feed_missing(&self, receiver: &mut Receiver) {
        if self.missing > 0 && receiver.fed() < u64::from(u32::MAX) {
            receiver.feed(RxChar::Bad);
        }
    }
}

/// How the heads of the packets of a pcap file are read.
#[derive(Clone, Copy, Debug)]
pub(crate) struct Heads {
    is_big: bool,
    /// Whether a timestamp counts nanoseconds, and no microseconds.
    is_nano: bool,
}

impl Heads {
    /// The packet whose head and octets are the front of some octets, if they are all there, and all that it had on the line.
    #[inline(always)]
    pub(crate) fn whole<'a>(&self, octets: &'a [u8]) -> Option<Whole<'a>>
        ensures lengths { IfSome result (λ whole. 16 + length whole.octets.now + length whole.behind.now
            ≡ length octets.now) }
        ensures parts { IfSome result (λ whole. take 16 octets.now ++ (whole.octets.now ++ whole.behind.now)
            ≡ octets.now) }
    {
        let (front, rest) = octets.split_at_checked(PACKET_HEAD)?;
        let head = self.head(front);
        if head.sent > head.kept {
            return None;
        }
        let (octets, behind) = rest.split_at_checked(head.kept as usize)?;
        Some(Whole {
            time: head.time,
            octets,
            behind,
        })
    }

    /// What a head says.
    #[inline(always)]
    fn head(&self, head: &[u8]) -> PacketHead {
        if self.is_big {
            head_of(head, true)
        } else {
            head_of(head, false)
        }
    }

    /// A time, in parts of a second.
    pub(crate) fn stamp(&self, time: Time) -> Stamp
        ensures { result ≡ record {
          ticks = time.seconds * parts_of_second self.now.is_nano + time.parts;
          per_second = parts_of_second self.now.is_nano;
        } }
    {
        let per_second = self.per_second();
        Stamp {
            ticks: u64::from(time.seconds) * per_second + u64::from(time.parts),
            per_second,
        }
    }

    /// How many parts of a second a timestamp counts.
    fn per_second(&self) -> u64
        ensures { result ≡ parts_of_second self.now.is_nano }
    {
        if self.is_nano { NANOS } else { MICROS }
    }

    /// How many bit times a time is behind the file's epoch: the nearest number, if it has 64 bits.
    #[inline(always)]
    #[tactic(auto, using(crate::proofs::Times::split))]
    pub(crate) fn bits(&self, time: Time, baud: u32) -> Option<u64>
        ensures { IfSome result (λ bits. bits ≡ nearest_bits
            (time.seconds * parts_of_second self.now.is_nano + time.parts)
            (parts_of_second self.now.is_nano) baud) }
    {
        let whole = u64::from(time.seconds) * u64::from(baud);
        let parts = u64::from(time.parts) * u64::from(baud);
        // A division by a constant is cheaper than one by a number that is read.
        let rest = if self.is_nano {
            (parts + NANOS / 2) / NANOS
        } else {
            (parts + MICROS / 2) / MICROS
        };
        whole.checked_add(rest)
    }
}

/// What the head of a packet of a pcap file says.
#[inline(always)]
fn head_of(head: &[u8], is_big: bool) -> PacketHead {
    PacketHead {
        time: Time {
            seconds: long_in(head, 0, is_big),
            parts: long_in(head, 4, is_big),
        },
        kept: long_in(head, 8, is_big),
        sent: long_in(head, 12, is_big),
    }
}

/// The number of four octets of a head, from an index on.
#[inline(always)]
fn long_in(head: &[u8], place: usize, is_big: bool) -> u32 {
    let octets = match head.get(place..) {
        Some([first, second, third, fourth, ..]) => [*first, *second, *third, *fourth],
        _ => [0; 4],
    };
    if is_big {
        u32::from_be_bytes(octets)
    } else {
        u32::from_le_bytes(octets)
    }
}

/// Feeds octets to a receiver, as far as it counts them.
#[inline(never)]
fn feed_all(octets: &[u8], receiver: &mut Receiver) {
    for octet in octets {
        if receiver.fed() < u64::from(u32::MAX) {
            receiver.feed(RxChar::Good(*octet));
        }
    }
}

/// Whether packets of a link type are telegrams.
pub(crate) fn is_profibus(link: u32) -> bool {
    link == PROFIBUS || link == PRIVATE
}
