//! Reads the blocks of a pcapng file.

use crate::pcap::{Interface, Item, MICROS, Packets, Part, PcapFault, Size, Stamp, is_profibus};
use pb_telegram::Receiver;

/// The type of the head of a section, which reads the same in either byte order.
const SECTION: u32 = 0x0a0d_0d0a;

/// The type of a description of an interface.
const INTERFACE: u32 = 1;

/// The type of a packet without a time.
const SIMPLE: u32 = 3;

/// The type of a packet with a time.
const ENHANCED: u32 = 6;

/// The option of an interface that says what a timestamp counts.
const RESOLUTION: u16 = 9;

impl Packets {
    /// The type of a block: the head of a section has its byte order behind its length.
    pub(crate) fn end_block_type(&mut self, head: &[u8]) -> Option<Item> {
        self.block = self.long(head, 0);
        self.part = if self.block == SECTION {
            Part::SectionMark
        } else {
            Part::BlockLength
        };
        None
    }

    /// A section has the byte order and the interfaces of its own.
    pub(crate) fn end_section_mark(&mut self, head: &[u8]) -> Option<Item> {
        match head {
            [_, _, _, _, 0x4d, 0x3c, 0x2b, 0x1a] => self.is_big = false,
            [_, _, _, _, 0x1a, 0x2b, 0x3c, 0x4d] => self.is_big = true,
            _ => return self.give_up(PcapFault::NoMagic),
        }
        self.interfaces.clear();
        match self.long(head, 0).checked_sub(12) {
            Some(rest) if rest % 4 == 0 => {
                self.rest = u64::from(rest);
                self.skip_rest();
                None
            }
            _ => self.give_up(PcapFault::BadBlock),
        }
    }

    /// The length of a block counts its type, itself, and its repetition at the end.
    pub(crate) fn end_block_length(&mut self, head: &[u8]) -> Option<Item> {
        match self.long(head, 0).checked_sub(8) {
            Some(rest) if rest % 4 == 0 && rest > 0 => self.rest = u64::from(rest),
            _ => return self.give_up(PcapFault::BadBlock),
        }
        match self.block {
            INTERFACE => self.take(8, Part::InterfaceHead),
            ENHANCED => self.take(20, Part::EnhancedHead),
            SIMPLE => self.take(4, Part::SimpleHead),
            _ => {
                self.skip_rest();
                None
            }
        }
    }

    /// An interface, by its link type. Its timestamps count microseconds, unless an option says otherwise.
    pub(crate) fn end_interface_head(&mut self, head: &[u8]) -> Option<Item> {
        let interface = Interface {
            is_profibus: is_profibus(u32::from(self.short(head, 0))),
            per_second: MICROS,
        };
        match self.interfaces.try_push(interface) {
            Ok(()) => self.next_option(),
            Err(_) => self.skip_rest(),
        }
        None
    }

    /// The next option of an interface comes, if there is one.
    pub(crate) fn next_option(&mut self) {
        match self.rest.checked_sub(4) {
            Some(rest) if rest >= 4 => {
                self.rest = rest;
                self.part = Part::OptionHead;
            }
            _ => self.skip_rest(),
        }
    }

    /// The head of an option: its value is filled up to a multiple of four octets.
    pub(crate) fn end_option_head(&mut self, head: &[u8]) -> Option<Item> {
        let (code, length) = (self.short(head, 0), u64::from(self.short(head, 2)));
        let filled = (length + 3) / 4 * 4;
        if code == 0 {
            self.skip_rest();
            return None;
        }
        if code == RESOLUTION && length == 1 {
            return self.take(1, Part::Resolution);
        }
        if filled == 0 {
            self.next_option();
            return None;
        }
        self.left = filled;
        self.take(filled, Part::OptionValue)
    }

    /// What the timestamps of an interface count: a power of ten, or of two.
    pub(crate) fn end_resolution(&mut self, head: &[u8]) -> Option<Item> {
        let power = head.first().copied().unwrap_or(0);
        if let Some(interface) = self.interfaces.last_mut() {
            interface.per_second = parts(power);
        }
        self.skip_rest();
        None
    }

    /// A packet of an interface comes, with its time.
    pub(crate) fn end_enhanced_head(
        &mut self,
        head: &[u8],
        receiver: &mut Receiver,
    ) -> Option<Item> {
        let size = Size {
            kept: u64::from(self.long(head, 12)),
            sent: u64::from(self.long(head, 16)),
        };
        match self.rest.checked_sub(size.kept) {
            Some(rest) => self.rest = rest,
            None => return self.give_up(PcapFault::BadBlock),
        }
        let ticks = u64::from(self.long(head, 4)) << 32 | u64::from(self.long(head, 8));
        match self.interfaces.get(self.long(head, 0) as usize) {
            Some(interface) if interface.is_profibus => {
                self.stamp = Some(Stamp {
                    ticks,
                    per_second: interface.per_second,
                });
                self.begin_packet(size, true, receiver)
            }
            _ => self.begin_packet(size, false, receiver),
        }
    }

    /// A packet of the first interface comes, without a time.
    pub(crate) fn end_simple_head(&mut self, head: &[u8], receiver: &mut Receiver) -> Option<Item> {
        let sent = u64::from(self.long(head, 0));
        let kept = sent.min(self.rest.saturating_sub(4));
        self.rest = self.rest.saturating_sub(kept);
        self.stamp = None;
        let is_wanted = match self.interfaces.first() {
            Some(interface) => interface.is_profibus,
            None => false,
        };
        self.begin_packet(Size { kept, sent }, is_wanted, receiver)
    }
}

/// How many parts of a second a power means: of ten, or of two if its upper bit is set. More than a `u64` counts are taken
/// as the most that it counts.
fn parts(power: u8) -> u64 {
    let base: u64 = if power >= 128 { 2 } else { 10 };
    let mut parts: u64 = 1;
    for _step in 0..power % 128 {
        parts = parts.saturating_mul(base);
    }
    parts
}
