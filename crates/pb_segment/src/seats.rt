//! The rights to act on a segment: one seat for each tap, and the conductor's.

use crate::outlooks::Outlook;
use crate::receipts::KeptReceipt;
use std::marker::Model;
use std::sync::ledger::{Ledger, Share};

/// The right to take the turns of one tap, with a receipt of each accepted turn.
#[derive(Drop)]
pub struct TapSeat<L: Ledger> {
    pub(crate) tap: usize,
    pub(crate) receipts: Vec<KeptReceipt>,
    pub(crate) share: Share<L>,
}

impl<L: Ledger> Model for TapSeat<L> {
    ghost use Rattle.std.specs.Prelude.{◌≡◌, ◌+◌, ◌<◌, length};
    ghost use Rattle.pb_segment.specs.Seats.{SeatView};

    ghost Value = { SeatView };

    ghost view = { λ s. record { tap = s.tap; receipts = s.receipts.items } };

    ghost invariant = { λ s. (s.tap + 1 < L.parts) × (s.share.parts ≡ 1)
        × (s.share.amount ≡ length s.receipts.items) };
}

impl<L: Ledger> TapSeat<L> {
    ghost use Rattle.std.specs.Prelude.{◌≡◌};

    /// The index of the tap, from 0.
    pub fn tap(&self) -> usize
        ensures { result ≡ self.now.tap }
    {
        self.tap
    }
}

/// The right to drive all other events, with a receipt of each accepted event, and the outlooks.
#[derive(Drop)]
pub struct ConductorSeat<L: Ledger> {
    pub(crate) receipts: Vec<KeptReceipt>,
    pub(crate) outlooks: Vec<Outlook>,
    pub(crate) share: Share<L>,
}

impl<L: Ledger> Model for ConductorSeat<L> {
    ghost use Rattle.std.specs.Prelude.{◌≡◌, length};
    ghost use Rattle.pb_segment.specs.Seats.{ConductorView};

    ghost Value = { ConductorView };

    ghost view = { λ s. record { receipts = s.receipts.items; outlooks = s.outlooks.items } };

    ghost invariant = { λ s. (s.share.parts ≡ 1) × (s.share.amount ≡ length s.receipts.items) };
}
