//! What a station sends in a turn.

use arrayvec::ArrayVec;
use pb_telegram::{Telegram, TokenTelegram};
use pb_tokenfsm::Holding;
use std::marker::Model;

/// What a station sends in a turn, if anything. Each turn reuses the buffer for octets.
#[derive(Debug, Drop)]
pub struct SendBuffer {
    octets: ArrayVec<u8, 255>,
    sent: bool,
}

impl Model for SendBuffer {
    ghost use Rattle.std.specs.Prelude.{List, ℕ, Option, Some, None, if◌then◌else◌};

    ghost Value = { Option (List ℕ) };

    ghost view = { λ b. if b.sent then Some b.octets.items else None };
}

impl SendBuffer {
    ghost use Rattle.std.specs.Prelude.{◌≡◌, ◌≤◌, Some, None, MatchOption, length};
    ghost use Rattle.pb_telegram.specs.Grammar.{spelling};
    ghost use Rattle.pb_telegram.specs.Initiators.{IsInitiator};
    ghost use Rattle.pb_telegram.specs.declared.telegrams.Telegram.TheVariants.{Token};

    /// A buffer with nothing to send.
    pub fn new() -> SendBuffer
        ensures { result ≡ None }
    {
        SendBuffer {
            octets: ArrayVec::new(),
            sent: false,
        }
    }

    /// Clears the buffer: nothing is sent.
    pub fn clear(&mut self)
        ensures { self.new ≡ None }
    {
        self.sent = false;
    }

    /// Sends these octets.
    pub fn send(&mut self, octets: &ArrayVec<u8, 255>)
        ensures { self.new ≡ Some octets.now.items }
    {
        self.octets.clear();
        self.octets.try_extend_from_slice(octets).unwrap();
        self.sent = true;
    }

    /// Sends a telegram of a holder, and returns its length in octets. The caller ensures that it is a token or a
    /// request.
    #[inline(always)]
    pub fn initiate<S: Copy>(&mut self, holder: &Holding<S>, telegram: &Telegram) -> usize
        requires { IsInitiator telegram.now }
        ensures sent { self.new ≡ Some (spelling telegram.now) }
        ensures count { result ≡ length (spelling telegram.now) }
        ensures fits { result ≤ 255 }
    {
        holder.initiate_in(telegram, &mut self.octets);
        self.sent = true;
        self.octets.len()
    }

    /// Sends a token of a holder, and returns its length, 3 octets. [`initiate`](SendBuffer::initiate) would first clear
    /// room for the longest telegram.
    #[inline(always)]
    pub fn pass<S: Copy>(&mut self, holder: &Holding<S>, token: &TokenTelegram) -> usize
        ensures sent { self.new ≡ Some (spelling (Token token.now)) }
        ensures count { result ≡ length (spelling (Token token.now)) }
    {
        holder.pass_in(token, &mut self.octets);
        self.sent = true;
        3
    }

    /// The octets that are sent, as a reference to the buffer; `None` if nothing is sent.
    #[inline(always)]
    pub fn sent(&self) -> Option<&ArrayVec<u8, 255>>
        ensures { MatchOption result (self.now ≡ None) (λ octets. self.now ≡ Some octets.now.items) }
    {
        self.sent.then_some(&self.octets)
    }

    /// The octets that are sent; `None` if nothing is sent.
    pub fn octets(&self) -> Option<&[u8]>
        ensures { MatchOption result (self.now ≡ None) (λ octets. (self.now ≡ Some octets.now)
            × (length octets.now ≤ 255)) }
    {
        if self.sent {
            return Some(&self.octets);
        }
        None
    }
}
