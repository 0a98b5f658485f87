//! What is counted for each station.

ghost use Rattle.std.specs.Prelude.{◌≡◌};
ghost use Rattle.pb_monitor.specs.Known.{one_more, one_if, asked, initiated, new_station, noted, received, replied, role_of, sent_token, took};

use crate::spreads::Spread;
use crate::statistics::known_at;
use pb_telegram::{Fc, Head};

/// What a station has shown itself to be.
#[derive(Clone, Copy, Debug, Default, PartialEq, Eq)]
pub enum Role {
    /// It has neither sent a token nor replied with its type.
    #[default]
    Unknown,
    /// It has replied that it only answers.
    Passive,
    /// It has replied that it is a master and not ready to enter the ring.
    MasterNotReady,
    /// It has replied that it is a master and ready to enter the ring.
    MasterReady,
    /// It has sent a token, or replied that it is in the ring.
    MasterInRing,
}

/// What is counted for a station. Counts saturate at 2^64 - 1; moments and durations are in bit times.
#[derive(Clone, Copy, Debug, Default, PartialEq, Eq)]
pub struct Station {
    /// How many telegrams it has sent, but those whose answer nobody asked for.
    pub telegrams: u64,
    /// The end of the last of them with a moment.
    pub last_heard: Option<u64>,
    /// What it has shown itself to be.
    pub role: Role,
    /// How many tokens it has sent.
    pub tokens: u64,
    /// How many of them were the first of its claims.
    pub claims: u64,
    /// How many requests it has sent.
    pub requests: u64,
    /// How many of them asked for a status, as a GAP round does.
    pub polls: u64,
    /// How many of its tokens and requests had the octets of the one directly before.
    pub repeats: u64,
    /// How many of its requests nothing answered.
    pub unanswered: u64,
    /// How many of its requests were answered with damage.
    pub damaged_answers: u64,
    /// How often others have asked it for its status.
    pub polled: u64,
    /// How many tokens to it were sent again after their slot; of those without moments, or on a bus whose parameters are
    /// not known, how many were sent again.
    pub tokens_not_taken: u64,
    /// The time between two receipts of the token.
    pub rotation: Spread,
    /// The time from the end of a token to it to its first telegram.
    pub taking: Spread,
    /// The time from the end of a request to it to its reply.
    pub replying: Spread,
    /// When it last received the token, if that and all since are known.
    pub(crate) receipt: Option<u64>,
}

impl Role {
    /// The role of a station type, 0 to 3.
    pub(crate) fn of(station_type: u8) -> Role
        ensures { result ≡ role_of station_type }
    {
        match station_type {
            0 => Role::Passive,
            1 => Role::MasterNotReady,
            2 => Role::MasterReady,
            _ => Role::MasterInRing,
        }
    }

    /// The role in words.
    pub fn name(&self) -> &'static str {
        match self {
            Role::Unknown => "unknown",
            Role::Passive => "passive",
            Role::MasterNotReady => "master not ready",
            Role::MasterReady => "master ready",
            Role::MasterInRing => "master in ring",
        }
    }
}

impl Station {
    /// A station of which nothing was heard.
    pub(crate) fn unheard() -> Station
        ensures { result ≡ new_station }
    {
        Station {
            telegrams: 0,
            last_heard: None,
            role: Role::Unknown,
            tokens: 0,
            claims: 0,
            requests: 0,
            polls: 0,
            repeats: 0,
            unanswered: 0,
            damaged_answers: 0,
            polled: 0,
            tokens_not_taken: 0,
            rotation: Spread::none(),
            taking: Spread::none(),
            replying: Spread::none(),
            receipt: None,
        }
    }

    /// Notes a telegram of it that ended at a moment, if that is known.
    pub(crate) fn note(&mut self, end: u64, is_timed: bool)
        ensures { self.new ≡ noted is_timed end self.old }
    {
        self.telegrams = one_more(self.telegrams);
        if is_timed {
            self.last_heard = Some(end);
        }
    }

    /// Notes that it received the token at a moment, if that is known.
    pub(crate) fn receive(&mut self, moment: Option<u64>)
        ensures { self.new ≡ received moment self.old }
    {
        if let Some(moment) = moment
            && let Some(before) = self.receipt
        {
            self.rotation.add(moment.saturating_sub(before));
        }
        self.receipt = moment;
    }

    /// It received the token that ended at a moment, and spoke first some bit times later, as far as that is known.
    pub(crate) fn take(&mut self, end: Option<u64>, bits: Option<u64>)
        ensures { self.new ≡ took end bits self.old }
    {
        self.receive(end);
        if let Some(bits) = bits {
            self.taking.add(bits);
        }
    }

    /// It sent a token or a request that ended at a moment, perhaps the last one again.
    pub(crate) fn initiate(&mut self, end: u64, is_timed: bool, is_repeat: bool)
        ensures { self.new ≡ initiated is_timed is_repeat end self.old }
    {
        self.note(end, is_timed);
        self.repeats = one_if(is_repeat, self.repeats);
    }

    /// It sent a token, perhaps to itself, perhaps the first of a claim.
    pub(crate) fn send_token(&mut self, end: u64, is_timed: bool, to_itself: bool, is_claim: bool)
        ensures { self.new ≡ sent_token to_itself is_claim is_timed end self.old }
    {
        self.tokens = one_more(self.tokens);
        self.role = Role::MasterInRing;
        if is_claim {
            self.claims = one_more(self.claims);
        } else if to_itself {
            self.receive(known_at(is_timed, end));
        }
    }

    /// It sent a request, perhaps for a status.
    pub(crate) fn ask(&mut self, is_poll: bool)
        ensures { self.new ≡ asked is_poll self.old }
    {
        self.requests = one_more(self.requests);
        self.polls = one_if(is_poll, self.polls);
    }

    /// It sent a reply that ended at a moment, some bit times after the request, if that is known.
    pub(crate) fn reply(&mut self, end: u64, is_timed: bool, bits: Option<u64>, head: Option<Head>)
        ensures { self.new ≡ replied is_timed end bits head self.old }
    {
        self.note(end, is_timed);
        if let Some(bits) = bits {
            self.replying.add(bits);
        }
        if self.role != Role::MasterInRing
            && let Some(head) = head
        {
            self.role = Role::of(Fc(head.fc).station_type());
        }
    }
}

/// One more than a count.
pub(crate) fn one_more(count: u64) -> u64
    ensures { result ≡ one_more count }
{
    count.saturating_add(1)
}

/// One more than a count, where something is so.
pub(crate) fn one_if(so: bool, count: u64) -> u64
    ensures { result ≡ one_if so count }
{
    if so { one_more(count) } else { count }
}
