//! What is known of a bus after a capture: counts for the bus and for each station, and the list of active stations.

ghost use Rattle.std.specs.Prelude.{◌≡◌, option_map};
ghost use Rattle.pb_telegram.specs.Grammar.{spelling};
ghost use Rattle.pb_telegram.specs.Heads.{head_of};
ghost use Rattle.pb_monitor.specs.Known.{answers, bits_since, damaged_open, is_awaited, is_early, is_in_slot, is_over, is_under, known_at, wants_answer};

use crate::bursts::{Burst, octets_of};
use crate::meanings::{InitiatorTelegram, Meaning, meaning_in, passed};
use crate::repeats::Repeats;
use crate::states::live;
use crate::stations::{Station, one_more};
use crate::tallies::{ask, close, forget_receipts, initiate, reply, send_token, take_offer};
use crate::traffic::Traffic;
use pb_cycles::Asked;
use pb_ring::Las;
use pb_telegram::{Fc, Head, TOKEN_START, Telegram, TokenTelegram};
use pb_timers::BusParams;
use std::alloc::{AllocError, Global};
use std::marker::Model;

/// How many addresses a station may have, 0 to 126.
pub(crate) const STATIONS: usize = 127;

/// A token to another station, which nobody has taken yet.
#[derive(Clone, Copy, Debug)]
pub(crate) struct Offer {
    pub to: u8,
    /// When it ended, if that is known.
    pub end: Option<u64>,
}

/// A request that wants an answer.
#[derive(Clone, Copy, Debug)]
pub(crate) struct Open {
    pub source: u8,
    pub to: u8,
    /// When it ended, if that is known.
    pub end: Option<u64>,
    /// Whether it asks for a status.
    pub is_poll: bool,
    pub answer: Answer,
}

/// What came after a request.
#[derive(Clone, Copy, Debug, PartialEq, Eq)]
pub(crate) enum Answer {
    /// Nothing yet.
    Awaited,
    /// Its answer.
    Good,
    /// Damage.
    Damaged,
}

/// The times of a bus that statistics need.
#[derive(Clone, Copy, Debug)]
pub(crate) struct Limits {
    pub tsl: u64,
    pub live: u64,
    /// How long the slot of a token surely lasts after its end.
    pub early: u64,
}

/// What is known of a bus after some bursts: counts for the bus and for each station, and the list of active stations,
/// in memory for 127 stations.
#[derive(Drop)]
pub struct Statistics {
    limits: Option<Limits>,
    traffic: Traffic,
    stations: Vec<Station>,
    ring: Las,
    repeats: Repeats,
    offer: Option<Offer>,
    request: Option<Open>,
    /// The end of the last burst, if nothing was missed since.
    quiet: Option<u64>,
    /// Whether the moments of the last burst are known, or nothing has come since something was missed.
    is_timed: bool,
}

impl Model for Statistics {
    ghost use Rattle.std.specs.Prelude.{◌≡◌, length};
    ghost use Rattle.pb_monitor.specs.Known.{Known};

    ghost Value = { Known };

    ghost view = { λ s. record {
      limits = s.limits;
      traffic = s.traffic;
      stations = s.stations.items;
      ring = s.ring;
      last = s.repeats;
      offer = s.offer;
      request = s.request;
      quiet = s.quiet;
      timed = s.is_timed;
    } };
}

impl Statistics {
    ghost use Rattle.std.specs.Prelude.{◌≡◌, ◌<◌, ◌&&◌, IfOk, Ok, Some, None, slice_get};
    ghost use Rattle.pb_ring.specs.AddressSets.{is_member};
    ghost use Rattle.pb_ring.specs.Las.{is_complete, members_of};
    ghost use Rattle.pb_monitor.specs.Known.{alarmed, answered, changed_at, closed, begins_claim, known_at, forgotten, heard, heard_damage, heard_head, heard_sender, heard_telegram, heard_untimed, initiated, is_again, is_untaken, new_known, offer_to, refused, taken, without_telegrams};
    ghost use Rattle.pb_telegram.specs.declared.telegrams.Telegram.TheVariants.{Token};

    /// No burst yet. Without parameters of the bus, no silence counts as long. `slack` is how wrong the difference of two
    /// moments may be, in bit times.
    ///
    /// Fault: memory was refused.
    pub fn new(
        alloc: Global,
        params: Option<&BusParams>,
        slack: u32,
    ) -> Result<Statistics, AllocError>
        ensures { IfOk result (λ s. s ≡ new_known (option_map (λ p. p.now) params.entry) slack) }
    {
        let mut stations = Vec::new(alloc);
        for _address in 0..STATIONS {
            stations.push(Station::unheard())?;
        }
        Ok(Statistics {
            limits: params.map(|params| Limits {
                tsl: u64::from(params.tsl()),
                live: live(params, slack),
                early: u64::from(params.tsl()).saturating_sub(u64::from(slack)),
            }),
            traffic: Traffic::none(),
            stations,
            ring: Las::listening(),
            repeats: Repeats::new(),
            offer: None,
            request: None,
            quiet: None,
            is_timed: true,
        })
    }

    /// What is counted for the bus.
    pub fn traffic(&self) -> &Traffic
        ensures { result.now ≡ self.now.traffic }
    {
        &self.traffic
    }

    /// What is counted for a station; `None` if the address is over 126.
    pub fn station(&self, address: u8) -> Option<&Station>
        ensures { option_map (λ s. s.now) result ≡ slice_get self.now.stations address }
    {
        self.stations.get(usize::from(address))
    }

    /// Whether the list of active stations is complete: two equal rotations of the token were heard.
    pub fn is_ring_known(&self) -> bool
        ensures { result ≡ is_complete self.now.ring.stage }
    {
        self.ring.complete()
    }

    /// Whether a station, 0 to 126, is in the list of active stations.
    pub fn is_active(&self, address: u8) -> bool
        requires { address < 127 }
        ensures { result ≡ is_member (members_of self.now.ring.stage) address }
    {
        self.ring.contains(address)
    }

    /// The end of the last burst, if its moments are known and nothing was missed since.
    #[inline(always)]
    pub(crate) fn quiet(&self) -> Option<u64>
        ensures { result ≡ self.now.quiet }
    {
        self.quiet
    }

    /// Counts an alarm.
    pub(crate) fn raise(&mut self)
        ensures { self.new ≡ alarmed self.old }
    {
        self.traffic.alarms = one_more(self.traffic.alarms);
    }

    /// Counts a refusal of input, after which nothing is known of what came before.
    pub(crate) fn refuse(&mut self)
        ensures { self.new ≡ refused self.old }
    {
        self.traffic.refused = one_more(self.traffic.refused);
        self.forget();
    }

    /// Forgets what came before: something was missed.
    pub(crate) fn forget(&mut self)
        ensures { self.new ≡ forgotten self.old }
    {
        self.quiet = None;
        self.is_timed = true;
        self.forget_telegrams();
    }

    /// Forgets the last telegrams, and when stations received the token.
    fn forget_telegrams(&mut self)
        ensures { self.new ≡ without_telegrams self.old }
    {
        self.request = None;
        self.offer = None;
        self.repeats.forget();
        forget_receipts(&mut self.stations);
    }

    /// Hears the next burst.
    pub fn hear(&mut self, burst: &Burst)
        ensures { self.new ≡ heard burst.now self.old }
    {
        self.hear_spelled(burst, &octets_of(&burst.telegram));
    }

    /// Hears the next burst, of whose telegram these are the octets, if it has one.
    #[inline(always)]
    pub(crate) fn hear_spelled(&mut self, burst: &Burst, octets: &[u8])
        requires { IfOk burst.now.telegram (λ t. octets.now ≡ spelling t) }
        ensures { self.new ≡ heard burst.now self.old }
    {
        // After a burst without moments no silence is known.
        let before = if self.is_timed {
            self.quiet
        } else {
            Some(burst.begin)
        };
        self.is_timed = true;
        self.traffic.note(burst, before);
        self.hear_telegram(burst, octets, before);
        self.quiet = Some(burst.end);
    }

    /// Hears the next burst, of which no moments are known: those that it has mean nothing. These are the octets of its
    /// telegram, if it has one.
    pub(crate) fn hear_untimed(&mut self, burst: &Burst, octets: &[u8])
        requires { IfOk burst.now.telegram (λ t. octets.now ≡ spelling t) }
        ensures { self.new ≡ heard_untimed burst.now self.old }
    {
        self.is_timed = false;
        self.quiet = None;
        self.traffic.count();
        self.hear_telegram(burst, octets, None);
    }

    /// Counts what a burst says.
    #[inline(always)]
    fn hear_telegram(&mut self, burst: &Burst, octets: &[u8], before: Option<u64>)
        requires { IfOk burst.now.telegram (λ t. octets.now ≡ spelling t) }
        ensures { self.new ≡ heard_telegram before burst.now.begin burst.now.end burst.now.telegram self.old }
    {
        // Most telegrams are tokens.
        if let Ok(Telegram::Token(token)) = &burst.telegram {
            return self.hear_token(burst.begin, burst.end, token, before);
        }
        match &burst.telegram {
            Err(_) => self.hear_damage(burst.begin, before),
            Ok(telegram) => match meaning_in(&burst.telegram) {
                Meaning::Initiator(said) => self.hear_request(burst, telegram, octets, said),
                Meaning::Reply | Meaning::NoTelegram => self.hear_reply(burst, telegram),
            },
        }
    }

    /// Hears a token from one moment to another.
    #[inline(never)]
    fn hear_token(&mut self, begin: u64, end: u64, token: &TokenTelegram, before: Option<u64>)
        ensures { self.new ≡ heard_telegram before begin end (Ok (Token token.now)) self.old }
    {
        let (said, is_timed) = (passed(token.da, token.sa), self.is_timed);
        let is_claim = said.is_claim && self.begins_claim(begin, before);
        self.close();
        let is_again = self.repeats.hear_token(&[TOKEN_START, token.da, token.sa]);
        self.ring.hear(token.sa, token.da);
        self.send(begin, end, said, is_again && !said.is_claim);
        if is_claim {
            forget_receipts(&mut self.stations);
        }
        send_token(&mut self.stations, said, end, is_timed, is_claim);
    }

    /// Counts that a token or a request was sent, perhaps once more, and perhaps the token taken by it.
    #[inline(always)]
    fn send(&mut self, begin: u64, end: u64, said: InitiatorTelegram, is_repeat: bool)
        ensures { self.new ≡ record self.old {
          offer = offer_to (known_at self.old.timed end) said.offered;
          stations = changed_at said.source (initiated self.old.timed is_repeat end)
              (taken self.old.offer begin said (is_untaken self.old begin is_repeat)
              self.old.timed self.old.stations);
        } }
    {
        take_offer(
            &mut self.stations,
            &self.limits,
            self.offer,
            begin,
            said,
            is_repeat,
            self.is_timed,
        );
        let known = known_at(self.is_timed, end);
        self.offer = said.offered.map(|to| Offer { to, end: known });
        initiate(
            &mut self.stations,
            said.source,
            end,
            self.is_timed,
            is_repeat,
        );
    }

    /// Whether a moment comes after a silence that no token in use leaves, or is the first that is known.
    fn begins_claim(&self, begin: u64, before: Option<u64>) -> bool
        ensures { result ≡ begins_claim self.now.limits self.now.timed before begin }
    {
        let Some(limits) = self.limits else {
            return false;
        };
        match before {
            Some(end) => begin.saturating_sub(end) > limits.live,
            None => self.is_timed,
        }
    }

    /// Counts a burst without a telegram by its place.
    fn hear_damage(&mut self, begin: u64, before: Option<u64>)
        ensures { self.new ≡ heard_damage before begin self.old }
    {
        let is_over = is_over(begin, before, self.limits);
        let damaged = &mut self.traffic.damaged;
        if is_over {
            damaged.after_loss = one_more(damaged.after_loss);
        } else if is_awaited(self.request) {
            damaged.replying = one_more(damaged.replying);
        } else if is_in_slot(begin, self.offer, self.limits, self.is_timed) {
            damaged.taking = one_more(damaged.taking);
        } else {
            damaged.other = one_more(damaged.other);
        }
        self.request = damaged_open(self.request, is_over);
        self.close();
        self.forget_telegrams();
    }

    /// Hears a request, of these octets.
    #[tactic(auto, using(crate::proofs::Fronts::spelling_fits))]
    fn hear_request(
        &mut self,
        burst: &Burst,
        telegram: &Telegram,
        octets: &[u8],
        said: InitiatorTelegram,
    )
        requires { octets.now ≡ spelling telegram.now }
        ensures { self.new ≡ heard_head (head_of telegram.now) burst.now.end
            (heard_sender burst.now.begin burst.now.end telegram.now said
            (is_again (closed self.old) telegram.now said) (closed self.old)) }
    {
        self.close();
        let is_repeat = self.repeats.hear(octets) && !said.is_claim;
        self.send(burst.begin, burst.end, said, is_repeat);
        self.hear_head(telegram.head(), burst.end);
    }

    /// Counts a request that ended at a moment.
    fn hear_head(&mut self, head: Option<Head>, end: u64)
        ensures { self.new ≡ heard_head head end self.old }
    {
        let Some(head) = head else {
            return;
        };
        let (source, to) = (head.sa % 128, head.da % 128);
        let asked = Asked::by(Fc(head.fc).code());
        let is_poll = asked == Asked::Status;
        ask(&mut self.stations, source, to, is_poll);
        if is_answered(asked) {
            self.request = Some(Open {
                source,
                to,
                end: known_at(self.is_timed, end),
                is_poll,
                answer: Answer::Awaited,
            });
        }
    }

    /// Hears a reply or an acknowledgement.
    fn hear_reply(&mut self, burst: &Burst, telegram: &Telegram)
        ensures { self.new
            ≡ answered burst.now.begin burst.now.end (head_of telegram.now) self.old.request self.old }
    {
        let Some(request) = &mut self.request else {
            return;
        };
        let head = telegram.head();
        if request.answer != Answer::Awaited || !answers(request, head) {
            return;
        }
        request.answer = Answer::Good;
        reply(
            &mut self.stations,
            request.to,
            burst.end,
            self.is_timed,
            bits_since(self.is_timed, request.end, burst.begin),
            head,
        );
    }

    /// The open request gets no more answer.
    pub(crate) fn close(&mut self)
        ensures { self.new ≡ closed self.old }
    {
        if let Some(request) = &self.request {
            close(&mut self.stations, request.source, request.answer);
            self.request = None;
        }
    }
}

/// The open request after damage: not answered, if the damage comes after a silence longer than a slot can be.
fn damaged_open(request: Option<Open>, is_over: bool) -> Option<Open>
    ensures { result ≡ damaged_open is_over request }
{
    let Some(request) = request else {
        return None;
    };
    if is_over {
        return Some(request);
    }
    let answer = match request.answer {
        Answer::Awaited => Answer::Damaged,
        answer => answer,
    };
    Some(Open {
        source: request.source,
        to: request.to,
        end: request.end,
        is_poll: request.is_poll,
        answer,
    })
}

/// Whether the silence before a moment is longer than any that a token in use leaves.
fn is_over(begin: u64, before: Option<u64>, limits: Option<Limits>) -> bool
    ensures { result ≡ is_over limits before begin }
{
    let Some(limits) = limits else {
        return false;
    };
    match before {
        Some(end) => begin.saturating_sub(end) > limits.live,
        None => false,
    }
}

/// Whether nothing has come yet after a request.
fn is_awaited(request: Option<Open>) -> bool
    ensures { result ≡ is_awaited request }
{
    match request {
        Some(request) => request.answer == Answer::Awaited,
        None => false,
    }
}

/// Whether a token that is sent again from a moment on could still be taken.
#[inline(never)]
pub(crate) fn is_early(
    begin: u64,
    offer: Option<Offer>,
    limits: Option<Limits>,
    is_timed: bool,
) -> bool
    ensures { result ≡ is_early limits is_timed offer begin }
{
    let Some(limits) = limits else {
        return false;
    };
    match offer {
        Some(offer) => is_under(false, bits_since(is_timed, offer.end, begin), limits.early),
        None => false,
    }
}

/// Whether a burst is in the slot of a token that nobody has taken.
fn is_in_slot(begin: u64, offer: Option<Offer>, limits: Option<Limits>, is_timed: bool) -> bool
    ensures { result ≡ is_in_slot limits is_timed offer begin }
{
    let Some(limits) = limits else {
        return false;
    };
    match offer {
        Some(offer) => is_under(true, bits_since(is_timed, offer.end, begin), limits.tsl),
        None => false,
    }
}

/// A moment, if the capture gives it.
pub(crate) fn known_at(is_timed: bool, moment: u64) -> Option<u64>
    ensures { result ≡ known_at is_timed moment }
{
    if is_timed { Some(moment) } else { None }
}

/// How long after the end of an earlier telegram a burst begins, if both moments are known.
pub(crate) fn bits_since(is_timed: bool, end: Option<u64>, begin: u64) -> Option<u64>
    ensures { result ≡ bits_since is_timed end begin }
{
    match end {
        Some(end) if is_timed => Some(begin.saturating_sub(end)),
        _ => None,
    }
}

/// Whether a duration is less than a limit, where it is known.
fn is_under(unknown: bool, bits: Option<u64>, limit: u64) -> bool
    ensures { result ≡ is_under unknown bits limit }
{
    match bits {
        Some(bits) => bits < limit,
        None => unknown,
    }
}

/// Whether a station answers such a request.
fn is_answered(asked: Asked) -> bool
    ensures { result ≡ wants_answer asked }
{
    match asked {
        Asked::Send(service, _) => service.is_answered(),
        Asked::Status => true,
        Asked::Unknown => false,
    }
}

/// Whether a telegram is an answer to a request: one for a status is answered only by a reply that all is well.
fn answers(request: &Open, head: Option<Head>) -> bool
    ensures { result ≡ answers request.now head }
{
    match head {
        Some(head) => {
            head.sa % 128 == request.to
                && head.da % 128 == request.source
                && (!request.is_poll || head.fc % 16 == 0)
        }
        None => !request.is_poll,
    }
}
