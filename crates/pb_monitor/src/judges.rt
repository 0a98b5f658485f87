//! The judge: which tokens and requests are wrong.

ghost use Rattle.std.specs.Prelude.{◌≡◌, List, [], ◌∷◌, ◌++◌};
ghost use Rattle.pb_telegram.specs.declared.chars.RxChar.{RxChar};
ghost use Rattle.law_turn.specs.Arrivals.{arrival_of};
ghost use Rattle.pb_monitor.specs.Captures as captures;
ghost use Rattle.pb_monitor.specs.Meanings.{arrival_in};
ghost use Rattle.pb_monitor.specs.Judge as judge;
ghost use Rattle.pb_monitor.specs.Holders.{holder_of};
ghost use Rattle.pb_monitor.specs.Judging.{StandsFor};

use crate::alarms::{Alarm, Classes};
use crate::bursts::Burst;
use crate::holders::{Holder, named_holder};
use crate::judging::judged;
use crate::meanings::{InitiatorTelegram, Meaning, meaning_in};
use crate::states::{State, hear, silence_before};
use pb_timers::BusParams;
use std::marker::Model;

/// Judges what one passive listener hears of a bus, burst by burst. In contracts it is its parameters and its
/// [`State`].
///
/// An alarm of [`AlarmClass::Legality`](crate::AlarmClass) says that the telegram is illegal after those before it. It is
/// proved that no trace of legal telegrams raises one, whatever the listener hears of it, and (law_monitor) that a run that
/// keeps the premises raises no alarm of any class.
#[derive(Drop)]
pub struct Judge {
    params: BusParams,
    slack: u32,
    classes: Classes,
    since: u64,
    state: State,
}

impl Model for Judge {
    ghost use Rattle.pb_monitor.specs.Judging.{Judging};

    ghost Value = { Judging };

    ghost view = { λ j. record {
      params = j.params;
      slack = j.slack;
      classes = j.classes;
      since = j.since;
      state = j.state;
    } };
}

impl Judge {
    /// A judge that begins to listen at a moment, in bit times. All moments that it will be given may be wrong by up to
    /// half the slack, in bit times; it is 0 where they are exact.
    pub fn new(params: &BusParams, slack: u32, classes: Classes, since: u64) -> Judge
        ensures fresh { result ≡ record {
          params = params.now;
          slack = slack;
          classes = classes;
          since = since;
          state = judge.listening since;
        } }
        ensures stands { StandsFor result [] }
    {
        Judge {
            params: *params,
            slack,
            classes,
            since,
            state: State::listening(since),
        }
    }

    /// Hears the next burst. Returns what is wrong with its telegram, if the telegram is a token or a request, and the
    /// class of the alarm was chosen.
    #[tactic(auto, using(crate::proofs::Meant::behind_meant, crate::proofs::Meant::stands_for_more))]
    pub fn hear(&mut self, burst: &Burst) -> Option<Alarm>
        ensures alarm { (chars : List RxChar) → arrival_of chars ≡ arrival_in burst.now.telegram
            → result ≡ judge.alarm_of self.old.params self.old.slack self.old.classes self.old.since
            self.old.state (record { begin = burst.now.begin; end = burst.now.end; chars = chars }) }
        ensures state { (chars : List RxChar) → arrival_of chars ≡ arrival_in burst.now.telegram
            → self.new ≡ record (self.old) {
              state = judge.behind self.old.params self.old.slack
                  self.old.state (record { begin = burst.now.begin; end = burst.now.end; chars = chars });
            } }
        ensures stands { (bursts : List captures.Burst) (chars : List RxChar) → StandsFor self.old bursts
            → arrival_of chars ≡ arrival_in burst.now.telegram → StandsFor self.new
            (bursts ++ record { begin = burst.now.begin; end = burst.now.end; chars = chars } ∷ []) }
    {
        let meaning = meaning_in(&burst.telegram);
        let raised = self.alarm(burst, meaning);
        self.keep(burst, meaning);
        raised
    }

    /// What is wrong with the telegram of the next burst, by its meaning.
    #[inline(always)]
    pub(crate) fn alarm(&self, burst: &Burst, meaning: Meaning) -> Option<Alarm>
        ensures { result ≡ judge.alarm_by self.now.params self.now.slack self.now.classes self.now.since
            self.now.state burst.now.begin meaning }
    {
        match meaning {
            Meaning::Initiator(telegram) if telegram.is_claim => {
                self.alarm_of_claim(burst.begin, telegram)
            }
            // When the last long silence was counts of claims alone.
            Meaning::Initiator(telegram) => judged(
                &self.params,
                self.slack,
                self.classes,
                self.since,
                &self.state,
                burst.begin,
                telegram,
            ),
            Meaning::Reply | Meaning::NoTelegram => None,
        }
    }

    /// What is wrong with a claim. It may end a silence.
    #[inline(never)]
    fn alarm_of_claim(&self, begin: u64, telegram: InitiatorTelegram) -> Option<Alarm>
        ensures { result ≡ judge.judged self.now.params self.now.slack self.now.classes self.now.since
            (judge.silence_before self.now.params self.now.slack self.now.state begin) begin telegram }
    {
        judged(
            &self.params,
            self.slack,
            self.classes,
            self.since,
            &silence_before(&self.params, self.slack, &self.state, begin),
            begin,
            telegram,
        )
    }

    /// Keeps what the next burst tells, by its meaning.
    #[inline(always)]
    pub(crate) fn keep(&mut self, burst: &Burst, meaning: Meaning)
        ensures { self.new ≡ record (self.old) {
          state = judge.behind_by self.old.params self.old.slack self.old.state burst.now.begin burst.now.end meaning;
        } }
    {
        hear(
            &mut self.state,
            &self.params,
            self.slack,
            burst.begin,
            burst.end,
            meaning,
        );
    }

    /// Who may send tokens and requests, as far as a listener can tell, at a moment between two bursts: of the bus as it
    /// was a cable delay ago.
    pub fn holder(&self, moment: u64) -> Holder
        ensures { result ≡ holder_of self.now.params self.now.slack self.now.state moment }
    {
        named_holder(&self.params, self.slack, self.state, moment)
    }

    /// What it keeps of the bursts.
    pub fn state(&self) -> State
        ensures { result ≡ self.now.state }
    {
        self.state
    }
}
