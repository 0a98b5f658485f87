//! The lines that a monitor prints for bursts and alarms.

ghost use Rattle.std.specs.Prelude.{◌≡◌, ◌≤◌, ◌+◌, ◌++◌, [], codes, length, None, OnOk, Some};
ghost use Rattle.pb_decode.specs.Texts.{address_text, token_text};
ghost use Rattle.pb_monitor.specs.BurstTexts.{after_last_text, alarm_head, claimed_text, content_text, deed_text, had_last_text, had_text, holder_text, latest, measured_text, named_text, offered_text, order_text, refused_text, spoke_text, taken_text, why_text};
ghost use Rattle.pb_monitor.specs.TelegramWords.{token_words};
ghost use Rattle.pb_telegram.specs.declared.telegrams.Telegram.TheVariants.{Var};

use crate::alarms::Alarm;
use crate::holders::Holder;
use crate::judges::Judge;
use crate::meanings::InitiatorTelegram;
use crate::states::{LastHeard, State, live};
use crate::texts::{LONGEST_PIECE, hex_of, push_counted, push_hex, push_number, put, put_number};
use crate::words::Words;
use arrayvec::ArrayVec;
use pb_decode::{push_fault, push_telegram};
use pb_telegram::{Fc, Telegram, TelegramFault, VarTelegram};
use pb_timers::BusParams;
use std::alloc::AllocError;

/// An alarm, with what was known before it.
#[derive(Clone, Copy, Debug)]
pub(crate) struct Raised {
    /// What is wrong.
    pub(crate) alarm: Alarm,
    /// The telegram that is wrong.
    pub(crate) telegram: InitiatorTelegram,
    /// What was known before it.
    pub(crate) before: State,
}

/// Appends a telegram and what it says, or the fault of a burst without one: a token to the piece of a line, anything else to
/// the text, behind the piece, which is then empty.
#[inline(always)]
pub(crate) fn put_content(
    piece: &mut ArrayVec<u8, LONGEST_PIECE>,
    telegram: &Result<Telegram, TelegramFault>,
    text: &mut Vec<u8>,
) -> Result<(), AllocError>
    requires { length piece.old.items ≤ 42 }
    ensures text { OnOk result (text.new.items ++ piece.new.items
        ≡ (text.old.items ++ piece.old.items) ++ content_text telegram.now) }
    ensures room { OnOk result (length piece.new.items ≤ 82) }
{
    if let Ok(Telegram::Token(token)) = telegram {
        put_token(piece, token.da, token.sa);
        return Ok(());
    }
    if let Ok(Telegram::Var(var)) = telegram {
        return push_var(piece, var, text);
    }
    text.extend_from_slice(piece)?;
    piece.clear();
    push_content(text, telegram)
}

/// Appends a token and what it says to the piece of a line.
#[inline(always)]
fn put_token(piece: &mut ArrayVec<u8, LONGEST_PIECE>, da: u8, sa: u8)
    requires { length piece.old.items ≤ 42 }
    ensures text { piece.new.items ≡ piece.old.items ++ token_text da sa ++ codes " | " ++ token_words da sa }
    ensures room { length piece.new.items ≤ 82 }
{
    put(piece, b"token");
    put(piece, b" da=");
    put_address(piece, da);
    put(piece, b" sa=");
    put_address(piece, sa);
    put(piece, b" | ");
    if da == sa {
        put(piece, b"token to itself");
        return;
    }
    put(piece, b"token to ");
    put_number(piece, da);
}

/// Appends a telegram with data of variable length and what it says to the text, behind the piece, which is then empty. The
/// text is that of `push_content`, in fewer steps.
#[inline(never)]
fn push_var(
    piece: &mut ArrayVec<u8, LONGEST_PIECE>,
    var: &VarTelegram,
    text: &mut Vec<u8>,
) -> Result<(), AllocError>
    requires { length piece.old.items ≤ 42 }
    ensures text { OnOk result (text.new.items
        ≡ (text.old.items ++ piece.old.items) ++ content_text (Ok (Var var.now))) }
    ensures empty { OnOk result (piece.new.items ≡ []) }
    ensures room { OnOk result (length piece.new.items ≤ 82) }
{
    put(piece, b"var da=");
    put_address(piece, var.da);
    put(piece, b" sa=");
    put_address(piece, var.sa);
    put(piece, b" fc=");
    put(piece, &hex_of(var.fc));
    put(piece, b" unit=");
    text.extend_from_slice(piece)?;
    piece.clear();
    push_hex(text, &var.unit)?;
    text.extend_from_slice(b" | ")?;
    Words::by(Fc(var.fc), false).push(text)
}

/// Appends an address, and a plus sign if bit 7 of its octet is set, to the piece of a line.
#[inline(always)]
fn put_address(piece: &mut ArrayVec<u8, LONGEST_PIECE>, octet: u8)
    requires { length piece.old.items ≤ 100 }
    ensures text { piece.new.items ≡ piece.old.items ++ address_text octet }
    ensures room { length piece.new.items ≤ length piece.old.items + 4 }
{
    put_number(piece, octet % 128);
    if octet >= 128 {
        put(piece, b"+");
    }
}

/// Appends a telegram and what it says, or the fault of a burst without one.
#[inline(never)]
fn push_content(
    text: &mut Vec<u8>,
    telegram: &Result<Telegram, TelegramFault>,
) -> Result<(), AllocError>
    ensures { OnOk result (text.new.items ≡ text.old.items ++ content_text telegram.now) }
{
    match telegram {
        Ok(telegram) => {
            push_telegram(text, telegram)?;
            text.extend_from_slice(b" | ")?;
            Words::of(telegram).push(text)
        }
        Err(fault) => push_fault(text, fault),
    }
}

/// Appends who holds the token to the piece of a line.
#[inline(always)]
fn put_holder(piece: &mut ArrayVec<u8, LONGEST_PIECE>, holder: Holder)
    requires { length piece.old.items ≤ 100 }
    ensures text { piece.new.items ≡ piece.old.items ++ holder_text holder }
    ensures room { length piece.new.items ≤ length piece.old.items + 17 }
{
    match holder {
        Holder::One(address) => {
            put(piece, b" | holder ");
            put_number(piece, address);
        }
        Holder::OfferedTo(address) => {
            put(piece, b" | offered to ");
            put_number(piece, address);
        }
        Holder::Nobody => put(piece, b" | nobody"),
        Holder::Unknown => put(piece, b" | unknown"),
    }
}

/// Appends who holds the token at a moment to the piece of a line, where that is judged.
#[inline(always)]
pub(crate) fn put_named(piece: &mut ArrayVec<u8, LONGEST_PIECE>, judge: &Option<Judge>, moment: u64)
    requires { length piece.old.items ≤ 100 }
    ensures text { piece.new.items ≡ piece.old.items ++ named_text moment judge.now }
    ensures room { length piece.new.items ≤ length piece.old.items + 17 }
{
    if let Some(judge) = judge {
        put_holder(piece, judge.holder(moment));
    }
}

/// Appends the line of an alarm.
pub(crate) fn push_alarm(
    text: &mut Vec<u8>,
    params: &BusParams,
    slack: u32,
    raised: &Raised,
    begin: u64,
) -> Result<(), AllocError>
    ensures { OnOk result (text.new.items ≡ text.old.items
        ++ alarm_head raised.now.alarm (Some begin) raised.now.telegram.source
        ++ why_text params.now slack raised.now.before raised.now.alarm begin raised.now.telegram.source
        ++ codes "\n") }
{
    let source = raised.telegram.source;
    let last = raised.before.last;
    push_alarm_head(text, raised.alarm, Some(begin), source)?;
    let silence = begin.saturating_sub(raised.before.quiet);
    match raised.alarm {
        Alarm::SpokeAfterLoss => push_spoke(text, params, slack, silence, last)?,
        Alarm::ClaimedTooEarlyAfterLoss | Alarm::ClaimedTooEarly => {
            push_claimed(text, params, source, silence, last)?
        }
        alarm => push_after_last(text, params, slack, alarm, begin, last)?,
    }
    text.extend_from_slice(b"\n")
}

/// Appends what an alarm line begins with.
pub(crate) fn push_alarm_head(
    text: &mut Vec<u8>,
    alarm: Alarm,
    begin: Option<u64>,
    source: u8,
) -> Result<(), AllocError>
    ensures { OnOk result (text.new.items ≡ text.old.items ++ alarm_head alarm begin source) }
{
    text.extend_from_slice(b"alarm")?;
    if let Some(begin) = begin {
        push_counted(text, b" at ", begin)?;
    }
    push_counted(text, b" by ", u64::from(source))?;
    text.extend_from_slice(b": ")?;
    text.extend_from_slice(alarm.name().as_bytes())?;
    text.extend_from_slice(b": ")
}

/// Appends that a station spoke after a loss, without claiming.
fn push_spoke(
    text: &mut Vec<u8>,
    params: &BusParams,
    slack: u32,
    silence: u64,
    last: Option<LastHeard>,
) -> Result<(), AllocError>
    ensures { OnOk result (text.new.items
        ≡ text.old.items ++ spoke_text params.now slack silence last) }
{
    push_measured(
        text,
        b"it spoke without claiming after a silence of ",
        silence,
        b", and a token in use leaves at most ",
        live(params, slack),
    )?;
    push_had_last(text, last)
}

/// Appends that a station claimed too early.
fn push_claimed(
    text: &mut Vec<u8>,
    params: &BusParams,
    source: u8,
    silence: u64,
    last: Option<LastHeard>,
) -> Result<(), AllocError>
    ensures { OnOk result (text.new.items
        ≡ text.old.items ++ claimed_text params.now source silence last) }
{
    push_measured(
        text,
        b"it claimed after a silence of ",
        silence,
        b", and its time-out is ",
        params.tto(source),
    )?;
    push_had_last(text, last)
}

/// Appends to the end of a sentence who had the token or was offered it, if that is known.
fn push_had_last(text: &mut Vec<u8>, last: Option<LastHeard>) -> Result<(), AllocError>
    ensures { OnOk result (text.new.items ≡ text.old.items ++ had_last_text last) }
{
    let Some(last) = last else {
        return Ok(());
    };
    text.extend_from_slice(b"; ")?;
    push_had(text, last.source, last.offered)
}

/// Appends who had the token or was offered it.
fn push_had(text: &mut Vec<u8>, source: u8, offered: Option<u8>) -> Result<(), AllocError>
    ensures { OnOk result (text.new.items ≡ text.old.items ++ had_text source offered) }
{
    push_counted(text, b"station ", u64::from(source))?;
    push_offered(text, offered)
}

/// Appends that a station had the token, or to whom it had passed it.
fn push_offered(text: &mut Vec<u8>, offered: Option<u8>) -> Result<(), AllocError>
    ensures { OnOk result (text.new.items ≡ text.old.items ++ offered_text offered) }
{
    match offered {
        Some(to) => push_counted(text, b" had passed the token to station ", u64::from(to)),
        None => text.extend_from_slice(b" had the token"),
    }
}

/// Appends what is wrong about a telegram after the last token or request.
fn push_after_last(
    text: &mut Vec<u8>,
    params: &BusParams,
    slack: u32,
    alarm: Alarm,
    begin: u64,
    last: Option<LastHeard>,
) -> Result<(), AllocError>
    ensures { OnOk result (text.new.items
        ≡ text.old.items ++ after_last_text params.now slack alarm begin last) }
{
    let Some(last) = last else {
        return Ok(());
    };
    push_had(text, last.source, last.offered)?;
    push_deed(text, params, slack, alarm, begin.saturating_sub(last.end))
}

/// Appends what was done so long after the end of the last token.
fn push_deed(
    text: &mut Vec<u8>,
    params: &BusParams,
    slack: u32,
    alarm: Alarm,
    after: u64,
) -> Result<(), AllocError>
    ensures { OnOk result (text.new.items
        ≡ text.old.items ++ deed_text params.now slack alarm after) }
{
    let tsl = u64::from(params.tsl());
    match alarm {
        Alarm::PassedAgainTooEarly => {
            let limit = b" after the end of that token; the slot is ";
            push_measured(text, b" and spoke again ", after, limit, tsl)
        }
        Alarm::PassedAgainThoughHeard => {
            text.extend_from_slice(b" and spoke again though something was heard in the slot")
        }
        Alarm::TookAfterSlot => push_taken(text, after, b" after its end, and the slot is ", tsl),
        Alarm::TookLate => {
            let latest = latest(params, slack);
            push_taken(text, after, b" after its end, and the latest is ", latest)
        }
        Alarm::TookTooSoon => {
            let tid1 = u64::from(params.tid1());
            push_taken(text, after, b" after its end, and the earliest is ", tid1)
        }
        Alarm::SpokeWithoutToken
        | Alarm::SpokeOutOfTurn
        | Alarm::ClaimedTooEarly
        | Alarm::SpokeAfterLoss
        | Alarm::ClaimedTooEarlyAfterLoss => Ok(()),
    }
}

/// Appends when the token was taken, and when it should have been.
fn push_taken(text: &mut Vec<u8>, after: u64, limit: &[u8], bits: u64) -> Result<(), AllocError>
    ensures { OnOk result (text.new.items ≡ text.old.items ++ taken_text after limit.now bits) }
{
    push_measured(text, b"; it was taken ", after, limit, bits)
}

/// Appends a number of bit times, and what it should have been.
fn push_measured(
    text: &mut Vec<u8>,
    what: &[u8],
    found: u64,
    limit: &[u8],
    bits: u64,
) -> Result<(), AllocError>
    ensures { OnOk result (text.new.items
        ≡ text.old.items ++ measured_text what.now found limit.now bits) }
{
    push_counted(text, what, found)?;
    push_counted(text, limit, bits)
}

/// How long after a token's end a station takes it at the latest, in bit times.
fn latest(params: &BusParams, slack: u32) -> u64
    ensures { result ≡ latest params.now slack }
{
    u64::from(params.tid1())
        + u64::from(params.lag())
        + 2 * u64::from(params.ttd())
        + u64::from(slack)
}

/// Appends the begin of a line for input that is refused.
pub(crate) fn push_refused(text: &mut Vec<u8>, what: &[u8], place: u64) -> Result<(), AllocError>
    ensures { OnOk result (text.new.items ≡ text.old.items ++ refused_text what.now place) }
{
    text.extend_from_slice(b"refused ")?;
    text.extend_from_slice(what)?;
    text.extend_from_slice(b" ")?;
    push_number(text, place)?;
    text.extend_from_slice(b": ")
}

/// Appends the line of an alarm of a telegram without moments.
pub(crate) fn push_untimed_alarm(
    text: &mut Vec<u8>,
    alarm: Alarm,
    last: Option<InitiatorTelegram>,
    source: u8,
) -> Result<(), AllocError>
    ensures { OnOk result (text.new.items
        ≡ text.old.items ++ alarm_head alarm None source ++ order_text last ++ codes "\n") }
{
    push_alarm_head(text, alarm, None, source)?;
    if let Some(last) = last {
        push_had(text, last.source, last.offered)?;
    }
    text.extend_from_slice(b"\n")
}
