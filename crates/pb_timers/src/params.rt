//! The bus parameters that all stations of a segment share, and the ten rules that they meet.

ghost use Rattle.std.specs.Prelude.{◌≡◌, Some, None, IsTrue, ◌↔◌, IfOk, IfErr, OnOk};
ghost use Rattle.pb_faults.specs.FirstFault.{first_fault};
ghost use Rattle.pb_timers.specs.Timers.{tto};
ghost use Rattle.pb_timers.specs.ParamRules.{is_outside, late_faults};

use std::marker::Model;
use thiserror::Error;

/// Why parameters are refused: the first fault that applies, in the order of the numbers. All limits are this
/// profile's.
#[derive(Clone, Copy, Debug, PartialEq, Eq, Error)]
pub enum ParamFault {
    /// 1: the slot time is not 100 to 16383 bit times.
    #[error("Slot")]
    Slot,
    /// 2: idle time 1 is under 33 bit times.
    #[error("IdleShort")]
    IdleShort,
    /// 3: idle time 2 is under idle time 1.
    #[error("IdleOrder")]
    IdleOrder,
    /// 4: the reply delay is under 11 bit times.
    #[error("ReplyShort")]
    ReplyShort,
    /// 5: the target rotation time is not 256 to 16777215 bit times.
    #[error("Rotation")]
    Rotation,
    /// 6: the GAP factor is not 1 to 100.
    #[error("GapFactor")]
    GapFactor,
    /// 7: the highest station address is not 2 to 126.
    #[error("Highest")]
    Highest,
    /// 8: there are more than 7 retries.
    #[error("Retries")]
    Retries,
    /// 9: the sum of idle time 2, the lag and twice the cable delay is not under the slot time.
    #[error("TakeLate")]
    TakeLate,
    /// 10: the sum of the reply delay, the lag and twice the cable delay is not under the slot time.
    #[error("ReplyLate")]
    ReplyLate,
}

impl ParamFault {
    ghost use Rattle.pb_timers.specs.ParamWords.{number_of};

    /// The fault's number, 1 to 10: its position in the order in which faults are tested.
    pub fn number(&self) -> u8
        ensures { result ≡ number_of self.now }
    {
        match self {
            ParamFault::Slot => 1,
            ParamFault::IdleShort => 2,
            ParamFault::IdleOrder => 3,
            ParamFault::ReplyShort => 4,
            ParamFault::Rotation => 5,
            ParamFault::GapFactor => 6,
            ParamFault::Highest => 7,
            ParamFault::Retries => 8,
            ParamFault::TakeLate => 9,
            ParamFault::ReplyLate => 10,
        }
    }
}

/// The parameters that all stations of a segment share (IEC 61158-4-3, timing parameters): times in bit times, the GAP
/// factor, the highest station address and the number of retries. Each value meets all ten rules.
///
/// ```
/// let params = BusParams::new(100, 37, 60, 11, 0, 10_000, 10, 5, 1, 0);
/// assert!(rt; params.is_ok());
/// // idle time 2, 60, and a lag of 40 are not under the slot time, 100
/// let late = BusParams::new(100, 37, 60, 11, 40, 10_000, 10, 5, 1, 0);
/// assert_eq!(rt; late.err(), Some(ParamFault::TakeLate));
/// ```
#[derive(Clone, Copy, Debug)]
pub struct BusParams {
    tsl: u32,
    tid1: u32,
    tid2: u32,
    tsdr: u32,
    lag: u32,
    ttr: u32,
    gap: u32,
    hsa: u32,
    retries: u32,
    ttd: u32,
}

/// Bus parameters by name, not tested yet: [`BusParams::of`] tests them.
///
/// ```
/// let named = NamedParams {
///     tsl: 100,
///     tid1: 37,
///     tid2: 60,
///     tsdr: 11,
///     lag: 0,
///     ttr: 10_000,
///     gap: 10,
///     hsa: 5,
///     retries: 1,
///     ttd: 0,
/// };
/// assert!(rt; BusParams::of(named).is_ok());
/// let short = NamedParams { tsl: 99, ..named };
/// assert_eq!(rt; BusParams::of(short).err(), Some(ParamFault::Slot));
/// ```
#[derive(Clone, Copy, Debug, PartialEq, Eq)]
pub struct NamedParams {
    /// The slot time, in bit times, 100 to 16383.
    pub tsl: u32,
    /// Idle time 1, in bit times, at least 33: after a reply, an acknowledgement or a token.
    pub tid1: u32,
    /// Idle time 2, in bit times, at least idle time 1: after a request that nobody answers.
    pub tid2: u32,
    /// The reply delay of a responder, in bit times, at least 11.
    pub tsdr: u32,
    /// How late a station may take its turn, in bit times.
    pub lag: u32,
    /// The target rotation time, in bit times, 256 to 16777215.
    pub ttr: u32,
    /// The GAP factor, 1 to 100.
    pub gap: u32,
    /// The highest station address, 2 to 126.
    pub hsa: u32,
    /// How many times a request is sent again, 0 to 7.
    pub retries: u32,
    /// The cable delay, in bit times.
    pub ttd: u32,
}

impl Model for BusParams {
    ghost use Rattle.pb_timers.specs.Timers.{Params};

    ghost Value = { Params };

    ghost use Rattle.pb_timers.specs.ParamRules.{IsValid};
    ghost use Rattle.pb_timers.specs.ParamViews.{params_of, params_inside};

    ghost view = { params_of };

    ghost invariant = { λ b. IsValid (params_of b) };

    ghost inverse = { params_inside };
}

impl BusParams {
    ghost use Rattle.pb_timers.specs.ParamRules.{param_faults, IsValid};
    ghost use Rattle.pb_timers.specs.ParamViews.{params_named};

    /// Checks parameters against all ten rules.
    ///
    /// The arguments are, in bit times, the slot time, idle times 1 and 2, the reply delay, the lag (how late a turn
    /// may be) and the target rotation time; then the GAP factor, the highest station address and the number of retries
    /// of a cycle; and, in bit times, the cable delay (how much later a telegram reaches the taps of others).
    ///
    /// Faults, the first that applies:
    ///
    /// 1. `Slot`: the slot time is not 100 to 16383.
    /// 2. `IdleShort`: idle time 1 is under 33.
    /// 3. `IdleOrder`: idle time 2 is under idle time 1.
    /// 4. `ReplyShort`: the reply delay is under 11.
    /// 5. `Rotation`: the target rotation time is not 256 to 16777215.
    /// 6. `GapFactor`: the GAP factor is not 1 to 100.
    /// 7. `Highest`: the highest station address is not 2 to 126.
    /// 8. `Retries`: there are more than 7 retries.
    /// 9. `TakeLate`: the sum of idle time 2, the lag and twice the cable delay is not under the slot time.
    /// 10. `ReplyLate`: the sum of the reply delay, the lag and twice the cable delay is not under the slot time.
    #[expect(clippy::too_many_arguments)]
    pub fn new(
        tsl: u32,
        tid1: u32,
        tid2: u32,
        tsdr: u32,
        lag: u32,
        ttr: u32,
        gap: u32,
        hsa: u32,
        retries: u32,
        ttd: u32,
    ) -> Result<BusParams, ParamFault>
        ensures value { IfOk result (λ p. p ≡ record {
          tsl = tsl;
          tid1 = tid1;
          tid2 = tid2;
          tsdr = tsdr;
          lag = lag;
          ttr = ttr;
          gap = gap;
          hsa = hsa;
          retries = retries;
          ttd = ttd;
        }) }
        ensures valid { IfOk result (λ p. first_fault (param_faults p) ≡ None) }
        ensures fault { IfErr result (λ fault. first_fault (param_faults (record {
          tsl = tsl;
          tid1 = tid1;
          tid2 = tid2;
          tsdr = tsdr;
          lag = lag;
          ttr = ttr;
          gap = gap;
          hsa = hsa;
          retries = retries;
          ttd = ttd;
        })) ≡ Some fault) }
    {
        if is_outside(100, 16_383, tsl) {
            return Err(ParamFault::Slot);
        }
        if tid1 < 33 {
            return Err(ParamFault::IdleShort);
        }
        if tid2 < tid1 {
            return Err(ParamFault::IdleOrder);
        }
        if tsdr < 11 {
            return Err(ParamFault::ReplyShort);
        }
        if is_outside(256, 16_777_215, ttr) {
            return Err(ParamFault::Rotation);
        }
        if is_outside(1, 100, gap) {
            return Err(ParamFault::GapFactor);
        }
        if is_outside(2, 126, hsa) {
            return Err(ParamFault::Highest);
        }
        if retries > 7 {
            return Err(ParamFault::Retries);
        }
        refuse_late(tsl, tid2, tsdr, lag, ttd)?;
        Ok(BusParams {
            tsl,
            tid1,
            tid2,
            tsdr,
            lag,
            ttr,
            gap,
            hsa,
            retries,
            ttd,
        })
    }

    /// [`BusParams::new`] with named parameters, with the same faults in the same order.
    pub fn of(named: NamedParams) -> Result<BusParams, ParamFault>
        ensures value { IfOk result (λ p. p ≡ params_named named) }
        ensures valid { OnOk result (first_fault (param_faults (params_named named)) ≡ None) }
        ensures fault { IfErr result (λ fault. first_fault (param_faults (params_named named)) ≡ Some fault) }
    {
        BusParams::new(
            named.tsl,
            named.tid1,
            named.tid2,
            named.tsdr,
            named.lag,
            named.ttr,
            named.gap,
            named.hsa,
            named.retries,
            named.ttd,
        )
    }

    /// Whether all ten parameters are equal.
    pub fn is_same(&self, other: &BusParams) -> bool
        ensures { IsTrue result ↔ (self.now ≡ other.now) }
    {
        other.tsl == self.tsl
            && other.tid1 == self.tid1
            && other.tid2 == self.tid2
            && other.tsdr == self.tsdr
            && other.lag == self.lag
            && other.ttr == self.ttr
            && other.gap == self.gap
            && other.hsa == self.hsa
            && other.retries == self.retries
            && other.ttd == self.ttd
    }

    /// The slot time, in bit times, 100 to 16383.
    pub fn tsl(&self) -> u32
        ensures { result ≡ self.now.tsl }
    {
        self.tsl
    }

    /// Idle time 1, in bit times, at least 33: after a reply, an acknowledgement or a token.
    pub fn tid1(&self) -> u32
        ensures { result ≡ self.now.tid1 }
    {
        self.tid1
    }

    /// Idle time 2, in bit times, at least idle time 1: after a request that nobody answers.
    pub fn tid2(&self) -> u32
        ensures { result ≡ self.now.tid2 }
    {
        self.tid2
    }

    /// The reply delay of a responder, in bit times, at least 11.
    pub fn tsdr(&self) -> u32
        ensures { result ≡ self.now.tsdr }
    {
        self.tsdr
    }

    /// How late a station may take its turn, in bit times.
    pub fn lag(&self) -> u32
        ensures { result ≡ self.now.lag }
    {
        self.lag
    }

    /// The target rotation time, in bit times, 256 to 16777215.
    pub fn ttr(&self) -> u32
        ensures { result ≡ self.now.ttr }
    {
        self.ttr
    }

    /// The GAP factor, 1 to 100: how many target rotation times are between two GAP rounds.
    pub fn gap(&self) -> u32
        ensures { result ≡ self.now.gap }
    {
        self.gap
    }

    /// The highest station address, 2 to 126.
    pub fn hsa(&self) -> u32
        ensures value { result ≡ self.now.hsa }
        ensures valid { IsValid self.now }
    {
        self.hsa
    }

    /// How many times a request is sent again, 0 to 7.
    pub fn retries(&self) -> u32
        ensures value { result ≡ self.now.retries }
        ensures valid { IsValid self.now }
    {
        self.retries
    }

    /// The cable delay, in bit times: how much later a telegram reaches the taps of others.
    pub fn ttd(&self) -> u32
        ensures { result ≡ self.now.ttd }
    {
        self.ttd
    }

    /// The time-out of a station: how long the bus is silent before it claims the token, `6*tsl + 2*addr*tsl` bit times
    /// (EN 50170-2, time-out time).
    pub fn tto(&self, addr: u8) -> u64
        ensures value { result ≡ tto self.now addr }
        ensures valid { IsValid self.now }
    {
        let tsl = u64::from(self.tsl);
        6 * tsl + 2 * u64::from(addr) * tsl
    }
}

/// Whether the number is outside of `low` to `high`, both included.
fn is_outside(low: u32, high: u32, number: u32) -> bool
    ensures { result ≡ is_outside low high number }
{
    number < low || number > high
}

/// Refuses parameters with which a token may be taken, or a reply begin, after the slot time: idle time 2, or the reply
/// delay, plus the lag and the cable delay in both directions.
fn refuse_late(tsl: u32, tid2: u32, tsdr: u32, lag: u32, ttd: u32) -> Result<(), ParamFault>
    ensures in_time { IfOk result (λ _. first_fault (late_faults tsl tid2 tsdr lag ttd) ≡ None) }
    ensures fault { IfErr result (λ fault. first_fault (late_faults tsl tid2 tsdr lag ttd) ≡ Some fault) }
{
    let (tsl, lag, there_and_back) = (u64::from(tsl), u64::from(lag), 2 * u64::from(ttd));
    if u64::from(tid2) + lag + there_and_back >= tsl {
        return Err(ParamFault::TakeLate);
    }
    if u64::from(tsdr) + lag + there_and_back >= tsl {
        return Err(ParamFault::ReplyLate);
    }
    Ok(())
}
