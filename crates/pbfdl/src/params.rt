//! The parameters of a bus.

ghost use Rattle.std.specs.Prelude.{◌≡◌, ◌≤◌, MatchResult};
ghost use Rattle.pbfdl.specs.Codes.{param_code};
ghost use Rattle.pbfdl.specs.Calls.{params_of, params_code};

use crate::codes::param_code;
use pb_timers::BusParams;

/// The parameters of a bus, times in bit times.
#[repr(C)]
#[derive(Clone, Copy)]
pub struct FdlParams {
    pub tsl: u32,
    pub tid1: u32,
    pub tid2: u32,
    pub tsdr: u32,
    pub lag: u32,
    pub ttr: u32,
    pub gap: u32,
    pub hsa: u32,
    pub retries: u32,
    pub ttd: u32,
}

/// 0, or the code of the first fault of parameters, 21 to 30.
#[unsafe(no_mangle)]
pub extern "C" fn fdl_params_fault(params: &FdlParams) -> u32
    ensures { result ≡ params_code (params_of params.now) }
{
    match bus_params(params) {
        Ok(_) => 0,
        Err(code) => code,
    }
}

/// The parameters, or the code of their first fault.
pub(crate) fn bus_params(params: &FdlParams) -> Result<BusParams, u32>
    ensures { MatchResult result
        (λ p. (p ≡ params_of params.now) × (params_code (params_of params.now) ≡ 0))
        (λ code. (code ≡ params_code (params_of params.now)) × (21 ≤ code) × (code ≤ 30)) }
{
    match BusParams::new(
        params.tsl,
        params.tid1,
        params.tid2,
        params.tsdr,
        params.lag,
        params.ttr,
        params.gap,
        params.hsa,
        params.retries,
        params.ttd,
    ) {
        Ok(params) => Ok(params),
        Err(fault) => Err(param_code(fault)),
    }
}
