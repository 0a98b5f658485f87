//! A monitor: its life, the capture that it hears, and the text that it says.

ghost use Rattle.std.specs.Prelude.{◌≡◌, ◌≢◌, Some, None, IfSome, IfOk, IfErr, MatchOption, length, true, false};
ghost use Rattle.pb_faults.specs.FirstFault.{first_fault};
ghost use Rattle.pbfdl.specs.Calls.{params_of};
ghost use Rattle.pbfdl.specs.Monitors.{FindsNoMonitor, Hears, MakesMonitor, filled, monitor_codes, taken_of, without};

use crate::codes::NO_MEMORY;
use crate::listeners::Listener;
use crate::monitor_codes::{MONITOR_IN_USE, NO_MONITOR};
use crate::monitor_handles::MonitorHandle;
use crate::monitor_options::{FdlMonitorOptions, options_of};
use crate::params::{FdlParams, bus_params};
use std::alloc::Global;

/// Makes a monitor that has heard nothing at an empty handle. Without `judges` the parameters are not read. Codes, in
/// order: 92 where the handle isn't empty; 93 where there is no such form of a capture or of a summary; 21 to 30, a fault
/// of the parameters; 63 where memory was refused.
#[unsafe(no_mangle)]
pub extern "C" fn fdl_monitor_new(
    alloc: Global,
    monitor: &mut MonitorHandle,
    options: &FdlMonitorOptions,
    params: &FdlParams,
) -> u32
    ensures refused { IfSome
        (first_fault (monitor_codes monitor.old.value options.now (params_of params.now)))
        (λ code. result ≡ code) }
    ensures made { first_fault (monitor_codes monitor.old.value options.now (params_of params.now)) ≡ None
        → MakesMonitor result monitor.new.value }
    ensures kept { result ≢ 0 → monitor.new.value ≡ monitor.old.value }
{
    if let Some(there) = monitor.take(alloc) {
        monitor.put(there);
        return MONITOR_IN_USE;
    }
    match new_monitor(alloc, options, params) {
        Ok(made) => {
            monitor.put(made);
            0
        }
        Err(code) => code,
    }
}

/// Frees the monitor of a handle, which is empty then.
#[unsafe(no_mangle)]
pub extern "C" fn fdl_monitor_free(alloc: Global, monitor: &mut MonitorHandle)
    ensures { monitor.new.value ≡ None }
{
    drop(monitor.take(alloc));
}

/// The monitor hears the next octets of the capture. Codes, in order: 91; 94 where the capture has ended; 63, after which
/// it hears nothing more.
#[unsafe(no_mangle)]
pub extern "C" fn fdl_monitor_feed(alloc: Global, monitor: &mut MonitorHandle, octets: &[u8]) -> u32
    ensures none { monitor.old.value ≡ None → FindsNoMonitor result monitor.new.value }
    ensures hears { IfSome monitor.old.value
        (λ m. IfSome monitor.new.value (λ next. Hears m false result next)) }
    ensures there { monitor.new.value ≡ None → monitor.old.value ≡ None }
{
    let Some(mut there) = monitor.take(alloc) else {
        return NO_MONITOR;
    };
    let code = there.feed(alloc, octets);
    monitor.put(there);
    code
}

/// The capture ends. Codes, in order: 91; 94 where it has ended before; 63.
#[unsafe(no_mangle)]
pub extern "C" fn fdl_monitor_finish(alloc: Global, monitor: &mut MonitorHandle) -> u32
    ensures none { monitor.old.value ≡ None → FindsNoMonitor result monitor.new.value }
    ensures hears { IfSome monitor.old.value
        (λ m. IfSome monitor.new.value (λ next. Hears m true result next)) }
    ensures there { monitor.new.value ≡ None → monitor.old.value ≡ None }
{
    let Some(mut there) = monitor.take(alloc) else {
        return NO_MONITOR;
    };
    let code = there.finish(alloc);
    monitor.put(there);
    code
}

/// Takes the next octets of the text into `out`, as many as there is room for, and tells how many there are. Code: 91.
#[unsafe(no_mangle)]
pub extern "C" fn fdl_monitor_next(
    alloc: Global,
    monitor: &mut MonitorHandle,
    out: &mut [u8],
    count: &mut usize,
) -> u32
    ensures none { monitor.old.value ≡ None
        → FindsNoMonitor result monitor.new.value × (count.new ≡ 0) × (out.new ≡ out.old) }
    ensures next { IfSome monitor.old.value (λ m. (result ≡ 0) × (count.new ≡ taken_of m (length out.old))
        × (out.new ≡ filled m out.old) × (monitor.new.value ≡ Some (without m count.new))) }
{
    *count = 0;
    let Some(mut there) = monitor.take(alloc) else {
        return NO_MONITOR;
    };
    *count = there.next(out);
    monitor.put(there);
    0
}

/// Tells whether input was refused or an alarm raised. Code: 91.
#[unsafe(no_mangle)]
pub extern "C" fn fdl_monitor_is_refused(
    alloc: Global,
    monitor: &mut MonitorHandle,
    refused: &mut bool,
) -> u32
    ensures none { monitor.old.value ≡ None
        → FindsNoMonitor result monitor.new.value × (refused.new ≡ refused.old) }
    ensures some { IfSome monitor.old.value (λ _. result ≡ 0) }
    ensures kept { monitor.new.value ≡ monitor.old.value }
{
    let Some(there) = monitor.take(alloc) else {
        return NO_MONITOR;
    };
    *refused = there.is_refused();
    monitor.put(there);
    0
}

/// A new monitor in a box, or the code of the first fault.
fn new_monitor(
    alloc: Global,
    options: &FdlMonitorOptions,
    params: &FdlParams,
) -> Result<Box<Listener>, u32>
    ensures made { IfOk result (λ b.
        (first_fault (monitor_codes None options.now (params_of params.now)) ≡ None)
        × MakesMonitor 0 (Some b.value)) }
    ensures fault { IfErr result (λ code. (code ≢ 0) × MatchOption
        (first_fault (monitor_codes None options.now (params_of params.now)))
        (code ≡ 63) (λ first. code ≡ first)) }
{
    let wanted = options_of(options)?;
    let params = if options.judges {
        Some(bus_params(params)?)
    } else {
        None
    };
    let Ok(made) = Listener::new(alloc, params, wanted) else {
        return Err(NO_MEMORY);
    };
    Box::new(alloc, made).map_err(|_| NO_MEMORY)
}
