//! What C asks of a new monitor.

ghost use Rattle.std.specs.Prelude.{◌≡◌, true, false, MatchResult};
ghost use Rattle.pbfdl.specs.Monitors.{Asks, is_bad_form};

use crate::monitor_codes::BAD_FORM;
use pb_monitor::{Classes, Form, Options, SummaryForm};

/// What a monitor is asked for: the form of the capture; whether it judges, by parameters of the bus; which classes of
/// alarms it raises; how often a summary comes, in bit times, 0 for never; the form of the summary, 0 for lines; the bits
/// a second, 0 for unknown; and how wrong the difference of two moments may be.
#[repr(C)]
#[derive(Clone, Copy)]
pub struct FdlMonitorOptions {
    pub form: u8,
    pub summary: u8,
    pub judges: bool,
    pub legality: bool,
    pub loss: bool,
    pub timing: bool,
    pub every: u64,
    pub baud: u32,
    pub slack: u32,
}

/// What the monitor is asked for. Code: 93 where there is no such form of a capture or of a summary.
pub(crate) fn options_of(options: &FdlMonitorOptions) -> Result<Options, u32>
    ensures { MatchResult result
        (λ wanted. (is_bad_form options.now ≡ false) × Asks options.now wanted)
        (λ code. (code ≡ 93) × (is_bad_form options.now ≡ true)) }
{
    let form = match options.form {
        0 => Form::Lines,
        1 => Form::Raw,
        2 => Form::Pcap,
        _ => return Err(BAD_FORM),
    };
    let summary = match options.summary {
        0 => None,
        1 => Some(SummaryForm::Text),
        2 => Some(SummaryForm::Json),
        3 => Some(SummaryForm::Csv),
        _ => return Err(BAD_FORM),
    };
    Ok(Options {
        form,
        classes: Classes {
            legality: options.legality,
            loss: options.loss,
            timing: options.timing,
        },
        every: (options.every != 0).then_some(options.every),
        summary,
        baud: (options.baud != 0).then_some(options.baud),
        slack: options.slack,
    })
}
