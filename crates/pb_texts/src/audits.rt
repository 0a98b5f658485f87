//! The text of an audit.

ghost use Rattle.std.specs.Prelude.{◌≡◌, ◌++◌, IfOk, OnOk};
ghost use Rattle.std.specs.Option.{option_map};
ghost use Rattle.pb_world.specs.Auditing.{broken_at};
ghost use Rattle.pb_texts.specs.Audits.{broken_of, found, legality_line, premise_line};
ghost use Rattle.pb_texts.specs.Shown.{shown_of};

use crate::shown::Shown;
use pb_scenario::{Audit, push_number};
use pb_timers::Moment;
use std::alloc::{AllocError, Global};

/// The text of what an audit finds.
pub fn findings(alloc: Global, audit: &Audit) -> Result<Shown, AllocError>
    ensures { IfOk result (λ shown. shown_of shown ≡ found (broken_of audit.now) audit.now.illegal) }
{
    let mut text = Vec::new(alloc);
    push_premise(&mut text, audit.premise)?;
    push_legality(&mut text, audit.illegal)?;
    Ok(Shown {
        text,
        is_refused: audit.illegal.is_some(),
    })
}

/// Appends the line for the first premise that broke, with its number and the clock, or the line that none broke.
///
/// Fault: memory was refused.
pub fn push_premise(text: &mut Vec<u8>, premise: Option<(u8, Moment)>) -> Result<(), AllocError>
    ensures { OnOk result (text.new.items ≡ text.old.items ++ premise_line (option_map broken_at premise)) }
{
    match premise {
        None => text.extend_from_slice(b"premises kept\n"),
        Some((number, clock)) => {
            text.extend_from_slice(b"premise P")?;
            push_number(text, number)?;
            text.extend_from_slice(b" broken at ")?;
            push_number(text, clock.get())?;
            text.extend_from_slice(b"\n")
        }
    }
}

/// Appends the line for the first illegal initiator record, with its index in the trace, or the line that none is
/// illegal.
///
/// Fault: memory was refused.
pub fn push_legality(text: &mut Vec<u8>, illegal: Option<usize>) -> Result<(), AllocError>
    ensures { OnOk result (text.new.items ≡ text.old.items ++ legality_line illegal) }
{
    match illegal {
        None => text.extend_from_slice(b"trace legal\n"),
        Some(place) => {
            text.extend_from_slice(b"record ")?;
            push_number(text, place)?;
            text.extend_from_slice(b" illegal\n")
        }
    }
}
