//! The lines of faults of a scenario file, a world or an event.

ghost use Rattle.std.specs.Prelude.{◌≡◌, ◌≢◌, ◌++◌, OnOk, IfOk};
ghost use Rattle.pb_texts.specs.Names.{path_text};
ghost use Rattle.pb_texts.specs.Faults.{IsTold, file_words, line_of_run, new_line, refused_line, scenario_line, table_fault};

use crate::names::{new_name, push_key, push_path, world_name};
use pb_scenario::{NewFault, Path, RunFault, ScenarioFault, WorldFault, push_number};
use std::alloc::{AllocError, Global};

/// The line of a file's fault. For refused memory there is no line: the result is that fault too.
pub fn scenario_line(alloc: Global, fault: &ScenarioFault) -> Result<Vec<u8>, AllocError>
    ensures line { IfOk result (λ line. line.items ≡ scenario_line (table_fault fault.now)) }
    ensures told { OnOk result (fault.now ≢ ScenarioFault.NoMemory) }
{
    let mut line = Vec::new(alloc);
    line.extend_from_slice(b"scenario fault ")?;
    push_words(&mut line, fault)?;
    line.extend_from_slice(b"\n")?;
    Ok(line)
}

/// Appends the number and the name of a file's fault, and its path, key or number.
fn push_words(text: &mut Vec<u8>, fault: &ScenarioFault) -> Result<(), AllocError>
    ensures words { OnOk result (text.new.items ≡ text.old.items ++ file_words (table_fault fault.now)) }
    ensures told { OnOk result (fault.now ≢ ScenarioFault.NoMemory) }
{
    match fault {
        ScenarioFault::NotToml => text.extend_from_slice(b"1 NotToml"),
        ScenarioFault::BadVersion => text.extend_from_slice(b"2 BadVersion"),
        ScenarioFault::Missing(path) => push_at(text, b"3 Missing ", *path),
        ScenarioFault::BadKind(path) => push_at(text, b"4 BadKind ", *path),
        ScenarioFault::BadValue(path) => push_at(text, b"5 BadValue ", *path),
        ScenarioFault::Unknown(unknown) => {
            text.extend_from_slice(b"6 Unknown ")?;
            push_key(text, unknown.section, unknown.key.as_str())
        }
        ScenarioFault::Twice(path) => push_at(text, b"7 Twice ", *path),
        ScenarioFault::NoSuchName(path) => push_at(text, b"8 NoSuchName ", *path),
        ScenarioFault::StepOrder(path) => push_at(text, b"9 StepOrder ", *path),
        ScenarioFault::Params(params) => {
            text.extend_from_slice(b"10 Params ")?;
            push_number(text, params.number())
        }
        ScenarioFault::TooMany => text.extend_from_slice(b"11 TooMany"),
        ScenarioFault::NoMemory => Err(AllocError),
    }
}

/// Appends words, followed by a path.
fn push_at(text: &mut Vec<u8>, words: &[u8], path: Path) -> Result<(), AllocError>
    ensures { OnOk result (text.new.items ≡ text.old.items ++ (words.now ++ path_text path)) }
{
    text.extend_from_slice(words)?;
    push_path(text, path)
}

/// The line of the fault that ends a run. For refused memory there is no line: the result is that fault too.
pub fn run_line(alloc: Global, fault: RunFault) -> Result<Vec<u8>, AllocError>
    ensures line { IfOk result (λ line. line.items ≡ line_of_run fault) }
    ensures told { OnOk result (IsTold fault) }
{
    match fault {
        RunFault::New(fault) => new_line(alloc, fault),
        RunFault::At(clock, fault) => refused_line(alloc, fault, clock.get()),
    }
}

/// The line of the fault of a new world. For refused memory there is none.
pub fn new_line(alloc: Global, fault: NewFault) -> Result<Vec<u8>, AllocError>
    ensures line { IfOk result (λ line. line.items ≡ new_line fault) }
    ensures told { OnOk result (fault ≢ NewFault.NoMemory) }
{
    if let NewFault::NoMemory = fault {
        return Err(AllocError);
    }
    let mut line = Vec::new(alloc);
    line.extend_from_slice(b"world fault ")?;
    push_number(&mut line, fault.number())?;
    line.extend_from_slice(b" ")?;
    line.extend_from_slice(new_name(fault).as_bytes())?;
    line.extend_from_slice(b"\n")?;
    Ok(line)
}

/// The line of an event that was refused at a clock. For refused memory there is none.
pub fn refused_line(alloc: Global, fault: WorldFault, clock: u64) -> Result<Vec<u8>, AllocError>
    ensures line { IfOk result (λ line. line.items ≡ refused_line fault clock) }
    ensures told { OnOk result (fault ≢ WorldFault.NoMemory) }
{
    if let WorldFault::NoMemory = fault {
        return Err(AllocError);
    }
    let mut line = Vec::new(alloc);
    line.extend_from_slice(b"run fault ")?;
    push_number(&mut line, fault.number())?;
    line.extend_from_slice(b" ")?;
    line.extend_from_slice(world_name(fault).as_bytes())?;
    line.extend_from_slice(b" at ")?;
    push_number(&mut line, clock)?;
    line.extend_from_slice(b"\n")?;
    Ok(line)
}
