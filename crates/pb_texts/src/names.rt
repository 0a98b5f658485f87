//! The names of faults, and the paths of keys.

ghost use Rattle.std.specs.Prelude.{◌≡◌, ◌++◌, OnOk};
ghost use Rattle.pb_texts.specs.Names.{item_text, key_text, new_name, path_text, section_text, world_name};

use pb_scenario::{NewFault, Path, Section, WorldFault, push_number};
use std::alloc::AllocError;

/// The name of a fault of a new world.
pub fn new_name(fault: NewFault) -> &'static str
    ensures { result.now ≡ new_name fault }
{
    match fault {
        NewFault::NoTaps => "NoTaps",
        NewFault::TooManyTaps => "TooManyTaps",
        NewFault::BadAddress(_) => "BadAddress",
        NewFault::NoMemory => "NoMemory",
    }
}

/// The name of a fault of an event.
pub fn world_name(fault: WorldFault) -> &'static str
    ensures { result.now ≡ world_name fault }
{
    match fault {
        WorldFault::NoSuchTap => "NoSuchTap",
        WorldFault::Running => "Running",
        WorldFault::NotRunning => "NotRunning",
        WorldFault::NothingInAir => "NothingInAir",
        WorldFault::ZeroTime => "ZeroTime",
        WorldFault::TooFar(_) => "TooFar",
        WorldFault::ClockFull => "ClockFull",
        WorldFault::QueueFull => "QueueFull",
        WorldFault::InboxFull(_) => "InboxFull",
        WorldFault::TraceFull => "TraceFull",
        WorldFault::NoMemory => "NoMemory",
    }
}

/// Appends a path, as in `until`, `bus.tsl`, `tap[0]` and `step[2].at`.
pub fn push_path(text: &mut Vec<u8>, path: Path) -> Result<(), AllocError>
    ensures { OnOk result (text.new.items ≡ text.old.items ++ path_text path) }
{
    match path {
        Path::Item(section) => push_section(text, section),
        Path::Key(section, key) => push_key(text, section, key.name()),
    }
}

/// Appends a key of a table.
pub fn push_key(text: &mut Vec<u8>, section: Section, key: &str) -> Result<(), AllocError>
    ensures { OnOk result (text.new.items ≡ text.old.items ++ key_text section key.now) }
{
    match section {
        Section::Top => text.extend_from_slice(key.as_bytes()),
        _ => {
            push_section(text, section)?;
            text.extend_from_slice(b".")?;
            text.extend_from_slice(key.as_bytes())
        }
    }
}

/// Appends the name of a table; nothing for the table of the whole file.
fn push_section(text: &mut Vec<u8>, section: Section) -> Result<(), AllocError>
    ensures { OnOk result (text.new.items ≡ text.old.items ++ section_text section) }
{
    match section {
        Section::Top => Ok(()),
        Section::Bus => text.extend_from_slice(b"bus"),
        Section::Tap(tap) => push_item(text, b"tap[", tap),
        Section::Step(step) => push_item(text, b"step[", step),
    }
}

/// Appends an element of a list. `list` is the list's name with the opening bracket.
fn push_item(text: &mut Vec<u8>, list: &[u8], item: usize) -> Result<(), AllocError>
    ensures { OnOk result (text.new.items ≡ text.old.items ++ item_text list.now item) }
{
    text.extend_from_slice(list)?;
    push_number(text, item)?;
    text.extend_from_slice(b"]")
}
