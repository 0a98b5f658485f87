//! Reads the taps of a scenario file.

ghost use Rattle.std.specs.Prelude.{◌≡◌, [], IfOk, false, bytes_eq, length, string_bytes};
ghost use Rattle.std.specs.List.{list_any};
ghost use Rattle.toml.specs.Data.{as_str};
ghost use Rattle.toml.specs.View.{items_view};
ghost use Rattle.pb_scenario.specs.declared.keys.Key.TheVariants as keys;
ghost use Rattle.pb_scenario.specs.Words as words;
ghost use Rattle.pb_scenario.specs.Scenarios.{names_of};
ghost use Rattle.pb_scenario.specs.Fields.{Answers, and_then, as_name, meant, path_of};
ghost use Rattle.pb_scenario.specs.Tables.{members, tap_of, taps_of};
ghost use Rattle.pb_scenario.specs.Files as files;
ghost use Rattle.pb_scenario.specs.Files.{if_there, octets};

use crate::faults::ScenarioFault;
use crate::fields::Fields;
use crate::files::item;
use crate::keys::{Key, Section};
use crate::versions::Version;
use crate::words::kind_of;
use arrayvec::ArrayVec;
use indexmap::IndexSet;
use pb_taps::{Kind, TapSpec};
use std::alloc::{AllocError, Global};
use toml::Value;

const TAP_KEYS: [Key; 4] = [Key::Name, Key::Kind, Key::Address, Key::Reply];

/// Taps and their names.
#[derive(Drop)]
pub(crate) struct Taps {
    pub(crate) specs: Vec<TapSpec>,
    pub(crate) names: IndexSet<String>,
}

/// The taps that a list describes, in a file of a version.
#[tactic(auto, unfolding(crate::specs::Files::taps_from))]
pub(crate) fn taps_in(
    alloc: Global,
    items: &[Value],
    version: Version,
) -> Result<Taps, ScenarioFault>
    ensures taps { Answers taps_of result (files.taps_in version (items_view items.now)) }
    ensures named { IfOk result (λ taps. length taps.names.keys ≡ length taps.specs.items) }
{
    if items.len() > version.most_taps() {
        return Err(ScenarioFault::TooMany);
    }
    let mut taps = Taps {
        specs: Vec::new(alloc),
        names: IndexSet::new(alloc),
    };
    for (tap, value) in items.iter().enumerate() {
        let fields = item(value, Section::Tap(tap))?;
        let added = tap_in(alloc, fields, &taps.names, version)?;
        if taps.add(added).is_err() {
            return Err(ScenarioFault::NoMemory);
        }
    }
    Ok(taps)
}

/// A tap and its name.
#[derive(Drop)]
struct NamedTap {
    name: String,
    spec: TapSpec,
}

impl Taps {
    ghost use Rattle.std.specs.Prelude.{◌≡◌, ◌++◌, ◌∷◌, [], OnOk, false, bytes_eq, length, map, string_bytes};
    ghost use Rattle.std.specs.List.{list_any};
    ghost use Rattle.pb_taps.specs.Taps.{spec_of};
    ghost use Rattle.pb_scenario.specs.Scenarios.{names_of};

    /// Appends a tap. The caller ensures that no other tap has its name.
    ///
    /// Fault: memory was refused.
    fn add(&mut self, tap: NamedTap) -> Result<(), AllocError>
        requires { list_any (bytes_eq (string_bytes tap.name)) (names_of self.old.names.keys) ≡ false }
        ensures names { OnOk result (names_of self.new.names.keys
            ≡ names_of self.old.names.keys ++ string_bytes tap.name ∷ []) }
        ensures specs { OnOk result (map spec_of self.new.specs.items
            ≡ map spec_of self.old.specs.items ++ spec_of tap.spec ∷ []) }
    {
        self.specs.push(tap.spec)?;
        self.names.insert(tap.name)?;
        Ok(())
    }
}

/// The tap that a table describes, in a file of a version. Its name must not be one of `names`.
#[tactic(auto, unfolding(crate::specs::Files::tap_in), using(crate::proofs::Chains::then_ok, crate::proofs::Chains::then_tells, crate::proofs::Chains::then_tells_next))]
fn tap_in(
    alloc: Global,
    fields: Fields<'_>,
    names: &IndexSet<String>,
    version: Version,
) -> Result<NamedTap, ScenarioFault>
    ensures tap { Answers tap_of result
        (files.tap_in version (names_of names.now.keys) fields.entry.section (members fields.entry)) }
    ensures new { IfOk result
        (λ tap. list_any (bytes_eq (string_bytes tap.name)) (names_of names.now.keys) ≡ false) }
{
    fields.known(alloc, &TAP_KEYS)?;
    let name = name_in(fields, names, version)?;
    let kind = kind(fields)?;
    let address = fields.number(Key::Address, 0, 255)? as u8;
    let reply = reply(fields)?;
    match String::from_str(alloc, name) {
        Ok(name) => Ok(NamedTap {
            name,
            spec: TapSpec {
                address,
                kind,
                reply,
            },
        }),
        Err(_) => Err(ScenarioFault::NoMemory),
    }
}

/// The name of a tap, which no other tap has.
fn name_in<'a>(
    fields: Fields<'a>,
    names: &IndexSet<String>,
    version: Version,
) -> Result<&'a str, ScenarioFault>
    ensures name { Answers (λ t. t.now) result
        (and_then (meant (as_name version) as_str fields.entry.section keys.Name (members fields.entry))
        (files.unless_taken (names_of names.now.keys) (path_of fields.entry.section keys.Name))) }
    ensures new { IfOk result (λ name. list_any (bytes_eq name.now) (names_of names.now.keys) ≡ false) }
{
    let name = fields.name(version)?;
    if names.contains(name) {
        Err(ScenarioFault::Twice(fields.path(Key::Name)))
    } else {
        Ok(name)
    }
}

/// The kind of a tap.
#[tactic(auto, unfolding(crate::specs::Fields::meant))]
fn kind(fields: Fields<'_>) -> Result<Kind, ScenarioFault>
    ensures { Answers (λ k. k) result
        (meant words.kind_of as_str fields.entry.section keys.Kind (members fields.entry)) }
{
    match kind_of(fields.text(Key::Kind)?) {
        Some(kind) => Ok(kind),
        None => Err(ScenarioFault::BadValue(fields.path(Key::Kind))),
    }
}

/// The data with which a tap replies; empty if the key is missing.
fn reply(fields: Fields<'_>) -> Result<ArrayVec<u8, 246>, ScenarioFault>
    ensures { Answers (λ r. r.items) result
        (if_there [] octets fields.entry.section keys.Reply (members fields.entry)) }
{
    match fields.find(Key::Reply) {
        Some(_) => fields.octets(Key::Reply),
        None => Ok(ArrayVec::new()),
    }
}
