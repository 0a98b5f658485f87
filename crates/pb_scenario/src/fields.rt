//! Reads the values of a table of a scenario file.

ghost use Rattle.std.specs.Prelude.{◌≡◌, Some, option_map};
ghost use Rattle.pb_scenario.specs.Keys.{is_named};
ghost use Rattle.pb_scenario.specs.Fields.{Tells, in_range, known_or, octets_in};

use crate::faults::ScenarioFault;
use crate::keys::{Key, Path, Section, UnknownKey};
use crate::versions::Version;
use arrayvec::ArrayVec;
use std::alloc::Global;
use toml::{Table, Value};

/// The most octets of a unit, and thus of the data of a reply.
pub(crate) const LONGEST_UNIT: usize = 246;

/// A table of a file, and which table it is.
#[derive(Clone, Copy)]
pub(crate) struct Fields<'a> {
    pub(crate) section: Section,
    pub(crate) table: &'a Table,
}

impl<'a> Fields<'a> {
    ghost use Rattle.std.specs.Prelude.{◌≡◌, ◌≤◌, IfOk, option_map, option_copied, find, not, string_bytes};
    ghost use Rattle.std.specs.BTreeMap as tree;
    ghost use Rattle.toml.specs.Data.{as_str, as_integer, as_bool, as_array, as_table, get_member};
    ghost use Rattle.toml.specs.View.{view, array_view, table_view};
    ghost use Rattle.pb_scenario.specs.Tables.{members};
    ghost use Rattle.pb_scenario.specs.Keys.{key_name, is_named};
    ghost use Rattle.pb_scenario.specs.Fields.{Answers, as_name, in_range, known, meant, octets_in, path_of, typed, value_in};

    /// Checks that the table has only these keys. The fault names the first other key, ordered by bytes.
    #[tactic(auto, unfolding(crate::specs::Fields::known))]
    pub(crate) fn known(&self, alloc: Global, keys: &[Key]) -> Result<(), ScenarioFault>
        ensures { Answers (λ x. x) result (known keys.now self.now.section (members self.now)) }
    {
        match self.other(keys) {
            None => Ok(()),
            Some(key) => Err(unknown(alloc, self.section, key.as_str())),
        }
    }

    /// The first key of the table, ordered by bytes, that is not one of these.
    fn other(&self, keys: &[Key]) -> Option<&'a String>
        ensures { option_copied result ≡ find
            (λ k. not (is_named keys.now (string_bytes k))) (tree.keys self.now.table.now) }
    {
        self.table.keys().find(|key| !is_named(keys, key.as_str()))
    }

    /// The path of a key of the table.
    pub(crate) fn path(&self, key: Key) -> Path
        ensures { result ≡ path_of self.now.section key }
    {
        Path::Key(self.section, key)
    }

    /// The value of a key; `None` if the table does not have it.
    pub(crate) fn find(&self, key: Key) -> Option<&'a Value>
        ensures { option_map (λ v. view v.now) result ≡ get_member (key_name key) (members self.now) }
    {
        self.table.get(key.name())
    }

    /// The value of a key.
    #[tactic(auto, unfolding(crate::specs::Fields::value_in))]
    fn value(&self, key: Key) -> Result<&'a Value, ScenarioFault>
        ensures { Answers (λ v. view v.now) result (value_in self.now.section key (members self.now)) }
    {
        match self.find(key) {
            Some(value) => Ok(value),
            None => Err(ScenarioFault::Missing(self.path(key))),
        }
    }

    /// The integer of a key.
    #[tactic(auto, unfolding(crate::specs::Fields::typed))]
    pub(crate) fn integer(&self, key: Key) -> Result<i64, ScenarioFault>
        ensures { Answers (λ z. z) result (typed as_integer self.now.section key (members self.now)) }
    {
        match self.value(key)?.as_integer() {
            Some(integer) => Ok(integer),
            None => Err(ScenarioFault::BadKind(self.path(key))),
        }
    }

    /// The Boolean of a key.
    #[tactic(auto, unfolding(crate::specs::Fields::typed))]
    pub(crate) fn flag(&self, key: Key) -> Result<bool, ScenarioFault>
        ensures { Answers (λ b. b) result (typed as_bool self.now.section key (members self.now)) }
    {
        match self.value(key)?.as_bool() {
            Some(flag) => Ok(flag),
            None => Err(ScenarioFault::BadKind(self.path(key))),
        }
    }

    /// The text of a key.
    #[tactic(auto, unfolding(crate::specs::Fields::typed))]
    pub(crate) fn text(&self, key: Key) -> Result<&'a str, ScenarioFault>
        ensures { Answers (λ t. t.now) result (typed as_str self.now.section key (members self.now)) }
    {
        match self.value(key)?.as_str() {
            Some(text) => Ok(text),
            None => Err(ScenarioFault::BadKind(self.path(key))),
        }
    }

    /// The list of a key.
    #[tactic(auto, unfolding(crate::specs::Fields::typed))]
    pub(crate) fn list(&self, key: Key) -> Result<&'a Vec<Value>, ScenarioFault>
        ensures { Answers (λ v. array_view v.now) result
            (typed as_array self.now.section key (members self.now)) }
    {
        match self.value(key)?.as_array() {
            Some(list) => Ok(list),
            None => Err(ScenarioFault::BadKind(self.path(key))),
        }
    }

    /// The table of a key.
    #[tactic(auto, unfolding(crate::specs::Fields::typed))]
    pub(crate) fn table(&self, key: Key) -> Result<&'a Table, ScenarioFault>
        ensures { Answers (λ t. table_view t.now) result
            (typed as_table self.now.section key (members self.now)) }
    {
        match self.value(key)?.as_table() {
            Some(table) => Ok(table),
            None => Err(ScenarioFault::BadKind(self.path(key))),
        }
    }

    /// The number of a key, in a range.
    #[tactic(auto, unfolding(crate::specs::Fields::meant))]
    pub(crate) fn number(&self, key: Key, least: u64, most: u64) -> Result<u64, ScenarioFault>
        ensures value { Answers (λ n. n) result
            (meant (in_range least most) as_integer self.now.section key (members self.now)) }
        ensures bounds { IfOk result (λ n. (least ≤ n) × (n ≤ most)) }
    {
        match in_range(self.integer(key)?, least, most) {
            Some(number) => Ok(number),
            None => Err(ScenarioFault::BadValue(self.path(key))),
        }
    }

    /// The octets of a key, in hex digits. There are at most as many as a unit has.
    #[tactic(auto, unfolding(crate::specs::Fields::meant))]
    pub(crate) fn octets(&self, key: Key) -> Result<ArrayVec<u8, 246>, ScenarioFault>
        ensures { Answers (λ octets. octets.items) result
            (meant octets_in as_str self.now.section key (members self.now)) }
    {
        match octets_in(self.text(key)?) {
            Some(octets) => Ok(octets),
            None => Err(ScenarioFault::BadValue(self.path(key))),
        }
    }

    /// The name of a tap, in a file of a version.
    #[tactic(auto, unfolding(crate::specs::Fields::meant))]
    pub(crate) fn name(&self, version: Version) -> Result<&'a str, ScenarioFault>
        ensures { Answers (λ t. t.now) result
            (meant (as_name version) as_str self.now.section Key.Name (members self.now)) }
    {
        let name = self.text(Key::Name)?;
        if version.is_name(name) {
            Ok(name)
        } else {
            Err(ScenarioFault::BadValue(self.path(Key::Name)))
        }
    }
}

/// Whether a text is the name of one of some keys.
fn is_named(keys: &[Key], text: &str) -> bool
    ensures { result ≡ is_named keys.now text.now }
{
    keys.iter().any(|key| key.name() == text)
}

/// The fault of a key that a table must not have, or of refused memory.
fn unknown(alloc: Global, section: Section, key: &str) -> ScenarioFault
    ensures { Tells result (known_or section (Some key.now)) }
{
    match String::from_str(alloc, key) {
        Ok(key) => ScenarioFault::Unknown(UnknownKey { section, key }),
        Err(_) => ScenarioFault::NoMemory,
    }
}

/// An integer as a number, if it is in a range.
fn in_range(integer: i64, least: u64, most: u64) -> Option<u64>
    ensures { result ≡ in_range least most integer }
{
    if integer < 0 {
        return None;
    }
    let number = integer as u64;
    if least <= number && number <= most {
        Some(number)
    } else {
        None
    }
}

/// The octets that a text has in hex digits, if it is hex and they are at most as many as a unit has.
fn octets_in(text: &str) -> Option<ArrayVec<u8, 246>>
    ensures { option_map (λ octets. octets.items) result ≡ octets_in text.now }
{
    let digits = text.as_bytes();
    if digits.len() % 2 != 0 || digits.len() > 2 * LONGEST_UNIT {
        return None;
    }
    let mut room = [0; LONGEST_UNIT];
    let octets = &mut room[..digits.len() / 2];
    if hex::decode_to_slice(digits, octets).is_err() {
        return None;
    }
    let mut unit = ArrayVec::new();
    unit.try_extend_from_slice(octets).unwrap();
    Some(unit)
}
