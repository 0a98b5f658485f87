//! Reads the steps of a scenario file.

ghost use Rattle.std.specs.Prelude.{◌≡◌, None, IfOk};
ghost use Rattle.toml.specs.Data.{as_str};
ghost use Rattle.toml.specs.View.{items_view};
ghost use Rattle.law_runs.specs.Laws.{AreFromOutside};
ghost use Rattle.pb_scenario.specs.Steps.{deed_of, planned_of, steps_of};
ghost use Rattle.pb_scenario.specs.Walks.{AreFrom};
ghost use Rattle.pb_scenario.specs.declared.keys.Key.TheVariants as keys;
ghost use Rattle.pb_scenario.specs.Keys.{step_keys};
ghost use Rattle.pb_scenario.specs.Words as words;
ghost use Rattle.pb_scenario.specs.Scenarios.{names_of};
ghost use Rattle.pb_scenario.specs.Fields.{Answers, meant};
ghost use Rattle.pb_scenario.specs.Tables.{members};
ghost use Rattle.pb_scenario.specs.Files as files;
ghost use Rattle.pb_scenario.specs.StreamFiles.{repeated_keys};

use crate::deeds::{Deed, Step};
use crate::faults::ScenarioFault;
use crate::fields::Fields;
use crate::files::item;
use crate::keys::{Key, Section};
use crate::words::{Word, service_of, word_of};
use indexmap::IndexSet;
use pb_cycles::{Request, Service};
use pb_taps::Event;
use std::alloc::Global;
use toml::Value;

/// The most steps of a scenario.
pub(crate) const MOST_STEPS: usize = 10_000;

const POWER_KEYS: [Key; 5] = [Key::At, Key::Do, Key::Tap, Key::Every, Key::Count];

const QUEUE_KEYS: [Key; 9] = [
    Key::At,
    Key::Do,
    Key::Tap,
    Key::Service,
    Key::To,
    Key::High,
    Key::Unit,
    Key::Every,
    Key::Count,
];

const DAMAGE_KEYS: [Key; 7] = [
    Key::At,
    Key::Do,
    Key::Tap,
    Key::Speaker,
    Key::Place,
    Key::Every,
    Key::Count,
];

const NOISE_KEYS: [Key; 5] = [Key::At, Key::Do, Key::Bits, Key::Every, Key::Count];

const UNHEARD_KEYS: [Key; 6] = [
    Key::At,
    Key::Do,
    Key::Tap,
    Key::Speaker,
    Key::Every,
    Key::Count,
];

const WITHHOLD_KEYS: [Key; 6] = [
    Key::At,
    Key::Do,
    Key::Tap,
    Key::Bits,
    Key::Every,
    Key::Count,
];

/// The steps that a list describes, on taps with these names.
#[tactic(auto, unfolding(crate::specs::Files::items_from))]
pub(crate) fn steps_in(
    alloc: Global,
    items: &[Value],
    names: &IndexSet<String>,
) -> Result<Vec<Step>, ScenarioFault>
    ensures steps { Answers (λ steps. steps_of steps.items) result
        (files.steps_in (names_of names.now.keys) (items_view items.now)) }
    ensures order { IfOk result (λ steps. AreFrom 0 (steps_of steps.items)) }
    ensures outside { IfOk result (λ steps. AreFromOutside (steps_of steps.items)) }
{
    if items.len() > MOST_STEPS {
        return Err(ScenarioFault::TooMany);
    }
    let mut steps = Vec::new(alloc);
    let mut before = 0;
    for (place, value) in items.iter().enumerate() {
        let step = step_in(alloc, item(value, Section::Step(place))?, names, before)?;
        before = step.at;
        if steps.push(step).is_err() {
            return Err(ScenarioFault::NoMemory);
        }
    }
    Ok(steps)
}

/// The step that a table describes. It must not be earlier than `before`.
#[tactic(auto, unfolding(crate::specs::Files::step_in), using(crate::proofs::Chains::then_ok, crate::proofs::Chains::then_tells, crate::proofs::Chains::then_tells_next))]
fn step_in(
    alloc: Global,
    fields: Fields<'_>,
    names: &IndexSet<String>,
    before: u64,
) -> Result<Step, ScenarioFault>
    ensures { Answers planned_of result
        (files.step_in (names_of names.now.keys) before fields.entry.section (members fields.entry)) }
{
    let word = word(fields)?;
    step_by(alloc, fields, names, before, word, keys_of(word))
}

/// The step with this word that a table with these keys describes. It must not be earlier than `before`.
#[tactic(auto, unfolding(crate::specs::Files::step_by), using(crate::proofs::Chains::then_ok, crate::proofs::Chains::then_tells, crate::proofs::Chains::then_tells_next))]
pub(crate) fn step_by(
    alloc: Global,
    fields: Fields<'_>,
    names: &IndexSet<String>,
    before: u64,
    word: Word,
    keys: &[Key],
) -> Result<Step, ScenarioFault>
    ensures { Answers planned_of result
        (files.step_by (names_of names.now.keys) before fields.entry.section (members fields.entry) word
        keys.now) }
{
    fields.known(alloc, keys)?;
    let at = fields.number(Key::At, 0, u64::MAX)?;
    if at < before {
        return Err(ScenarioFault::StepOrder(fields.path(Key::At)));
    }
    let deed = deed_in(fields, names, word)?;
    Ok(Step { at, deed })
}

/// What the step with this word does.
#[tactic(auto, unfolding(crate::specs::Files::deed_in), using(crate::proofs::Chains::then_ok, crate::proofs::Chains::then_tells, crate::proofs::Chains::then_tells_next))]
fn deed_in(fields: Fields<'_>, names: &IndexSet<String>, word: Word) -> Result<Deed, ScenarioFault>
    ensures { Answers deed_of result
        (files.deed_in (names_of names.now.keys) fields.entry.section (members fields.entry) word) }
{
    Ok(match word {
        Word::Start => Deed::Happens(Event::Start(tap(fields, names, Key::Tap)?)),
        Word::Stop => Deed::Happens(Event::Stop(tap(fields, names, Key::Tap)?)),
        Word::Queue => Deed::Happens(Event::Queue {
            tap: tap(fields, names, Key::Tap)?,
            request: request(fields)?,
        }),
        Word::Damage => Deed::Happens(Event::Damage {
            tap: tap(fields, names, Key::Tap)?,
            speaker: tap(fields, names, Key::Speaker)?,
            place: place(fields)?,
        }),
        Word::Noise => Deed::Happens(Event::Noise(bits(fields)?)),
        Word::Unheard => Deed::Happens(Event::Unheard {
            tap: tap(fields, names, Key::Tap)?,
            speaker: tap(fields, names, Key::Speaker)?,
        }),
        Word::Withhold => Deed::Withhold {
            tap: tap(fields, names, Key::Tap)?,
            bits: bits(fields)?,
        },
    })
}

/// The keys of a step with this word that doesn't repeat.
pub(crate) fn keys_of(word: Word) -> &'static [Key]
    ensures { result.now ≡ step_keys word }
{
    let keys = repeated_keys_of(word);
    &keys[..keys.len() - 2]
}

/// The keys of a step with this word that may repeat: the last two say how often.
pub(crate) fn repeated_keys_of(word: Word) -> &'static [Key]
    ensures { result.now ≡ repeated_keys word }
{
    match word {
        Word::Start | Word::Stop => &POWER_KEYS,
        Word::Queue => &QUEUE_KEYS,
        Word::Damage => &DAMAGE_KEYS,
        Word::Noise => &NOISE_KEYS,
        Word::Unheard => &UNHEARD_KEYS,
        Word::Withhold => &WITHHOLD_KEYS,
    }
}

/// The word of a step.
#[tactic(auto, unfolding(crate::specs::Fields::meant))]
pub(crate) fn word(fields: Fields<'_>) -> Result<Word, ScenarioFault>
    ensures { Answers (λ w. w) result
        (meant words.word_of as_str fields.entry.section keys.Do (members fields.entry)) }
{
    match word_of(fields.text(Key::Do)?) {
        Some(word) => Ok(word),
        None => Err(ScenarioFault::BadValue(fields.path(Key::Do))),
    }
}

/// The tap whose name is the value of a key.
#[tactic(auto, unfolding(crate::specs::Files::tap_at))]
fn tap(fields: Fields<'_>, names: &IndexSet<String>, key: Key) -> Result<usize, ScenarioFault>
    ensures { Answers (λ t. t) result
        (files.tap_at (names_of names.now.keys) fields.entry.section key (members fields.entry)) }
{
    match names.get_index_of(fields.text(key)?) {
        Some(tap) => Ok(tap),
        None => Err(ScenarioFault::NoSuchName(fields.path(key))),
    }
}

/// A duration, in bit times.
fn bits(fields: Fields<'_>) -> Result<u32, ScenarioFault>
    ensures { Answers (λ n. n) result (files.word32 fields.entry.section keys.Bits (members fields.entry)) }
{
    Ok(fields.number(Key::Bits, 0, u64::from(u32::MAX))? as u32)
}

/// The index of a damaged character; `None` if the key is missing.
fn place(fields: Fields<'_>) -> Result<Option<u8>, ScenarioFault>
    ensures { Answers (λ p. p) result
        (files.if_there None files.some_octet fields.entry.section keys.Place (members fields.entry)) }
{
    match fields.find(Key::Place) {
        Some(_) => Ok(Some(fields.number(Key::Place, 0, 255)? as u8)),
        None => Ok(None),
    }
}

/// The request of a step. Its address is checked against its service before its other keys are read.
#[tactic(auto, unfolding(crate::specs::Files::request_in), using(crate::proofs::Chains::then_ok, crate::proofs::Chains::then_tells, crate::proofs::Chains::then_tells_next))]
fn request(fields: Fields<'_>) -> Result<Request, ScenarioFault>
    ensures { Answers (λ r. r) result (files.request_in fields.entry.section (members fields.entry)) }
{
    let service = service(fields)?;
    let to = fields.number(Key::To, 0, 255)? as u8;
    if !service.may_go_to(to) {
        return Err(ScenarioFault::BadValue(fields.path(Key::To)));
    }
    let high = fields.flag(Key::High)?;
    let unit = fields.octets(Key::Unit)?;
    match Request::new(to, service, high, unit) {
        Ok(request) => Ok(request),
        Err(_) => Err(ScenarioFault::BadValue(fields.path(Key::To))),
    }
}

/// The service of a request.
#[tactic(auto, unfolding(crate::specs::Fields::meant))]
fn service(fields: Fields<'_>) -> Result<Service, ScenarioFault>
    ensures { Answers (λ x. x) result
        (meant words.service_of as_str fields.entry.section keys.Service (members fields.entry)) }
{
    match service_of(fields.text(Key::Service)?) {
        Some(service) => Ok(service),
        None => Err(ScenarioFault::BadValue(fields.path(Key::Service))),
    }
}
