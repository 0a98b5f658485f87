//! Reads the steps of a scenario file that may repeat.

ghost use Rattle.std.specs.Prelude.{◌≡◌, IfOk, length};
ghost use Rattle.toml.specs.View.{items_view};
ghost use Rattle.law_runs.specs.Laws.{AreFromOutside};
ghost use Rattle.pb_scenario.specs.Steps.{steps_of};
ghost use Rattle.pb_scenario.specs.Walks.{AreFrom};
ghost use Rattle.pb_scenario.specs.Repeats.{AreSteady};
ghost use Rattle.pb_scenario.specs.Scenarios.{names_of};
ghost use Rattle.pb_scenario.specs.Fields.{Answers};
ghost use Rattle.pb_scenario.specs.Tables.{members};
ghost use Rattle.pb_scenario.specs.RepeatedTables.{all_of, repeated_of};
ghost use Rattle.pb_scenario.specs.StreamFiles as files;

use crate::deeds::Step;
use crate::faults::ScenarioFault;
use crate::fields::Fields;
use crate::files::item;
use crate::keys::{Key, Section};
use crate::repeats::Repeat;
use crate::steps::{MOST_STEPS, keys_of, repeated_keys_of, step_by, word};
use crate::words::Word;
use indexmap::IndexSet;
use std::alloc::{AllocError, Global};
use toml::Value;

/// The longest time after which a step repeats, in bit times, and the most often that it says it happens.
const MOST: u64 = 9_223_372_036_854_775_807;

/// Steps, and how each repeats.
#[derive(Drop)]
pub(crate) struct RepeatedSteps {
    pub(crate) steps: Vec<Step>,
    pub(crate) repeats: Vec<Option<Repeat>>,
}

/// The steps that a list describes, on taps with these names.
#[tactic(auto, unfolding(crate::specs::Files::items_from))]
pub(crate) fn repeated_steps_in(
    alloc: Global,
    items: &[Value],
    names: &IndexSet<String>,
) -> Result<RepeatedSteps, ScenarioFault>
    ensures steps { Answers all_of result
        (files.repeated_steps_in (names_of names.now.keys) (items_view items.now)) }
    ensures order { IfOk result (λ all. AreFrom 0 (steps_of all.steps.items)) }
    ensures outside { IfOk result (λ all. AreFromOutside (steps_of all.steps.items)) }
    ensures steady { IfOk result (λ all. AreSteady all.repeats.items) }
    ensures paired { IfOk result (λ all. length all.steps.items ≡ length all.repeats.items) }
{
    if items.len() > MOST_STEPS {
        return Err(ScenarioFault::TooMany);
    }
    let mut all = RepeatedSteps {
        steps: Vec::new(alloc),
        repeats: Vec::new(alloc),
    };
    let mut before = 0;
    for (place, value) in items.iter().enumerate() {
        let fields = item(value, Section::Step(place))?;
        let read = repeated_step_in(alloc, fields, names, before)?;
        before = read.step.at;
        if all.add(read).is_err() {
            return Err(ScenarioFault::NoMemory);
        }
    }
    Ok(all)
}

/// A step, and how it repeats, if it does.
#[derive(Drop)]
struct RepeatedStep {
    step: Step,
    repeat: Option<Repeat>,
}

impl RepeatedSteps {
    ghost use Rattle.std.specs.Prelude.{◌≡◌, ◌++◌, ◌∷◌, [], OnOk};

    /// Appends a step.
    ///
    /// Fault: memory was refused.
    fn add(&mut self, read: RepeatedStep) -> Result<(), AllocError>
        ensures steps { OnOk result (self.new.steps.items ≡ self.old.steps.items ++ read.step ∷ []) }
        ensures repeats { OnOk result (self.new.repeats.items ≡ self.old.repeats.items ++ read.repeat ∷ []) }
    {
        self.steps.push(read.step)?;
        self.repeats.push(read.repeat)?;
        Ok(())
    }
}

/// The step that a table describes. It must not be earlier than `before`.
#[tactic(auto, unfolding(crate::specs::StreamFiles::repeated_step_in), using(crate::proofs::Chains::then_ok, crate::proofs::Chains::then_tells, crate::proofs::Chains::then_tells_next))]
fn repeated_step_in(
    alloc: Global,
    fields: Fields<'_>,
    names: &IndexSet<String>,
    before: u64,
) -> Result<RepeatedStep, ScenarioFault>
    ensures { Answers repeated_of result
        (files.repeated_step_in (names_of names.now.keys) before fields.entry.section
        (members fields.entry)) }
{
    let word = word(fields)?;
    let step = step_by(alloc, fields, names, before, word, keys_in(fields, word))?;
    let repeat = repeat_in(fields)?;
    Ok(RepeatedStep { step, repeat })
}

/// How the step of a table repeats, if it does.
#[tactic(auto, unfolding(crate::specs::StreamFiles::repeat_in), using(crate::proofs::Chains::then_ok, crate::proofs::Chains::then_tells, crate::proofs::Chains::then_tells_next))]
fn repeat_in(fields: Fields<'_>) -> Result<Option<Repeat>, ScenarioFault>
    ensures { Answers (λ r. r) result (files.repeat_in fields.entry.section (members fields.entry)) }
{
    match fields.find(Key::Every) {
        Some(_) => {
            let every = fields.number(Key::Every, 1, MOST)?;
            let count = count_in(fields)?;
            Ok(Some(Repeat { every, count }))
        }
        None => Ok(None),
    }
}

/// How often a step that repeats happens; `None` if the key is missing.
fn count_in(fields: Fields<'_>) -> Result<Option<u64>, ScenarioFault>
    ensures { Answers (λ n. n) result (files.count_in fields.entry.section (members fields.entry)) }
{
    match fields.find(Key::Count) {
        Some(_) => Ok(Some(fields.number(Key::Count, 1, MOST)?)),
        None => Ok(None),
    }
}

/// The keys that the table of a step with this word may have: how often it repeats only where it says that it does.
fn keys_in(fields: Fields<'_>, word: Word) -> &'static [Key]
    ensures { result.now ≡ files.keys_in (members fields.entry) word }
{
    match fields.find(Key::Every) {
        Some(_) => repeated_keys_of(word),
        None => keys_of(word),
    }
}
