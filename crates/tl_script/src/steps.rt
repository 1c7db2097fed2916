//! The steps of a script.

ghost use Rattle.std.specs.Prelude.{◌≡◌};
ghost use Rattle.toml.specs.View.{table_view};
ghost use Rattle.tl_script_words.specs.Words.{texts};
ghost use Rattle.tl_script.specs.Each.{Gives};
ghost use Rattle.tl_script.specs.Steps.{step_texts_of, step_at, steps_of};

use crate::document::{texts_in, value_at};
use crate::error::ScriptError;
use crate::key::Key;
use std::alloc::Global;
use tl_script_words::{ParseError, Step};
use toml::Table;

/// The texts of the steps; none where the key is absent. `Missing(Steps)` where the value is no array of texts,
/// `Memory` where memory is refused.
#[tactic(auto, unfolding(crate::specs::Steps::step_texts_of))]
pub fn step_texts(alloc: Global, table: &Table) -> Result<Vec<&str>, ScriptError>
    ensures { Gives (λ v. texts v.items) result (step_texts_of (table_view table.now)) }
{
    match value_at(table, Key::Steps) {
        None => Ok(Vec::new(alloc)),
        Some(value) => texts_in(alloc, Key::Steps, value),
    }
}

/// The steps. `Step(INDEX)` at the first that is outside the grammar, `Memory` where memory is refused.
#[tactic(auto, unfolding(crate::specs::Steps::steps_of))]
pub fn steps(alloc: Global, all: &[&str]) -> Result<Vec<Step>, ScriptError>
    ensures { Gives (λ v. v.items) result (steps_of (texts all.now)) }
{
    let mut steps = Vec::new(alloc);
    for (index, text) in all.iter().enumerate() {
        steps.push(step_at(alloc, index, text)?)?;
    }
    Ok(steps)
}

#[tactic(auto, unfolding(crate::specs::Steps::step_at))]
fn step_at(alloc: Global, index: usize, text: &str) -> Result<Step, ScriptError>
    ensures { Gives (λ s. s) result (step_at index text.now) }
{
    match Step::parse(alloc, text) {
        Ok(step) => Ok(step),
        Err(ParseError::Malformed) => Err(ScriptError::Step(index)),
        Err(ParseError::Memory) => Err(ScriptError::Memory),
    }
}
