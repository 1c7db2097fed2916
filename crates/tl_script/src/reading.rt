//! Reading a script.

ghost use Rattle.std.specs.Prelude.{◌≡◌};
ghost use Rattle.toml.specs.View.{table_view};
ghost use Rattle.tl_script_words.specs.Words.{texts};
ghost use Rattle.tl_script.specs.Each.{Gives};
ghost use Rattle.tl_script.specs.Values.{lists};
ghost use Rattle.tl_script.specs.Commands.{commands};
ghost use Rattle.tl_script.specs.Script.{are_too_many, counted_of, script_of, read_of, value_of};

use crate::commands::{command_lists, commands, is_any_long};
use crate::document::document;
use crate::error::ScriptError;
use crate::image::image;
use crate::numbers::{geometry, numbers, turns};
use crate::script::Script;
use crate::steps::{step_texts, steps};
use std::alloc::Global;
use tl_map::Geometry;
use tl_script_words::{Command, STEPS};
use toml::{Table, Value};

/// The script that the bytes write, or the first thing that is wrong with them. Memory only where a request for memory
/// was refused.
#[tactic(auto, unfolding(crate::specs::Script::read_of))]
pub fn read_script(alloc: Global, bytes: &[u8]) -> Result<Script, ScriptError>
    ensures { Gives value_of result (read_of bytes.now) }
{
    let table = document(alloc, bytes)?;
    script(alloc, &table)
}

#[tactic(auto, unfolding(crate::specs::Script::script_of))]
fn script(alloc: Global, table: &Table) -> Result<Script, ScriptError>
    ensures { Gives value_of result (script_of (table_view table.now)) }
{
    let numbers = numbers(table)?;
    let turns = turns(table)?;
    let geometry = geometry(numbers)?;
    let image = image(alloc, table, geometry)?;
    let lists = command_lists(table)?;
    let step_texts = step_texts(alloc, table)?;
    let commands = counted(alloc, geometry, lists, &step_texts)?;
    let steps = steps(alloc, &step_texts)?;
    Ok(Script {
        numbers,
        geometry,
        turns,
        image,
        commands,
        steps,
    })
}

// The commands, where there are not too many of them or of the steps.
#[tactic(auto, unfolding(crate::specs::Script::counted_of))]
fn counted(
    alloc: Global,
    geometry: Geometry,
    all: &[Value],
    steps: &[&str],
) -> Result<Vec<Vec<Command>>, ScriptError>
    ensures { Gives (λ v. commands v.items) result (counted_of geometry (lists all.now) (texts steps.now)) }
{
    if are_too_many(geometry.clients() as usize, all, steps) {
        return Err(ScriptError::TooMany);
    }
    commands(alloc, geometry, all)
}

fn are_too_many(clients: usize, commands: &[Value], steps: &[&str]) -> bool
    ensures { result ≡ are_too_many clients (lists commands.now) (texts steps.now) }
{
    commands.len() > clients || is_any_long(commands) || steps.len() > STEPS
}
