//! The commands of a script.

ghost use Rattle.std.specs.Prelude.{◌≡◌, map, Ok, ◌++◌, ◌-◌, replicate, length, []};
ghost use Rattle.std.specs.List.{list_any};
ghost use Rattle.toml.specs.View.{view, table_view};
ghost use Rattle.tl_script.specs.Each.{Gives, each};
ghost use Rattle.tl_script.specs.Document.{texts_in};
ghost use Rattle.tl_script.specs.Values.{texts_of, lists};
ghost use Rattle.tl_script.specs.Commands.{lists_in, command_texts_of, is_long, fits, command_at, commands_of_client, commands_of, commands};

use crate::document::{are_texts, text_of, value_at, values_of};
use crate::error::ScriptError;
use crate::key::Key;
use std::alloc::Global;
use tl_map::Geometry;
use tl_script_words::{COMMANDS, Command};
use toml::{Table, Value};

/// The list of each client's commands, each an array of texts; none where the key is absent. `Missing(Commands)` where
/// the value has another shape.
#[tactic(auto, unfolding(crate::specs::Commands::command_texts_of))]
pub fn command_lists(table: &Table) -> Result<&[Value], ScriptError>
    ensures { Gives (λ v. lists v.now) result (command_texts_of (table_view table.now)) }
{
    match value_at(table, Key::Commands) {
        None => Ok(&[]),
        Some(value) => lists_in(value),
    }
}

#[tactic(auto, unfolding(crate::specs::Commands::lists_in))]
fn lists_in(value: &Value) -> Result<&[Value], ScriptError>
    ensures { Gives (λ v. lists v.now) result (lists_in (view value.now)) }
{
    match value.as_array() {
        Some(items) => lists(items),
        None => Err(ScriptError::Missing(Key::Commands)),
    }
}

fn lists(items: &[Value]) -> Result<&[Value], ScriptError>
    ensures { Gives (λ v. lists v.now) result (each (λ _ e. texts_in Key.Commands e) 0 (map view items.now)) }
{
    if items.iter().all(are_texts) {
        Ok(items)
    } else {
        Err(ScriptError::Missing(Key::Commands))
    }
}

/// Whether a client has more than 4,096 commands.
pub fn is_any_long(all: &[Value]) -> bool
    ensures { result ≡ list_any is_long (lists all.now) }
{
    all.iter().any(is_long)
}

fn is_long(list: &Value) -> bool
    ensures { result ≡ is_long (texts_of (view list.now)) }
{
    values_of(list).len() > COMMANDS
}

/// The commands of all clients. `Command(CLIENT, INDEX)` at the first that is outside the grammar, or whose bytes do
/// not lie in the memory and in one block; `Memory` where memory is refused.
#[tactic(auto, unfolding(crate::specs::Commands::commands_of))]
pub fn commands(
    alloc: Global,
    geometry: Geometry,
    all: &[Value],
) -> Result<Vec<Vec<Command>>, ScriptError>
    ensures { Gives (λ v. commands v.items) result (commands_of geometry (lists all.now)) }
{
    let given = given_commands(alloc, geometry, all)?;
    padded(alloc, given, geometry.clients() as usize)
}

fn given_commands(
    alloc: Global,
    geometry: Geometry,
    all: &[Value],
) -> Result<Vec<Vec<Command>>, ScriptError>
    ensures { Gives (λ v. commands v.items) result (each (commands_of_client geometry) 0 (lists all.now)) }
{
    let mut commands = Vec::new(alloc);
    for (client, list) in all.iter().enumerate() {
        commands.push(client_commands(alloc, geometry, client, list)?)?;
    }
    Ok(commands)
}

#[tactic(auto, unfolding(crate::specs::Commands::commands_of_client))]
fn client_commands(
    alloc: Global,
    geometry: Geometry,
    client: usize,
    list: &Value,
) -> Result<Vec<Command>, ScriptError>
    ensures { Gives (λ v. v.items) result (commands_of_client geometry client (texts_of (view list.now))) }
{
    let values = values_of(list);
    let mut commands = Vec::with_capacity(alloc, values.len())?;
    for (index, value) in values.iter().enumerate() {
        commands.push(command_at(geometry, client, index, text_of(value))?)?;
    }
    Ok(commands)
}

#[tactic(auto, unfolding(crate::specs::Commands::command_at))]
fn command_at(
    geometry: Geometry,
    client: usize,
    index: usize,
    text: &str,
) -> Result<Command, ScriptError>
    ensures { Gives (λ c. c) result (command_at geometry client index text.now) }
{
    match Command::parse(text) {
        Some(command) => {
            if !fits(geometry, &command) {
                return Err(ScriptError::Command(client, index));
            }
            Ok(command)
        }
        None => Err(ScriptError::Command(client, index)),
    }
}

// Whether the bytes of a command lie in the memory and in one block.
fn fits(geometry: Geometry, command: &Command) -> bool
    ensures { result ≡ fits geometry command.now }
{
    match command {
        Command::Load { address, len } => geometry.has_bytes(*address, usize::from(*len)),
        Command::Store { address, bytes } => geometry.has_bytes(*address, bytes.as_slice().len()),
        Command::Drop { address } => geometry.has_bytes(*address, 1),
    }
}

// Empty lists for the clients that have none.
fn padded(
    alloc: Global,
    mut given: Vec<Vec<Command>>,
    clients: usize,
) -> Result<Vec<Vec<Command>>, ScriptError>
    ensures { Gives (λ v. commands v.items) result
        (Ok (commands given.items ++ replicate (clients - length given.items) [])) }
{
    while given.len() < clients {
        given.push(Vec::new(alloc))?;
    }
    Ok(given)
}
