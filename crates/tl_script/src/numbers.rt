//! The numbers of a script.

ghost use Rattle.std.specs.Prelude.{◌≡◌};
ghost use Rattle.toml.specs.View.{table_view};
ghost use Rattle.tl_script.specs.Each.{Gives};
ghost use Rattle.tl_script.specs.Numbers.{version_of, numbers_of, turns_of, geometry_of};

use crate::document::integer_at;
use crate::error::ScriptError;
use crate::key::Key;
use tl_map::{Geometry, GeometryNumbers};
use toml::Table;

#[tactic(auto, unfolding(crate::specs::Numbers::version_of))]
fn version(table: &Table) -> Result<i64, ScriptError>
    ensures { Gives (λ n. n) result (version_of (table_view table.now)) }
{
    let version = integer_at(table, Key::Version)?;
    if version == 1 || version == 2 {
        Ok(version)
    } else {
        Err(ScriptError::Missing(Key::Version))
    }
}

/// The numbers of the geometry, as the document gives them. `Missing(KEY)` at the first key that has no whole number,
/// or a version that is not 1 or 2, in the order of the fields; whether they make a geometry is `geometry`'s to say.
#[tactic(auto, unfolding(crate::specs::Numbers::numbers_of))]
pub fn numbers(table: &Table) -> Result<GeometryNumbers, ScriptError>
    ensures { Gives (λ n. n) result (numbers_of (table_view table.now)) }
{
    Ok(GeometryNumbers {
        version: version(table)?,
        clients: integer_at(table, Key::Clients)?,
        banks: integer_at(table, Key::Banks)?,
        block_bytes: integer_at(table, Key::BlockBytes)?,
        sets: integer_at(table, Key::Sets)?,
        ways: integer_at(table, Key::Ways)?,
        registers: integer_at(table, Key::Registers)?,
        copies: integer_at(table, Key::Copies)?,
        memory_blocks: integer_at(table, Key::MemoryBlocks)?,
    })
}

/// How many turns a thread makes at most: 1 to 1,000,000. `Missing(Turns)` where the key has no such number.
#[tactic(auto, unfolding(crate::specs::Numbers::turns_of))]
pub fn turns(table: &Table) -> Result<u32, ScriptError>
    ensures { Gives (λ n. n) result (turns_of (table_view table.now)) }
{
    let turns = integer_at(table, Key::Turns)?;
    if turns < 1 || turns > 1_000_000 {
        return Err(ScriptError::Missing(Key::Turns));
    }
    Ok(turns as u32)
}

/// The geometry that the numbers make. `Geometry(CAUSE)` where they make none: the first number that is out of its
/// range.
pub fn geometry(numbers: GeometryNumbers) -> Result<Geometry, ScriptError>
    ensures { Gives (λ g. g) result (geometry_of numbers) }
{
    match Geometry::new(numbers) {
        Ok(geometry) => Ok(geometry),
        Err(cause) => Err(ScriptError::Geometry(cause)),
    }
}
