//! The image of a script.

ghost use Rattle.std.specs.Prelude.{◌≡◌};
ghost use Rattle.toml.specs.View.{view, table_view};
ghost use Rattle.tl_script.specs.Each.{Gives};
ghost use Rattle.tl_script.specs.Image.{image_of, bytes_in};

use crate::document::{text_in, value_at};
use crate::error::ScriptError;
use crate::key::Key;
use std::alloc::Global;
use tl_map::Geometry;
use tl_script_words::{ParseError, parse_bytes};
use toml::{Table, Value};

/// The first bytes of the memory, no more than it has; none where the key is absent. `Missing(Image)` where the value
/// is no text of such bytes in hexadecimal, `Memory` where memory is refused.
#[tactic(auto, unfolding(crate::specs::Image::image_of))]
pub fn image(alloc: Global, table: &Table, geometry: Geometry) -> Result<Vec<u8>, ScriptError>
    ensures { Gives (λ v. v.items) result (image_of geometry (table_view table.now)) }
{
    match value_at(table, Key::Image) {
        None => Ok(Vec::new(alloc)),
        Some(value) => {
            let bytes = bytes_in(alloc, value)?;
            if bytes.len() > geometry.memory_bytes() as usize {
                return Err(ScriptError::Missing(Key::Image));
            }
            Ok(bytes)
        }
    }
}

#[tactic(auto, unfolding(crate::specs::Image::bytes_in))]
fn bytes_in(alloc: Global, value: &Value) -> Result<Vec<u8>, ScriptError>
    ensures { Gives (λ v. v.items) result (bytes_in (view value.now)) }
{
    let text = text_in(Key::Image, value)?;
    match parse_bytes(alloc, text) {
        Ok(bytes) => Ok(bytes),
        Err(ParseError::Malformed) => Err(ScriptError::Missing(Key::Image)),
        Err(ParseError::Memory) => Err(ScriptError::Memory),
    }
}
