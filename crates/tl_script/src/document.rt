//! The document of a script, and the values of its keys.

ghost use Rattle.std.specs.Prelude.{◌≡◌, option_map, map};
ghost use Rattle.toml.specs.Data.{get_member};
ghost use Rattle.toml.specs.View.{view, table_view};
ghost use Rattle.tl_script_words.specs.Words.{texts};
ghost use Rattle.tl_script.specs.Each.{Gives, each, or_fault};
ghost use Rattle.tl_script.specs.Key.{name_of};
ghost use Rattle.tl_script.specs.Document.{document_of, integer_at, text_in, texts_in};
ghost use Rattle.tl_script.specs.Values.{values_of, are_texts, text_of};

use crate::error::ScriptError;
use crate::key::Key;
use std::alloc::Global;
use toml::{Table, Value};

/// The document that the bytes write. `NotToml` where they are no UTF-8 or no TOML, `Memory` where memory is refused.
pub fn document(alloc: Global, bytes: &[u8]) -> Result<Table, ScriptError>
    ensures { Gives table_view result (or_fault ScriptError.NotToml (document_of bytes.now)) }
{
    match toml::table_from_slice(alloc, bytes) {
        Ok(table) => Ok(table),
        Err(error) => {
            if error.is_memory() {
                Err(ScriptError::Memory)
            } else {
                Err(ScriptError::NotToml)
            }
        }
    }
}

/// The value at a key.
pub fn value_at(table: &Table, key: Key) -> Option<&Value>
    ensures { option_map (λ v. view v.now) result ≡ get_member (name_of key) (table_view table.now) }
{
    table.get(key.name())
}

/// The whole number at a key. `Missing(key)` where there is none.
#[tactic(auto, unfolding(crate::specs::Document::integer_at))]
pub fn integer_at(table: &Table, key: Key) -> Result<i64, ScriptError>
    ensures { Gives (λ n. n) result (integer_at key (table_view table.now)) }
{
    match value_at(table, key) {
        Some(value) => value.as_integer().ok_or(ScriptError::Missing(key)),
        None => Err(ScriptError::Missing(key)),
    }
}

/// The text that a value at a key is. `Missing(key)` where it is none.
#[tactic(auto, unfolding(crate::specs::Document::text_in))]
pub fn text_in(key: Key, value: &Value) -> Result<&str, ScriptError>
    ensures { Gives (λ t. t.now) result (text_in key (view value.now)) }
{
    value.as_str().ok_or(ScriptError::Missing(key))
}

/// The texts that an array at a key has. `Missing(key)` where the value is no array of texts, `Memory` where memory is
/// refused.
#[tactic(auto, unfolding(crate::specs::Document::texts_in))]
pub fn texts_in(alloc: Global, key: Key, value: &Value) -> Result<Vec<&str>, ScriptError>
    ensures { Gives (λ v. texts v.items) result (texts_in key (view value.now)) }
{
    match value.as_array() {
        Some(items) => texts(alloc, key, items),
        None => Err(ScriptError::Missing(key)),
    }
}

fn texts(alloc: Global, key: Key, items: &[Value]) -> Result<Vec<&str>, ScriptError>
    ensures { Gives (λ v. texts v.items) result (each (λ _ e. text_in key e) 0 (map view items.now)) }
{
    let mut texts = Vec::with_capacity(alloc, items.len())?;
    for item in items {
        texts.push(text_in(key, item)?)?;
    }
    Ok(texts)
}

/// Whether a value is an array of texts.
pub fn are_texts(value: &Value) -> bool
    ensures { result ≡ are_texts (view value.now) }
{
    value.is_array() && values_of(value).iter().all(|item| item.is_str())
}

/// The values in an array. None where the value is another.
pub fn values_of(value: &Value) -> &[Value]
    ensures { map view result.now ≡ values_of (view value.now) }
{
    match value.as_array() {
        Some(items) => items,
        None => &[],
    }
}

/// The text that a value is. Empty where it is none.
pub fn text_of(value: &Value) -> &str
    ensures { result.now ≡ text_of (view value.now) }
{
    value.as_str().unwrap_or("")
}
