//! The fields of a message: words KEY=VALUE.
ghost use Rattle.std.specs.Prelude.{◌≡◌, ◌∷◌, IfOk, List, ℕ};
ghost use Rattle.tl_script_words.specs.Words.{texts};
ghost use Rattle.tlcheck_record.specs.Cause.{Gives, Refuses};
ghost use Rattle.tlwire_record.specs.declared.fields.Fields.{Fields};
ghost use Rattle.tlwire_record.specs.Fields.{fields_in, no_fields, pair_of, with_pair, with_word};

use crate::address::read_wide_address;
use crate::cut::cut_pair;
use std::alloc::{AllocError, Global};
use tl_types::BlockBytes;
use tlcheck_record::{Cause, LineError, cut_at, read_block_bytes, read_number};

/// A field of a message, as the definitions of `Fields` name it: a line's fields are read into their places without it.
#[derive(Drop)]
pub enum Field {
    Param(u32),
    Size(u32),
    Source(u32),
    Sink(u32),
    Address(u64),
    Data(BlockBytes),
    Denied(u32),
    Corrupt(u32),
    Mask(u32),
}

/// The fields of a message, each where it stands.
#[derive(Drop)]
pub struct Fields {
    pub param: Option<u32>,
    pub size: Option<u32>,
    pub source: Option<u32>,
    pub sink: Option<u32>,
    pub address: Option<u64>,
    pub bytes: Option<BlockBytes>,
    pub denied: Option<u32>,
    pub corrupt: Option<u32>,
    pub mask: Option<u32>,
}

/// What stands between the `=` of a word.
pub(crate) fn split_pair(alloc: Global, word: &str) -> Result<Vec<&str>, AllocError>
    ensures { IfOk result (λ parts. texts parts.items ≡ pair_of word.now) }
{
    word.split('=').collect(alloc)
}

/// No fields.
pub(crate) fn no_fields() -> Fields
    ensures { result ≡ no_fields }
{
    Fields {
        param: None,
        size: None,
        source: None,
        sink: None,
        address: None,
        bytes: None,
        denied: None,
        corrupt: None,
        mask: None,
    }
}

/// One field more, of a key and a value, unless it is there.
#[tactic(auto, unfolding(crate::specs::Fields::field_by))]
fn add_field(fields: &mut Fields, key: &str, value: &str) -> Result<(), LineError>
    ensures { Gives (λ _. fields.new) result (with_pair fields.old key.now value.now) }
{
    let was_there = match key {
        "param" => fields.param.replace(read_number(value)?).is_some(),
        "size" => fields.size.replace(read_number(value)?).is_some(),
        "source" => fields.source.replace(read_number(value)?).is_some(),
        "sink" => fields.sink.replace(read_number(value)?).is_some(),
        "address" => fields.address.replace(read_wide_address(value)?).is_some(),
        "data" => fields.bytes.replace(read_block_bytes(value)?).is_some(),
        "denied" => fields.denied.replace(read_number(value)?).is_some(),
        "corrupt" => fields.corrupt.replace(read_number(value)?).is_some(),
        "mask" => fields.mask.replace(read_number(value)?).is_some(),
        _ => return Err(LineError::Wrong(Cause::Key)),
    };
    if was_there {
        Err(LineError::Wrong(Cause::Twice))
    } else {
        Ok(())
    }
}

/// Why a word adds no field, where for this reason its key and what stands behind its first `=` add none.
fn refused(word: &str, error: LineError) -> LineError
    ensures { (have : Fields) (key value : List ℕ) → pair_of word.now ≡ key ∷ pair_of value
        → Refuses error (with_pair have key value) → Refuses result (with_word have word.now) }
{
    match cut_pair(word) {
        Some(_) => error,
        None => LineError::Wrong(Cause::Key),
    }
}

/// One field more, of a word's key and of what stands behind its first `=`. A value that was read has no second one, so
/// that is looked for only where none was read.
fn add_value(fields: &mut Fields, word: &str, key: &str, value: &str) -> Result<(), LineError>
    requires { pair_of word.now ≡ key.now ∷ pair_of value.now }
    ensures { Gives (λ _. fields.new) result (with_word fields.old word.now) }
{
    match add_field(fields, key, value) {
        Ok(()) => Ok(()),
        Err(error) => Err(refused(word, error)),
    }
}

/// One field more, that a word writes.
fn add_word(fields: &mut Fields, word: &str) -> Result<(), LineError>
    ensures { Gives (λ _. fields.new) result (with_word fields.old word.now) }
{
    match cut_at(word, b'=') {
        (key, Some(value)) => add_value(fields, word, key, value),
        (_, None) => Err(LineError::Wrong(Cause::Key)),
    }
}

/// The fields that some words write, beside those that are there. It stands apart, so that the fields stay in place.
#[inline(never)]
fn add_words(fields: &mut Fields, words: &[&str]) -> Result<(), LineError>
    ensures { Gives (λ _. fields.new) result (fields_in fields.old (texts words.now)) }
{
    let mut rest = words;
    while let [word, after @ ..] = rest {
        add_word(fields, word)?;
        rest = after;
    }
    Ok(())
}

/// The fields that some words write.
pub(crate) fn parse_fields(words: &[&str]) -> Result<Fields, LineError>
    ensures { Gives (λ x. x) result (fields_in no_fields (texts words.now)) }
{
    let mut fields = no_fields();
    add_words(&mut fields, words)?;
    Ok(fields)
}
