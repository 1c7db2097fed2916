//! What the lines of a record lead to, one after another.
ghost use Rattle.std.specs.Prelude.{◌≡◌};
ghost use Rattle.tlcheck_record.specs.Words.{is_blank};
ghost use Rattle.tl_script_words.specs.Words.{texts};
ghost use Rattle.tlcheck_record.specs.Cause.{Gives};
ghost use Rattle.tlwire_record.specs.Reading.{after_text, going, next, next_shaped, shaped_by, text_taken};

use crate::expects::{is_expects_word, take_expects};
use crate::header::{Setting, is_title, parse_setting, take_sources};
use crate::ignored::take_ignored;
use crate::line::parse_line;
use crate::messages::Messages;
use crate::premise::{is_premise_word, take_premise};
use std::alloc::Global;
use std::mem;
use tl_script_words::split_words;
use tlcheck_record::{Cause, LineError, few_words, is_blank, read_image, read_text};

/// As many words as a line may have that is in the format: a message's, with each field.
const FEW: usize = 13;

/// Where a reader of a record is.
#[derive(Drop)]
pub enum Stage {
    /// Nothing was read.
    Fresh,
    /// The title was read.
    Titled,
    /// The shape was read, and maybe sources.
    Shaped(Setting),
    /// The image was read, or a line of a message, of a load or of a store.
    Going(Messages),
}

/// One line more of what was seen.
fn take_seen(messages: &mut Messages, number: u64, words: &[&str]) -> Result<(), LineError>
    ensures { Gives (λ _. Stage.Going messages.new) result (going messages.old number (texts words.now)) }
{
    let line = parse_line(words)?;
    messages.take(number, line)
}

/// The same, behind the shape.
fn going(mut messages: Messages, number: u64, words: &[&str]) -> Result<Stage, LineError>
    ensures { Gives (λ s. s) result (going messages number (texts words.now)) }
{
    take_seen(&mut messages, number, words)?;
    Ok(Stage::Going(messages))
}

/// A line behind the shape, by its first word.
fn shaped_by(
    alloc: Global,
    setting: Setting,
    number: u64,
    word: &str,
    rest: &[&str],
    words: &[&str],
) -> Result<Stage, LineError>
    ensures { Gives (λ s. s) result (shaped_by setting number word.now (texts rest.now) (texts words.now)) }
{
    match word {
        "source" => Ok(Stage::Shaped(take_sources(alloc, setting, rest)?)),
        _ if is_premise_word(word) => Ok(Stage::Shaped(take_premise(setting, word, rest)?)),
        _ if is_expects_word(word) => Ok(Stage::Shaped(take_expects(setting, word, rest)?)),
        "ignored" => Ok(Stage::Shaped(take_ignored(setting, rest)?)),
        "image" => {
            let image = read_image(alloc, setting.shape(), rest)?;
            Ok(Stage::Going(Messages::begin(alloc, setting, image)))
        }
        _ => {
            let messages = Messages::begin(alloc, setting, Vec::new(alloc));
            going(messages, number, words)
        }
    }
}

/// A line behind the shape.
fn next_shaped(
    alloc: Global,
    setting: Setting,
    number: u64,
    words: &[&str],
) -> Result<Stage, LineError>
    ensures { Gives (λ s. s) result (next_shaped setting number (texts words.now)) }
{
    match words {
        [] => Err(LineError::Wrong(Cause::Words)),
        [word, rest @ ..] => shaped_by(alloc, setting, number, word, rest, words),
    }
}

/// A line that is not blank.
fn next(alloc: Global, stage: Stage, number: u64, words: &[&str]) -> Result<Stage, LineError>
    ensures { Gives (λ s. s) result (next stage number (texts words.now)) }
{
    match stage {
        Stage::Fresh => {
            if is_title(words) {
                Ok(Stage::Titled)
            } else {
                Err(LineError::Wrong(Cause::Title))
            }
        }
        Stage::Titled => Ok(Stage::Shaped(parse_setting(alloc, words)?)),
        Stage::Shaped(setting) => next_shaped(alloc, setting, number, words),
        Stage::Going(messages) => going(messages, number, words),
    }
}

/// Takes a line that is not blank. What was seen so far stays in its place.
fn take_words(
    alloc: Global,
    stage: &mut Stage,
    number: u64,
    words: &[&str],
) -> Result<(), LineError>
    ensures { Gives (λ _. stage.new) result (next stage.old number (texts words.now)) }
{
    match stage {
        Stage::Going(messages) => take_seen(messages, number, words),
        _ => {
            let before = mem::replace(stage, Stage::Fresh);
            *stage = next(alloc, before, number, words)?;
            Ok(())
        }
    }
}

/// Takes any text of a line.
fn any_text(alloc: Global, stage: &mut Stage, number: u64, text: &str) -> Result<(), LineError>
    ensures { Gives (λ _. stage.new) result (text_taken stage.old number text.now) }
{
    let words = split_words(alloc, text)?;
    take_words(alloc, stage, number, &words)
}

/// Takes the text of a line.
fn text_taken(alloc: Global, stage: &mut Stage, number: u64, text: &str) -> Result<(), LineError>
    ensures { Gives (λ _. stage.new) result (text_taken stage.old number text.now) }
{
    match few_words::<FEW>(text) {
        Some(words) => take_words(alloc, stage, number, &words),
        None => any_text(alloc, stage, number, text),
    }
}

/// Takes the line with this number, without its line feed.
pub(crate) fn take_line(
    alloc: Global,
    stage: &mut Stage,
    number: u64,
    text: &[u8],
) -> Result<(), LineError>
    ensures { Gives (λ _. stage.new) result (after_text stage.old number text.now) }
{
    if is_blank(text) {
        return Ok(());
    }
    match read_text(text) {
        Ok(text) => text_taken(alloc, stage, number, text),
        Err(cause) => Err(LineError::Wrong(cause)),
    }
}
