//! The lines before the messages that say what is expected of the exchanges of a record.
ghost use Rattle.std.specs.Prelude.{◌≡◌};
ghost use Rattle.tl_script_words.specs.Words.{texts};
ghost use Rattle.tlcheck_record.specs.Cause.{Gives};
ghost use Rattle.tlwire_record.specs.Expects.{expects_in, expects_taken, is_expects_word, patience_in, quiet_in};
ghost use Rattle.tlwire_record.specs.Header.{nothing_expected};

use crate::header::Setting;
use crate::premise::least;
use tlcheck_record::{Cause, LineError, read_number};

/// What a header expects of the exchanges of its record.
#[derive(Clone, Copy, PartialEq, Eq)]
pub struct Expects {
    /// `ends quiet`: none is open at the end.
    pub quiet: bool,
    /// `patience NUM`: none is open for more than so many cycles. Of several lines the least counts.
    pub patience: Option<u32>,
}

/// Nothing.
pub(crate) fn nothing_expected() -> Expects
    ensures { result ≡ nothing_expected }
{
    Expects {
        quiet: false,
        patience: None,
    }
}

/// Whether a line with this first word says what is expected.
pub(crate) fn is_expects_word(word: &str) -> bool
    ensures { result ≡ is_expects_word word.now }
{
    word == "ends" || word == "patience"
}

/// `quiet`, behind `ends`.
fn quiet_in(expects: Expects, words: &[&str]) -> Result<Expects, Cause>
    ensures { result ≡ quiet_in expects (texts words.now) }
{
    match *words {
        [word] => {
            if word == "quiet" {
                Ok(Expects {
                    quiet: true,
                    ..expects
                })
            } else {
                Err(Cause::Premise)
            }
        }
        _ => Err(Cause::Premise),
    }
}

/// `NUM`, behind `patience`.
#[tactic(auto, unfolding(crate::specs::Expects::patience_in))]
fn patience_in(expects: Expects, words: &[&str]) -> Result<Expects, Cause>
    ensures { result ≡ patience_in expects (texts words.now) }
{
    match *words {
        [number] => {
            let most = read_number(number)?;
            Ok(Expects {
                patience: Some(least(expects.patience, most)),
                ..expects
            })
        }
        _ => Err(Cause::Premise),
    }
}

/// With what a line says, by its first word.
fn expects_in(expects: Expects, word: &str, rest: &[&str]) -> Result<Expects, Cause>
    ensures { result ≡ expects_in expects word.now (texts rest.now) }
{
    match word {
        "ends" => quiet_in(expects, rest),
        _ => patience_in(expects, rest),
    }
}

/// The setting with what a line says of what is expected.
pub(crate) fn take_expects(
    mut setting: Setting,
    word: &str,
    rest: &[&str],
) -> Result<Setting, LineError>
    ensures { Gives (λ x. x) result (expects_taken setting word.now (texts rest.now)) }
{
    let expects = expects_in(setting.expects(), word, rest)?;
    setting.set_expects(expects);
    Ok(setting)
}
