//! A word cut into a key and a value.
ghost use Rattle.std.specs.Prelude.{◌≡◌, ◌∷◌, [], Err, MatchOption};
ghost use Rattle.tlcheck_record.specs.declared.cause.Cause.TheVariants as cause;
ghost use Rattle.tlwire_record.specs.Fields.{field_of, pair_of};

use tlcheck_record::cut_at;

/// The two parts of a word `KEY=VALUE`.
pub(crate) fn cut_pair(word: &str) -> Option<(&str, &str)>
    ensures { MatchOption result (field_of word.now ≡ Err cause.Key)
        (λ parts. pair_of word.now ≡ parts.0.now ∷ parts.1.now ∷ []) }
{
    let (key, Some(rest)) = cut_at(word, b'=') else {
        return None;
    };
    match cut_at(rest, b'=') {
        (value, None) => Some((key, value)),
        (_, Some(_)) => None,
    }
}
