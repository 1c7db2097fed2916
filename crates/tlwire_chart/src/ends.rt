//! Where a record broke, by what is said of it.
ghost use Rattle.std.specs.Prelude.{◌≡◌, IfOk, string_bytes};
ghost use Rattle.tlwire_chart.specs.Ends.{broken_at, words_of};

use std::alloc::{AllocError, Global};
use tlcheck_record::Breaks;
use tlwire_answer::Verdict;

/// The place of the line that is impossible, where one is.
pub fn broken_at(verdict: &Verdict) -> Option<usize>
    ensures { result ≡ broken_at verdict.now }
{
    match verdict {
        Verdict::Impossible(wrong) => Some(wrong.place),
        Verdict::RuledOut(stuck) => Some(stuck.place),
        Verdict::Explained(_)
        | Verdict::NotDecided(_, _, _)
        | Verdict::OtherOrder(_, _)
        | Verdict::Unmet(_) => None,
    }
}

/// By what the line is impossible: the rule that it breaks, or that no lawful run comes so far. The error is want of
/// memory.
pub fn words_of(alloc: Global, verdict: &Verdict) -> Result<String, AllocError>
    ensures { IfOk result (λ words. string_bytes words ≡ words_of verdict.now) }
{
    match verdict {
        Verdict::Impossible(wrong) => {
            let breaks = Breaks(&wrong.breach);
            format!(in alloc; "{breaks}")
        }
        _ => String::from_str(alloc, "no lawful run comes so far"),
    }
}
