//! A line of the header that would have decided a record, where it is true.
ghost use Rattle.std.specs.Prelude.{◌≡◌, Some, IfOk, IfSome, IsTrue};
ghost use Rattle.std.specs.List.{list_any};
ghost use Rattle.tlwire_answer.specs.Advice.{Decides, IsAdvised, advice_text, advised_line, is_decided, is_forbidden, is_unwatched};
ghost use Rattle.tlwire_answer.specs.Answer.{IsJudged};

use crate::verdict::{Undecided, Verdict, judge};
use std::alloc::{AllocError, Global};
use std::fmt;
use tlwire_record::{Messages, Premise};
use tlwire_search::{Premises, Seen};

/// How many messages, loads and stores a record has, at most, for which lines of the header are tried.
const MOST_ADVISED: usize = 1_000;

/// A line of the header that is tried.
#[derive(Clone, Copy, PartialEq, Eq)]
pub enum Advice {
    /// `seen between`
    Between,
    /// `seen at clients`
    AtClients,
    /// `seen at home`
    AtHome,
    /// `memory unseen`
    MemoryUnseen,
    /// `cores unseen`
    CoresUnseen,
    /// `whole`
    Whole,
}

/// All of them, in the order in which they are tried.
const ALL: [Advice; 6] = [
    Advice::Between,
    Advice::AtClients,
    Advice::AtHome,
    Advice::MemoryUnseen,
    Advice::CoresUnseen,
    Advice::Whole,
];

impl fmt::Display for Advice {
    ghost output = { λ a. Some (advice_text a) };

    fn fmt<W: fmt::Write>(&self, f: &mut fmt::Formatter<W>) -> fmt::Result {
        match self {
            Advice::Between => f.write_str("seen between"),
            Advice::AtClients => f.write_str("seen at clients"),
            Advice::AtHome => f.write_str("seen at home"),
            Advice::MemoryUnseen => f.write_str("memory unseen"),
            Advice::CoresUnseen => f.write_str("cores unseen"),
            Advice::Whole => f.write_str("whole"),
        }
    }
}

// That a line would decide it, where one would.
#[derive(Clone, Copy)]
pub(crate) struct AdvisedLine(pub(crate) Option<Advice>);

impl fmt::Display for AdvisedLine {
    ghost output = { λ x. Some (advised_line x.0) };

    fn fmt<W: fmt::Write>(&self, f: &mut fmt::Formatter<W>) -> fmt::Result {
        match self.0 {
            Some(advice) => write!(
                f,
                "`{advice}` in the header would decide it, where that is true\n"
            ),
            None => Ok(()),
        }
    }
}

impl Advice {
    ghost use Rattle.tlwire_answer.specs.Advice.{premise_of};

    /// What it says of how the record was seen.
    fn premise(self) -> Premise
        ensures { result ≡ premise_of self }
    {
        match self {
            Advice::Between => Premise::Between,
            Advice::AtClients => Premise::AtClients,
            Advice::AtHome => Premise::AtHome,
            Advice::MemoryUnseen => Premise::MemoryUnseen,
            Advice::CoresUnseen => Premise::CoresUnseen,
            Advice::Whole => Premise::Whole,
        }
    }
}

/// Whether a line stands where a header says that nobody watched.
fn is_unwatched(premises: &Premises, seen: &Seen) -> bool
    ensures { result ≡ is_unwatched premises.now seen.now }
{
    premises.is_unseen(seen.wire())
}

/// Whether some line does, so that the header may not say so.
fn is_forbidden(lines: &[Seen], premises: &Premises) -> bool
    ensures { result ≡ is_forbidden lines.now premises.now }
{
    lines.iter().any(|seen| is_unwatched(premises, seen))
}

/// Whether it is a run, or that there is none.
fn is_decided(verdict: &Verdict) -> bool
    ensures { result ≡ is_decided verdict.now }
{
    match verdict {
        Verdict::Explained(_) | Verdict::Impossible(_) | Verdict::RuledOut(_) => true,
        Verdict::NotDecided(_, _, _) | Verdict::OtherOrder(_, _) | Verdict::Unmet(_) => false,
    }
}

/// Whether a line more of the header decides a record, which stays as it is.
fn decides(alloc: Global, messages: &mut Messages, advice: Advice) -> Result<bool, AllocError>
    ensures kept { messages.new ≡ messages.old }
    ensures decides { IfOk result (λ yes. IsTrue yes → Decides messages.old advice) }
{
    let premises = messages.premises_with(alloc, advice.premise())?;
    if is_forbidden(messages.seen(), &premises) {
        return Ok(false);
    }
    let before = messages.suppose(premises);
    let verdict = judge(alloc, messages, &mut ());
    messages.suppose(before);
    Ok(is_decided(&verdict?))
}

/// The first line that decides a record, which stays as it is; none of a record of more than `MOST_ADVISED`
/// messages, loads and stores.
#[tactic(auto, using(crate::proofs::Advised::decides_same))]
fn advice_to(alloc: Global, messages: &mut Messages) -> Result<Option<Advice>, AllocError>
    ensures kept { messages.new ≡ messages.old }
    ensures decides { IfOk result (λ advice. IfSome advice (Decides messages.old)) }
{
    if messages.seen().len() > MOST_ADVISED {
        return Ok(None);
    }
    for advice in &ALL {
        if decides(alloc, messages, *advice)? {
            return Ok(Some(*advice));
        }
    }
    Ok(None)
}

/// A verdict, with a line of the header that would have decided it, where it is none. The record stays as it is. Err is
/// a refused request for memory.
pub(crate) fn with_advice(
    alloc: Global,
    messages: &mut Messages,
    verdict: Verdict,
) -> Result<Verdict, AllocError>
    requires { IsJudged messages.now verdict }
    ensures kept { messages.new ≡ messages.old }
    ensures judged { IfOk result (λ v. IsJudged messages.old v) }
    ensures advised { IfOk result (λ v. IsAdvised messages.old v) }
{
    match verdict {
        Verdict::NotDecided(place, limit, undecided) => {
            let advice = advice_to(alloc, messages)?;
            let undecided = Undecided {
                advice,
                ..undecided
            };
            Ok(Verdict::NotDecided(place, limit, undecided))
        }
        Verdict::OtherOrder(order, undecided) => {
            let advice = advice_to(alloc, messages)?;
            let undecided = Undecided {
                advice,
                ..undecided
            };
            Ok(Verdict::OtherOrder(order, undecided))
        }
        verdict => Ok(verdict),
    }
}
