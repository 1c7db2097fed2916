//! What is said of what was seen.
ghost use Rattle.std.specs.Prelude.{◌≡◌, ℕ, Some, None, IfOk, IfSome};
ghost use Rattle.tlwire_answer.specs.Answer.{IsExplainedInFull, IsFirstOf, IsFound, IsJudged, IsRuledOut, IsSets, IsVerdict, MayAtPins, with_lines};
ghost use Rattle.tlwire_record.specs.Messages.{MessagesState};
ghost use Rattle.tlwire_search.specs.Explained.{Explains};

use crate::advice::Advice;
use crate::named::{has_sets, is_all_in_order};
use crate::order::{Order, other_order};
use crate::pins::wrong_at_pins;
use crate::sets::{Sets, all_sets, sets_at_pins, sets_between};
use crate::waits::{Unmet, unmet_of};
use std::alloc::{AllocError, Global};
use tl_rules::Event;
use tl_streams::Watcher;
use tlwire_closed::{Reason, Stuck};
use tlwire_pins::{Wrong, in_full};
use tlwire_record::Messages;
use tlwire_rounds::explain_in_rounds;
use tlwire_search::{Explanation, Limit, Seen, explain};

/// How many messages, loads and stores a record has, at most, for which a run is sought in rounds.
const MOST_SEEN: usize = 10_000;

/// What is told where neither was found.
#[derive(Clone, Copy, PartialEq, Eq)]
pub struct Undecided {
    /// Why closed sets say nothing, where one was sought.
    pub sets: Option<Reason>,
    /// A line of the header that would have decided it, where it is true.
    pub advice: Option<Advice>,
}

/// What is said of what was seen.
#[derive(Drop)]
pub enum Verdict {
    /// This run explains it.
    Explained(Vec<Event>),
    /// No lawful run is seen so: this line may not be seen at its client's pins.
    Impossible(Wrong),
    /// No lawful run is seen so, by a closed set of states of one block.
    RuledOut(Stuck),
    /// Neither was found; the attempt ended before the thing seen at this place, by this.
    NotDecided(usize, Limit, Undecided),
    /// A run was found that has what was seen on each wire, but not in this order.
    OtherOrder(Order, Undecided),
    /// It is not impossible, and not as the header expects.
    Unmet(Unmet),
}

/// Nothing.
fn nothing_told() -> Undecided
    ensures sets { result.sets ≡ None }
    ensures advice { result.advice ≡ None }
{
    Undecided {
        sets: None,
        advice: None,
    }
}

impl Undecided {
    /// The same, with the reason for which closed sets say nothing.
    fn with_sets(self, sets: Option<Reason>) -> Undecided
        ensures sets { result.sets ≡ sets }
        ensures advice { result.advice ≡ self.advice }
    {
        Undecided { sets, ..self }
    }
}

/// That a run explains these lines, where it has each order that the header asks for.
fn ordered(
    alloc: Global,
    messages: &Messages,
    seen: &[Seen],
    run: Vec<Event>,
) -> Result<Verdict, AllocError>
    requires { Explains messages.now.setting.premises messages.now.setting.shape messages.now.image seen.now run.items }
    ensures { IfOk result (IsFound (with_lines messages.now seen.now)) }
{
    match other_order(alloc, messages, seen, &run)? {
        Some(order) => Ok(Verdict::OtherOrder(order, nothing_told())),
        None => Ok(Verdict::Explained(run)),
    }
}

/// A run that explains these lines, or how far an attempt came.
fn explained_at_once(
    alloc: Global,
    messages: &Messages,
    seen: &[Seen],
) -> Result<Verdict, AllocError>
    ensures { IfOk result (IsFound (with_lines messages.now seen.now)) }
{
    let setting = messages.setting();
    let premises = setting.premises();
    match explain(alloc, setting.shape(), premises, messages.image(), seen)? {
        Explanation::Explained(run) => ordered(alloc, messages, seen, run),
        Explanation::NotExplained(place, limit) => Ok(Verdict::NotDecided(
            place,
            limit,
            nothing_told(),
        )),
    }
}

/// A run that the search in rounds finds, which takes longer; else what was found before.
fn explained_in_rounds(
    alloc: Global,
    messages: &Messages,
    seen: &[Seen],
    first: Verdict,
) -> Result<Verdict, AllocError>
    requires { IsFound (with_lines messages.now seen.now) first }
    ensures { IfOk result (IsFound (with_lines messages.now seen.now)) }
{
    let shape = messages.setting().shape();
    let premises = messages.setting().premises();
    let found = explain_in_rounds(alloc, shape, premises, messages.image(), seen)?;
    let Some(run) = found else {
        return Ok(first);
    };
    let again = ordered(alloc, messages, seen, run)?;
    if let Verdict::Explained(_) = &again {
        return Ok(again);
    }
    Ok(first)
}

/// What was found; else a run that the search in rounds finds.
fn explained_again(
    alloc: Global,
    messages: &Messages,
    seen: &[Seen],
    first: Verdict,
) -> Result<Verdict, AllocError>
    requires { IsFound (with_lines messages.now seen.now) first }
    ensures { IfOk result (IsFound (with_lines messages.now seen.now)) }
{
    if let Verdict::Explained(_) = &first {
        return Ok(first);
    }
    if seen.len() > MOST_SEEN {
        return Ok(first);
    }
    explained_in_rounds(alloc, messages, seen, first)
}

/// A run that explains these lines, or how far the first attempt came.
fn explained(alloc: Global, messages: &Messages, seen: &[Seen]) -> Result<Verdict, AllocError>
    ensures { IfOk result (IsFound (with_lines messages.now seen.now)) }
{
    let first = explained_at_once(alloc, messages, seen)?;
    explained_again(alloc, messages, seen, first)
}

/// A run that explains the record in full, where clients drop clean copies.
fn explained_with_drops(
    alloc: Global,
    messages: &Messages,
) -> Result<Option<Vec<Event>>, AllocError>
    ensures { IfOk result (λ found. IfSome found (λ run. IsExplainedInFull messages.now run.items)) }
{
    let setting = messages.setting();
    let premises = setting.premises();
    if !premises.has_drops() {
        return Ok(None);
    }
    let full = in_full(alloc, setting.shape(), premises, messages.seen())?;
    match explained(alloc, messages, &full)? {
        Verdict::Explained(run) => Ok(Some(run)),
        _ => Ok(None),
    }
}

/// A run that the first search finds for what was seen, or how far it came.
fn found_first(alloc: Global, messages: &Messages) -> Result<Verdict, AllocError>
    ensures found { IfOk result (IsFound (with_lines messages.now messages.now.seen)) }
    ensures verdict { IfOk result (IsVerdict messages.now) }
{
    explained_at_once(alloc, messages, messages.seen())
}

/// What the first search found for what was seen; else a run that the search in rounds finds.
fn found_again(alloc: Global, messages: &Messages, first: Verdict) -> Result<Verdict, AllocError>
    requires { IsFound (with_lines messages.now messages.now.seen) first }
    ensures { IfOk result (IsVerdict messages.now) }
{
    explained_again(alloc, messages, messages.seen(), first)
}

/// What the first search finds for the lines before a place.
fn explained_before(
    alloc: Global,
    messages: &Messages,
    place: usize,
) -> Result<Verdict, AllocError> {
    let seen = messages.seen();
    explained_at_once(alloc, messages, seen.get(..place).unwrap_or(seen))
}

/// A place before which no run of a block is stuck, since the first search, which came so far, explains the lines
/// before it; 0 where it does not, or no closed sets are made.
fn known_place(alloc: Global, messages: &Messages, verdict: &Verdict) -> Result<usize, AllocError> {
    let Verdict::NotDecided(place, _, _) = verdict else {
        return Ok(0);
    };
    if !has_sets(messages.setting().premises(), messages.seen().len()) {
        return Ok(0);
    }
    match explained_before(alloc, messages, *place)? {
        Verdict::Explained(_) => Ok(*place),
        _ => Ok(0),
    }
}

/// A verdict, with the reason for which closed sets say nothing, where it is none.
fn with_reason(verdict: Verdict, reason: Option<Reason>) -> Verdict
    ensures { (m : MessagesState) → IsVerdict m verdict → IsVerdict m result }
{
    match verdict {
        Verdict::NotDecided(place, limit, undecided) => {
            Verdict::NotDecided(place, limit, undecided.with_sets(reason))
        }
        Verdict::OtherOrder(order, undecided) => {
            Verdict::OtherOrder(order, undecided.with_sets(reason))
        }
        verdict => verdict,
    }
}

/// What closed sets say of the lines before a place, where some said nothing before.
fn sets_behind<W: Watcher>(
    alloc: Global,
    messages: &Messages,
    between: Option<Sets>,
    known: usize,
    to: usize,
    watcher: &mut W,
) -> Result<Sets, AllocError>
    requires { IfSome between (IsSets messages.now to) }
    ensures { IfOk result (IsSets messages.now to) }
{
    match between {
        Some(sets) => sets_at_pins(alloc, messages, sets, known, to, watcher),
        None => all_sets(alloc, messages, known, to, watcher),
    }
}

/// What the first search found, or a run that the search in rounds finds; else what closed sets say, in the ways of
/// seeing that were not asked before. Before the place `known` no run of a block is stuck, as far as is known.
fn sought<W: Watcher>(
    alloc: Global,
    messages: &Messages,
    first: Verdict,
    known: usize,
    between: Option<Sets>,
    watcher: &mut W,
) -> Result<Verdict, AllocError>
    requires first { IsFound (with_lines messages.now messages.now.seen) first }
    requires pins { MayAtPins messages.now messages.now.seen }
    requires between { (to : ℕ) → IfSome between (IsSets messages.now to) }
    ensures { IfOk result (IsVerdict messages.now) }
{
    let verdict = found_again(alloc, messages, first)?;
    if let Verdict::Explained(_) = &verdict {
        return Ok(verdict);
    }
    let to = messages.seen().len();
    match sets_behind(alloc, messages, between, known, to, watcher)? {
        Sets::Stuck(stuck) => Ok(Verdict::RuledOut(stuck)),
        Sets::Open(reason) => Ok(with_reason(verdict, reason)),
    }
}

/// That each run of a block is stuck at a line, or at an earlier one by the sets at clients' pins.
fn stuck_first<W: Watcher>(
    alloc: Global,
    messages: &Messages,
    stuck: Stuck,
    known: usize,
    watcher: &mut W,
) -> Result<Verdict, AllocError>
    requires pins { MayAtPins messages.now messages.now.seen }
    requires stuck { IsRuledOut messages.now }
    ensures { IfOk result (IsVerdict messages.now) }
{
    match sets_at_pins(
        alloc,
        messages,
        Sets::Open(None),
        known,
        stuck.place,
        watcher,
    )? {
        Sets::Stuck(first) => Ok(Verdict::RuledOut(first)),
        Sets::Open(_) => Ok(Verdict::RuledOut(stuck)),
    }
}

/// What closed sets say between the links' ends and at home; else what a search for a run comes to, which may have been
/// begun.
fn sets_first<W: Watcher>(
    alloc: Global,
    messages: &Messages,
    first: Option<Verdict>,
    known: usize,
    watcher: &mut W,
) -> Result<Verdict, AllocError>
    requires first { IfSome first (IsFound (with_lines messages.now messages.now.seen)) }
    requires pins { MayAtPins messages.now messages.now.seen }
    ensures { IfOk result (IsVerdict messages.now) }
{
    match sets_between(alloc, messages, known, messages.seen().len(), watcher)? {
        Sets::Stuck(stuck) => stuck_first(alloc, messages, stuck, known, watcher),
        Sets::Open(reason) => {
            let first = match first {
                Some(first) => first,
                None => found_first(alloc, messages)?,
            };
            sought(
                alloc,
                messages,
                first,
                known,
                Some(Sets::Open(reason)),
                watcher,
            )
        }
    }
}

/// What is said of what may be seen at the pins of its clients. Closed sets take longer than the first search for a
/// run, so it comes first. Where all was watched in order of time a set between the links' ends or at home is small:
/// there these sets come before the search in rounds, and in a long record before any search.
fn weighed<W: Watcher>(
    alloc: Global,
    messages: &Messages,
    watcher: &mut W,
) -> Result<Verdict, AllocError>
    requires { MayAtPins messages.now messages.now.seen }
    ensures { IfOk result (IsVerdict messages.now) }
{
    if let Some(run) = explained_with_drops(alloc, messages)? {
        return Ok(Verdict::Explained(run));
    }
    let is_in_order = is_all_in_order(messages.setting().premises());
    if is_in_order && messages.seen().len() > MOST_SEEN {
        return sets_first(alloc, messages, None, 0, watcher);
    }
    let first = found_first(alloc, messages)?;
    if let Verdict::Explained(_) = &first {
        return Ok(first);
    }
    let known = known_place(alloc, messages, &first)?;
    if is_in_order {
        sets_first(alloc, messages, Some(first), known, watcher)
    } else {
        sought(alloc, messages, first, known, None, watcher)
    }
}

/// That a line may not be seen at its client's pins; or that each run of a block is stuck at an earlier one. Closed
/// sets are made only where the first search does not explain the lines before it.
fn wrong_first<W: Watcher>(
    alloc: Global,
    messages: &Messages,
    wrong: Wrong,
    watcher: &mut W,
) -> Result<Verdict, AllocError>
    requires { IsFirstOf messages.now messages.now.setting.shape.clients (Some wrong) }
    ensures { IfOk result (IsVerdict messages.now) }
{
    if !has_sets(messages.setting().premises(), messages.seen().len()) {
        return Ok(Verdict::Impossible(wrong));
    }
    let before = explained_before(alloc, messages, wrong.place)?;
    if let Verdict::Explained(_) = &before {
        return Ok(Verdict::Impossible(wrong));
    }
    let known = known_place(alloc, messages, &before)?;
    match all_sets(alloc, messages, known, wrong.place, watcher)? {
        Sets::Stuck(stuck) => Ok(Verdict::RuledOut(stuck)),
        Sets::Open(_) => Ok(Verdict::Impossible(wrong)),
    }
}

/// What is said of what was seen, whatever the header expects of it.
fn lawful<W: Watcher>(
    alloc: Global,
    messages: &Messages,
    watcher: &mut W,
) -> Result<Verdict, AllocError>
    ensures { IfOk result (IsVerdict messages.now) }
{
    match wrong_at_pins(alloc, messages)? {
        Some(wrong) => wrong_first(alloc, messages, wrong, watcher),
        None => weighed(alloc, messages, watcher),
    }
}

/// A verdict, unless the record is not impossible, and not as the header expects.
fn expected(alloc: Global, messages: &Messages, verdict: Verdict) -> Result<Verdict, AllocError>
    requires { IsVerdict messages.now verdict }
    ensures { IfOk result (IsJudged messages.now) }
{
    match verdict {
        Verdict::Impossible(_) | Verdict::RuledOut(_) | Verdict::Unmet(_) => Ok(verdict),
        Verdict::Explained(_) | Verdict::NotDecided(_, _, _) | Verdict::OtherOrder(_, _) => {
            match unmet_of(alloc, messages)? {
                Some(unmet) => Ok(Verdict::Unmet(unmet)),
                None => Ok(verdict),
            }
        }
    }
}

/// What is said of what was seen: where it is impossible, by the earliest line that is found; else, where an exchange
/// is not as the header expects, by that one. A watcher is told how far closed sets are. Err is a refused request for
/// memory.
pub(crate) fn judge<W: Watcher>(
    alloc: Global,
    messages: &Messages,
    watcher: &mut W,
) -> Result<Verdict, AllocError>
    ensures { IfOk result (IsJudged messages.now) }
{
    let verdict = lawful(alloc, messages, watcher)?;
    expected(alloc, messages, verdict)
}
