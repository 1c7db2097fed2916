//! What closed sets say of what was seen.
ghost use Rattle.std.specs.Prelude.{◌≡◌, ◌≤◌, ℕ, false, IfOk, length};
ghost use Rattle.tlwire_answer.specs.Answer.{IsSets};
ghost use Rattle.tlwire_answer.specs.Named.{Says};
ghost use Rattle.tlwire_record.specs.Messages.{MessagesState};
ghost use Rattle.tlwire_search.specs.Premises.{has_drops};

use crate::named::{MOST_UNTIMED, is_untimed, names, premise_of, untimed};
use std::alloc::{AllocError, Global};
use tl_streams::Watcher;
use tlwire_closed::{Answer, Premise, Reason, Stuck, rule_out};
use tlwire_record::Messages;
use tlwire_search::Way;

/// What closed sets say of what was seen.
#[derive(Drop)]
pub(crate) enum Sets {
    /// No lawful run is seen so: each run of a block is stuck.
    Stuck(Stuck),
    /// None says so, for this reason, where one was sought.
    Open(Option<Reason>),
}

/// Of the reasons of two ways the one that a larger set could still undo.
fn both(one: Option<Reason>, other: Option<Reason>) -> Option<Reason> {
    match (one, other) {
        (None, reason) | (reason, None) => reason,
        (Some(Reason::NoContradiction), reason) => reason,
        (Some(Reason::TooManyStates), _) => Some(Reason::TooManyStates),
    }
}

/// Up to which place lines are still asked.
fn asked_to(sets: &Sets, to: usize) -> usize
    ensures { (m : MessagesState) → IsSets m to sets.now → result ≤ to }
{
    match sets {
        Sets::Stuck(stuck) => stuck.place,
        Sets::Open(_) => to,
    }
}

/// What one way says, beside another one that says nothing for this reason.
fn with_reason(sets: Sets, reason: Option<Reason>) -> Sets
    ensures { (m : MessagesState) (to : ℕ) → IsSets m to sets → IsSets m to result }
{
    match sets {
        Sets::Stuck(stuck) => Sets::Stuck(stuck),
        Sets::Open(other) => Sets::Open(both(other, reason)),
    }
}

/// What two ways say, of which the second was asked up to the line that the first names.
fn joined(one: Sets, other: Sets) -> Sets
    ensures { (m : MessagesState) (to : ℕ) → IsSets m to one → IsSets m to other → IsSets m to result }
{
    match other {
        Sets::Stuck(stuck) => Sets::Stuck(stuck),
        Sets::Open(reason) => with_reason(one, reason),
    }
}

/// What closed sets say of the lines before a place, under a premise that the header says. Before the place `known` none
/// is stuck, as far as is known.
fn sets_under<W: Watcher>(
    alloc: Global,
    messages: &Messages,
    premise: Premise,
    known: usize,
    to: usize,
    watcher: &mut W,
) -> Result<Sets, AllocError>
    requires drops { has_drops messages.now.setting.premises ≡ false }
    requires said { Says messages.now.setting.premises (length messages.now.seen) premise }
    ensures { IfOk result (IsSets messages.now to) }
{
    let setting = messages.setting();
    match rule_out(
        alloc,
        setting.shape(),
        premise,
        messages.image(),
        messages.seen(),
        known,
        to,
        watcher,
    )? {
        Answer::Impossible(stuck) => Ok(Sets::Stuck(stuck)),
        Answer::NotDecided(reason) => Ok(Sets::Open(Some(reason))),
    }
}

/// What they say in a way of seeing, where the header names it; nothing where clients drop clean copies, since the sets
/// have no such step.
fn sets_by<W: Watcher>(
    alloc: Global,
    messages: &Messages,
    way: Way,
    known: usize,
    to: usize,
    watcher: &mut W,
) -> Result<Sets, AllocError>
    ensures { IfOk result (IsSets messages.now to) }
{
    let setting = messages.setting();
    let premises = setting.premises();
    if premises.has_drops() || !names(premises, way) {
        return Ok(Sets::Open(None));
    }
    let premise = premise_of(premises, way);
    sets_under(alloc, messages, premise, known, to, watcher)
}

/// What they say where the header does not say when messages were seen.
fn sets_untimed<W: Watcher>(
    alloc: Global,
    messages: &Messages,
    known: usize,
    to: usize,
    watcher: &mut W,
) -> Result<Sets, AllocError>
    ensures { IfOk result (IsSets messages.now to) }
{
    let setting = messages.setting();
    let premises = setting.premises();
    let lines = messages.seen().len();
    if premises.has_drops() || !is_untimed(premises) || lines > MOST_UNTIMED {
        return Ok(Sets::Open(None));
    }
    let premise = untimed(premises, lines);
    sets_under(alloc, messages, premise, known, to, watcher)
}

/// What they say beside what others said.
fn sets_beside<W: Watcher>(
    alloc: Global,
    messages: &Messages,
    sets: Sets,
    way: Way,
    known: usize,
    to: usize,
    watcher: &mut W,
) -> Result<Sets, AllocError>
    requires { IsSets messages.now to sets }
    ensures { IfOk result (IsSets messages.now to) }
{
    let other = sets_by(alloc, messages, way, known, asked_to(&sets, to), watcher)?;
    Ok(joined(sets, other))
}

/// What they say in the ways of seeing that are told between the links' ends or at home: the earliest line before a
/// place.
pub(crate) fn sets_between<W: Watcher>(
    alloc: Global,
    messages: &Messages,
    known: usize,
    to: usize,
    watcher: &mut W,
) -> Result<Sets, AllocError>
    ensures { IfOk result (IsSets messages.now to) }
{
    let sets = sets_by(alloc, messages, Way::Between, known, to, watcher)?;
    sets_beside(alloc, messages, sets, Way::AtHome, known, to, watcher)
}

/// What they say beside these in the ways of seeing that are told at clients' pins.
fn sets_at_clients<W: Watcher>(
    alloc: Global,
    messages: &Messages,
    sets: Sets,
    known: usize,
    to: usize,
    watcher: &mut W,
) -> Result<Sets, AllocError>
    requires { IsSets messages.now to sets }
    ensures { IfOk result (IsSets messages.now to) }
{
    let mut all = sets_beside(alloc, messages, sets, Way::AtClients, known, to, watcher)?;
    for client in messages.setting().premises().pins.named() {
        let way = Way::AtClient(client.number());
        all = sets_beside(alloc, messages, all, way, known, to, watcher)?;
    }
    Ok(all)
}

/// The same, and what they say where the header does not say when messages were seen.
pub(crate) fn sets_at_pins<W: Watcher>(
    alloc: Global,
    messages: &Messages,
    sets: Sets,
    known: usize,
    to: usize,
    watcher: &mut W,
) -> Result<Sets, AllocError>
    requires { IsSets messages.now to sets }
    ensures { IfOk result (IsSets messages.now to) }
{
    let sets = sets_at_clients(alloc, messages, sets, known, to, watcher)?;
    let other = sets_untimed(alloc, messages, known, asked_to(&sets, to), watcher)?;
    Ok(joined(sets, other))
}

/// What they say in each way of seeing.
pub(crate) fn all_sets<W: Watcher>(
    alloc: Global,
    messages: &Messages,
    known: usize,
    to: usize,
    watcher: &mut W,
) -> Result<Sets, AllocError>
    ensures { IfOk result (IsSets messages.now to) }
{
    let sets = sets_between(alloc, messages, known, to, watcher)?;
    sets_at_pins(alloc, messages, sets, known, to, watcher)
}
