//! Whether a run has the orders of lines that a header asks for.
ghost use Rattle.std.specs.Prelude.{ℕ, IfOk, IsNone, IsTrue};
ghost use Rattle.std.specs.Bool.{OnFalse};
ghost use Rattle.tl_protocol.specs.Runs.{IsRun};
ghost use Rattle.tlwire_answer.specs.Answer.{ClientKeepsOrder, EachKeepsOrder, IsInOrder, Meets, NobodyIsTold, with_lines};
ghost use Rattle.tlwire_search.specs.declared.way.Way.{Way};
ghost use Rattle.tlwire_search.specs.declared.way.Way.TheVariants.{AtClient};

use crate::named::{is_told, names, premise_of};
use std::alloc::{AllocError, Global};
use tl_rules::Event;
use tl_types::ClientId;
use tlwire_closed::is_seen_so;
use tlwire_pins::{cores_of, keeps_order, lines_at_pins};
use tlwire_record::Messages;
use tlwire_search::{Seen, Way};

/// An order of lines that the header asks for, and a run does not have.
#[derive(Clone, Copy, PartialEq, Eq)]
pub enum Order {
    /// That of the lines of a client at its pins.
    AtPins,
    /// That of messages seen between sending and taking.
    Between,
    /// That of messages seen at home's pins.
    AtHome,
    /// That of messages seen at the pins of all clients.
    AtClients,
}

/// Whether the lines of some client are told at the client's pins.
fn is_any_told(messages: &Messages) -> bool
    ensures { OnFalse result (NobodyIsTold messages.now) }
{
    for number in 0..messages.setting().shape().clients {
        if is_told(messages.setting().premises(), ClientId::new(number)) {
            return true;
        }
    }
    false
}

/// Whether lines at the pins of clients keep the order of those seen, of a client that is told there.
fn keeps(
    alloc: Global,
    messages: &Messages,
    seen: &[Seen],
    client: ClientId,
    lines: &[Seen],
) -> Result<bool, AllocError>
    ensures { IfOk result (λ yes. IsTrue yes → ClientKeepsOrder (with_lines messages.now seen.now) lines.now client) }
{
    let setting = messages.setting();
    let premises = setting.premises();
    if !is_told(premises, client) {
        return Ok(true);
    }
    let shape = setting.shape();
    let cores = cores_of(premises, client);
    keeps_order(alloc, shape, cores, client, lines, seen)
}

/// Whether lines at the pins of clients keep the order of those seen, of each client that is told there.
fn keep_order(
    alloc: Global,
    messages: &Messages,
    seen: &[Seen],
    lines: &[Seen],
) -> Result<bool, AllocError>
    ensures { IfOk result (λ yes. IsTrue yes → EachKeepsOrder (with_lines messages.now seen.now) lines.now) }
{
    for number in 0..messages.setting().shape().clients {
        if !keeps(alloc, messages, seen, ClientId::new(number), lines)? {
            return Ok(false);
        }
    }
    Ok(true)
}

/// Whether a run has the lines at the pins of clients in the order of those seen.
fn is_in_order(
    alloc: Global,
    messages: &Messages,
    seen: &[Seen],
    run: &[Event],
) -> Result<bool, AllocError>
    ensures { IfOk result (λ yes. IsTrue yes → IsInOrder (with_lines messages.now seen.now) run.now) }
{
    if !is_any_told(messages) {
        return Ok(true);
    }
    let shape = messages.setting().shape();
    match lines_at_pins(alloc, shape, messages.image(), run)? {
        Some(lines) => keep_order(alloc, messages, seen, &lines),
        None => Ok(false),
    }
}

/// Whether a run is seen so, where a header names the way of seeing.
fn meets(
    alloc: Global,
    messages: &Messages,
    seen: &[Seen],
    run: &[Event],
    way: Way,
) -> Result<bool, AllocError>
    ensures { IfOk result
        (λ yes. IsTrue yes → IsRun messages.now.setting.shape messages.now.image run.now
        → Meets (with_lines messages.now seen.now) run.now way) }
{
    let setting = messages.setting();
    if !names(setting.premises(), way) {
        return Ok(true);
    }
    let shape = setting.shape();
    let premise = premise_of(setting.premises(), way);
    is_seen_so(alloc, shape, premise, messages.image(), seen, run)
}

/// Whether a run is seen so at the pins of each client that lines of the header name.
fn meets_at_clients(
    alloc: Global,
    messages: &Messages,
    seen: &[Seen],
    run: &[Event],
) -> Result<bool, AllocError>
    ensures { IfOk result
        (λ yes. IsTrue yes → IsRun messages.now.setting.shape messages.now.image run.now
        → (client : ℕ) → Meets (with_lines messages.now seen.now) run.now (AtClient client)) }
{
    let named = messages.setting().premises().pins.named();
    for client in named {
        if !meets(alloc, messages, seen, run, Way::AtClient(client.number()))? {
            return Ok(false);
        }
    }
    Ok(true)
}

/// An order that the header asks for of the lines seen, and a run does not have.
pub(crate) fn other_order(
    alloc: Global,
    messages: &Messages,
    seen: &[Seen],
    run: &[Event],
) -> Result<Option<Order>, AllocError>
    ensures { IfOk result (λ found. IsNone found → IsRun messages.now.setting.shape messages.now.image run.now
        → IsInOrder (with_lines messages.now seen.now) run.now × ((way : Way) → Meets (with_lines messages.now seen.now) run.now way)) }
{
    if !is_in_order(alloc, messages, seen, run)? {
        return Ok(Some(Order::AtPins));
    }
    if !meets(alloc, messages, seen, run, Way::Between)? {
        return Ok(Some(Order::Between));
    }
    if !meets(alloc, messages, seen, run, Way::AtHome)? {
        return Ok(Some(Order::AtHome));
    }
    if !meets(alloc, messages, seen, run, Way::AtClients)? {
        return Ok(Some(Order::AtClients));
    }
    if !meets_at_clients(alloc, messages, seen, run)? {
        return Ok(Some(Order::AtPins));
    }
    Ok(None)
}
