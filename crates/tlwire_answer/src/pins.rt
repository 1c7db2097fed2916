//! The first line that may not be seen at the pins of a client.
ghost use Rattle.std.specs.Bool.{OnFalse};
ghost use Rattle.std.specs.Prelude.{◌≡◌, ◌≤◌, ◌+◌, ℕ, IfOk, IsTrue};
ghost use Rattle.tlwire_answer.specs.Answer.{IsFirstOf, IsWrongAt};
ghost use Rattle.tlwire_record.specs.Messages.{MessagesState};

use crate::named::is_told;
use std::alloc::{AllocError, Global};
use tl_types::ClientId;
use tlwire_pins::{Wrong, first_wrong, tap_of};
use tlwire_record::Messages;

/// The first line that may not be seen at the pins of a client, where it is told there.
fn wrong_at(
    alloc: Global,
    messages: &Messages,
    client: ClientId,
) -> Result<Option<Wrong>, AllocError>
    ensures { IfOk result (IsWrongAt messages.now client) }
{
    let setting = messages.setting();
    let premises = setting.premises();
    if !is_told(premises, client) {
        return Ok(None);
    }
    let shape = setting.shape();
    let tap = tap_of(premises, client);
    first_wrong(alloc, shape, client, tap, messages.seen())
}

/// Whether the line of the one stands no later than that of the other.
fn is_before(one: &Wrong, other: &Wrong) -> bool
    ensures yes { IsTrue result → one.now.place ≤ other.now.place }
    ensures no { OnFalse result (other.now.place ≤ one.now.place) }
{
    one.place <= other.place
}

/// Of the first line that is wrong at the pins of some clients, and the one at those of the next client, the earlier.
fn sooner(one: Option<Wrong>, other: Option<Wrong>) -> Option<Wrong>
    ensures { (m : MessagesState) (clients : ℕ)
        → IsFirstOf m clients one → IsWrongAt m clients other → IsFirstOf m (clients + 1) result }
{
    match one {
        None => other,
        Some(one) => match other {
            None => Some(one),
            Some(other) => {
                if is_before(&one, &other) {
                    Some(one)
                } else {
                    Some(other)
                }
            }
        },
    }
}

/// The first line that may not be seen at the pins of a client, of all that are told there.
pub(crate) fn wrong_at_pins(alloc: Global, messages: &Messages) -> Result<Option<Wrong>, AllocError>
    ensures { IfOk result (IsFirstOf messages.now messages.now.setting.shape.clients) }
{
    let mut first = None;
    for number in 0..messages.setting().shape().clients {
        let found = wrong_at(alloc, messages, ClientId::new(number))?;
        first = sooner(first, found);
    }
    Ok(first)
}
