//! The links, where a message is known to fit or to wait.
ghost use Rattle.std.specs.Prelude.{◌≡◌, ◌∷◌, ℕ, List, if◌then◌else◌};
ghost use Rattle.tl_types.specs.Lane.{sent, is_here, with_message, without_first};
ghost use Rattle.tl_types.specs.declared.channel.Channel.{Channel};
ghost use Rattle.tl_types.specs.declared.message.Message.{Message};
ghost use Rattle.tl_links.specs.Table.{lane_in, SameSize};
ghost use Rattle.tl_bank_laws.specs.Link.{HasRoom, IsHead};

use tl_links::Links;
use tl_types::{Channel, ClientId, Message, Ticket};

/// Sends a message on a channel that has room for it.
pub(crate) fn send(
    links: &mut Links,
    client: ClientId,
    channel: Channel,
    message: Message,
) -> Ticket
    requires { HasRoom links.old client channel }
    ensures ticket { result
        ≡ record { bank = links.old.bank; client = client; channel = channel; serial = sent (lane_in links.old client channel) } }
    ensures same { SameSize links.old links.new }
    ensures after { (x : ℕ) (k : Channel)
        → lane_in links.new x k
        ≡ (if is_here client channel x k then with_message (lane_in links.old x k) message else lane_in links.old x k) }
{
    links.send_reserved(client, channel, message)
}

/// Takes the message that a ticket names, which is the first that waits on its channel.
pub(crate) fn take(links: &mut Links, ticket: Ticket) -> Message
    requires { IsHead links.old ticket }
    ensures message { (rest : List Message)
        × ((lane_in links.old ticket.client ticket.channel).messages ≡ result ∷ rest) }
    ensures same { SameSize links.old links.new }
    ensures after { (x : ℕ) (k : Channel)
        → lane_in links.new x k
        ≡ (if is_here ticket.client ticket.channel x k
        then without_first (lane_in links.old x k)
        else lane_in links.old x k) }
{
    let Ok(message) = links.take(ticket) else {
        unreachable!()
    };
    message
}

/// Takes that message, and lets it go.
pub(crate) fn discard(links: &mut Links, ticket: Ticket)
    requires { IsHead links.old ticket }
    ensures same { SameSize links.old links.new }
    ensures after { (x : ℕ) (k : Channel)
        → lane_in links.new x k
        ≡ (if is_here ticket.client ticket.channel x k
        then without_first (lane_in links.old x k)
        else lane_in links.old x k) }
{
    let Ok(_message) = links.take(ticket) else {
        unreachable!()
    };
}
