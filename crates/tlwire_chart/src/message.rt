//! What was seen, as it is drawn.
ghost use Rattle.std.specs.Option.{option_map};
ghost use Rattle.std.specs.Prelude.{◌≡◌, Some, false};
ghost use Rattle.tlchart_draw.specs.Strip.{is_broken};
ghost use Rattle.tlwire_chart.specs.Rows.{mark_of, message_drawn, message_in, message_of};

use tl_types::{BankNo, BlockBytes, BlockNo, Channel, ClientId, Kind, Ticket};
use tlchart_model::{Lifeline, Mark, Place, ShownMessage};
use tlcheck_rules::Shown;
use tlwire_search::Seen;

/// The one home of a record.
fn home() -> Lifeline {
    Lifeline::Home(BankNo::new(0))
}

/// Who sends on a channel of a client's link, and who takes.
fn ends(client: ClientId, channel: Channel) -> (Lifeline, Lifeline) {
    match channel {
        Channel::A | Channel::C | Channel::E => (Lifeline::Client(client), home()),
        Channel::B | Channel::D => (home(), Lifeline::Client(client)),
    }
}

/// Whether home sends a kind to the memory; else the memory answers by it.
fn is_to_memory(kind: Kind) -> bool {
    matches!(kind, Kind::Get | Kind::PutFullData)
}

/// The same bytes again, where there are some.
fn copied_bytes(bytes: &Option<BlockBytes>) -> Option<BlockBytes>
    ensures { result ≡ bytes.now }
{
    match bytes {
        Some(bytes) => Some(bytes.copied()),
        None => None,
    }
}

/// The place of the message with a serial on a channel of a client's link.
fn place_on(client: ClientId, channel: Channel, serial: u64) -> Place {
    Place::Link(Ticket {
        bank: BankNo::new(0),
        client,
        channel,
        serial,
    })
}

/// A message on a client's link.
fn on_link(client: ClientId, serial: u64, block: BlockNo, shown: &Shown) -> ShownMessage
    ensures { message_drawn result ≡ message_in block shown.now }
{
    let channel = shown.kind.channel();
    let (from, to) = ends(client, channel);
    ShownMessage {
        place: place_on(client, channel, serial),
        from,
        to,
        block,
        kind: shown.kind,
        bytes: copied_bytes(&shown.bytes),
    }
}

/// A message between home and the memory.
fn on_memory(block: BlockNo, shown: &Shown) -> ShownMessage
    ensures { message_drawn result ≡ message_in block shown.now }
{
    let (place, from, to) = if is_to_memory(shown.kind) {
        (Place::ToMemory(block), home(), Lifeline::Memory)
    } else {
        (Place::FromMemory(block), Lifeline::Memory, home())
    };
    ShownMessage {
        place,
        from,
        to,
        block,
        kind: shown.kind,
        bytes: copied_bytes(&shown.bytes),
    }
}

/// The message that was seen, which a serial tells from others of its channel; None of a load or a store.
pub(crate) fn message_of(seen: &Seen, serial: u64) -> Option<ShownMessage>
    ensures { option_map message_drawn result ≡ message_of seen.now }
{
    match seen {
        Seen::OnLink(client, block, shown) => Some(on_link(*client, serial, *block, shown)),
        Seen::OnMemory(block, shown) => Some(on_memory(*block, shown)),
        Seen::Load(_, _, _) | Seen::Store(_, _, _) => None,
    }
}

/// The mark of a load or a store; None of a message.
pub(crate) fn mark_of(seen: &Seen) -> Option<Mark>
    ensures mark { result ≡ mark_of seen.now }
    ensures unbroken { is_broken result ≡ false }
{
    match seen {
        Seen::Load(_, _, bytes) => Some(Mark::Loaded(bytes.copied())),
        Seen::Store(_, _, bytes) => Some(Mark::Stored(bytes.copied())),
        Seen::OnLink(_, _, _) | Seen::OnMemory(_, _) => None,
    }
}

/// Who sent a message, or made a load or a store.
pub(crate) fn sender_of(seen: &Seen) -> Lifeline {
    match seen {
        Seen::OnLink(client, _, shown) => ends(*client, shown.kind.channel()).0,
        Seen::OnMemory(_, shown) => {
            if is_to_memory(shown.kind) {
                home()
            } else {
                Lifeline::Memory
            }
        }
        Seen::Load(client, _, _) | Seen::Store(client, _, _) => Lifeline::Client(*client),
    }
}
