//! Any step or command: its words at random, whether a bank would accept it or not.
use crate::dice::Dice;
use crate::spots::Spots;
use std::alloc::AllocError;
use tl_script_words::{push_address, push_hex};
use tl_types::{BlockNo, Channel, ClientId, Ticket};

const GROWS: [&str; 3] = ["NtoB", "NtoT", "BtoT"];

const PRUNES: [&str; 3] = ["TtoB", "TtoN", "BtoN"];

/// What home and the memory do with a block: seldom the first.
const WORK: [&str; 12] = [
    "evict",
    "serve_memory",
    "take_memory",
    "serve_memory",
    "take_memory",
    "serve_memory",
    "take_memory",
    "advance",
    "advance",
    "advance",
    "advance",
    "advance",
];

/// Any step of a client, of home or of the memory; those that take a message take one of `sent`.
pub(crate) fn push_step(
    text: &mut String,
    dice: &mut Dice,
    spots: &Spots,
    sent: &[Ticket],
) -> Result<(), AllocError> {
    let client = spots.client(dice);
    let block = spots.block(dice);
    match dice.below(16) {
        0 | 1 => push_access(text, dice, spots, Some(client)),
        2..=4 => push_change(text, "acquire", client, block, dice.pick(&GROWS)),
        5 => push_change(text, "release", client, block, dice.pick(&PRUNES)),
        6..=10 => push_taking(text, dice, sent),
        _ => write!(text, "{} {block}", dice.pick(&WORK)),
    }
}

/// A step in which a client asks for a copy, or gives one up.
fn push_change(
    text: &mut String,
    word: &str,
    client: ClientId,
    block: BlockNo,
    change: &str,
) -> Result<(), AllocError> {
    write!(text, "{word} {client} {block} {change}")
}

/// The step that takes one of the messages that were sent, now and then the one behind it; no words where none was
/// sent.
fn push_taking(text: &mut String, dice: &mut Dice, sent: &[Ticket]) -> Result<(), AllocError> {
    let count = u32::try_from(sent.len()).unwrap_or(0);
    if let Some(ticket) = sent.get(dice.below(count) as usize) {
        let mut ticket = *ticket;
        if dice.below(32) == 0 {
            ticket.serial = ticket.serial.wrapping_add(1);
        }
        write!(text, "{} {ticket}", taking(dice, ticket.channel))?;
    }
    Ok(())
}

/// The call that takes a message of a channel: on D, that of a Grant or of a ReleaseAck.
fn taking(dice: &mut Dice, channel: Channel) -> &'static str {
    match channel {
        Channel::A => "accept",
        Channel::B => "answer_probe",
        Channel::C => "take_c",
        Channel::D => dice.pick(&["take_grant", "take_release_ack"]),
        Channel::E => "take_grant_ack",
    }
}

/// A load or a store of a client; in a command it is not named.
pub(crate) fn push_access(
    text: &mut String,
    dice: &mut Dice,
    spots: &Spots,
    client: Option<ClientId>,
) -> Result<(), AllocError> {
    let loads = dice.below(2) == 0;
    let len = 1 + dice.below(8);
    text.push_str(if loads { "load " } else { "store " })?;
    if let Some(client) = client {
        write!(text, "{client} ")?;
    }
    push_address(text, spots.address(dice, len))?;
    text.push_str(" ")?;
    if loads {
        write!(text, "{len}")
    } else {
        push_bytes(text, dice, len)
    }
}

/// So many bytes.
pub(crate) fn push_bytes(text: &mut String, dice: &mut Dice, count: u32) -> Result<(), AllocError> {
    for _ in 0..count {
        push_hex(text, &[dice.byte()])?;
    }
    Ok(())
}
