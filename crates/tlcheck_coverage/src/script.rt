//! Moves as a script for `tlcache trace`: one bank, and one block, which has number 0.

use std::alloc::{AllocError, Global};
use std::fmt::Write;
use tl_types::{BankNo, Channel, ClientId, Ticket};
use tlcheck_home::Move;
use tlcheck_situations::{Action, Situation};

/// How many messages of a client's channel were taken: the first that waits there has that serial.
#[derive(Clone, Copy)]
struct Taken {
    client: ClientId,
    channel: Channel,
    count: u64,
}

/// How many messages of each channel were taken; nothing stands here of one of which none was.
#[derive(Drop)]
struct Serials {
    taken: Vec<Taken>,
}

impl Serials {
    fn new(alloc: Global) -> Serials {
        Serials {
            taken: Vec::new(alloc),
        }
    }

    /// The ticket of a channel's first message, which is taken.
    fn take(&mut self, client: ClientId, channel: Channel) -> Result<Ticket, AllocError> {
        let mut serial: u64 = 0;
        for taken in self.taken.iter_mut() {
            if taken.client == client && taken.channel == channel {
                serial = taken.count;
                taken.count = serial.saturating_add(1);
            }
        }
        if serial == 0 {
            self.taken.push(Taken {
                client,
                channel,
                count: 1,
            })?;
        }
        Ok(Ticket {
            bank: BankNo::new(0),
            client,
            channel,
            serial,
        })
    }
}

/// The step that takes the message that waits first on a client's channel.
fn push_take(
    text: &mut String,
    serials: &mut Serials,
    word: &str,
    c: ClientId,
    channel: Channel,
) -> Result<(), AllocError> {
    let ticket = serials.take(c, channel)?;
    write!(text, "{word} {ticket}")
}

/// The step of an action.
fn push_act(
    text: &mut String,
    serials: &mut Serials,
    c: ClientId,
    action: Action,
) -> Result<(), AllocError> {
    match action {
        Action::Load => write!(text, "load {c} 0x00000000 1"),
        Action::Store => write!(text, "store {c} 0x00000000 00"),
        Action::Acquire(grow) => write!(text, "acquire {c} 0 {grow}"),
        Action::Release(prune) => write!(text, "release {c} 0 {prune}"),
        Action::AnswerProbe => push_take(text, serials, "answer_probe", c, Channel::B),
        Action::TakeGrant => push_take(text, serials, "take_grant", c, Channel::D),
        Action::TakeReleaseAck => push_take(text, serials, "take_release_ack", c, Channel::D),
        Action::Accept => push_take(text, serials, "accept", c, Channel::A),
        Action::TakeC => push_take(text, serials, "take_c", c, Channel::C),
        Action::TakeGrantAck => push_take(text, serials, "take_grant_ack", c, Channel::E),
        Action::Probe(_) | Action::Grant | Action::Get | Action::Drop | Action::Put => {
            text.push_str("advance 0")
        }
        Action::Serve => text.push_str("serve_memory 0"),
        Action::TakeData | Action::TakePutAck => text.push_str("take_memory 0"),
    }
}

/// The step of a move.
fn push_step(text: &mut String, serials: &mut Serials, next: Move) -> Result<(), AllocError> {
    match next {
        Move::Act(c, action) => push_act(text, serials, c, action),
        Move::Evict => text.push_str("evict 0"),
    }
}

/// The numbers of the script's cache: as small as it may be.
fn push_numbers(text: &mut String, clients: u32) -> Result<(), AllocError> {
    writeln!(
        text,
        "version = 1\nclients = {clients}\nbanks = 1\nblock_bytes = 8"
    )?;
    text.push_str("sets = 1\nways = 1\nregisters = 1\ncopies = 1\nmemory_blocks = 1\nturns = 1\n")
}

/// A script of some moves: the situation and its number as a comment, the cache, a step for each move. The error is
/// want of memory.
pub fn push_script(
    alloc: Global,
    text: &mut String,
    clients: u32,
    place: u32,
    situation: &Situation,
    moves: &[Move],
) -> Result<(), AllocError> {
    writeln!(text, "# {clients}.{place} {situation}")?;
    push_numbers(text, clients)?;
    text.push_str("steps = [\n")?;
    let mut serials = Serials::new(alloc);
    for next in moves {
        text.push_str("  \"")?;
        push_step(text, &mut serials, *next)?;
        text.push_str("\",\n")?;
    }
    text.push_str("]\n")
}
