//! The words beside arrows, marks and rows.

use crate::ink::Ink;
use std::fmt::Write;
use tl_script_words::{Address, BlockCall, Hex, Step, TicketCall};
use tl_types::AccessBytes;
use tlchart_model::{Lifeline, Mark, ShownMessage};

/// How many bytes of a block are shown.
const SHOWN: usize = 4;

/// The first bytes of a block, and dots where there are more.
fn push_data(ink: &mut Ink, bytes: &[u8]) {
    if bytes.len() > SHOWN {
        let _ = write!(ink, " {}…", Hex(&bytes[..SHOWN]));
    } else {
        let _ = write!(ink, " {}", Hex(bytes));
    }
}

/// What a message is, its block, and its data.
pub(crate) fn push_message(ink: &mut Ink, message: &ShownMessage) {
    let _ = write!(ink, "{} b{}", message.kind, message.block);
    match &message.bytes {
        Some(bytes) => push_data(ink, bytes.as_slice()),
        None => {}
    }
}

/// The name of a lifeline.
pub fn push_lifeline(ink: &mut Ink, lifeline: Lifeline) {
    match lifeline {
        Lifeline::Client(client) => {
            let _ = write!(ink, "client {client}");
        }
        Lifeline::Home(bank) => {
            let _ = write!(ink, "home {bank}");
        }
        Lifeline::Memory => {
            let _ = write!(ink, "memory");
        }
    }
}

fn push_access(ink: &mut Ink, word: &str, bytes: &AccessBytes) {
    let _ = write!(ink, "{word} {}", Hex(bytes.as_slice()));
}

/// The name of a refusal by its number; none where no refusal has it.
pub fn refusal_name(number: u8) -> &'static str {
    match number {
        1 => "NoPermission",
        2 => "Waiting",
        3 => "WrongFrom",
        4 => "NothingThere",
        5 => "NotHead",
        6 => "ReleasePending",
        7 => "NoRegister",
        8 => "BlockBusy",
        9 => "NotYet",
        10 => "OutOfRange",
        11 => "WrongBank",
        12 => "CopiesFull",
        13 => "LinkFull",
        14 => "Memory",
        15 => "ClockFull",
        _ => "",
    }
}

/// The words of a mark.
pub fn push_mark(ink: &mut Ink, mark: &Mark) {
    match mark {
        Mark::Loaded(bytes) => push_access(ink, "load", bytes),
        Mark::Stored(bytes) => push_access(ink, "store", bytes),
        Mark::Dropped => ink.put("drop"),
        Mark::Evicting(block) => {
            let _ = write!(ink, "evict b{block}");
        },
        Mark::Refused(number) => {
            let _ = write!(ink, "refused {number} {}", refusal_name(*number));
        },
        Mark::Unlawful => ink.put("not lawful"),
        Mark::Broken(words) => ink.put(words.as_str()),
    }
}

/// The verb of a call that takes a ticket.
fn ticket_verb(call: TicketCall) -> &'static str {
    match call {
        TicketCall::AnswerProbe => "answer_probe",
        TicketCall::TakeGrant => "take_grant",
        TicketCall::TakeReleaseAck => "take_release_ack",
        TicketCall::Accept => "accept",
        TicketCall::TakeC => "take_c",
        TicketCall::TakeGrantAck => "take_grant_ack",
    }
}

/// The verb of a call that takes a block.
fn block_verb(call: BlockCall) -> &'static str {
    match call {
        BlockCall::Advance => "advance",
        BlockCall::Evict => "evict",
        BlockCall::ServeMemory => "serve_memory",
        BlockCall::TakeMemory => "take_memory",
    }
}

/// A step, in the words of a script.
pub fn push_step(ink: &mut Ink, step: &Step) {
    match step {
        Step::Load {
            client,
            address,
            len,
        } => {
            let _ = write!(ink, "load {client} {} {len}", Address(*address));
        }
        Step::Store {
            client,
            address,
            bytes,
        } => {
            let _ = write!(
                ink,
                "store {client} {} {}",
                Address(*address),
                Hex(bytes.as_slice())
            );
        }
        Step::Acquire {
            client,
            block,
            grow,
        } => {
            let _ = write!(ink, "acquire {client} {block} {grow}");
        }
        Step::Release {
            client,
            block,
            prune,
        } => {
            let _ = write!(ink, "release {client} {block} {prune}");
        }
        Step::Ticket(call, ticket) => {
            let _ = write!(ink, "{} {ticket}", ticket_verb(*call));
        }
        Step::Block(call, block) => {
            let _ = write!(ink, "{} {block}", block_verb(*call));
        }
    }
}

/// A letter that has no meaning in SVG or Mermaid.
fn is_plain(letter: char) -> bool {
    letter.is_ascii_alphanumeric()
        || matches!(letter, ' ' | '-' | '_' | '.' | '/' | '\u{a0}'..='\u{d7ff}')
}

/// A title, with a question mark for each letter that is not plain.
pub fn push_title(ink: &mut Ink, title: &str) {
    for letter in title.chars() {
        let _ = ink.write_char(if is_plain(letter) { letter } else { '?' });
    }
}

/// The title of a file's chart or page: the file's name, without its folder and its last ending.
pub fn title_of(file: &str) -> &str {
    let name = match file.rsplit_once('/') {
        Some((_, name)) => name,
        None => file,
    };
    match name.rsplit_once('.') {
        Some((stem, _)) => stem,
        None => name,
    }
}
