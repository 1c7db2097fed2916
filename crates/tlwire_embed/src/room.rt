//! A judge at a client's pins in a room of a caller in C: open, or closed for a reason.
ghost use Rattle.std.specs.Prelude.{◌≡◌, None};
ghost use Rattle.tlcheck_embed.specs.Opens.{shape_of, shape_refusal};
ghost use Rattle.tlwire_embed.specs.Opens.{IsOpened, OpensPins, SeesRoom, closed, cores_of, pins_refusal, seat_refusal};

use crate::bench::PinsBench;
use crate::line::PinsLine;
use crate::verdict::PinsVerdict;
use std::alloc::Global;
use tl_types::ClientId;
use tlcheck_embed::{JudgeNumbers, shape_of, shape_refusal};
use tlwire_pins::Cores;

/// The numbers of a judge at a client's pins.
#[repr(C)]
#[derive(Clone, Copy, Drop)]
pub struct PinsNumbers {
    /// The clients, the bytes of a block and the blocks of the memory.
    pub of: JudgeNumbers,
    /// The client: less than there are.
    pub client: u32,
    /// 0 where its loads and stores are seen, 1 where nobody watches its core.
    pub cores_unseen: u32,
}

/// A judge at a client's pins, until it is closed.
#[derive(Drop)]
pub struct PinsRoom {
    /// 0 where it was opened; else why it is closed: 20, 22, 27, 10 or 17 as `opened` says, 18 by its caller.
    pub status: u32,
    /// The judge, where it is open.
    pub bench: Option<PinsBench>,
}

/// A judge at a client's pins that saw no line yet; one that is closed where a number is not lawful (20 clients, 22
/// block bytes, 27 memory blocks, 10 the client, 17 whether its core is watched).
pub fn opened(alloc: Global, numbers: &PinsNumbers) -> PinsRoom
    ensures { OpensPins numbers.now result }
{
    match refusal(numbers) {
        Some(status) => closed(status),
        None => opened_at(alloc, numbers),
    }
}

/// The same where the numbers are lawful.
fn opened_at(alloc: Global, numbers: &PinsNumbers) -> PinsRoom
    requires { pins_refusal numbers.now ≡ None }
    ensures { IsOpened (cores_of numbers.now.cores_unseen) (shape_of numbers.now.of) numbers.now.client result }
{
    let shape = shape_of(&numbers.of);
    let client = ClientId::new(numbers.client);
    PinsRoom {
        status: 0,
        bench: Some(PinsBench::new(alloc, shape, client, cores_of(numbers.cores_unseen))),
    }
}

/// Whether the core is watched, by its number.
fn cores_of(unseen: u32) -> Cores
    ensures { result ≡ cores_of unseen }
{
    if unseen == 0 {
        Cores::Watched
    } else {
        Cores::Unseen
    }
}

/// The status of the first number that is not lawful.
fn refusal(numbers: &PinsNumbers) -> Option<u32>
    ensures { result ≡ pins_refusal numbers.now }
{
    match shape_refusal(&numbers.of) {
        Some(status) => Some(status),
        None => seat_refusal(numbers),
    }
}

/// The same of the numbers behind those of the shape.
fn seat_refusal(numbers: &PinsNumbers) -> Option<u32>
    ensures { result ≡ seat_refusal numbers.now }
{
    if numbers.client >= numbers.of.clients {
        return Some(10);
    }
    if numbers.cores_unseen > 1 {
        return Some(17);
    }
    None
}

fn closed(status: u32) -> PinsRoom
    ensures { result ≡ closed status }
{
    PinsRoom {
        status,
        bench: None,
    }
}

/// Hands a line to a judge. What is seen as 255 closes it.
pub fn see(room: &mut PinsRoom, seen: &PinsLine) -> PinsVerdict
    ensures { SeesRoom room.old seen.now room.new result }
{
    match &mut room.bench {
        None => PinsVerdict {
            why: room.status,
            ..PinsVerdict::only(18)
        },
        Some(bench) => {
            if seen.what != 255 {
                return bench.see(seen);
            }
            close(room);
            PinsVerdict::only(0)
        }
    }
}

/// Closes a judge.
fn close(room: &mut PinsRoom)
    ensures { room.new ≡ closed 18 }
{
    *room = closed(18);
}
