//! What is told of the events of a bank's log.
ghost use Rattle.std.specs.Prelude.{◌≡◌, ◌==◌};
ghost use Rattle.std.specs.List.{count_by};
ghost use Rattle.tl_types.specs.Codes.{code_of};
ghost use Rattle.tl_bank_spec.specs.View.{shape_of};
ghost use Rattle.tl_protocol.specs.Protocol.{block_of};
ghost use Rattle.tl_embed.specs.Events.{carried, event_number, event_shown, event_told, of_access, of_client};

use crate::answer::Answer;
use tl_bank::Bank;
use tl_map::Geometry;
use tl_protocol::{Access, Event, Shape};
use tl_types::{ClientId, Kind, code};

/// Tells the event at a place of a bank's log, from 0; 19 where it is forgotten.
pub fn tell_event_at(bank: &Bank, place: u64, told: &mut Answer)
    ensures { told.new ≡ event_shown bank.now place }
{
    let forgotten = bank.forgotten() as u64;
    if place < forgotten {
        return told.set_status(19);
    }
    match bank.log().get((place - forgotten) as usize) {
        Some(event) => tell_event(bank.geometry(), event, told),
        None => told.set_status(4),
    }
}

/// Tells a whole event.
pub fn tell_event(geometry: Geometry, event: &Event, told: &mut Answer)
    ensures { told.new ≡ event_told (shape_of geometry) event.now }
{
    tell_carried(event, told);
    told.what = 6;
    told.opcode = event_number(event);
    told.place = block_of(geometry, event);
}

/// The block that an event is of.
fn block_of(geometry: Geometry, event: &Event) -> u32
    ensures { result ≡ block_of (shape_of geometry) event.now }
{
    match event {
        Event::Load(access) | Event::Store(access) => geometry.block_at(access.address).number(),
        _ => event.block(shape_of(geometry)),
    }
}

/// The sizes of a geometry that the rules depend on.
pub fn shape_of(geometry: Geometry) -> Shape
    ensures { result ≡ shape_of geometry }
{
    Shape {
        clients: geometry.clients(),
        block_bytes: geometry.block_bytes(),
        blocks: geometry.memory_blocks(),
    }
}

/// The number of a kind of event.
fn event_number(event: &Event) -> u32
    ensures { result ≡ event_number event.now }
{
    match event {
        Event::Load(_) => 0,
        Event::Store(_) => 1,
        Event::SendAcquire(_, _, _) => 2,
        Event::SendRelease(_, _, _) => 3,
        Event::AnswerProbe(_, _) => 4,
        Event::TakeGrant(_, _) => 5,
        Event::TakeReleaseAck(_, _) => 6,
        Event::AcceptAcquire(_, _) => 7,
        Event::SendProbe(_, _, _) => 8,
        Event::TakeC(_, _) => 9,
        Event::SendGrant(_, _) => 10,
        Event::TakeGrantAck(_, _) => 11,
        Event::SendGet(_) => 12,
        Event::Serve(_) => 13,
        Event::TakeData(_) => 14,
        Event::Drop(_) => 15,
        Event::SendPut(_) => 16,
        Event::TakePutAck(_) => 17,
    }
}

/// How many of these events are of the kind with a number.
pub fn count_kind(events: &[Event], kind: u32) -> usize
    ensures { result ≡ count_by (λ e. event_number e == kind) events.now }
{
    let mut count = 0;
    for event in events {
        if event_number(event) == kind {
            count += 1;
        }
    }
    count
}

/// Tells what an event carries beside its block.
fn tell_carried(event: &Event, told: &mut Answer)
    ensures { told.new ≡ carried event.now }
{
    match event {
        Event::Load(access) | Event::Store(access) => tell_access(access, told),
        Event::SendAcquire(client, _, grow) => {
            tell_client(*client, param(Kind::AcquireBlock(*grow)), told)
        }
        Event::SendRelease(client, _, prune) => {
            tell_client(*client, param(Kind::Release(*prune)), told)
        }
        Event::SendProbe(client, _, cap) => {
            tell_client(*client, param(Kind::ProbeBlock(*cap)), told)
        }
        Event::AnswerProbe(client, _)
        | Event::TakeGrant(client, _)
        | Event::TakeReleaseAck(client, _)
        | Event::AcceptAcquire(client, _)
        | Event::TakeC(client, _)
        | Event::SendGrant(client, _)
        | Event::TakeGrantAck(client, _) => tell_client(*client, 0, told),
        Event::SendGet(_)
        | Event::Serve(_)
        | Event::TakeData(_)
        | Event::Drop(_)
        | Event::SendPut(_)
        | Event::TakePutAck(_) => told.set_status(0),
    }
}

/// Tells who makes an access, its address, index and stamp, and its bytes.
fn tell_access(access: &Access, told: &mut Answer)
    ensures { told.new ≡ of_access access.now }
{
    told.set_status(0);
    told.client = access.client.number();
    told.address = access.address;
    told.index = access.index;
    told.serial = access.stamp;
    told.set_bytes(access.bytes.as_slice());
}

/// Tells a client, and the param of the message that it sends or is sent.
fn tell_client(client: ClientId, param: u32, told: &mut Answer)
    ensures { told.new ≡ of_client client param }
{
    told.set_status(0);
    told.client = client.number();
    told.param = param;
}

/// The param of a kind of message.
fn param(kind: Kind) -> u32
    ensures { result ≡ (code_of kind).1 }
{
    let (_opcode, param) = code(kind);
    u32::from(param)
}
