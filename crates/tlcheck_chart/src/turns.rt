//! What each entry of a record did.
ghost use Rattle.std.specs.Prelude.{◌≡◌, ◌⊎◌, ℕ, IfOk, IfSome, OnOk, Some, false};
ghost use Rattle.tl_types.specs.declared.channel.Channel.{Channel};
ghost use Rattle.tl_protocol.specs.Protocol.{May};
ghost use Rattle.tl_protocol_lanes.specs.Lanes.{post_of, take_of};
ghost use Rattle.tlchart_draw.specs.Strip.{is_broken};
ghost use Rattle.tlchart_model.specs.declared.turn.Mark.TheVariants.{Unlawful};
ghost use Rattle.tlcheck_rules.specs.Judged.{Allows, Rejects, own_block};
ghost use Rattle.tlcheck_rules.specs.declared.judge.Breach.{Breach};
ghost use Rattle.tlcheck_chart.specs.Serials.{IsDone, joined, lane_at, message_sent, place_taken, removed};

use crate::serials::Serials;
use std::alloc::AllocError;
use tl_protocol::Outward;
use tl_rules::{Event, Plain};
use tl_types::{BankNo, BlockBytes, BlockNo, Kind};
use tlchart_model::{Lifeline, Mark, Place, ShownMessage, Turn, link_message};
use tlcheck_rules::{Entry, Judge, client_of, taken_channel};

/// The home of a record, which has one.
fn home() -> BankNo {
    BankNo::new(0)
}

/// Who makes an event.
pub(crate) fn lifeline_of(event: &Event) -> Lifeline {
    match event {
        Event::Load(_)
        | Event::Store(_)
        | Event::SendAcquire(_, _, _)
        | Event::SendRelease(_, _, _)
        | Event::AnswerProbe(_, _)
        | Event::TakeGrant(_, _)
        | Event::TakeReleaseAck(_, _) => Lifeline::Client(client_of(event)),
        Event::Serve(_) => Lifeline::Memory,
        _ => Lifeline::Home(home()),
    }
}

/// The mark of an event that neither sends nor takes a message.
fn mark_of(event: &Event) -> Option<Mark>
    ensures { is_broken result ≡ false }
{
    match event {
        Event::Load(access) => Some(Mark::Loaded(access.bytes.copied())),
        Event::Store(access) => Some(Mark::Stored(access.bytes.copied())),
        Event::Drop(_) => Some(Mark::Dropped),
        _ => None,
    }
}

/// A message between home and the memory.
fn memory_message(
    is_request: bool,
    block: BlockNo,
    kind: Kind,
    bytes: Option<BlockBytes>,
) -> ShownMessage {
    let (from, to, place) = if is_request {
        (
            Lifeline::Home(home()),
            Lifeline::Memory,
            Place::ToMemory(block),
        )
    } else {
        (
            Lifeline::Memory,
            Lifeline::Home(home()),
            Place::FromMemory(block),
        )
    };
    ShownMessage {
        place,
        from,
        to,
        block,
        kind,
        bytes,
    }
}

/// The bytes of home's copy of a block.
fn bytes_at_home(plain: &Plain, block: BlockNo) -> Option<BlockBytes> {
    let state = plain.block(block.number())?;
    match state.home() {
        Some(line) => Some(line.bytes.copied()),
        None => None,
    }
}

/// What the memory answers: bytes where home asked for them.
fn answer_of(plain: &Plain, block: BlockNo) -> Option<ShownMessage> {
    let state = plain.block(block.number())?;
    if matches!(state.outward(), Outward::Get) {
        let bytes = Some(state.memory().copied());
        return Some(memory_message(false, block, Kind::AccessAckData, bytes));
    }
    Some(memory_message(false, block, Kind::AccessAck, None))
}

/// What an event sends to the memory, or the memory by it.
fn memory_sent(plain: &Plain, event: &Event) -> Option<ShownMessage> {
    match event {
        Event::SendGet(block) => Some(memory_message(true, *block, Kind::Get, None)),
        Event::SendPut(block) => {
            let bytes = bytes_at_home(plain, *block);
            Some(memory_message(true, *block, Kind::PutFullData, bytes))
        }
        Event::Serve(block) => answer_of(plain, *block),
        _ => None,
    }
}

/// The place of the message on a link that an event of a block takes, if it takes one: the first that is of its block.
fn link_taken(serials: &mut Serials, event: &Event, block: BlockNo) -> Option<Place>
    ensures place { IfSome (take_of event.now) (λ link. result ≡ place_taken serials.old block link) }
    ensures after { (x : ℕ) (k : Channel)
        → lane_at serials.new x k ≡ removed (take_of event.now) block x k (lane_at serials.old x k) }
{
    let channel = taken_channel(event)?;
    let ticket = serials.take(client_of(event), channel, block)?;
    Some(Place::Link(ticket))
}

/// The place of the message that an event of a block takes.
fn taken_by(serials: &mut Serials, event: &Event, block: BlockNo) -> Option<Place>
    ensures place { IfSome (take_of event.now) (λ link. result ≡ place_taken serials.old block link) }
    ensures after { (x : ℕ) (k : Channel)
        → lane_at serials.new x k ≡ removed (take_of event.now) block x k (lane_at serials.old x k) }
{
    match event {
        Event::Serve(block) => Some(Place::ToMemory(*block)),
        Event::TakeData(block) | Event::TakePutAck(block) => Some(Place::FromMemory(*block)),
        _ => link_taken(serials, event, block),
    }
}

/// What an event of a block that may come next sends.
fn sent_by(
    judge: &Judge,
    serials: &mut Serials,
    event: &Event,
    block: BlockNo,
) -> Result<Option<ShownMessage>, AllocError>
    requires { May judge.now.plain.shape (own_block judge.now event.now) event.now }
    ensures message { IfOk result
        (λ message. IfSome (post_of judge.now.plain.shape (own_block judge.now event.now) event.now)
        (λ post. message ≡ Some (message_sent serials.old block post))) }
    ensures after { OnOk result
        ((x : ℕ) (k : Channel)
        → lane_at serials.new x k
        ≡ joined (post_of judge.now.plain.shape (own_block judge.now event.now) event.now) block x k
        (lane_at serials.old x k)) }
{
    match judge.sent(event) {
        Some((channel, body)) => {
            let ticket = serials.send(client_of(event), channel, block)?;
            Ok(Some(link_message(&ticket, block, &body)))
        }
        None => Ok(memory_sent(judge.plain(), event)),
    }
}

/// What an event that may come next does.
fn done_by(judge: &Judge, serials: &mut Serials, event: &Event) -> Result<Turn, AllocError>
    requires { May judge.now.plain.shape (own_block judge.now event.now) event.now }
    ensures unbroken { IfOk result (λ turn. is_broken turn.mark ≡ false) }
    ensures done { IfOk result (λ turn. IsDone judge.now event.now serials.old serials.new turn) }
{
    let block = BlockNo::new(event.block(judge.plain().shape()));
    let takes = taken_by(serials, event, block);
    let sends = sent_by(judge, serials, event, block)?;
    Ok(Turn {
        at: lifeline_of(event),
        sends,
        takes,
        mark: mark_of(event),
    })
}

/// What an entry does that comes next, where it is permitted: it takes the first message of its channel that is of its
/// block, and what it sends gets the next number of its channel. Else its mark says that it is not. The error is want
/// of memory, or of numbers.
pub fn turn_of(judge: &Judge, serials: &mut Serials, entry: &Entry) -> Result<Turn, AllocError>
    ensures unbroken { IfOk result (λ turn. is_broken turn.mark ≡ false) }
    ensures done { IfOk result
        (λ turn. (Allows judge.now entry.now × IsDone judge.now entry.now.event serials.old serials.new turn)
        ⊎ ((breach : Breach) × Rejects judge.now entry.now breach × (turn.mark ≡ Some Unlawful)
        × (serials.new ≡ serials.old))) }
{
    match judge.breach(entry) {
        None => done_by(judge, serials, &entry.event),
        Some(_) => Ok(Turn {
            at: lifeline_of(&entry.event),
            sends: None,
            takes: None,
            mark: Some(Mark::Unlawful),
        }),
    }
}
