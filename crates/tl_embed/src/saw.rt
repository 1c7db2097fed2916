//! A message that was seen, and the client's call that sends it.
ghost use Rattle.std.specs.Prelude.{◌≡◌, ◌↔◌, ◌<◌, ◌^◌, IsTrue};
ghost use Rattle.tl_trace.specs.Would.{WouldComeTo};
ghost use Rattle.tl_embed.specs.Saw.{AsCompared, IsAsSeen, SeenDoes, Saws, SendsOnC, StoresAndSends, StoresFirst, differs, number_of, step_on_c};
ghost use Rattle.tl_embed.specs.Seen.{seen_asks};
ghost use Rattle.tl_embed.specs.Views.{home_of};

use crate::answer::Answer;
use crate::cache::{Cache, play, reserve};
use crate::seen::{OnC, Seen, SeenAsks};
use crate::stores::{Inferred, stores_before};
use crate::tell::tell_message;
use crate::views::home_of;
use tl_bank::Refusal;
use tl_script_words::{Step, TicketCall};
use tl_trace::Network;
use tl_types::{BankNo, BlockNo, Body, Channel, ClientId, Kind, Message, Ticket};

/// Carries out what a message that was seen asks.
pub fn saw(cache: &mut Cache, seen: &Seen) -> Answer
    ensures { Saws cache.old seen.now cache.new result }
{
    let mut told = Answer::only(0);
    saw_into(cache, seen, &mut told);
    told
}

/// Carries out what a message that was seen asks, with the answer in a place for it.
fn saw_into(cache: &mut Cache, seen: &Seen, told: &mut Answer)
    ensures { Saws cache.old seen.now cache.new told.new }
{
    match &mut cache.network {
        None => {
            told.set_status(18);
            told.serial = u64::from(cache.status);
        }
        Some(network) => see(network, seen, told),
    }
}

/// Carries out what a message that was seen asks of an open cache.
fn see(network: &mut Network, seen: &Seen, told: &mut Answer)
    ensures { SeenDoes (seen_asks network.old seen.now) network.old seen.now network.new told.new }
{
    match seen.asks(network) {
        SeenAsks::Tells(status) => told.set_status(status),
        SeenAsks::Plays(step) => play(network, 0, &step, told),
        SeenAsks::Sends(call, kind) => send(network, seen, &call, kind, told),
    }
}

/// A call on C, if that sends what was seen; after the stores that lead there, where they are asked for.
fn send(network: &mut Network, seen: &Seen, call: &OnC, kind: Kind, told: &mut Answer)
    ensures { SendsOnC kind call.now seen.now network.old network.new told.new }
{
    let would = would(network, seen, call);
    match stores_before(network, kind, seen, &would) {
        None => compare(network, seen, kind, &step_on_c(seen, call), &would, told),
        Some(stores) => store_first(network, seen, &stores, call, kind, told),
    }
}

/// What a call on C would come to.
fn would(network: &Network, seen: &Seen, call: &OnC) -> Result<Message, Refusal>
    ensures { WouldComeTo network.now (step_on_c seen.now call.now) result }
{
    match call {
        OnC::Release(prune) => {
            network.would_release(ClientId::new(seen.client), BlockNo::new(seen.block), *prune)
        }
        OnC::Answer(ticket) => network.would_answer(*ticket),
    }
}

/// The step that a call on C is.
fn step_on_c(seen: &Seen, call: &OnC) -> Step
    ensures { result ≡ step_on_c seen.now call.now }
{
    match call {
        OnC::Release(prune) => {
            let client = ClientId::new(seen.client);
            let block = BlockNo::new(seen.block);
            let prune = *prune;
            Step::Release {
                client,
                block,
                prune,
            }
        }
        OnC::Answer(ticket) => Step::Ticket(TicketCall::AnswerProbe, *ticket),
    }
}

/// Makes the stores and then the step that a call on C is, once there is room for all of it.
fn store_first(
    network: &mut Network,
    seen: &Seen,
    stores: &Inferred,
    call: &OnC,
    kind: Kind,
    told: &mut Answer,
)
    requires { stores.now.first < 2 ^ 31 }
    ensures { StoresFirst stores.now kind seen.now (step_on_c seen.now call.now) network.old network.new told.new }
{
    let bank = bank_of(network, BlockNo::new(seen.block));
    let events = stores.count(seen.bytes()) + 1;
    let room = reserve(network, bank, u64::from(events));
    if room.status != 0 {
        *told = room;
        return;
    }
    store_and_send(network, seen, stores, call, kind, told);
}

/// The stores, and then the call.
fn store_and_send(
    network: &mut Network,
    seen: &Seen,
    stores: &Inferred,
    call: &OnC,
    kind: Kind,
    told: &mut Answer,
)
    requires { stores.now.first < 2 ^ 31 }
    ensures { StoresAndSends stores.now kind seen.now (step_on_c seen.now call.now) network.old network.new told.new }
{
    match stores.make(network, seen) {
        Ok(made) => {
            let would = would(network, seen, call);
            compare(network, seen, kind, &step_on_c(seen, call), &would, told);
            told.stores = made;
        }
        Err(last) => *told = last,
    }
}

/// A step that sends a message on C, if that is what was seen.
fn compare(
    network: &mut Network,
    seen: &Seen,
    kind: Kind,
    step: &Step,
    would: &Result<Message, Refusal>,
    told: &mut Answer,
)
    ensures { AsCompared would.now kind seen.now step.now network.old network.new told.new }
{
    match would {
        Ok(message) => {
            if is_as_seen(kind, seen, &message.body) {
                play(network, 0, step, told);
            } else {
                tell_difference(network, seen, message, told);
            }
        }
        Err(refusal) => told.set_status(u32::from(refusal.number())),
    }
}

/// Whether a message is of a kind that was seen, with the bytes that were seen.
fn is_as_seen(kind: Kind, seen: &Seen, body: &Body) -> bool
    ensures { IsTrue result ↔ IsAsSeen kind seen.now body.now }
{
    if body.kind() != kind {
        return false;
    }
    match body.bytes() {
        Some(bytes) => bytes.as_slice() == seen.bytes(),
        None => seen.bytes().is_empty(),
    }
}

/// The message that the client would send in place of the one that was seen.
fn tell_difference(network: &Network, seen: &Seen, message: &Message, told: &mut Answer)
    ensures { told.new ≡ differs network.now seen.now message.now }
{
    let ticket = Ticket {
        bank: bank_of(network, message.block),
        client: ClientId::new(seen.client),
        channel: Channel::C,
        serial: 0,
    };
    tell_message(ticket, &message.body, message.block.number(), told);
    told.status = 29;
}

/// The number of the bank where a block lies; 0 where the memory does not have it.
fn bank_of(network: &Network, block: BlockNo) -> BankNo
    ensures { result ≡ number_of (home_of network.now block) }
{
    match home_of(network, block) {
        Some(bank) => bank.number(),
        None => BankNo::new(0),
    }
}
