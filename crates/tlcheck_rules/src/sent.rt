//! What an event takes and sends.
ghost use Rattle.std.specs.Prelude.{◌≡◌, ◌<◌, ℕ, length};
ghost use Rattle.std.specs.Option.{option_map};
ghost use Rattle.tl_protocol.specs.Protocol.{MayOn, MaySendGrant};
ghost use Rattle.tl_protocol_lanes.specs.Lanes.{ack_post, answer_post, grant_post, post_of, take_of};
ghost use Rattle.tl_rules.specs.Plain.{block_state, plain_client};
ghost use Rattle.tlcheck_rules.specs.Order.{place_at, post_at};
ghost use Rattle.tlcheck_rules.specs.Rules.{client_of};

use tl_rules::{BlockState, Client, Event, Shape};
use tl_types::{Body, Channel, ClientId, Downward, Perm, ProbeAnswer, Surrender, Upward};

/// The channel of which an event takes the first message.
pub fn taken_channel(event: &Event) -> Option<Channel>
    ensures { option_map (place_at (client_of event.now)) result ≡ take_of event.now }
{
    match event {
        Event::AcceptAcquire(_, _) => Some(Channel::A),
        Event::AnswerProbe(_, _) => Some(Channel::B),
        Event::TakeC(_, _) => Some(Channel::C),
        Event::TakeGrant(_, _) | Event::TakeReleaseAck(_, _) => Some(Channel::D),
        Event::TakeGrantAck(_, _) => Some(Channel::E),
        Event::Load(_)
        | Event::Store(_)
        | Event::SendAcquire(_, _, _)
        | Event::SendRelease(_, _, _)
        | Event::SendProbe(_, _, _)
        | Event::SendGrant(_, _)
        | Event::SendGet(_)
        | Event::Serve(_)
        | Event::TakeData(_)
        | Event::Drop(_)
        | Event::SendPut(_)
        | Event::TakePutAck(_) => None,
    }
}

/// The answer to the first Probe, where there is one.
fn answer(client: &Client) -> Option<Body>
    ensures { (c : ℕ) → option_map (post_at c Channel.C) result ≡ answer_post c client.now client.now.b }
{
    let cap = client.b.first()?;
    let answer = ProbeAnswer::of(client.held.perm(), cap, client.held.dirty_bytes());
    Some(Body::Upward(Upward::ProbeAck(answer)))
}

/// The ReleaseAck, where the first message on C is a Release.
fn release_ack(client: &Client) -> Option<Body>
    ensures { (c : ℕ) → option_map (post_at c Channel.D) result ≡ ack_post c client.now.c }
{
    match client.c.as_slice() {
        [] | [Upward::ProbeAck(_), ..] => None,
        [Upward::Release(_), ..] => Some(Body::Downward(Downward::ReleaseAck)),
    }
}

/// The Grant that home may send.
fn grant(block: &BlockState, shape: Shape, c: ClientId) -> Option<Body>
    requires size { length block.now.clients ≡ shape.clients }
    requires client { c < shape.clients }
    requires may { MaySendGrant shape (block_state block.now) c }
    ensures { option_map (post_at c Channel.D) result ≡ grant_post shape (block_state block.now) c block.now.accepted }
{
    let acquire = block.accepted()?;
    let line = block.home()?;
    let bytes = if block.the_client(c).recorded == Perm::None {
        Some(line.bytes.copied())
    } else {
        None
    };
    Some(Body::Downward(Downward::Grant(block.granted(acquire), bytes)))
}

/// The message that an event sends which may come next, with its channel.
pub fn sent_by(block: &BlockState, shape: Shape, event: &Event) -> Option<(Channel, Body)>
    requires size { length block.now.clients ≡ shape.clients }
    requires may { MayOn shape (block_state block.now) event.now }
    ensures { option_map (λ sent. post_at (client_of event.now) sent.0 sent.1) result
        ≡ post_of shape (block_state block.now) event.now }
{
    match event {
        Event::SendAcquire(_, _, grow) => Some((Channel::A, Body::AcquireBlock(*grow))),
        Event::SendRelease(c, _, prune) => {
            let given = Surrender::of(*prune, block.the_client(*c).held.dirty_bytes());
            Some((Channel::C, Body::Upward(Upward::Release(given))))
        }
        Event::AnswerProbe(c, _) => Some((Channel::C, answer(block.the_client(*c))?)),
        Event::TakeGrant(_, _) => Some((Channel::E, Body::GrantAck)),
        Event::SendProbe(_, _, cap) => Some((Channel::B, Body::ProbeBlock(*cap))),
        Event::TakeC(c, _) => Some((Channel::D, release_ack(block.the_client(*c))?)),
        Event::SendGrant(c, _) => Some((Channel::D, grant(block, shape, *c)?)),
        Event::Load(_)
        | Event::Store(_)
        | Event::TakeReleaseAck(_, _)
        | Event::AcceptAcquire(_, _)
        | Event::TakeGrantAck(_, _)
        | Event::SendGet(_)
        | Event::Serve(_)
        | Event::TakeData(_)
        | Event::Drop(_)
        | Event::SendPut(_)
        | Event::TakePutAck(_) => None,
    }
}
