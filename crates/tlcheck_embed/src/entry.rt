//! An entry in plain numbers.
ghost use Rattle.std.specs.Prelude.{◌≡◌};
ghost use Rattle.tlcheck_embed.specs.Asked.{access_in, entry_in, entry_of, event_of, is_shown_of, message_in, message_of, shown_of};

use crate::kinds::kind_shown;
use tl_rules::{Access, Event};
use tl_types::{
    AccessBytes, BLOCK_BYTES, BlockBytes, BlockNo, ClientId, Kind, grow_at, probe_at, prune_at,
};
use tlcheck_rules::{Entry, Shown};

/// An event, and the message that was seen to be sent by it; what an event does not use it takes no notice of.
#[repr(C)]
#[derive(Clone, Copy, Drop)]
pub struct BenchEntry {
    /// Which event: 0 load, 1 store, 2 send_acquire, 3 send_release, 4 answer_probe, 5 take_grant, 6 take_release_ack,
    /// 7 accept_acquire, 8 send_probe, 9 take_c, 10 send_grant, 11 take_grant_ack, 12 send_get, 13 serve, 14 take_data,
    /// 15 drop, 16 send_put, 17 take_put_ack.
    pub event: u32,
    /// The client.
    pub client: u32,
    /// The block, or the address of an access.
    pub place: u32,
    /// The param of the Acquire, Release or Probe that is sent.
    pub param: u32,
    /// 1 where the message that was seen to be sent is shown, else 0.
    pub shown: u32,
    /// Its channel: 0 to 4 for A to E.
    pub channel: u32,
    /// Its opcode.
    pub opcode: u32,
    /// Its param.
    pub shown_param: u32,
    /// How many bytes an access has, or the message that is shown.
    pub len: u32,
    /// The bytes, the first `len` of them.
    pub bytes: [u8; BLOCK_BYTES],
}

impl BenchEntry {
    /// The entry, if its numbers are those of one.
    pub fn entry(&self) -> Option<Entry>
        ensures { result ≡ entry_of self.now }
    {
        match self.event() {
            None => None,
            Some(event) => self.entry_with(event),
        }
    }

    /// The same with an event.
    fn entry_with(&self, event: Event) -> Option<Entry>
        ensures { result ≡ entry_in event (shown_of self.now) }
    {
        let shown = self.shown()?;
        Some(Entry { event, shown })
    }

    /// The event.
    fn event(&self) -> Option<Event>
        ensures { result ≡ event_of self.now }
    {
        let client = ClientId::new(self.client);
        let block = BlockNo::new(self.place);
        match self.event {
            0 => Some(Event::Load(self.access()?)),
            1 => Some(Event::Store(self.access()?)),
            2 => Some(Event::SendAcquire(client, block, grow_at(self.param)?)),
            3 => Some(Event::SendRelease(client, block, prune_at(self.param)?)),
            4 => Some(Event::AnswerProbe(client, block)),
            5 => Some(Event::TakeGrant(client, block)),
            6 => Some(Event::TakeReleaseAck(client, block)),
            7 => Some(Event::AcceptAcquire(client, block)),
            8 => Some(Event::SendProbe(client, block, probe_at(self.param)?)),
            9 => Some(Event::TakeC(client, block)),
            10 => Some(Event::SendGrant(client, block)),
            11 => Some(Event::TakeGrantAck(client, block)),
            12 => Some(Event::SendGet(block)),
            13 => Some(Event::Serve(block)),
            14 => Some(Event::TakeData(block)),
            15 => Some(Event::Drop(block)),
            16 => Some(Event::SendPut(block)),
            17 => Some(Event::TakePutAck(block)),
            _ => None,
        }
    }

    /// The access of a load or a store, of at most eight bytes.
    fn access(&self) -> Option<Access>
        ensures { result ≡ access_in self.now }
    {
        if self.len > 8 {
            return None;
        }
        let bytes = AccessBytes::from_slice(&self.bytes[..self.len as usize]).unwrap();
        Some(Access::bare(ClientId::new(self.client), self.place, bytes))
    }

    /// What is shown: nothing, or a message of a client's link.
    fn shown(&self) -> Option<Option<Shown>>
        ensures { result ≡ shown_of self.now }
    {
        match self.shown {
            0 => Some(None),
            1 => Some(Some(self.message()?)),
            _ => None,
        }
    }

    /// The message that is shown.
    fn message(&self) -> Option<Shown>
        ensures { result ≡ message_of self.now }
    {
        if !is_shown_of(self.event) {
            return None;
        }
        match kind_shown(self.channel, self.opcode, self.shown_param) {
            None => None,
            Some(kind) => self.message_of(kind),
        }
    }

    /// The same of a kind, with the bytes that it carries.
    fn message_of(&self, kind: Kind) -> Option<Shown>
        ensures { result ≡ message_in self.now kind }
    {
        if kind.has_data() {
            if self.len > BLOCK_BYTES as u32 {
                return None;
            }
            let bytes = BlockBytes::from_slice(&self.bytes[..self.len as usize]).unwrap();
            return Some(Shown {
                kind,
                bytes: Some(bytes),
            });
        }
        if self.len == 0 {
            Some(Shown { kind, bytes: None })
        } else {
            None
        }
    }
}

/// Whether a message may be shown with an event: one of a client's link that sends.
fn is_shown_of(event: u32) -> bool
    ensures { result ≡ is_shown_of event }
{
    event > 1 && event < 12
}
