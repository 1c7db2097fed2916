//! The stores that lead to the bytes of a message that was seen, where nobody told them.
ghost use Rattle.std.specs.Prelude.{◌≡◌, ◌≢◌, ◌⊎◌, ◌+◌, ◌*◌, ◌<◌, ◌^◌, ◌≤◌, IfSome, MatchResult, IsTrue, length, nat_eq, take, drop};
ghost use Rattle.tl_types.specs.Count.{count_below};
ghost use Rattle.tl_embed.specs.Calls.{IsPlayed, IsStarved};
ghost use Rattle.tl_embed.specs.Saw.{Stores, copy_in, inferred, inferred_of, is_stored, piece, store_of};
ghost use Rattle.tl_embed.specs.Seen.{bytes_seen};
ghost use Rattle.tl_embed.specs.Views.{bank_for};

use crate::answer::Answer;
use crate::cache::played;
use crate::seen::Seen;
use crate::views::bank_for;
use tl_bank::Refusal;
use tl_protocol::CachedCopy;
use tl_script_words::Step;
use tl_trace::Network;
use tl_types::{AccessBytes, BlockBytes, BlockNo, ClientId, Kind, Message, code};

/// What a copy at Tip is led from.
#[derive(Drop)]
pub struct Inferred {
    /// The bytes of the copy.
    own: BlockBytes,
    /// The first address of its block.
    first: u32,
    /// Whether the copy has the bytes that were seen, and is clean: one store makes it dirty.
    is_alone: bool,
}

/// The stores that are made before a call on C, where it would come to this.
pub fn stores_before(
    network: &Network,
    kind: Kind,
    seen: &Seen,
    would: &Result<Message, Refusal>,
) -> Option<Inferred>
    ensures is { result ≡ inferred network.now kind seen.now would.now }
    ensures low { IfSome result (λ i. i.first < 2 ^ 31) }
{
    match would {
        Ok(message) => {
            let own = message.body.kind();
            if seen.options == 1 && kind.has_data() && code(own).1 == code(kind).1 {
                of_copy(network, seen)
            } else {
                None
            }
        }
        Err(_) => None,
    }
}

/// The stores to the copy that the client has, from the bytes that a message shows.
fn of_copy(network: &Network, seen: &Seen) -> Option<Inferred>
    ensures is { result ≡ inferred_of (copy_in (bank_for network.now seen.now.client seen.now.block) seen.now)
        (seen.now.block * network.now.geometry.block_bytes) (bytes_seen seen.now) }
    ensures low { IfSome result (λ i. i.first < 2 ^ 31) }
{
    let client = ClientId::new(seen.client);
    let block = BlockNo::new(seen.block);
    let geometry = network.geometry();
    // For the prover: the numbers are lawful.
    let _blocks = geometry.memory_blocks();
    if !geometry.has(block) {
        return None;
    }
    let first = seen.block * geometry.block_bytes();
    match bank_for(network, client, block) {
        Some(bank) => led_from(bank.copy(client, block), first, seen.bytes()),
        None => None,
    }
}

/// The stores to a copy from an address on, from the bytes that a message shows.
fn led_from(copy: Option<CachedCopy>, first: u32, seen: &[u8]) -> Option<Inferred>
    requires { first < 2 ^ 31 }
    ensures is { result ≡ inferred_of copy first seen.now }
    ensures low { IfSome result (λ i. i.first < 2 ^ 31) }
{
    match copy {
        None | Some(CachedCopy::Absent) | Some(CachedCopy::Readable(_)) => None,
        Some(CachedCopy::Writable(own, dirty)) => {
            let is_alone = own.as_slice() == seen;
            if is_alone && dirty {
                None
            } else {
                Some(Inferred {
                    own,
                    first,
                    is_alone,
                })
            }
        }
    }
}

impl Inferred {
    /// Whether the eight bytes at a place are stored.
    fn is_stored(&self, seen: &[u8], place: u32) -> bool
        requires { place < 8 }
        ensures { result ≡ is_stored self.now seen.now place }
    {
        (self.is_alone && place == 0) || piece(self.own.as_slice(), place) != piece(seen, place)
    }

    /// How many stores there are.
    pub fn count(&self, seen: &[u8]) -> u32
        ensures is { result ≡ count_below (is_stored self.now seen.now) 8 }
        ensures few { result ≤ 8 }
    {
        let mut count = 0;
        for place in 0..8 {
            if self.is_stored(seen, place) {
                count += 1;
            }
        }
        count
    }

    /// Makes the stores, one after another; the answer is how many. The error is the answer of the first that was not
    /// done, with how many were done before, which stay.
    pub fn make(&self, network: &mut Network, seen: &Seen) -> Result<u32, Answer>
        requires { self.now.first < 2 ^ 31 }
        ensures { Stores self.now seen.now network.old network.new result }
    {
        let mut made = 0;
        for place in 0..8 {
            if self.is_stored(seen.bytes(), place) {
                let told = self.store(network, seen, place);
                if told.status != 0 {
                    return Err(Answer {
                        stores: made,
                        ..told
                    });
                }
                made += 1;
            }
        }
        Ok(made)
    }

    /// One of the stores. It changes nothing where it is not done.
    fn store(&self, network: &mut Network, seen: &Seen, place: u32) -> Answer
        requires first { self.now.first < 2 ^ 31 }
        requires place { place < 8 }
        ensures asked { IsPlayed seen.now.index (store_of self.now seen.now place) network.old network.new result
            ⊎ IsStarved (store_of self.now seen.now place) network.old network.new result }
        ensures refused { result.status ≢ 0 → network.new ≡ network.old }
    {
        let bytes = AccessBytes::from_slice(piece(seen.bytes(), place)).unwrap();
        let step = Step::Store {
            client: ClientId::new(seen.client),
            address: self.first + 8 * place,
            bytes,
        };
        played(network, seen.index, &step)
    }
}

/// Eight bytes of a block.
fn piece(bytes: &[u8], place: u32) -> &[u8]
    requires { place < 8 }
    ensures is { result.now ≡ piece place bytes.now }
    ensures few { length result.now ≤ 8 }
{
    let from = (8 * place as usize).min(bytes.len());
    let rest = &bytes[from..];
    let most = 8usize.min(rest.len());
    &rest[..most]
}
