//! The memory's bytes.
ghost use Rattle.std.specs.Prelude.{◌≡◌, ◌+◌, ◌-◌, ◌≤◌, ◌++◌, length, min, take, drop};
ghost use Rattle.tl_embed.specs.Images.{Images, bytes_from, bytes_in};
ghost use Rattle.tl_embed.specs.Views.{home_of};

use crate::answer::Number;
use crate::cache::Cache;
use crate::request::Request;
use crate::views::home_of;
use tl_trace::Network;
use tl_types::BlockNo;

/// The memory's bytes from the block that a request names on, as many as there are and have places; how many they are.
pub fn image(cache: &mut Cache, request: &Request, bytes: &mut [u8]) -> Number
    ensures { Images cache.old request.now bytes.old cache.new bytes.new result }
{
    match &cache.network {
        None => Number {
            serial: u64::from(cache.status),
            ..Number::only(18)
        },
        Some(network) => Number::told(tell_blocks(network, request.place, bytes) as u64),
    }
}

/// The bytes of the blocks from one on, as many as have places.
fn tell_blocks(network: &Network, first: u32, bytes: &mut [u8]) -> usize
    ensures count { result ≡ min
        (length (bytes_from network.now first (network.now.geometry.memory_blocks - first))) (length bytes.old) }
    ensures told { bytes.new
        ≡ take (length bytes.old) (bytes_from network.now first (network.now.geometry.memory_blocks - first))
        ++ drop (length (bytes_from network.now first (network.now.geometry.memory_blocks - first))) bytes.old }
{
    let mut at = 0;
    for number in 0..network.geometry().memory_blocks().saturating_sub(first) {
        at = tell_block(network, BlockNo::new(first + number), bytes, at);
    }
    at
}

/// The bytes of a block from a place on, as many as have places; which place is next.
fn tell_block(network: &Network, block: BlockNo, bytes: &mut [u8], at: usize) -> usize
    requires { at ≤ length bytes.old }
    ensures next { result ≡ min (at + length (bytes_in (home_of network.now block) block)) (length bytes.old) }
    ensures told { bytes.new
        ≡ take at bytes.old ++ take (length bytes.old - at) (bytes_in (home_of network.now block) block)
        ++ drop (at + length (bytes_in (home_of network.now block) block)) bytes.old }
{
    let Some(bank) = home_of(network, block) else {
        return at;
    };
    match bank.memory(block) {
        Some(found) => put(bytes, at, found.as_slice()),
        None => at,
    }
}

/// Writes some bytes from a place on, as many as have places; which place is next.
fn put(bytes: &mut [u8], at: usize, some: &[u8]) -> usize
    requires { at ≤ length bytes.old }
    ensures next { result ≡ min (at + length some.now) (length bytes.old) }
    ensures told { bytes.new
        ≡ take at bytes.old ++ take (length bytes.old - at) some.now ++ drop (at + length some.now) bytes.old }
{
    let count = some.len().min(bytes.len() - at);
    bytes[at..at + count].copy_from_slice(&some[..count]);
    at + count
}
