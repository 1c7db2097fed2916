//! Loads and stores, each told in few bytes.
ghost use Rattle.std.specs.Prelude.{◌≡◌, ◌≤◌, ◌⊎◌};
ghost use Rattle.tl_script_words.specs.declared.step.Step.{Step};
ghost use Rattle.tl_bank_spec.specs.Refusal.{refusal_number};
ghost use Rattle.tl_embed.specs.Asked.{load_asked, of_step, store_asked};
ghost use Rattle.tl_embed.specs.Calls.{Accesses, AsksFor, IsPlayed, IsStarved};
ghost use Rattle.tl_embed.specs.Told.{only, wide};

use crate::answer::Accessed;
use crate::cache::Cache;
use crate::request::Request;
use tl_bank::Refusal;
use tl_trace::Network;
use tl_types::ClientId;

/// Carries out a load (1) or a store (2), as `call` does; 16 where another call is asked for, which does nothing.
pub fn access(cache: &mut Cache, request: &Request) -> Accessed
    ensures { Accesses cache.old request.now cache.new result }
{
    if request.call != 1 && request.call != 2 {
        return Accessed::only(16);
    }
    match &mut cache.network {
        None => Accessed {
            serial: u64::from(cache.status),
            ..Accessed::only(18)
        },
        Some(network) => {
            if request.call == 1 {
                load(network, request)
            } else {
                store(network, request)
            }
        }
    }
}

/// A load.
fn load(network: &mut Network, request: &Request) -> Accessed
    ensures { AsksFor (of_step (load_asked request.now)) network.old request.now network.new (wide result) }
{
    if request.len > 8 {
        Accessed::only(17)
    } else {
        short_load(network, request)
    }
}

/// A load of at most eight bytes.
fn short_load(network: &mut Network, request: &Request) -> Accessed
    requires { request.now.len ≤ 8 }
    ensures { IsPlayed request.now.index (Step.Load request.now.client request.now.place request.now.len)
        network.old network.new (wide result)
        ⊎ IsStarved (Step.Load request.now.client request.now.place request.now.len) network.old network.new
        (wide result) }
{
    let client = ClientId::new(request.client);
    match network.load(request.index, client, request.place, request.len as u8) {
        Ok(bytes) => Accessed::loaded(&bytes),
        Err(refusal) => refused(refusal),
    }
}

/// A store.
fn store(network: &mut Network, request: &Request) -> Accessed
    ensures { AsksFor (of_step (store_asked request.now)) network.old request.now network.new (wide result) }
{
    if request.len > 8 {
        Accessed::only(17)
    } else {
        short_store(network, request, &request.bytes[..request.len as usize])
    }
}

/// A store of at most eight bytes.
fn short_store(network: &mut Network, request: &Request, bytes: &[u8]) -> Accessed
    ensures { IsPlayed request.now.index (Step.Store request.now.client request.now.place bytes.now)
        network.old network.new (wide result)
        ⊎ IsStarved (Step.Store request.now.client request.now.place bytes.now) network.old network.new (wide result) }
{
    let client = ClientId::new(request.client);
    match network.store(request.index, client, request.place, bytes) {
        Ok(()) => Accessed::only(0),
        Err(refusal) => refused(refusal),
    }
}

fn refused(refusal: Refusal) -> Accessed
    ensures { wide result ≡ only (refusal_number refusal) }
{
    Accessed::only(u32::from(refusal.number()))
}
