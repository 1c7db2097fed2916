//! A cache, and one call of it.
ghost use Rattle.std.specs.Prelude.{◌≡◌, ◌⊎◌, None};
ghost use Rattle.tl_embed.specs.Asked.{asked};
ghost use Rattle.tl_embed.specs.Calls.{AsksFor, Calls, IsPlayed, IsStarved};
ghost use Rattle.tl_embed.specs.Events.{Forgets, Reserves};
ghost use Rattle.tl_embed.specs.Opens.{Opens, as_given, closed};

use crate::answer::Answer;
use crate::request::{Asked, Request};
use crate::rest::{drain, flush};
use crate::tell::{step_told, tell_step};
use crate::views::tell_view;
use std::alloc::Global;
use tl_map::{Geometry, GeometryNumbers};
use tl_script_words::Step;
use tl_text::Answer as Shown;
use tl_trace::Network;
use tl_types::BankNo;

/// All banks with their clients, until it is closed.
#[derive(Drop)]
pub struct Cache {
    /// 0 where it was opened; else why it is closed: 20 to 28, 10 or 14 as `opened` says, 18 by its caller.
    pub status: u32,
    /// The banks, where it is open.
    pub network: Option<Network>,
}

/// The numbers of a geometry.
#[repr(C)]
#[derive(Clone, Copy, Drop)]
pub struct Numbers {
    pub version: i64,
    pub clients: i64,
    pub banks: i64,
    pub block_bytes: i64,
    pub sets: i64,
    pub ways: i64,
    pub registers: i64,
    pub copies: i64,
    pub memory_blocks: i64,
}

/// What lies in the room of a caller in C may go to another thread: each call then is of one thread, and the calls are
/// in an order.
pub fn may_move(cache: &Cache) {
    crosses(cache);
}

fn crosses<T: Send>(_value: &T) {}

/// A cache at reset over an image; one that is closed where the numbers make no geometry (20 to 28), the image is
/// longer than the memory (10) or there is no memory (14).
pub fn opened(alloc: Global, numbers: &Numbers, image: &[u8]) -> Cache
    ensures { Opens numbers.now image.now result }
{
    let geometry = match Geometry::new(given(numbers)) {
        Ok(geometry) => geometry,
        Err(error) => return closed(u32::from(error.number())),
    };
    if image.len() > geometry.memory_bytes() as usize {
        return closed(10);
    }
    match Network::new(alloc, geometry, image) {
        Ok(network) => Cache {
            status: 0,
            network: Some(network),
        },
        Err(_) => closed(14),
    }
}

fn closed(status: u32) -> Cache
    ensures { result ≡ closed status }
{
    Cache {
        status,
        network: None,
    }
}

fn given(numbers: &Numbers) -> GeometryNumbers
    ensures { result ≡ as_given numbers.now }
{
    GeometryNumbers {
        version: numbers.version,
        clients: numbers.clients,
        banks: numbers.banks,
        block_bytes: numbers.block_bytes,
        sets: numbers.sets,
        ways: numbers.ways,
        registers: numbers.registers,
        copies: numbers.copies,
        memory_blocks: numbers.memory_blocks,
    }
}

/// Carries out what is asked. The call 0 closes the cache.
pub fn call(cache: &mut Cache, request: &Request) -> Answer
    ensures { Calls cache.old request.now cache.new result }
{
    let mut told = Answer::only(0);
    call_into(cache, request, &mut told);
    told
}

/// Carries out what is asked, with the answer in a place that the caller has for it. The call 0 closes the cache.
pub fn call_into(cache: &mut Cache, request: &Request, told: &mut Answer)
    ensures { Calls cache.old request.now cache.new told.new }
{
    match &mut cache.network {
        None => {
            told.set_status(18);
            told.serial = u64::from(cache.status);
        }
        Some(network) => {
            if request.call != 0 {
                return ask(network, request, told);
            }
            close(cache);
            told.set_status(0);
        }
    }
}

/// Closes a cache.
fn close(cache: &mut Cache)
    ensures { cache.new ≡ closed 18 }
{
    *cache = closed(18);
}

/// Carries out a step, makes room for more, brings all banks to rest, or shows something.
fn ask(network: &mut Network, request: &Request, told: &mut Answer)
    ensures { AsksFor (asked request.now) network.old request.now network.new told.new }
{
    match request.asked() {
        Asked::Step(step) => play(network, request.index, &step, told),
        Asked::BadArgument => told.set_status(17),
        Asked::Forget => forget(network, BankNo::new(request.bank), told),
        Asked::Reserve => reserve_into(network, BankNo::new(request.bank), request.serial, told),
        Asked::Drain => drain(network, told),
        Asked::Flush => flush(network, told),
        Asked::Other => tell_view(network, request, told),
    }
}

/// Carries out a step, as for the stores that a message implies: few, so that their answers may be moved.
pub fn played(network: &mut Network, index: u32, step: &Step) -> Answer
    ensures { IsPlayed index step.now network.old network.new result
        ⊎ IsStarved step.now network.old network.new result }
{
    let shown = network.step(index, step);
    match &shown {
        Ok(shown) => step_told(network, step, shown),
        Err(_) => Answer::only(14),
    }
}

/// Carries out a step, with the answer in a place that the caller has for it.
pub fn play(network: &mut Network, index: u32, step: &Step, told: &mut Answer)
    ensures { IsPlayed index step.now network.old network.new told.new
        ⊎ IsStarved step.now network.old network.new told.new }
{
    let mut shown = Shown::Done;
    match network.step_into(index, step, &mut shown) {
        Ok(()) => tell_step(network, step, &shown, told),
        Err(_) => told.set_status(14),
    }
}

/// Makes room in a bank's log for `count` more events.
pub fn reserve(network: &mut Network, bank: BankNo, count: u64) -> Answer
    ensures { Reserves bank count network.old network.new result }
{
    if bank.number() >= network.geometry().banks() {
        return Answer::only(10);
    }
    match network.reserve_steps(bank, count as usize) {
        Ok(()) => Answer::only(0),
        Err(_) => Answer::only(14),
    }
}

/// Makes room in a bank's log, with the answer in a place that the caller has for it. It stands apart from `ask`, where
/// a step would clear its stack too.
fn reserve_into(network: &mut Network, bank: BankNo, count: u64, told: &mut Answer)
    ensures { Reserves bank count network.old network.new told.new }
{
    *told = reserve(network, bank, count);
}

/// Forgets a bank's log so far.
fn forget(network: &mut Network, bank: BankNo, told: &mut Answer)
    ensures { Forgets bank network.old network.new told.new }
{
    if bank.number() >= network.geometry().banks() {
        return told.set_status(10);
    }
    network.forget(bank);
    told.set_status(0);
}
