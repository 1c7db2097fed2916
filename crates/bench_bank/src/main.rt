//! Drives one bank in one thread and prints what an event costs: `bench_bank WORK CYCLES CLIENTS COPIES WAYS SETS
//! REGISTERS BLOCK_BYTES MEMORY_BLOCKS HELD ROUNDS`. With no round it drives the bank once, and prints what happened
//! without its time.
#![tactic(auto)]

mod driven;

use driven::Driven;
use std::alloc::Global;
use std::io;
use std::time::Instant;
use tl_map::{Geometry, GeometryNumbers};
use tl_protocol::Event;
use tl_types::{BlockNo, ClientId, Grow, Prune};

/// What is done in each cycle.
#[derive(Clone, Copy)]
enum Work {
    /// A miss with a write-back, while the log grows.
    Growing,
    /// A miss with a write-back, with room in the log.
    Misses,
    /// A miss with a write-back, with room for a million events, and the log is forgotten where that is used up.
    Forgetting,
    /// Loads of copies that are held.
    Loads,
    /// Loads of copies that are held, in a bank with room for one event, which is forgotten before the next.
    LoadsForgotten,
    /// Stores to copies that are held.
    Stores,
    /// Loads and stores in turn.
    Mixed,
    /// Calls that are refused: home has nothing to do.
    Refused,
    /// Views of a client's permission.
    Views,
    /// Clean blocks that come, are read, and leave.
    Stream,
    /// One client after the other takes a block and stores.
    PingPong,
    /// All clients read a block, and then one takes it.
    Share,
}

/// The work of this name.
fn work_of(word: &str) -> Option<Work> {
    match word {
        "growing" => Some(Work::Growing),
        "misses" => Some(Work::Misses),
        "forgetting" => Some(Work::Forgetting),
        "loads" => Some(Work::Loads),
        "loads-forgotten" => Some(Work::LoadsForgotten),
        "stores" => Some(Work::Stores),
        "mixed" => Some(Work::Mixed),
        "refused" => Some(Work::Refused),
        "views" => Some(Work::Views),
        "stream" => Some(Work::Stream),
        "ping-pong" => Some(Work::PingPong),
        "share" => Some(Work::Share),
        _ => None,
    }
}

/// What is driven.
#[derive(Drop)]
struct Plan {
    work: Work,
    cycles: u32,
    clients: u32,
    copies: u32,
    ways: u32,
    sets: u32,
    registers: u32,
    block_bytes: u32,
    memory_blocks: u32,
    held: u32,
    rounds: u32,
}

/// What a client of the plan is called in cycle `i`.
fn client_of(clients: u32, i: u32) -> ClientId {
    ClientId::new(i.checked_rem(clients).unwrap_or(0))
}

/// A miss with a write-back: a block comes, is read and written, and leaves.
fn cycle(driven: &mut Driven, plan: &Plan, i: u32) -> Option<()> {
    let client = client_of(plan.clients, i);
    let number = (u64::from(i) * 37 % 256) as u32;
    let address = number.checked_mul(plan.block_bytes)?;
    let block = BlockNo::new(number);
    driven.fetch(client, block, Grow::NtoT)?;
    let index = i;
    driven.load(client, address, index)?;
    driven.store(client, address, index.wrapping_add(1), i)?;
    driven.load(client, address, index.wrapping_add(1))?;
    driven.store(client, address, index.wrapping_add(2), i)?;
    driven.give_up(client, block, Prune::TtoN)
}

/// A clean block comes, is read, and leaves another time: a stream of drops.
fn stream(driven: &mut Driven, plan: &Plan, i: u32) -> Option<()> {
    let client = client_of(plan.clients, i);
    let number = i.checked_rem(plan.memory_blocks)?;
    let address = number.checked_mul(plan.block_bytes)?;
    let block = BlockNo::new(number);
    driven.fetch(client, block, Grow::NtoT)?;
    driven.load(client, address, i)?;
    driven.give_up(client, block, Prune::TtoN)
}

/// The clients take block 0 from one another, and store.
fn ping_pong(driven: &mut Driven, plan: &Plan, i: u32) -> Option<()> {
    let client = client_of(plan.clients, i);
    let block = BlockNo::new(0);
    driven.fetch(client, block, Grow::NtoT)?;
    driven.store(client, 0, i, i)
}

/// All clients read block 0, and then one takes it from all.
fn share_all(driven: &mut Driven, plan: &Plan, i: u32) -> Option<()> {
    let block = BlockNo::new(0);
    for number in 1..plan.clients {
        driven.fetch(ClientId::new(number), block, Grow::NtoB)?;
    }
    driven.fetch(ClientId::new(0), block, Grow::NtoT)?;
    driven.store(ClientId::new(0), 0, i, i)?;
    driven.give_up(ClientId::new(0), block, Prune::TtoN)
}

/// Client 0 loads or stores in one of its copies after the other.
fn hit(driven: &mut Driven, plan: &Plan, i: u32, stores: bool) -> Option<()> {
    let client = ClientId::new(0);
    let number = i.checked_rem(plan.held)?;
    let address = number.checked_mul(plan.block_bytes)?;
    if stores {
        driven.store(client, address, i, i)
    } else {
        driven.load(client, address, i)
    }
}

/// One cycle.
fn one(driven: &mut Driven, plan: &Plan, i: u32) -> Option<()> {
    match plan.work {
        Work::Growing | Work::Misses => cycle(driven, plan, i),
        Work::Forgetting => {
            driven.forget_if_full();
            cycle(driven, plan, i)
        }
        Work::Loads => hit(driven, plan, i, false),
        Work::LoadsForgotten => {
            driven.forget();
            hit(driven, plan, i, false)
        }
        Work::Stores => hit(driven, plan, i, true),
        Work::Mixed => hit(driven, plan, i, i & 1 == 1),
        Work::Refused => driven.refuse(BlockNo::new(0)),
        Work::Views => driven.view(ClientId::new(0), BlockNo::new(i.checked_rem(plan.held)?)),
        Work::Stream => stream(driven, plan, i),
        Work::PingPong => ping_pong(driven, plan, i),
        Work::Share => share_all(driven, plan, i),
    }
}

/// All cycles.
fn drive(driven: &mut Driven, plan: &Plan) -> Option<()> {
    for i in 0..plan.cycles {
        one(driven, plan, i)?;
    }
    Some(())
}

/// A fresh bank with its shares and clocks.
fn made(alloc: Global, plan: &Plan) -> Option<Driven> {
    let geometry = Geometry::new(GeometryNumbers {
        version: 2,
        clients: i64::from(plan.clients),
        banks: 1,
        block_bytes: i64::from(plan.block_bytes),
        sets: i64::from(plan.sets),
        ways: i64::from(plan.ways),
        registers: i64::from(plan.registers),
        copies: i64::from(plan.copies),
        memory_blocks: i64::from(plan.memory_blocks),
    })
    .ok()?;
    Driven::new(alloc, geometry)
}

/// What the log says, so that nothing of it can be left out.
fn sum(events: &[Event]) -> u64 {
    let mut sum: u64 = 0;
    for event in events {
        if let Event::Load(access) = event {
            for byte in access.bytes.as_slice() {
                sum = sum.wrapping_mul(31).wrapping_add(u64::from(*byte));
            }
            sum = sum.wrapping_add(access.stamp);
        }
    }
    sum
}

/// Gives a bank what the plan wants before it is driven: copies that are held, and room for the events.
fn prepare(driven: &mut Driven, plan: &Plan) -> Option<()> {
    if matches!(
        plan.work,
        Work::Loads | Work::LoadsForgotten | Work::Stores | Work::Mixed | Work::Views
    ) {
        for number in 0..plan.held {
            driven.fetch(ClientId::new(0), BlockNo::new(number), Grow::NtoT)?;
        }
    }
    match plan.work {
        Work::Growing => {}
        Work::Forgetting => driven.reserve(1_000_000),
        Work::LoadsForgotten => driven.reserve(1),
        _ => driven.reserve(plan.cycles as usize * 20),
    }
    Some(())
}

/// Drives a bank, and prints what happened, without its time: the same on every machine.
fn once(rt: &HostRuntime, driven: &mut Driven, plan: &Plan) -> io::Result<()> {
    let ok = drive(driven, plan).is_some();
    let events = driven.events();
    let check = sum(driven.log());
    println!(rt; "events {events} ok {ok} sum {check}")
}

/// Drives a bank, and prints what an event took.
fn round(rt: &HostRuntime, driven: &mut Driven, plan: &Plan) -> io::Result<()> {
    let before = driven.events();
    let start = Instant::now(rt)?;
    let ok = drive(driven, plan).is_some();
    let nanos = start.elapsed(rt)?.as_nanos();
    let events = driven.events().saturating_sub(before);
    let check = sum(driven.log());
    let hundredths = (nanos * 100).checked_div(events as u128).unwrap_or(0);
    let (whole, rest) = (hundredths / 100, hundredths % 100);
    println!(rt; "ns/event {whole}.{rest:02} events {events} nanos {nanos} ok {ok} sum {check}")
}

/// Drives a bank as the plan wants: in a round, or once where there is to be none.
fn show(rt: &HostRuntime, driven: &mut Driven, plan: &Plan) -> io::Result<()> {
    if prepare(driven, plan).is_none() {
        return println!(rt; "no bank");
    }
    if plan.rounds == 0 {
        once(rt, driven, plan)
    } else {
        round(rt, driven, plan)
    }
}

/// Drives a fresh bank.
fn run(rt: &HostRuntime, plan: &Plan) -> io::Result<()> {
    match made(rt.alloc(), plan) {
        Some(mut driven) => show(rt, &mut driven, plan),
        None => println!(rt; "no bank"),
    }
}

/// The number at a place, 0 where there is none.
fn number_of(words: &[String], place: usize) -> u32 {
    match words.get(place) {
        Some(word) => word.as_str().parse::<u32>().unwrap_or(0),
        None => 0,
    }
}

/// What the words ask for.
fn plan_of(words: &[String]) -> Option<Plan> {
    Some(Plan {
        work: work_of(words.first()?.as_str())?,
        cycles: number_of(words, 1),
        clients: number_of(words, 2),
        copies: number_of(words, 3),
        ways: number_of(words, 4),
        sets: number_of(words, 5),
        registers: number_of(words, 6),
        block_bytes: number_of(words, 7),
        memory_blocks: number_of(words, 8),
        held: number_of(words, 9),
        rounds: number_of(words, 10),
    })
}

fn main(rt: HostRuntime) -> io::Result<()> {
    let mut words = Vec::new(rt.alloc());
    for word in std::env::args(&rt)?.skip(1) {
        words.push(word)?;
    }
    let Some(plan) = plan_of(&words) else {
        return println!(rt;
            "usage: bench_bank growing|misses|forgetting|loads|loads-forgotten|stores|mixed|refused|views|stream|ping-pong|share CYCLES CLIENTS COPIES WAYS SETS REGISTERS BLOCK_BYTES MEMORY_BLOCKS HELD ROUNDS"
        );
    };
    for _ in 0..plan.rounds.max(1) {
        run(&rt, &plan)?;
    }
    Ok(())
}
