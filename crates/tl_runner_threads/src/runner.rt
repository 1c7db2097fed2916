//! A run of a script over banks and threads.
ghost use Rattle.std.specs.Prelude.{◌≡◌, ◌<◌, ◌≤◌, ◌||◌, true, Err, IfErr, IfOk, OnOk, length, vec_len};
ghost use Rattle.std.specs.List.{list_all, list_any};
ghost use Rattle.tl_runner_report.specs.Conclusion.{IsRunReport};
ghost use Rattle.tl_runner_report.specs.RunError.{TellsTurns};
ghost use Rattle.tl_runner_report.specs.declared.error.RunError.TheVariants.{Memory as NoMemory};
ghost use Rattle.tl_runner_threads.specs.Ends.{is_finished, lacks_memory};
ghost use Rattle.tl_runner_threads.specs.Opens.{HoldsEach, Opens};

use crate::banks::{Opened, no_shares, open_banks};
use crate::client_worker::ClientWorker;
use crate::deal::Post;
use crate::home_worker::HomeWorker;
use crate::mailroom::{AllKeys, Mailroom, Posts, deal_out, open_mailroom};
use crate::threads::{Joined, run_threads};
use crate::workers::{End, Shared};
use std::alloc::{AllocError, Global};
use std::sync::Wait;
use std::thread::Threads;
use std::time::Clock;
use tl_bank::{Bank, Share};
use tl_client::{Agent, Command, Home};
use tl_client_ports::{Gate, Locked};
use tl_map::Geometry;
use tl_runner_report::{RunError, conclude};
use tl_script::Script;
use tl_text::Report;
use tl_types::{BANKS, BankNo, CLIENTS, ClientId};

/// How many tickets an inbox of `run` holds.
pub const CAPACITY: usize = 512;

// For how many events of each command the banks' logs have room ahead. A hit is one; a miss that sends another block
// away some fifteen.
const EVENTS: usize = 16;

/// Runs a script's commands, with a thread for each client and one for each bank's home, and answers the report of
/// their banks: all shares were given back, the banks' accesses carry out the script, and they are one memory's. The
/// errors are those of `run_sized`.
pub fn run<R: Threads + Wait + Clock + Sync, G: Gate + Sync>(
    rt: &R,
    alloc: Global,
    script: &Script,
    gate: &G,
) -> Result<Report, RunError>
    ensures report { IfOk result (IsRunReport script.now) }
    ensures stalled { IfErr result (TellsTurns script.now.turns) }
{
    run_sized(rt, alloc, script, gate, CAPACITY)
}

/// Runs a script's commands as `run`, with inboxes that hold so many tickets.
///
/// `Memory` where memory is refused or a thread cannot be started; else `Stalled`, with the script's turns, where a
/// thread made them all and was not finished; else what `conclude` answers.
pub fn run_sized<R: Threads + Wait + Clock + Sync, G: Gate + Sync>(
    rt: &R,
    alloc: Global,
    script: &Script,
    gate: &G,
    capacity: usize,
) -> Result<Report, RunError>
    requires { (0 < capacity) × (capacity ≤ 4096) }
    ensures report { IfOk result (IsRunReport script.now) }
    ensures stalled { IfErr result (TellsTurns script.now.turns) }
{
    let geometry = script.geometry();
    let Opened { banks, shares } = open_banks(
        alloc,
        geometry,
        &script.image,
        events_ahead(script),
    )?;
    let locked = Locked::new(alloc, geometry, banks)?;
    let shares = run_locked(rt, alloc, script, gate, capacity, &locked, shares)?;
    let banks = locked.into_banks(alloc)?;
    concluded(alloc, script, &banks, &shares)
}

/// For how many events of a script's commands each bank makes room ahead.
fn events_ahead(script: &Script) -> usize {
    let mut commands: usize = 0;
    for list in &script.commands {
        commands = commands.saturating_add(list.len());
    }
    commands.saturating_mul(EVENTS) / (script.geometry().banks() as usize)
}

/// What `conclude` answers, as a run: it says nothing of which banks and shares these are.
fn concluded(
    alloc: Global,
    script: &Script,
    banks: &[Bank],
    shares: &[Vec<Share>],
) -> Result<Report, RunError>
    ensures report { IfOk result (IsRunReport script.now) }
    ensures stalled { IfErr result (TellsTurns script.now.turns) }
{
    conclude(alloc, script, banks, shares)
}

/// Runs the threads over locked banks. The shares of each bank come back.
fn run_locked<R: Threads + Wait + Clock + Sync, G: Gate + Sync>(
    rt: &R,
    alloc: Global,
    script: &Script,
    gate: &G,
    capacity: usize,
    locked: &Locked,
    shares: Vec<Vec<Share>>,
) -> Result<Vec<Vec<Share>>, RunError>
    requires capacity { (0 < capacity) × (capacity ≤ 4096) }
    requires shares { vec_len shares ≡ length script.now.commands.items }
    ensures { IfErr result (TellsTurns script.now.turns) }
{
    let geometry = script.geometry();
    let shared = Shared {
        alloc,
        locked,
        gate,
        clients: geometry.clients(),
        turns: script.turns,
    };
    let (mailroom, keys) = open_mailroom(alloc, geometry, capacity)?;
    run_over(rt, script, &shared, &mailroom, keys, capacity, shares)
}

/// Runs the threads over a mailroom whose inboxes hold so many tickets each. The shares of each bank come back.
fn run_over<R: Threads + Wait + Clock + Sync, G: Gate + Sync>(
    rt: &R,
    script: &Script,
    shared: &Shared<'_, G>,
    mailroom: &Mailroom,
    keys: AllKeys,
    capacity: usize,
    shares: Vec<Vec<Share>>,
) -> Result<Vec<Vec<Share>>, RunError>
    requires opens { Opens script.now.geometry mailroom.now keys }
    requires room { HoldsEach capacity mailroom.now }
    requires shares { vec_len shares ≡ length script.now.commands.items }
    ensures { IfErr result (TellsTurns script.now.turns) }
{
    // For the prover: the clauses alone name it.
    let _ = capacity;
    let posts = deal_out(shared.alloc, script.geometry(), mailroom, keys);
    let joined = run_posts(rt, script, shared, posts, shares)?;
    let banks = script.geometry().banks();
    Ok(given_back(shared.alloc, banks, joined.clients)?)
}

/// Runs the threads with what each uses, where there was memory for that. All workers come back, and each has finished.
fn run_posts<'s, 'x, R: Threads + Wait + Clock + Sync, G: Gate + Sync>(
    rt: &R,
    script: &'s Script,
    shared: &Shared<'_, G>,
    posts: Result<Posts<'x>, AllocError>,
    shares: Vec<Vec<Share>>,
) -> Result<Joined<ClientWorker<'s, 'x>, HomeWorker<'x>>, RunError>
    requires shares { vec_len shares ≡ length script.now.commands.items }
    requires clients { IfOk posts (λ p. vec_len p.clients ≡ script.now.geometry.clients) }
    requires homes { IfOk posts (λ p. vec_len p.homes ≡ script.now.geometry.banks) }
    ensures finished { IfOk result
        (λ joined. (list_all (λ w. is_finished w.end) joined.clients.items ≡ true)
        × (list_all (λ w. is_finished w.end) joined.homes.items ≡ true)) }
    ensures count { IfOk result
        (λ joined. (vec_len joined.clients ≡ script.now.geometry.clients)
        × (vec_len joined.homes ≡ script.now.geometry.banks)) }
    ensures stalled { IfErr result (TellsTurns script.now.turns) }
{
    let geometry = script.geometry();
    let Posts {
        clients,
        homes,
        stop,
    } = posts?;
    let clients = client_workers(shared.alloc, geometry, &script.commands, clients, shares)?;
    let homes = home_workers(shared.alloc, homes)?;
    let joined = run_threads(rt, shared.alloc, shared, stop, clients, homes)?;
    end_of(&joined, script.turns)?;
    Ok(joined)
}

/// The worker of a client, with its commands and shares.
fn client_worker<'s, 'x>(
    alloc: Global,
    geometry: Geometry,
    client: ClientId,
    commands: &'s [Command],
    post: Post<'x>,
    own: Vec<Share>,
) -> Result<ClientWorker<'s, 'x>, AllocError> {
    let agent = Agent::new(alloc, client, geometry, commands, own)?;
    Ok(ClientWorker {
        client,
        agent,
        mail: post.mail,
        stop: post.stop,
        end: End::Stopped,
    })
}

/// The workers of the clients, with their commands and shares.
fn client_workers<'s, 'x>(
    alloc: Global,
    geometry: Geometry,
    commands: &'s [Vec<Command>],
    mut posts: Vec<Post<'x>>,
    shares: Vec<Vec<Share>>,
) -> Result<Vec<ClientWorker<'s, 'x>>, AllocError>
    requires shares { vec_len shares ≡ length commands.now }
    requires posts { vec_len posts ≡ length commands.now }
    requires few { length commands.now ≤ CLIENTS }
    ensures { IfOk result (λ workers. vec_len workers ≡ length commands.entry.now) }
{
    let mut workers = Vec::with_capacity(alloc, shares.len())?;
    let mut number: u32 = 0;
    for own in shares {
        let post = posts.remove(0);
        let commands = commands[number as usize].as_slice();
        let client = ClientId::new(number);
        let worker = client_worker(alloc, geometry, client, commands, post, own)?;
        workers.push(worker)?;
        number += 1;
    }
    Ok(workers)
}

/// The worker of a bank's home.
fn home_worker<'x>(
    alloc: Global,
    bank: BankNo,
    post: Post<'x>,
) -> Result<HomeWorker<'x>, AllocError> {
    let home = Home::new(alloc, bank)?;
    Ok(HomeWorker {
        number: bank,
        home,
        mail: post.mail,
        stop: post.stop,
        end: End::Stopped,
    })
}

/// The workers of the homes.
fn home_workers<'x>(alloc: Global, posts: Vec<Post<'x>>) -> Result<Vec<HomeWorker<'x>>, AllocError>
    requires { vec_len posts ≤ BANKS }
    ensures { IfOk result (λ workers. vec_len workers ≡ vec_len posts.entry) }
{
    let mut workers = Vec::with_capacity(alloc, posts.len())?;
    let mut number: u32 = 0;
    for post in posts {
        let worker = home_worker(alloc, BankNo::new(number), post)?;
        workers.push(worker)?;
        number += 1;
    }
    Ok(workers)
}

/// Whether a request for memory was refused in a client's thread.
fn clients_lack_memory(workers: &[ClientWorker<'_, '_>]) -> bool
    ensures { result ≡ list_any (λ w. lacks_memory w.end) workers.now }
{
    workers.iter().any(|worker| worker.end.lacks_memory())
}

/// Whether a request for memory was refused in a home's thread.
fn homes_lack_memory(workers: &[HomeWorker<'_>]) -> bool
    ensures { result ≡ list_any (λ w. lacks_memory w.end) workers.now }
{
    workers.iter().any(|worker| worker.end.lacks_memory())
}

/// Whether each client's thread finished.
fn clients_finished(workers: &[ClientWorker<'_, '_>]) -> bool
    ensures { result ≡ list_all (λ w. is_finished w.end) workers.now }
{
    workers.iter().all(|worker| worker.end.is_finished())
}

/// Whether each home's thread finished.
fn homes_finished(workers: &[HomeWorker<'_>]) -> bool
    ensures { result ≡ list_all (λ w. is_finished w.end) workers.now }
{
    workers.iter().all(|worker| worker.end.is_finished())
}

/// Whether all threads finished. Want of memory goes before a stall; a thread that was stopped says nothing of why.
fn end_of(joined: &Joined<ClientWorker<'_, '_>, HomeWorker<'_>>, turns: u32) -> Result<(), RunError>
    ensures memory { (list_any (λ w. lacks_memory w.end) joined.now.clients.items
        || list_any (λ w. lacks_memory w.end) joined.now.homes.items)
        ≡ true
        → result ≡ Err NoMemory }
    ensures finished { OnOk result ((list_all (λ w. is_finished w.end) joined.now.clients.items ≡ true)
        × (list_all (λ w. is_finished w.end) joined.now.homes.items ≡ true)) }
    ensures stalled { IfErr result (TellsTurns turns) }
{
    let clients_lack = clients_lack_memory(joined.clients.as_slice());
    let homes_lack = homes_lack_memory(joined.homes.as_slice());
    if clients_lack || homes_lack {
        return Err(RunError::Memory);
    }
    let clients_finished = clients_finished(joined.clients.as_slice());
    let homes_finished = homes_finished(joined.homes.as_slice());
    if clients_finished && homes_finished {
        Ok(())
    } else {
        Err(RunError::Stalled(turns))
    }
}

/// Lays each share to those of its bank.
fn sort_by_bank(shares: &mut Vec<Vec<Share>>, own: Vec<Share>) -> Result<(), AllocError> {
    for share in own {
        if let Some(list) = shares.get_mut(share.bank().index()) {
            list.push(share)?;
        }
    }
    Ok(())
}

/// The shares that a client's agent gives back.
fn shares_of(worker: ClientWorker<'_, '_>) -> Vec<Share> {
    let (_, own) = worker.agent.into_parts();
    own
}

/// The shares of each bank, as the agents give them back.
fn given_back(
    alloc: Global,
    banks: u32,
    workers: Vec<ClientWorker<'_, '_>>,
) -> Result<Vec<Vec<Share>>, AllocError> {
    let mut shares = no_shares(alloc, banks)?;
    for worker in workers {
        sort_by_bank(&mut shares, shares_of(worker))?;
    }
    Ok(shares)
}
