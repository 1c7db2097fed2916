//! A thread for each worker.
ghost use Rattle.std.specs.Prelude.{◌≡◌, ◌≤◌, ◌+◌, true, IfOk, vec_len, vec_capacity};
ghost use Rattle.std.specs.Thread.{IsSend, IsSync};

use std::alloc::{AllocError, Global};
use std::sync::Wait;
use std::thread;
use std::thread::{JoinHandle, Scope, Threads};
use std::time::Clock;
use tl_tickets::Ringer;

/// What a thread owns and does, over what all threads share.
pub(crate) trait Work<S>: Drop {
    /// What a worker has done that comes back, over what all threads share.
    ghost works: { S → Self → Self → Type 0 };

    /// Works until it ends, and comes back.
    fn work<R: Wait + Clock>(self, rt: &R, shared: &S) -> Self
        ensures { works shared.now self result };
}

/// All workers again, once their threads have ended.
#[derive(Drop)]
pub(crate) struct Joined<C: Drop, H: Drop> {
    pub(crate) clients: Vec<C>,
    pub(crate) homes: Vec<H>,
}

/// Starts a thread for each worker, up to the first that could not be started. `false` where one could not.
fn start<'s, E, R: Threads + Wait + Clock + Sync, S: Sync, W: Work<S> + Send + 's>(
    scope: &Scope<'s, E>,
    rt: &'s R,
    shared: &'s S,
    workers: Vec<W>,
    threads: &mut Vec<JoinHandle<W>>,
) -> bool
    requires { vec_len threads.old + vec_len workers ≤ vec_capacity threads.old }
    ensures most { vec_len threads.new ≤ vec_len threads.old + vec_len workers }
    ensures all { result ≡ true → vec_len threads.new ≡ vec_len threads.old + vec_len workers }
{
    for worker in workers {
        match scope.spawn(move || worker.work(rt, shared)) {
            Ok(thread) => {
                let Ok(()) = threads.push(thread) else {
                    unreachable!()
                };
            }
            Err(_) => return false,
        }
    }
    true
}

/// Joins each thread.
fn join_each<R: Threads, W: Drop + Send>(rt: &R, threads: Vec<JoinHandle<W>>, ended: &mut Vec<W>)
    requires { vec_len ended.old + vec_len threads ≤ vec_capacity ended.old }
    ensures { vec_len ended.new ≡ vec_len ended.old + vec_len threads }
{
    for thread in threads {
        let Ok(()) = ended.push(thread.join(rt)) else {
            unreachable!()
        };
    }
}

/// Room for the threads that are started and for the workers that end.
#[derive(Drop)]
struct Places<C: Drop + Send, H: Drop + Send> {
    client_threads: Vec<JoinHandle<C>>,
    home_threads: Vec<JoinHandle<H>>,
    ended_clients: Vec<C>,
    ended_homes: Vec<H>,
}

/// Room for so many clients and homes.
fn open_places<C: Drop + Send, H: Drop + Send>(
    alloc: Global,
    clients: usize,
    homes: usize,
) -> Result<Places<C, H>, AllocError>
    ensures clients { IfOk result
        (λ p. (vec_len p.client_threads ≡ 0) × (clients ≤ vec_capacity p.client_threads) × (vec_len p.ended_clients ≡ 0)
        × (clients ≤ vec_capacity p.ended_clients)) }
    ensures homes { IfOk result
        (λ p. (vec_len p.home_threads ≡ 0) × (homes ≤ vec_capacity p.home_threads) × (vec_len p.ended_homes ≡ 0)
        × (homes ≤ vec_capacity p.ended_homes)) }
{
    Ok(Places {
        client_threads: Vec::with_capacity(alloc, clients)?,
        home_threads: Vec::with_capacity(alloc, homes)?,
        ended_clients: Vec::with_capacity(alloc, clients)?,
        ended_homes: Vec::with_capacity(alloc, homes)?,
    })
}

/// Runs each worker in a thread of its own, joins all threads and gives the workers back, as many as there were. Where
/// a thread could not be started, no other is, and those that run are stopped and joined: the error is that, or want of
/// memory.
pub(crate) fn run_threads<
    R: Threads + Wait + Clock + Sync,
    S: Sync,
    C: Work<S> + Send,
    H: Work<S> + Send,
>(
    rt: &R,
    alloc: Global,
    shared: &S,
    mut stop: Ringer<'_>,
    clients: Vec<C>,
    homes: Vec<H>,
) -> Result<Joined<C, H>, AllocError>
    ensures { IfOk result
        (λ joined. (vec_len joined.clients ≡ vec_len clients) × (vec_len joined.homes ≡ vec_len homes)) }
{
    thread::scope(
        thread::scope_env(),
        rt,
        move |scope| -> Result<Joined<C, H>, AllocError>
            requires { IsSync R.row × IsSync S.row × IsSend C.row × IsSend H.row }
            ensures { IfOk result
                (λ joined. (vec_len joined.clients ≡ vec_len clients) × (vec_len joined.homes ≡ vec_len homes)) }
        {
            let Places {
                mut client_threads,
                mut home_threads,
                mut ended_clients,
                mut ended_homes,
            } = open_places(alloc, clients.len(), homes.len())?;
            let are_started = start(scope, rt, shared, clients, &mut client_threads)
                && start(scope, rt, shared, homes, &mut home_threads);
            if !are_started {
                stop.ring();
            }
            join_each(rt, client_threads, &mut ended_clients);
            join_each(rt, home_threads, &mut ended_homes);
            if !are_started {
                return Err(AllocError);
            }
            Ok(Joined {
                clients: ended_clients,
                homes: ended_homes,
            })
        },
    )
}
