//! What a run answers.
ghost use Rattle.std.specs.Prelude.{◌≡◌, ◌≢◌, ◌↔◌, ◌≤◌, All, Err, IfErr, IfNone, IfOk, IfSome, IsSome, length, map, take};
ghost use Rattle.tl_protocol.specs.Ledger.{has_copy};
ghost use Rattle.tl_bank_spec.specs.Views.{pairs_at};
ghost use Rattle.tl_protocol.specs.declared.event.Access.{Access};
ghost use Rattle.tl_script.specs.Commands.{commands as commands_in};
ghost use Rattle.tl_rules.specs.Certified.{events_of, all_accesses};
ghost use Rattle.tl_rules.specs.Left.{Pairwise};
ghost use Rattle.tl_runner_report.specs.Loops.{AreCarriedOut, AreDistinct};
ghost use Rattle.tl_runner_report.specs.Banks.{logs_in};
ghost use Rattle.tl_runner_report.specs.Conclusion.{AreAllShares, AreMatched, IsOneMemory, IsConclusion, ShowsClient, ShowsAll, bank_line};
ghost use Rattle.tl_runner_report.specs.declared.error.RunError.TheVariants.{Memory, NotOrdered, Shares};

use crate::banks::{are_banks_of, logs_of};
use crate::error::RunError;
use crate::lines::all_empty_lines;
use crate::reading::read_logs;
use arrayvec::ArrayVec;
use std::alloc::{AllocError, Global};
use tl_bank::{Bank, Share};
use tl_protocol::Event;
use tl_rules::{certify_events, every_order};
use tl_script::Script;
use tl_script_words::Command;
use tl_text::{Answered, BankLine, Report};
use tl_tickets::gather;
use tl_types::{BANKS, CLIENTS};

/// What is held of each of the first 8 banks, by its shares. None where not each bank's shares were given back.
fn gathered(banks: &[Bank], shares: &[Vec<Share>]) -> Option<ArrayVec<u64, BANKS>>
    ensures some { IsSome result ↔ AreAllShares banks.now shares.now }
    ensures held { IfSome result (λ held. held.items ≡ map (pairs_at has_copy) (take BANKS banks.now)) }
{
    if banks.len() != shares.len() {
        return None;
    }
    let mut held = ArrayVec::new();
    for (place, bank) in banks.iter().enumerate() {
        let Ok(sum) = gather(bank, shares[place].as_slice()) else {
            return None;
        };
        if place < BANKS {
            held.push(sum);
        }
    }
    Some(held)
}

/// Banks that match the script are one memory, whose accesses the clients' lines show.
fn is_one_memory(script: &Script, banks: &[Bank], clients: &[Vec<Answered>])
    requires matched { AreMatched script.now banks.now }
    requires shown { ShowsAll (commands_in script.now.commands.items) (logs_in banks.now) clients.now
        (length script.now.commands.items) }
    ensures { IsOneMemory script.now banks.now clients.now }
{
    // For the proof alone: certified runs have one order, which is one memory's, and each bank's log is a run.
    every_order();
    let _logs = logs_of(banks);
}

/// The lines of all clients, each load and store with the bytes of its access. None where an access does not carry out
/// its command, or a client has not as many as loads and stores. Where memory for the lines is refused, the accesses
/// are compared even so.
fn all_lines(
    alloc: Global,
    commands: &[Vec<Command>],
    logs: &[&[Event]],
) -> Result<Option<Vec<Vec<Answered>>>, AllocError>
    requires few { length commands.now ≤ CLIENTS }
    requires distinct { Pairwise AreDistinct (all_accesses (events_of logs.now)) }
    ensures none { IfOk result
        (λ found. IfNone found (AreCarriedOut (commands_in commands.now) (events_of logs.now) → ⊥)) }
    ensures some { IfOk result
        (λ found. IfSome found (λ all. AreCarriedOut (commands_in commands.now) (events_of logs.now)
        × ShowsAll (commands_in commands.now) (events_of logs.now) all.items (length commands.now))) }
    ensures refused { IfErr result (λ _. AreCarriedOut (commands_in commands.now) (events_of logs.now)) }
{
    match all_empty_lines(alloc, commands) {
        Ok(mut all) => {
            if !read_logs(commands, logs, &mut all) {
                return Ok(None);
            }
            Ok(Some(all))
        }
        Err(refused) => {
            let mut none = Vec::new(alloc);
            if !read_logs(commands, logs, &mut none) {
                return Ok(None);
            }
            Err(refused)
        }
    }
}

/// The lines of at most 8 banks, from what is held of each.
fn bank_lines(alloc: Global, banks: &[Bank], held: &[u64]) -> Result<Vec<BankLine>, AllocError>
    requires { held.now ≡ map (pairs_at has_copy) banks.now }
    ensures { IfOk result (λ lines. lines.items ≡ map bank_line banks.now) }
{
    let mut lines = Vec::new(alloc);
    for (place, bank) in banks.iter().enumerate() {
        lines.push(BankLine {
            held: held[place],
            recorded: bank.outstanding(),
        })?;
    }
    Ok(lines)
}

/// The commands of a script, of at most `CLIENTS` clients.
fn commands_of(script: &Script) -> &[Vec<Command>]
    ensures is { result.now ≡ script.now.commands.items }
    ensures few { length result.now ≤ CLIENTS }
{
    // For the proof alone: there is a list for each client, and a geometry has at most `CLIENTS`.
    let _clients = script.geometry().clients();
    script.commands.as_slice()
}

/// What a run answers, from its script, its banks and the shares that its clients give back: a list for each bank, in
/// the banks' order.
///
/// `Shares` exactly where the shares are not those of the banks, each once; else `NotOrdered` exactly where the banks'
/// accesses have no order in which they carry out the script; else `Memory` where memory is refused. All is compared
/// even so: want of memory hides no other refusal.
pub fn conclude(
    alloc: Global,
    script: &Script,
    banks: &[Bank],
    shares: &[Vec<Share>],
) -> Result<Report, RunError>
    ensures missing { result ≡ Err Shares ↔ (AreAllShares banks.now shares.now → ⊥) }
    ensures not_ordered { result ≡ Err NotOrdered
        ↔ (AreAllShares banks.now shares.now × (AreMatched script.now banks.now → ⊥)) }
    ensures memory { IfErr result
        (λ e. e ≢ Shares → e ≢ NotOrdered
        → (e ≡ Memory) × AreAllShares banks.now shares.now × AreMatched script.now banks.now) }
    ensures ok { IfOk result (IsConclusion script.now banks.now shares.now) }
{
    let Some(held) = gathered(banks, shares) else {
        return Err(RunError::Shares);
    };
    if banks.len() > BANKS {
        return Err(RunError::NotOrdered);
    }
    if !are_banks_of(script, banks) {
        return Err(RunError::NotOrdered);
    }
    let lists = logs_of(banks);
    let logs = lists.as_slice();
    if !certify_events(logs) {
        return Err(RunError::NotOrdered);
    }
    let Some(clients) = all_lines(alloc, commands_of(script), logs)? else {
        return Err(RunError::NotOrdered);
    };
    let lines = bank_lines(alloc, banks, held.as_slice())?;
    // For the proof alone: what was compared makes the banks' accesses those of one memory.
    is_one_memory(script, banks, clients.as_slice());
    Ok(Report {
        clients,
        banks: lines,
    })
}
