//! One pass over the logs: each access is compared with its command and counted, and its bytes are written onto its
//! line.
ghost use Rattle.std.specs.Prelude.{◌≡◌, ◌↔◌, ◌≤◌, [], All, IsTrue, length, true};
ghost use Rattle.std.specs.List.{cons_option};
ghost use Rattle.tl_script.specs.Commands.{commands as commands_in};
ghost use Rattle.tl_protocol.specs.OneMemory.{access_of};
ghost use Rattle.tl_rules.specs.Certified.{accesses_of, all_accesses, events_of};
ghost use Rattle.tl_runner_report.specs.Carried.{HasCommand};
ghost use Rattle.tl_runner_report.specs.Loops.{AreCarriedOut, AreCounted, AreOwed, IsOwed, bytes_on, commands_on, with_accesses, with_event};

use crate::compare::has_command;
use crate::lines::answer;
use crate::owed::{all_owed, is_nothing};
use tl_protocol::Event;
use tl_script_words::Command;
use tl_text::Answered;
use tl_types::CLIENTS;

/// Reads an event: an access is compared with its command, its client owes one less, and its bytes are written onto its
/// line, where there is one. False, with nothing known of the rest, where it does not carry out its command or is not
/// owed.
fn read_event(
    commands: &[Vec<Command>],
    event: &Event,
    owed: &mut [usize; CLIENTS],
    all: &mut Vec<Vec<Answered>>,
) -> bool
    requires { length commands.now ≤ CLIENTS }
    ensures exact { IsTrue result
        ↔ (HasCommand (commands_in commands.now) event.now (access_of event.now)
        × IsOwed owed.old (access_of event.now)) }
    ensures counted { result ≡ true → AreCounted owed.old owed.new (cons_option (access_of event.now) []) }
    ensures commands { result ≡ true → commands_on all.new.items ≡ commands_on all.old.items }
    ensures bytes { result ≡ true → bytes_on all.new.items ≡ with_event (bytes_on all.old.items) (access_of event.now) }
{
    let Some(access) = event.access() else {
        return true;
    };
    if !has_command(commands, event) {
        return false;
    }
    let client = access.client.number() as usize;
    if owed[client] == 0 {
        return false;
    }
    owed[client] -= 1;
    answer(all, access);
    true
}

/// Reads a log. False where an access of it does not carry out its command, or a client has more accesses in it than it
/// owes.
fn read_log(
    commands: &[Vec<Command>],
    log: &[Event],
    owed: &mut [usize; CLIENTS],
    all: &mut Vec<Vec<Answered>>,
) -> bool
    requires { length commands.now ≤ CLIENTS }
    ensures exact { IsTrue result
        ↔ (All (λ e. HasCommand (commands_in commands.now) e (access_of e)) log.now
        × AreOwed (length commands.now) owed.old (accesses_of log.now)) }
    ensures counted { result ≡ true → AreCounted owed.old owed.new (accesses_of log.now) }
    ensures commands { result ≡ true → commands_on all.new.items ≡ commands_on all.old.items }
    ensures bytes { result ≡ true
        → bytes_on all.new.items ≡ with_accesses (bytes_on all.old.items) (accesses_of log.now) }
{
    for event in log {
        if !read_event(commands, event, owed, all) {
            return false;
        }
    }
    true
}

/// Reads all logs: whether each access carries out the command at its index, and each client has as many as loads and
/// stores among its commands. Then each access's bytes stand on the line of its client at its index, where there is
/// one.
pub(crate) fn read_logs(
    commands: &[Vec<Command>],
    logs: &[&[Event]],
    all: &mut Vec<Vec<Answered>>,
) -> bool
    requires { length commands.now ≤ CLIENTS }
    ensures exact { IsTrue result ↔ AreCarriedOut (commands_in commands.now) (events_of logs.now) }
    ensures commands { result ≡ true → commands_on all.new.items ≡ commands_on all.old.items }
    ensures bytes { result ≡ true
        → bytes_on all.new.items ≡ with_accesses (bytes_on all.old.items) (all_accesses (events_of logs.now)) }
{
    let mut owed = all_owed(commands);
    for log in logs {
        if !read_log(commands, log, &mut owed, all) {
            return false;
        }
    }
    is_nothing(&owed)
}
