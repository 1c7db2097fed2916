//! How many accesses each client owes: its loads and stores, of which no access was counted yet.
ghost use Rattle.std.specs.Prelude.{◌≡◌, ◌↔◌, ◌≤◌, ℕ, All, IsTrue, count_by, length, slice_index};
ghost use Rattle.tl_script.specs.Commands.{commands as commands_in};
ghost use Rattle.tl_runner_report.specs.Carried.{makes_access, commands_of};

use tl_script_words::Command;
use tl_types::CLIENTS;

/// Whether a command is a load or a store.
fn makes_access(command: &Command) -> bool
    ensures { result ≡ makes_access command.now }
{
    match command {
        Command::Load { .. } | Command::Store { .. } => true,
        Command::Drop { .. } => false,
    }
}

/// How many loads and stores are among some commands.
fn count_accesses(commands: &[Command]) -> usize
    ensures { result ≡ count_by makes_access commands.now }
{
    commands
        .iter()
        .filter(|command| makes_access(command))
        .count()
}

/// How many accesses each client owes before any was read: its loads and stores. 0 for clients that are not there.
pub(crate) fn all_owed(commands: &[Vec<Command>]) -> [usize; CLIENTS]
    requires { length commands.now ≤ CLIENTS }
    ensures { (client : ℕ)
        → slice_index result client ≡ count_by makes_access (commands_of (commands_in commands.now) client) }
{
    let mut owed = [0; CLIENTS];
    for (client, list) in commands.iter().enumerate() {
        owed[client] = count_accesses(list);
    }
    owed
}

/// Whether no client owes an access.
pub(crate) fn is_nothing(owed: &[usize; CLIENTS]) -> bool
    ensures { IsTrue result ↔ All (λ count. count ≡ 0) owed.now }
{
    owed.iter().all(|count| *count == 0)
}
