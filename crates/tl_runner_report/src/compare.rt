//! The accesses of the banks compared with the commands of the script.
ghost use Rattle.std.specs.Prelude.{◌≡◌, ◌↔◌, IsTrue, length};
ghost use Rattle.tl_script.specs.Commands.{commands as commands_in};
ghost use Rattle.tl_protocol.specs.OneMemory.{access_of};
ghost use Rattle.tl_runner_report.specs.Carried.{CarriesOut, HasCommand};

use tl_protocol::Event;
use tl_script_words::Command;

/// Whether an event carries out a command: a load of as many bytes from its address on, or a store of its bytes there.
pub fn carries_out(command: &Command, event: &Event) -> bool
    ensures { IsTrue result ↔ CarriesOut command.now event.now }
{
    match (command, event) {
        (Command::Load { address, len }, Event::Load(access)) => {
            access.address == *address && access.bytes.as_slice().len() == *len as usize
        }
        (Command::Store { address, bytes }, Event::Store(access)) => {
            access.address == *address && access.bytes.as_slice() == bytes.as_slice()
        }
        _ => false,
    }
}

/// Whether an event is no access, or carries out the command at its index.
pub(crate) fn has_command(commands: &[Vec<Command>], event: &Event) -> bool
    ensures { IsTrue result ↔ HasCommand (commands_in commands.now) event.now (access_of event.now) }
{
    let Some(access) = event.access() else {
        return true;
    };
    let Some(list) = commands.get(access.client.number() as usize) else {
        return false;
    };
    let Some(command) = list.get(access.index as usize) else {
        return false;
    };
    carries_out(command, event)
}
