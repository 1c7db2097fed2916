//! The lines of a report, which the accesses' bytes are written onto.
ghost use Rattle.std.specs.Prelude.{◌≡◌, IfOk, List, [], length, map, replicate, slice_set};
ghost use Rattle.tl_script_words.specs.declared.command.Command.{Command};
ghost use Rattle.tl_text.specs.declared.report.Answered.{Answered};
ghost use Rattle.tl_script.specs.Commands.{commands as commands_in};
ghost use Rattle.tl_runner_report.specs.Loops.{bytes_on, commands_on, with_access};

use std::alloc::{AllocError, Global};
use tl_protocol::Access;
use tl_script_words::Command;
use tl_text::Answered;
use tl_types::AccessBytes;

/// The same command again.
fn copied(command: &Command) -> Command
    ensures { result ≡ command.now }
{
    match command {
        Command::Load { address, len } => Command::Load {
            address: *address,
            len: *len,
        },
        Command::Store { address, bytes } => Command::Store {
            address: *address,
            bytes: bytes.copied(),
        },
        Command::Drop { address } => Command::Drop { address: *address },
    }
}

/// The lines of a client's commands, with no bytes.
fn empty_lines(alloc: Global, commands: &[Command]) -> Result<Vec<Answered>, AllocError>
    ensures commands { IfOk result (λ lines. map (λ (line : Answered). line.command) lines.items ≡ commands.now) }
    ensures bytes { IfOk result
        (λ lines. map (λ (line : Answered). line.bytes) lines.items ≡ replicate (length commands.now) []) }
{
    let mut lines = Vec::with_capacity(alloc, commands.len())?;
    for command in commands {
        lines.push(Answered {
            command: copied(command),
            bytes: AccessBytes::new(),
        })?;
    }
    Ok(lines)
}

/// The lines of all clients' commands, with no bytes.
pub(crate) fn all_empty_lines(
    alloc: Global,
    commands: &[Vec<Command>],
) -> Result<Vec<Vec<Answered>>, AllocError>
    ensures commands { IfOk result (λ all. commands_on all.items ≡ commands_in commands.now) }
    ensures bytes { IfOk result
        (λ all. bytes_on all.items
        ≡ map (λ (list : List Command). replicate (length list) []) (commands_in commands.now)) }
{
    let mut all = Vec::new(alloc);
    for list in commands {
        let lines = empty_lines(alloc, list)?;
        all.push(lines)?;
    }
    Ok(all)
}

/// Writes bytes onto the line at an index, where there is one.
fn write(lines: &mut Vec<Answered>, index: usize, bytes: AccessBytes)
    ensures commands { map (λ (line : Answered). line.command) lines.new.items
        ≡ map (λ (line : Answered). line.command) lines.old.items }
    ensures bytes { map (λ (line : Answered). line.bytes) lines.new.items
        ≡ slice_set (map (λ (line : Answered). line.bytes) lines.old.items) index bytes }
{
    if let Some(line) = lines.get_mut(index) {
        line.bytes = bytes;
    }
}

/// Writes the bytes of an access onto the line of its client at its index, where there is one.
pub(crate) fn answer(all: &mut Vec<Vec<Answered>>, access: &Access)
    ensures commands { commands_on all.new.items ≡ commands_on all.old.items }
    ensures bytes { bytes_on all.new.items ≡ with_access (bytes_on all.old.items) access.now }
{
    if let Some(lines) = all.get_mut(access.client.number() as usize) {
        write(lines, access.index as usize, access.bytes.copied());
    }
}
