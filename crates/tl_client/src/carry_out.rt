//! One command, asked of a port.
ghost use Rattle.std.specs.Prelude.{◌≡◌, ◌++◌, MatchResult};
ghost use Rattle.tl_client.specs.Answers.{HasItsBytes, clock_after, success_at};

use tl_bank::{Refusal, When};
use tl_client_ports::Port;
use tl_script_words::Command;
use tl_types::{AccessBytes, BlockNo, ClientId, Perm};

/// What a command that was carried out got.
#[derive(Drop)]
pub(crate) struct Done {
    /// The bytes that a load read or a store wrote; none for a drop.
    pub(crate) bytes: AccessBytes,
    /// The client's clock afterwards.
    pub(crate) clock: u64,
}

/// The address of a command.
pub(crate) fn address_of(command: &Command) -> u32 {
    match command {
        Command::Load { address, len: _ }
        | Command::Store { address, bytes: _ }
        | Command::Drop { address } => *address,
    }
}

/// Carries a command out, where that can be done at once: a load or a store where the client's copy allows it, a drop
/// where it has none. `NoPermission` where the copy is to be changed first.
pub(crate) fn carry_out<P: Port>(
    port: &mut P,
    client: ClientId,
    block: BlockNo,
    command: &Command,
    when: When,
) -> Result<Done, Refusal>
    ensures gains { MatchResult result
        (λ done. (P.successes port.new
        ≡ P.successes port.old ++ success_at client when command.now done.bytes done.clock)
        × (done.clock ≡ clock_after when.clock (success_at client when command.now done.bytes done.clock))
        × HasItsBytes command.now done.bytes)
        (λ _. P.successes port.new ≡ P.successes port.old) }
    ensures asked { P.asked port.new ≡ P.asked port.old }
{
    match command {
        Command::Load { address, len } => {
            let loaded = port.load(client, *address, *len as usize, when)?;
            Ok(Done {
                bytes: loaded.access(),
                clock: loaded.stamp,
            })
        }
        Command::Store { address, bytes } => {
            let clock = port.store(client, *address, bytes.as_slice(), when)?;
            Ok(Done {
                bytes: bytes.copied(),
                clock,
            })
        }
        Command::Drop { address: _ } => match port.perm(client, block) {
            Perm::None => Ok(Done {
                bytes: AccessBytes::new(),
                clock: when.clock,
            }),
            _ => Err(Refusal::NoPermission),
        },
    }
}
