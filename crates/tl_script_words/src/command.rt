//! The commands of a client.

use crate::words::{access_in, address_in, len_in, split_word};
use tl_types::AccessBytes;

/// What a client is to do.
#[derive(Debug, Drop)]
pub enum Command {
    /// Read `len` bytes, the first at `address`.
    Load { address: u32, len: u8 },
    /// Write these bytes, the first at `address`.
    Store { address: u32, bytes: AccessBytes },
    /// Give up the copy of the block of `address`.
    Drop { address: u32 },
}

impl Command {
    ghost use Rattle.std.specs.Prelude.{◌≡◌};
    ghost use Rattle.tl_script_words.specs.Command.{load_of, store_of, drop_of, command_of};
    ghost use Rattle.tl_script_words.specs.Words.{words_of};

    /// The command that a text writes. None where the text is outside the grammar.
    #[tactic(auto, unfolding(crate::specs::Command::command_in), using(crate::proofs::SpaceLaws::no_arguments))]
    pub fn parse(text: &str) -> Option<Command>
        ensures { result ≡ command_of text.now }
    {
        let (verb, arguments) = split_word(text.as_bytes());
        let arguments = arguments?;
        match verb {
            b"load" => Command::load(arguments),
            b"store" => Command::store(arguments),
            b"drop" => Command::drop_copy(arguments),
            _ => None,
        }
    }

    // All that stands behind the address is read as the length: a text with a further space is none, nor is it bytes.
    #[tactic(auto, unfolding(crate::specs::Command::load_of))]
    fn load(arguments: &[u8]) -> Option<Command>
        ensures { result ≡ load_of (words_of arguments.now) }
    {
        let (address, len) = split_word(arguments);
        let len = len?;
        let address = address_in(address)?;
        let len = len_in(len)?;
        Some(Command::Load { address, len })
    }

    #[tactic(auto, unfolding(crate::specs::Command::store_of))]
    fn store(arguments: &[u8]) -> Option<Command>
        ensures { result ≡ store_of (words_of arguments.now) }
    {
        let (address, bytes) = split_word(arguments);
        let bytes = bytes?;
        let address = address_in(address)?;
        let bytes = access_in(bytes)?;
        Some(Command::Store { address, bytes })
    }

    #[tactic(auto, unfolding(crate::specs::Command::drop_of))]
    fn drop_copy(arguments: &[u8]) -> Option<Command>
        ensures { result ≡ drop_of (words_of arguments.now) }
    {
        match split_word(arguments) {
            (address, None) => {
                let address = address_in(address)?;
                Some(Command::Drop { address })
            }
            (_, Some(_)) => None,
        }
    }
}
