//! What a bank holds at the end of a trace.

ghost use Rattle.std.specs.Prelude.{◌≡◌, Some};
ghost use Rattle.tl_types.specs.declared.permission.Perm.TheVariants.{None as NoAccess};
ghost use Rattle.tl_text.specs.Closing.{perm_letter, recorded_letters, held_letters, flag_text, block_text};

use arrayvec::ArrayVec;
use std::default::Default;
use std::fmt;
use tl_types::{BlockNo, CLIENTS, Perm};

/// A client's permission to a block: as home records it, and as the client's copy has it.
#[derive(Clone, Copy, Debug, PartialEq, Eq)]
pub struct Standing {
    pub recorded: Perm,
    pub held: Perm,
}

impl Default for Standing {
    ghost is_default = { λ s. (s.recorded ≡ NoAccess) × (s.held ≡ NoAccess) };

    fn default() -> Standing {
        Standing {
            recorded: Perm::None,
            held: Perm::None,
        }
    }
}

/// A block that home holds: whether home's copy is dirty, and the permission of each client from client 0 on, at most
/// `CLIENTS` of them. It prints as its closing line, without the line feed.
#[derive(Debug, Drop)]
pub struct BlockLine {
    pub block: BlockNo,
    pub dirty: bool,
    pub clients: ArrayVec<Standing, CLIENTS>,
}

/// What a bank shows at the end: the blocks that home holds, by rising number; the number of copies that the clients
/// hold in it; the number of copies that home has recorded; and the number of events in its log.
#[derive(Debug, Drop)]
pub struct BankClosing {
    pub blocks: Vec<BlockLine>,
    pub held: u64,
    pub recorded: u64,
    pub events: u64,
}

/// A permission as one letter.
#[derive(Clone, Copy)]
pub struct Letter(pub Perm);

impl fmt::Display for Letter {
    ghost output = { λ l. Some (perm_letter l.0) };

    fn fmt<W: fmt::Write>(&self, f: &mut fmt::Formatter<W>) -> fmt::Result {
        match self.0 {
            Perm::None => f.write_str("N"),
            Perm::Branch => f.write_str("B"),
            Perm::Tip => f.write_str("T"),
        }
    }
}

// What home records of each client, as letters.
#[derive(Clone, Copy)]
struct Recorded<'a>(&'a [Standing]);

impl fmt::Display for Recorded<'_> {
    ghost output = { λ r. Some (recorded_letters r.0.now) };

    fn fmt<W: fmt::Write>(&self, f: &mut fmt::Formatter<W>) -> fmt::Result {
        for standing in self.0 {
            write!(f, "{}", Letter(standing.recorded))?;
        }
        Ok(())
    }
}

// What each client holds, as letters.
#[derive(Clone, Copy)]
struct Held<'a>(&'a [Standing]);

impl fmt::Display for Held<'_> {
    ghost output = { λ h. Some (held_letters h.0.now) };

    fn fmt<W: fmt::Write>(&self, f: &mut fmt::Formatter<W>) -> fmt::Result {
        for standing in self.0 {
            write!(f, "{}", Letter(standing.held))?;
        }
        Ok(())
    }
}

// Whether home's copy is dirty, as a word.
#[derive(Clone, Copy)]
struct Flag(bool);

impl fmt::Display for Flag {
    ghost output = { λ x. Some (flag_text x.0) };

    fn fmt<W: fmt::Write>(&self, f: &mut fmt::Formatter<W>) -> fmt::Result {
        if self.0 {
            f.write_str("dirty")
        } else {
            f.write_str("clean")
        }
    }
}

impl fmt::Display for BlockLine {
    ghost output = { λ b. Some (block_text b) };

    fn fmt<W: fmt::Write>(&self, f: &mut fmt::Formatter<W>) -> fmt::Result {
        let clients = self.clients.as_slice();
        write!(
            f,
            "block {} {} recorded {} copies {}",
            self.block,
            Flag(self.dirty),
            Recorded(clients),
            Held(clients)
        )
    }
}
