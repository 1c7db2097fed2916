//! What a register looks at.
ghost use Rattle.std.specs.Prelude.{◌≡◌, ◌<◌, ℕ};
ghost use Rattle.tl_protocol.specs.declared.shape.Shape.{Shape};
ghost use Rattle.tl_protocol.specs.Protocol.{Block};
ghost use Rattle.tl_registers.specs.Pending.{probe_pending, grant_pending, is_quiet};
ghost use Rattle.tl_registers.specs.Records.{Records};

use tl_types::BlockNo;
use tl_ways::Entry;

/// The protocol's state of each block, as far as a register's next action rests on it.
pub trait RegisterView {
    ghost shape: { Self → Shape };

    ghost state: { Self → ℕ → Block };

    /// How many clients there are.
    fn clients(&self) -> u32
        ensures { result ≡ (shape self.now).clients };

    /// What home's directory says of the block, where home holds it: whether its copy is dirty, and what it records for
    /// each client.
    fn entry(&self, block: BlockNo) -> Option<Entry>
        requires { block < (shape self.now).blocks }
        ensures { Records result (state self.now block) };

    /// Whether a Probe of the block is on its way to a client, or an answer from one.
    fn is_probe_pending(&self, block: BlockNo) -> bool
        requires { block < (shape self.now).blocks }
        ensures { result ≡ probe_pending (shape self.now) (state self.now block) };

    /// Whether a Grant of the block is on its way to a client, or a GrantAck from one.
    fn is_grant_pending(&self, block: BlockNo) -> bool
        requires { block < (shape self.now).blocks }
        ensures { result ≡ grant_pending (shape self.now) (state self.now block) };

    /// Whether nothing of the block passes between home and the memory.
    fn is_memory_quiet(&self, block: BlockNo) -> bool
        requires { block < (shape self.now).blocks }
        ensures { result ≡ is_quiet (state self.now block).outward };
}

/// The protocol's state, with the block whose register is asked.
#[derive(Drop)]
pub struct BlockView<'a, V> {
    pub block: BlockNo,
    pub view: &'a V,
}
