//! A judge at a client's pins that is handed lines, one after another.
ghost use Rattle.std.specs.Prelude.{◌≡◌, ◌<◌, ◌≤◌, ◌∷◌, ◌++◌, ℕ, List, [], IfOk, IfSome, IsNone};
ghost use Rattle.tl_protocol.specs.Copy.{perm_of};
ghost use Rattle.tl_protocol.specs.declared.shape.Shape.{Shape};
ghost use Rattle.tl_types.specs.declared.limits.TheConstants.{BLOCK_BYTES};
ghost use Rattle.tlwire_pins.specs.declared.view.Cores.{Cores};
ghost use Rattle.tlwire_search.specs.declared.seen.Seen.{Seen};

use crate::view::{Cores, Tap};
use crate::views::{Broken, Views, state_in, step};
use std::alloc::{AllocError, Global};
use std::collections::HashMap;
use tl_rules::Shape;
use tl_types::{Awaited, BLOCK_BYTES, BlockNo, ClientId, Perm};
use tlwire_search::Seen;

/// Where the lines so far lead at one client's pins. It takes memory for the blocks that they are of, and none for the
/// lines.
#[derive(Drop)]
pub struct PinsJudge {
    cores: Cores,
    shape: Shape,
    client: ClientId,
    views: Views,
    ghost bytes: { (0 < shape.block_bytes) × (shape.block_bytes ≤ BLOCK_BYTES) },
}

impl PinsJudge {
    ghost use Rattle.tlwire_pins.specs.Judged.{Breaks, Follows, holds};

    /// A judge at the pins of a client, whose core is watched or not, that saw no line yet.
    pub fn new(alloc: Global, shape: Shape, client: ClientId, cores: Cores) -> PinsJudge
        requires { (0 < shape.block_bytes) × (shape.block_bytes ≤ BLOCK_BYTES) }
        ensures { Follows cores shape client [] result }
    {
        PinsJudge {
            cores,
            shape,
            client,
            views: HashMap::new(alloc),
        }
    }

    /// Whether the client's core is watched.
    pub fn cores(&self) -> Cores
        ensures { result ≡ self.now.cores }
    {
        self.cores
    }

    /// How many clients and blocks there are, and how long a block is.
    pub fn shape(&self) -> Shape
        ensures value { result ≡ self.now.shape }
        ensures bytes { (0 < result.block_bytes) × (result.block_bytes ≤ BLOCK_BYTES) }
    {
        self.shape
    }

    /// What the client may do with a block, and which answer it waits for.
    pub fn state(&self, block: BlockNo) -> (Perm, Awaited)
        ensures { result ≡ (perm_of (holds self.now block).held, (holds self.now block).wait) }
    {
        state_in(&self.views, block)
    }

    /// Takes the next line, where it is not of the client's pins or may be seen there after those before it: None. Else
    /// what it breaks. The error is want of memory; nothing is claimed of the judge after either.
    pub fn step(&mut self, line: &Seen) -> Result<Option<Broken>, AllocError>
        ensures taken { IfOk result (λ found. IsNone found
            → (cores : Cores) (shape : Shape) (c : ℕ) (lines : List Seen)
            → Follows cores shape c lines self.old → Follows cores shape c (lines ++ line.now ∷ []) self.new) }
        ensures broken { IfOk result (λ found. IfSome found (λ broken.
            (cores : Cores) (shape : Shape) (c : ℕ) (lines : List Seen)
            → Follows cores shape c lines self.old → Breaks cores shape c lines line.now broken)) }
    {
        let tap = Tap {
            cores: self.cores,
            drops: false,
        };
        step(&mut self.views, self.shape, self.client, tap, line)
    }
}
