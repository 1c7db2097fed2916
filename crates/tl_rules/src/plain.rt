//! The plain map of the protocol's state: all blocks and all clients.
ghost use Rattle.std.specs.Prelude.{◌≡◌, ◌↔◌, ◌<◌, ◌≤◌, ◌*◌, ◌/◌, ◌%◌, ℕ, IsTrue, OnOk, OnErr, IfOk, IsOk, IfSome, IsSome, is_some, MatchOption, length, option_copied, slice_get, slice_index_or, unwrap_or};
ghost use Rattle.tl_protocol.specs.Access.{ReadsAs};
ghost use Rattle.tl_protocol.specs.Ledger.{count_clients, has_copy, is_recorded};
ghost use Rattle.tl_protocol.specs.Copy.{perm_of, bytes_of, CanRead};
ghost use Rattle.tl_rules.specs.Plain.{block_state, empty_block, state_of_plain, IsReset, IsStep};
ghost use Rattle.tl_rules.specs.PlainState.{IsShaped, blocks_in};
ghost use Rattle.tl_rules.specs.States.{IsLedTo};
ghost use Rattle.tl_protocol.specs.Protocol.{May, MayOn, after, block_of, reset};

use crate::block::BlockState;
use std::alloc::{AllocError, Global};
use std::marker::Model;
use tl_protocol::{Event, Shape};
use tl_types::{AccessBytes, BLOCK_BYTES, BLOCKS, BlockBytes, BlockNo, ClientId, Perm};

/// Why an event was not carried out.
#[derive(Clone, Copy, Debug, PartialEq, Eq)]
pub enum ApplyError {
    /// The rules do not permit it now.
    NotPermitted,
    /// A request for memory was refused.
    Memory,
}

/// What home, the clients and the memory hold of each block.
#[derive(Drop)]
pub struct Plain {
    alloc: Global,
    shape: Shape,
    /// First a fresh block: one that nobody but the memory holds, with bytes of 0. Then of each block its own state,
    /// where it had an event or has bytes that are not 0, and none where it is as the fresh one. Empty where there are
    /// no blocks.
    states: Vec<Option<BlockState>>,
}

impl Model for Plain {
    ghost use Rattle.tl_rules.specs.PlainState.{PlainState, IsShaped, blocks_in};

    ghost Value = { PlainState };

    ghost view = { λ p. record { shape = p.shape; blocks = blocks_in p.states.items } };

    ghost invariant = { λ p. IsShaped p.shape (blocks_in p.states.items) };
}

/// The state that a block has of its own over its bytes of the memory: none where they are all 0.
fn state_over(
    alloc: Global,
    clients: u32,
    zeros: &BlockBytes,
    memory: BlockBytes,
) -> Result<Option<BlockState>, AllocError>
    ensures { IfOk result (λ own. MatchOption own (memory ≡ zeros.now)
        (λ b. (block_state b ≡ reset memory) × (length b.clients ≡ clients))) }
{
    if zeros.as_slice() == memory.as_slice() {
        return Ok(None);
    }
    let block = BlockState::new(alloc, clients, memory)?;
    Ok(Some(block))
}

/// The states of a map over an image, as `Plain` keeps them. Where there are no blocks no memory is asked for.
fn states_over(
    alloc: Global,
    shape: Shape,
    image: &[u8],
) -> Result<Vec<Option<BlockState>>, AllocError>
    requires bytes { (0 < shape.block_bytes) × (shape.block_bytes ≤ BLOCK_BYTES) }
    requires blocks { shape.blocks ≤ BLOCKS }
    ensures reset { IfOk result (λ s. IsReset shape image.now (record { shape = shape; blocks = blocks_in s.items })) }
    ensures shaped { IfOk result (λ s. IsShaped shape (blocks_in s.items)) }
    ensures no_blocks { shape.blocks ≡ 0 → IsOk result }
{
    if shape.blocks == 0 {
        return Ok(Vec::new(alloc));
    }
    let size = shape.block_bytes as usize;
    let zeros = BlockBytes::from_image(&[], 0, size);
    let mut states = Vec::with_capacity(alloc, shape.blocks as usize + 1)?;
    let fresh = BlockState::new(alloc, shape.clients, zeros.copied())?;
    states.push(Some(fresh))?;
    for i in 0..shape.blocks {
        let memory = BlockBytes::from_image(image, (i * shape.block_bytes) as usize, size);
        let own = state_over(alloc, shape.clients, &zeros, memory)?;
        states.push(own)?;
    }
    Ok(states)
}

/// Carries out an event that may come next for a block. One that was as the fresh one gets a state of its own. For want
/// of memory nothing changes.
fn apply_at(
    alloc: Global,
    states: &mut [Option<BlockState>],
    block: u32,
    shape: Shape,
    event: &Event,
) -> Result<(), AllocError>
    requires shaped { IsShaped shape (blocks_in states.old) }
    requires there { block < shape.blocks }
    requires may { MayOn shape (block_state (slice_index_or (blocks_in states.old) block empty_block)) event.now }
    ensures ok { OnOk result (IsLedTo shape states.old states.new block event.now) }
    ensures err { OnErr result (states.new ≡ states.old) }
    ensures shaped { IsShaped shape (blocks_in states.new) }
{
    let place = block as usize + 1;
    if let Some(state) = &mut states[place] {
        return state.apply(shape, event);
    }
    let Some(fresh) = &states[0] else {
        unreachable!();
    };
    let mut state = fresh.copied(alloc)?;
    state.apply(shape, event)?;
    states[place] = Some(state);
    Ok(())
}

impl Plain {
    /// The map at reset, with the image as the first bytes of the memory, 0 past its end. The error is want of memory.
    pub fn new(alloc: Global, shape: Shape, image: &[u8]) -> Result<Plain, AllocError>
        requires bytes { (0 < shape.block_bytes) × (shape.block_bytes ≤ BLOCK_BYTES) }
        requires blocks { shape.blocks ≤ BLOCKS }
        ensures { IfOk result (IsReset shape image.now) }
    {
        let states = states_over(alloc, shape, image)?;
        Ok(Plain {
            alloc,
            shape,
            states,
        })
    }

    /// A block of the memory.
    fn state(&self, block: usize) -> Option<&BlockState>
        ensures value { option_copied result ≡ slice_get self.now.blocks block }
        ensures shaped { IsShaped self.now.shape self.now.blocks }
    {
        if block >= self.shape.blocks as usize {
            return None;
        }
        match &self.states[block + 1] {
            Some(state) => Some(state),
            None => self.states[0].as_ref(),
        }
    }

    /// A block of the memory that is there.
    fn the_state(&self, block: usize) -> &BlockState
        requires { block < self.now.shape.blocks }
        ensures value { result.now ≡ slice_index_or self.now.blocks block empty_block }
        ensures clients { length result.now.clients ≡ self.now.shape.clients }
    {
        self.state(block).unwrap()
    }

    /// The numbers of clients and blocks, and the size of a block in bytes.
    pub fn shape(&self) -> Shape
        ensures value { result ≡ self.now.shape }
        ensures nonempty { 0 < result.block_bytes }
        ensures at_most { result.block_bytes ≤ BLOCK_BYTES }
    {
        self.shape
    }

    /// A block of the memory, with each client.
    pub fn block(&self, block: u32) -> Option<&BlockState>
        ensures state { MatchOption result (self.now.shape.blocks ≤ block)
            (λ b. (block < self.now.shape.blocks) × (block_state b.now ≡ state_of_plain self.now block)) }
        ensures clients { IfSome result (λ b. length b.now.clients ≡ self.now.shape.clients) }
    {
        self.state(block as usize)
    }

    /// What a client may do with a block.
    #[tactic(auto, using(crate::proofs::Owned::none_past, crate::proofs::Owned::some_here))]
    pub fn perm(&self, client: ClientId, block: BlockNo) -> Perm
        ensures { result ≡ perm_of ((state_of_plain self.now block).client client).held }
    {
        match self.state(block.index()) {
            Some(state) => state.perm(client),
            None => Perm::None,
        }
    }

    /// The `len` bytes of a client's copy from an address on, where it has them and they are at most eight.
    #[tactic(auto, using(crate::proofs::Owned::none_past, crate::proofs::Owned::some_here))]
    pub fn read(&self, client: ClientId, address: u32, len: u32) -> Option<AccessBytes>
        ensures some { IsSome result
            ↔ CanRead ((state_of_plain self.now (address / self.now.shape.block_bytes)).client client).held
            (address % self.now.shape.block_bytes) len }
        ensures bytes { IfSome result
            (λ word. ReadsAs
            (bytes_of ((state_of_plain self.now (address / self.now.shape.block_bytes)).client client).held)
            (address % self.now.shape.block_bytes) word) }
        ensures len { IfSome result (λ word. length word ≡ len) }
    {
        let block = self.state((address / self.shape.block_bytes) as usize)?;
        block.read(client, address % self.shape.block_bytes, len)
    }

    /// How many clients have a copy of a block.
    pub fn held(&self, block: BlockNo) -> usize
        requires { block < self.now.shape.blocks }
        ensures { result ≡ count_clients has_copy self.now.shape.clients (state_of_plain self.now block).client }
    {
        self.the_state(block.index()).held()
    }

    /// For how many clients home records a permission on a block.
    pub fn recorded(&self, block: BlockNo) -> usize
        requires { block < self.now.shape.blocks }
        ensures { result ≡ count_clients is_recorded self.now.shape.clients (state_of_plain self.now block).client }
    {
        self.the_state(block.index()).recorded()
    }

    /// Whether home holds a block.
    #[tactic(auto, using(crate::proofs::Owned::none_past, crate::proofs::Owned::some_here))]
    pub fn is_at_home(&self, block: BlockNo) -> bool
        ensures { result ≡ is_some (state_of_plain self.now block).home }
    {
        match self.state(block.index()) {
            Some(state) => state.is_at_home(),
            None => false,
        }
    }

    /// Carries out an event that is known to be permitted. The error is want of memory; nothing changes then.
    #[inline]
    pub fn carry_out(&mut self, event: &Event) -> Result<(), AllocError>
        requires { May self.old.shape (state_of_plain self.old (block_of self.old.shape event.now)) event.now }
        ensures ok { OnOk result (IsStep self.old self.new event.now) }
        ensures err { OnErr result (self.new ≡ self.old) }
    {
        let block = event.block(self.shape);
        apply_at(self.alloc, &mut self.states, block, self.shape, event)?;
        Ok(())
    }

    /// Carries out an event that may come next: `NotPermitted` exactly where it may not, `Memory` where memory is
    /// refused. Nothing changes then.
    pub fn apply(&mut self, event: &Event) -> Result<(), ApplyError>
        ensures ok { OnOk result (IsStep self.old self.new event.now) }
        ensures err { OnErr result (self.new ≡ self.old) }
        ensures refused { (result ≡ Err ApplyError.NotPermitted)
            ↔ ¬ May self.old.shape (state_of_plain self.old (block_of self.old.shape event.now)) event.now }
    {
        if !may_follow(self, event) {
            return Err(ApplyError::NotPermitted);
        }
        match self.carry_out(event) {
            Ok(()) => Ok(()),
            Err(_) => Err(ApplyError::Memory),
        }
    }
}

/// Whether an event may come next.
pub fn may_follow(plain: &Plain, event: &Event) -> bool
    ensures { IsTrue result
        ↔ May plain.now.shape (state_of_plain plain.now (block_of plain.now.shape event.now)) event.now }
{
    let shape = plain.shape;
    match plain.state(event.block(shape) as usize) {
        Some(block) => block.may_follow(shape, event),
        None => false,
    }
}
