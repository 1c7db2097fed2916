//! The open registers of a bank.
ghost use Rattle.std.specs.Prelude.{◌≡◌, ◌≤◌, ◌<◌, ◌∷◌, ◌++◌, ◌==◌, Some, None, [], length, map, filter, IfSome};
ghost use Rattle.std.specs.Option.{option_copied};
ghost use Rattle.tl_registers.specs.declared.register.Task.{Task};
ghost use Rattle.tl_registers.specs.Register.{opened, acquire_task, IsKnown};
ghost use Rattle.tl_registers.specs.Marks.{IsMarked};
ghost use Rattle.tl_registers.specs.Registers.{register_of, due_of, is_busy, held_in, noted, ended, closed, without_evict, without_victim};

use crate::due::Due;
use crate::register::{Register, Task};
use crate::register_view::{BlockView, RegisterView};
use crate::way_of_set::WayOfSet;
use arrayvec::ArrayVec;
use std::marker::Model;
use tl_protocol::Accepted;
use tl_types::{BlockNo, CLIENTS, ClientId, REGISTERS};

/// The open registers, oldest first: at most as many as the geometry gives a bank.
#[derive(Drop)]
pub struct Registers {
    limit: usize,
    registers: ArrayVec<Register, 8>,
    /// A bit by the last six bits of a block's number: where it is not set, no register works on such a block. A
    /// register adds its own as it opens, and `close` makes them anew; of a block that left, one may stay till then.
    marks: u64,
}

impl Model for Registers {
    ghost use Rattle.std.specs.Prelude.{◌≤◌, length};
    ghost use Rattle.tl_registers.specs.Marks.{IsMarked};
    ghost use Rattle.tl_registers.specs.Registers.{RegisterTable};

    ghost Value = { RegisterTable };

    ghost view = { λ r. record { limit = r.limit; open_registers = r.registers.items } };

    ghost invariant = { λ r. (length r.registers.items ≤ r.limit) × (r.limit ≤ 8)
        × IsMarked r.registers.items r.marks };
}

impl Registers {
    /// No open register, and room for `limit`.
    pub fn new(limit: usize) -> Registers
        requires { limit ≤ REGISTERS }
        ensures { result ≡ record { limit = limit; open_registers = [] } }
    {
        Registers {
            limit,
            registers: ArrayVec::new(),
            marks: 0,
        }
    }

    /// The open registers.
    pub fn as_slice(&self) -> &[Register]
        ensures is { result.now ≡ self.now.open_registers }
        ensures few { length result.now ≤ REGISTERS }
    {
        self.registers.as_slice()
    }

    /// How many are open.
    pub fn len(&self) -> usize
        ensures is { result ≡ length self.now.open_registers }
        ensures within { result ≤ self.now.limit }
    {
        self.registers.len()
    }

    /// Whether none is open.
    pub fn is_empty(&self) -> bool
        ensures { result ≡ (length self.now.open_registers == 0) }
    {
        self.registers.is_empty()
    }

    /// Whether all are in use.
    pub fn is_full(&self) -> bool
        ensures { result ≡ (length self.now.open_registers == self.now.limit) }
    {
        self.len() == self.limit
    }

    /// Opens a register that serves an Acquire of the block `own` in a way, once the victim, where there is one, has
    /// left it.
    pub fn open_acquire(
        &mut self,
        own: BlockNo,
        acquire: Accepted,
        way: WayOfSet,
        victim: Option<BlockNo>,
    )
        requires { length self.old.open_registers < self.old.limit }
        ensures { self.new ≡ record self.old {
          open_registers = self.old.open_registers ++ opened own way (acquire_task acquire victim) ∷ [];
        } }
    {
        self.open(own, way, Task::acquire(acquire, victim));
    }

    /// Opens a register that sends the block `own` away, which is in a way.
    pub fn open_evict(&mut self, own: BlockNo, way: WayOfSet)
        requires { length self.old.open_registers < self.old.limit }
        ensures { self.new ≡ record self.old {
          open_registers = self.old.open_registers ++ opened own way Task.Evict ∷ [];
        } }
    {
        self.open(own, way, Task::Evict);
    }

    /// Opens a register. It takes the same time however many are open.
    fn open(&mut self, own: BlockNo, way: WayOfSet, task: Task)
        requires { length self.old.open_registers < self.old.limit }
        ensures { self.new ≡ record self.old { open_registers = self.old.open_registers ++ opened own way task ∷ [] } }
    {
        let register = Register::open(own, way, task);
        self.marks |= register.marks();
        self.registers.push(register);
    }

    /// The register whose own block it is.
    pub fn of_block(&self, block: BlockNo) -> Option<&Register>
        ensures { option_copied result ≡ register_of block self.now.open_registers }
    {
        self.as_slice()
            .iter()
            .find(|register| register.own == block)
    }

    /// What the register of the view's block does next: None where it waits, and where the block has none.
    pub fn next_action<V: RegisterView>(&self, view: &BlockView<'_, V>) -> Option<Due>
        requires few { (V.shape view.now.view.now).clients ≤ CLIENTS }
        requires known { IfSome (register_of view.now.block self.now.open_registers)
            (IsKnown (V.shape view.now.view.now).blocks) }
        ensures { result
            ≡ due_of (V.shape view.now.view.now) (V.state view.now.view.now)
            (register_of view.now.block self.now.open_registers) }
    {
        self.of_block(view.block)?.next_action(view.view)
    }

    /// Whether a block is the own block or the victim of an open register.
    pub fn is_busy(&self, block: BlockNo) -> bool
        ensures { result ≡ is_busy block self.now.open_registers }
    {
        if self.marks >> (block.number() % 64) & 1 == 0 {
            return false;
        }
        self.as_slice()
            .iter()
            .any(|register| register.works_on(block))
    }

    /// The numbers of the ways of a set that registers hold.
    pub fn held_in(&self, set: u32) -> ArrayVec<u32, 8>
        ensures { result.items ≡ held_in set self.now.open_registers }
    {
        let mut held = ArrayVec::new();
        for register in self.as_slice() {
            if register.way.set == set {
                held.push(register.way.way);
            }
        }
        held
    }

    /// The register of a block has sent a client a Probe.
    pub fn note_probe(&mut self, block: BlockNo, client: ClientId)
        requires { client < CLIENTS }
        ensures { self.new ≡ record self.old { open_registers = noted block client self.old.open_registers } }
    {
        note(self.registers.as_mut_slice(), block, client);
    }

    /// A victim is gone, by its drop or by the acknowledgement of its Put: an evict register of it closes, and an
    /// acquire register goes on without it.
    pub fn end_victim(&mut self, victim: BlockNo)
        ensures { self.new ≡ record self.old { open_registers = ended victim self.old.open_registers } }
    {
        self.close_evict(victim);
        end(self.registers.as_mut_slice(), victim);
    }

    fn close_evict(&mut self, block: BlockNo)
        ensures { self.new ≡ record self.old { open_registers = without_evict block self.old.open_registers } }
    {
        self.registers.retain(|register| !register.evicts(block));
    }

    /// Closes the register of a block.
    pub fn close(&mut self, block: BlockNo)
        ensures { self.new ≡ record self.old { open_registers = closed block self.old.open_registers } }
    {
        self.registers.retain(|register| register.own != block);
        self.marks = marks_of(self.registers.as_slice());
    }
}

fn note(registers: &mut [Register], block: BlockNo, client: ClientId)
    requires { client < CLIENTS }
    ensures { registers.new ≡ noted block client registers.old }
{
    for register in registers.iter_mut() {
        register.note_probe(block, client);
    }
}

fn end(registers: &mut [Register], victim: BlockNo)
    ensures { registers.new ≡ map (without_victim victim) registers.old }
{
    for register in registers.iter_mut() {
        register.end_victim(victim);
    }
}

/// The marks of all blocks that registers work on.
fn marks_of(registers: &[Register]) -> u64
    ensures { IsMarked registers.now result }
{
    let mut marks = 0;
    for register in registers {
        marks |= register.marks();
    }
    marks
}
