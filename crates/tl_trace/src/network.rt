//! All banks, and the steps that are asked of them.
ghost use Rattle.std.specs.Prelude.{◌≡◌, ◌<◌, ◌≤◌, ◌*◌, IfErr, IfOk, MatchResult, OnErr, OnOk, length, slice_index, slice_set};
ghost use Rattle.tl_trace.specs.Closing.{Close};
ghost use Rattle.tl_trace.specs.NetworkSteps.{AreNetworkSteps, IsNetworkStep, IsRefusedNetwork, IsStarvedNetwork};
ghost use Rattle.std.specs.Option.{option_map};
ghost use Rattle.tl_script_words.specs.declared.step.TicketCall.{TicketCall};
ghost use Rattle.tl_trace.specs.NetworkState.{AreCoherent, AreFresh, IsForgotten, IsReset, IsReserved, IsShort, bank_at};
ghost use Rattle.tl_bank_spec.specs.Views.{IsQuiet};
ghost use Rattle.tl_trace.specs.Rests.{IsAway, IsCutShort, RestsAt};
ghost use Rattle.tl_trace.specs.Would.{WouldComeTo};

use crate::asked::{bank_asked, bank_of_block, bank_or_first, client_named};
use crate::closing::closing;
use crate::shared_bank::SharedBank;
use std::alloc::{AllocError, Global};
use std::marker::Model;
use tl_bank::{Bank, Refusal};
use tl_map::Geometry;
use tl_script_words::{STEPS, Step};
use tl_text::{Answer, BankClosing};
use tl_types::{AccessBytes, BankNo, BlockNo, ClientId, Message, Prune, Ticket};

/// Every bank with its clients' shares, by number, and the clock of each client: all that steps are asked of.
#[derive(Drop)]
pub struct Network {
    geometry: Geometry,
    shared_banks: Vec<SharedBank>,
    clocks: Vec<u64>,
}

impl Model for Network {
    ghost use Rattle.std.specs.Prelude.{◌≡◌, length};
    ghost use Rattle.tl_trace.specs.NetworkState.{NetworkState};

    ghost Value = { NetworkState };

    ghost view = { λ p.
        record { geometry = p.geometry; shared_banks = p.shared_banks.items; clocks = p.clocks.items } };

    ghost invariant = { λ p. length p.shared_banks.items ≡ p.geometry.banks };
}

impl Network {
    /// All banks at reset over an image that is no longer than the memory. The error is want of memory.
    pub fn new(alloc: Global, geometry: Geometry, image: &[u8]) -> Result<Network, AllocError>
        requires { length image.now ≤ geometry.memory_blocks * geometry.block_bytes }
        ensures { IfOk result (IsReset geometry image.now) }
    {
        Ok(Network {
            geometry,
            shared_banks: shared_banks(alloc, geometry, image)?,
            clocks: vec![in alloc; 0; geometry.clients() as usize]?,
        })
    }

    /// One step, and its answer: a refusal is one. The error is want of memory; then nothing changes, and the log of
    /// the bank that the step names had no room.
    pub fn step(&mut self, index: u32, step: &Step) -> Result<Answer, AllocError>
        ensures memory { OnErr result (IsStarvedNetwork step.now self.old self.new) }
        ensures answer { IfOk result (IsNetworkStep index step.now self.old self.new) }
    {
        let mut answer = Answer::Done;
        self.step_into(index, step, &mut answer)?;
        Ok(answer)
    }

    /// One step, as `step`, with the answer in a place that the caller has for it. After an error what is in that place
    /// says nothing.
    pub fn step_into(
        &mut self,
        index: u32,
        step: &Step,
        answer: &mut Answer,
    ) -> Result<(), AllocError>
        ensures memory { OnErr result (IsStarvedNetwork step.now self.old self.new) }
        ensures answer { OnOk result (IsNetworkStep index step.now self.old self.new answer.new) }
    {
        let place = bank_asked(self.geometry, step);
        let client = client_named(step);
        let mut clock = self.clock(client);
        let done = self.shared_banks[place].ask(&mut clock, index, step, answer);
        self.set_clock(client, clock);
        done
    }

    /// A load, as a step of its own. The errors are the bank's refusals (`Bank::load`), `Memory` too; nothing changes
    /// then.
    pub fn load(
        &mut self,
        index: u32,
        client: ClientId,
        address: u32,
        len: u8,
    ) -> Result<AccessBytes, Refusal>
        ensures refused { IfErr result (IsRefusedNetwork index (Step.Load client address len) self.old self.new) }
        ensures done { IfOk result
            (λ bytes. IsNetworkStep index (Step.Load client address len) self.old self.new (Answer.Loaded bytes)) }
    {
        let place = bank_of_block(self.geometry, self.geometry.block_at(address));
        let mut clock = self.clock(client);
        let loaded = self.shared_banks[place].load(&mut clock, index, client, address, len);
        self.set_clock(client, clock);
        loaded
    }

    /// A store, as a step of its own. The errors are the bank's refusals (`Bank::store`), `Memory` too; nothing changes
    /// then.
    pub fn store(
        &mut self,
        index: u32,
        client: ClientId,
        address: u32,
        bytes: &[u8],
    ) -> Result<(), Refusal>
        ensures refused { IfErr result
            (IsRefusedNetwork index (Step.Store client address bytes.now) self.old self.new) }
        ensures done { IfOk result
            (λ _. IsNetworkStep index (Step.Store client address bytes.now) self.old self.new Answer.Done) }
    {
        let place = bank_of_block(self.geometry, self.geometry.block_at(address));
        let mut clock = self.clock(client);
        let stored = self.shared_banks[place].store(&mut clock, index, client, address, bytes);
        self.set_clock(client, clock);
        stored
    }

    /// What a Release would send, were it asked now. The error is the first refusal that stands against it
    /// (`Bank::release`), but for `Memory`.
    pub fn would_release(
        &self,
        client: ClientId,
        block: BlockNo,
        prune: Prune,
    ) -> Result<Message, Refusal>
        ensures { WouldComeTo self.now (Step.Release client block prune) result }
    {
        let place = bank_of_block(self.geometry, block);
        self.shared_banks[place].would_release(client, block, prune)
    }

    /// What the answer to a Probe would send, were it asked now. The error is the first refusal that stands against it
    /// (`Bank::answer_probe`), but for `Memory`.
    pub fn would_answer(&self, ticket: Ticket) -> Result<Message, Refusal>
        ensures { WouldComeTo self.now (Step.Ticket TicketCall.AnswerProbe ticket) result }
    {
        let place = bank_or_first(self.geometry, ticket.bank);
        self.shared_banks[place].would_answer(ticket)
    }

    /// The geometry of all banks.
    pub fn geometry(&self) -> Geometry
        ensures { result ≡ self.now.geometry }
    {
        self.geometry
    }

    /// A bank, if it is there.
    pub fn bank(&self, number: BankNo) -> Option<&Bank>
        ensures { option_map (λ bank. bank.now) result ≡ bank_at self.now number }
    {
        Some(self.shared_banks.get(number.index())?.bank())
    }

    /// Makes room in a bank's log for `count` more events, which then need no memory. `Memory` where memory is refused,
    /// which happens only where there was less room; nothing changes then.
    pub fn reserve_steps(&mut self, bank: BankNo, count: usize) -> Result<(), Refusal>
        requires { bank < self.now.geometry.banks }
        ensures short { OnErr result (IsShort bank count self.old self.new) }
        ensures room { OnOk result (IsReserved bank count self.old self.new) }
    {
        self.shared_banks[bank.index()].reserve_steps(count)
    }

    /// Forgets a bank's log so far, whose memory is room for more events.
    pub fn forget(&mut self, bank: BankNo)
        requires { bank < self.now.geometry.banks }
        ensures { IsForgotten bank self.old self.new }
    {
        self.shared_banks[bank.index()].forget();
    }

    /// Takes what is under way in a bank until it is quiet: how many events came, by each of which something was
    /// received. The error is `Memory` where there was none for one more; what was received before that stays, and a
    /// later call goes on.
    pub fn drain(&mut self, bank: BankNo) -> Result<u64, Refusal>
        requires { bank < self.now.geometry.banks }
        ensures { MatchResult result (λ count. RestsAt IsQuiet bank count self.old self.new)
            (λ refusal. (refusal ≡ Refusal.Memory) × IsCutShort bank self.old self.new) }
    {
        self.shared_banks[bank.index()].drain()
    }

    /// Drains a bank, and then sends each block away of which home has a copy: nobody has one then, and the memory has
    /// the bytes last stored. The answer and the error are as at `drain`.
    pub fn flush(&mut self, bank: BankNo) -> Result<u64, Refusal>
        requires { bank < self.now.geometry.banks }
        ensures { MatchResult result (λ count. RestsAt IsAway bank count self.old self.new)
            (λ refusal. (refusal ≡ Refusal.Memory) × IsCutShort bank self.old self.new) }
    {
        self.shared_banks[bank.index()].flush()
    }

    /// The clock of a client; 0 for a client that is not there.
    fn clock(&self, client: ClientId) -> u64
        ensures { result ≡ slice_index self.now.clocks client }
    {
        self.clocks.get(client.index()).copied().unwrap_or(0)
    }

    /// Sets the clock of a client, if it is there.
    fn set_clock(&mut self, client: ClientId, clock: u64)
        ensures { self.new ≡ record self.old { clocks = slice_set self.old.clocks client clock } }
    {
        if client.index() < self.clocks.len() {
            self.clocks[client.index()] = clock;
        }
    }

    /// All steps, and the answer to each. An error is a request for memory that was refused.
    pub(crate) fn steps(&mut self, alloc: Global, steps: &[Step]) -> Result<Vec<Answer>, AllocError>
        requires { length steps.now ≤ STEPS }
        ensures { IfOk result (λ answers. AreNetworkSteps 0 steps.now self.old answers.items self.new) }
    {
        let mut answers = Vec::new(alloc);
        for (index, step) in steps.iter().enumerate() {
            answers.push(self.step(index as u32, step)?)?;
        }
        Ok(answers)
    }

    /// What each bank shows.
    pub(crate) fn closings(&self, alloc: Global) -> Result<Vec<BankClosing>, AllocError>
        ensures closes { IfOk result (λ closings. Close self.now.shared_banks closings.items) }
        ensures coherent { OnOk result (AreCoherent self.now.shared_banks) }
    {
        closings(alloc, &self.shared_banks)
    }
}

/// All banks, by number, each at reset over an image that is no longer than the memory.
fn shared_banks(
    alloc: Global,
    geometry: Geometry,
    image: &[u8],
) -> Result<Vec<SharedBank>, AllocError>
    requires { length image.now ≤ geometry.memory_blocks * geometry.block_bytes }
    ensures count { IfOk result (λ shared_banks. length shared_banks.items ≡ geometry.banks) }
    ensures fresh { IfOk result (λ shared_banks. AreFresh geometry image.now 0 shared_banks.items) }
{
    let mut shared_banks = Vec::new(alloc);
    for number in 0..geometry.banks() {
        shared_banks.push(SharedBank::new(alloc, geometry, BankNo::new(number), image)?)?;
    }
    Ok(shared_banks)
}

/// What each bank shows.
fn closings(alloc: Global, shared_banks: &[SharedBank]) -> Result<Vec<BankClosing>, AllocError>
    ensures closes { IfOk result (λ closings. Close shared_banks.now closings.items) }
    ensures coherent { OnOk result (AreCoherent shared_banks.now) }
{
    let mut closings = Vec::new(alloc);
    for shared_bank in shared_banks {
        closings.push(closing(alloc, shared_bank.bank())?)?;
    }
    Ok(closings)
}
