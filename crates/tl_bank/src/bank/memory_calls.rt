//! What passes between home and the memory: the memory answers a request, and home takes the answer.
ghost use Rattle.std.specs.Prelude.{◌≡◌, None, IfErr, IfOk, OnErr, OnOk};
ghost use Rattle.tl_bank_laws.specs.Memory.{RegisterHolds};
ghost use Rattle.tl_bank_spec.specs.Effects.{MemoryReplies, AppendsWith, TakesData, TakesMemory, TakesPutAck};
ghost use Rattle.tl_bank_spec.specs.HomeCalls.{serve_memory_cases, take_memory_cases};
ghost use Rattle.tl_bank_spec.specs.Refusal.{IsRefused, first_of};
ghost use Rattle.tl_bank_spec.specs.View.{end_at};
ghost use Rattle.tl_bank_spec.specs.Own.{way_at};
ghost use Rattle.tl_protocol.specs.Home.{IsData};
ghost use Rattle.tl_protocol.specs.declared.event.Event.{Event};
ghost use Rattle.tl_protocol.specs.declared.home.Outward.TheVariants.{PutAck};

use crate::bank::Bank;
use tl_bank_spec::Refusal;
use tl_memory::Reply;
use tl_protocol::Event;
use tl_types::BlockNo;
use tl_ways::Way;

impl Bank {
    /// The memory answers what home asked of it: a Get with the block's bytes, in beats, a PutFullData once it is
    /// written.
    ///
    /// The first of these that holds: `OutOfRange` where the block is not there; `WrongBank` where it is another
    /// bank's; `NothingThere` where the memory has no request of it; `Memory` where the log can't grow. Nothing changes
    /// then.
    pub fn serve_memory(&mut self, block: BlockNo) -> Result<Reply, Refusal>
        ensures refused { IfErr result (λ r. IsRefused (first_of (serve_memory_cases self.old block)) self.old.room r) }
        ensures unchanged { OnErr result (self.new ≡ self.old) }
        ensures permitted { OnOk result (first_of (serve_memory_cases self.old block) ≡ None) }
        ensures serves { OnOk result
            (AppendsWith self.old self.new (Event.Serve block) self.old.registers (way_at self.old)) }
        ensures reply { IfOk result (λ reply. MemoryReplies self.old block reply) }
    {
        self.check_serve(block)?;
        self.make_room()?;
        let reply = self.home.serve(block);
        self.log.append(Event::Serve(block));
        Ok(reply)
    }

    /// Home takes what the memory answered: the bytes of a Get, which then lie in the way that the block's register
    /// holds, or the acknowledgement of a PutFullData, which ends the victim.
    ///
    /// The first of these that holds: `OutOfRange` where the block is not there; `WrongBank` where it is another
    /// bank's; `NothingThere` where no answer waits; `Memory` where the log can't grow. Nothing changes then.
    pub fn take_memory(&mut self, block: BlockNo) -> Result<(), Refusal>
        ensures refused { IfErr result (λ r. IsRefused (first_of (take_memory_cases self.old block)) self.old.room r) }
        ensures unchanged { OnErr result (self.new ≡ self.old) }
        ensures permitted { OnOk result (first_of (take_memory_cases self.old block) ≡ None) }
        ensures takes { OnOk result (TakesMemory self.old self.new block) }
    {
        if let Some(refusal) = self.take_memory_refusal(block) {
            return Err(refusal);
        }
        if self.home.is_put_ack(block) {
            self.take_put_ack(block)
        } else {
            self.take_data(block)
        }
    }

    /// Home takes the bytes that it asked for.
    fn take_data(&mut self, block: BlockNo) -> Result<(), Refusal>
        requires permitted { first_of (take_memory_cases self.old block) ≡ None }
        requires data { IsData (end_at self.old block).outward }
        ensures refused { IfErr result (λ refusal. (refusal ≡ Refusal.Memory) × (self.old.room ≡ 0)) }
        ensures unchanged { OnErr result (self.new ≡ self.old) }
        ensures takes { OnOk result (TakesData self.old self.new block) }
    {
        let way = self.way_of_data(block);
        self.make_room()?;
        self.home.take_data(block, way);
        self.log.append(Event::TakeData(block));
        Ok(())
    }

    /// Home takes the acknowledgement of a Put: the victim is gone.
    fn take_put_ack(&mut self, block: BlockNo) -> Result<(), Refusal>
        requires permitted { first_of (take_memory_cases self.old block) ≡ None }
        requires put_ack { (end_at self.old block).outward ≡ PutAck }
        ensures refused { IfErr result (λ refusal. (refusal ≡ Refusal.Memory) × (self.old.room ≡ 0)) }
        ensures unchanged { OnErr result (self.new ≡ self.old) }
        ensures takes { OnOk result (TakesPutAck self.old self.new block) }
    {
        self.make_room()?;
        self.home.take_put_ack(block);
        self.registers.end_victim(block);
        self.log.append(Event::TakePutAck(block));
        Ok(())
    }

    /// The way that the register of a block holds whose bytes come.
    fn way_of_data(&self, block: BlockNo) -> Way
        requires { IsData (end_at self.now block).outward }
        ensures { RegisterHolds self.now block result }
    {
        let register = self.registers.of_block(block).unwrap();
        Way::new(register.way.way)
    }

    /// Nothing but why the memory does not answer, for want of memory for the log aside.
    fn check_serve(&self, block: BlockNo) -> Result<(), Refusal>
        ensures refused { IfErr result (λ r. first_of (serve_memory_cases self.now block) ≡ Some r) }
        ensures permitted { OnOk result (first_of (serve_memory_cases self.now block) ≡ None) }
    {
        if !self.geometry.has(block) {
            return Err(Refusal::OutOfRange);
        }
        if self.is_elsewhere(block) {
            return Err(Refusal::WrongBank);
        }
        if !self.home.may_serve(block) {
            return Err(Refusal::NothingThere);
        }
        Ok(())
    }

    /// Why home does not take what the memory answered, but for want of memory for the log.
    fn take_memory_refusal(&self, block: BlockNo) -> Option<Refusal>
        ensures { result ≡ first_of (take_memory_cases self.now block) }
    {
        if !self.geometry.has(block) {
            return Some(Refusal::OutOfRange);
        }
        if self.is_elsewhere(block) {
            return Some(Refusal::WrongBank);
        }
        if !self.home.is_data(block) && !self.home.is_put_ack(block) {
            return Some(Refusal::NothingThere);
        }
        None
    }
}
