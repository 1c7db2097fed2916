//! What moves a bank on.
ghost use Rattle.std.specs.Prelude.{◌≡◌, ◌↔◌, ◌∷◌, [], List, None, Some, IfSome, ℕ};
ghost use Rattle.tl_types.specs.Bodies.{is_a_grant};
ghost use Rattle.tl_types.specs.declared.channel.Channel.{Channel};
ghost use Rattle.tl_protocol.specs.declared.home.Outward.TheVariants.{Quiet};
ghost use Rattle.tl_registers.specs.Register.{victim_of};
ghost use Rattle.tl_registers.specs.declared.register.Register.{Register};
ghost use Rattle.tl_bank_spec.specs.Own.{IsOwn};
ghost use Rattle.tl_bank_spec.specs.View.{end_at};
ghost use Rattle.tl_bank_spec.specs.Views.{IsQuiet};
ghost use Rattle.tl_bank_rest.specs.Heads.{AllTaken, IsEmpty, IsHead};
ghost use Rattle.tl_bank_rest.specs.Taken.{IsTaken};

use crate::receiving::Receiving;
use tl_bank::Bank;
use tl_protocol::Outward;
use tl_registers::Register;
use tl_types::{BlockNo, Body, Channel, ClientId, Message, Ticket};

/// A call that moves a bank on, and that the bank does not refuse but for want of memory for its log; one that takes a
/// share is made with that of the ticket's client. None just where the bank is quiet.
///
/// It is of the first of these that there is: a message on E, D, C or B, of the lowest client; what passes between home
/// and the memory of the oldest register's own block, or of its victim; that register's next action; a message on A.
pub fn next_call(bank: &Bank) -> Option<Receiving>
    ensures quiet { (result ≡ None) ↔ IsQuiet bank.now }
    ensures taken { IfSome result (λ call. IsTaken bank.now call) }
{
    if let Some(call) = next_message(bank) {
        return Some(call);
    }
    if let Some(register) = bank.registers().first() {
        return Some(next_of_register(bank, register));
    }
    next_acquire(bank)
}

/// What takes the first message on E, D, C or B: whoever it comes to takes it.
fn next_message(bank: &Bank) -> Option<Receiving>
    ensures taken { IfSome result (λ call. IsTaken bank.now call) }
    ensures none { result ≡ None → AllTaken bank.now }
{
    if let Some((ticket, _)) = head(bank, Channel::E) {
        return Some(Receiving::TakeGrantAck(ticket));
    }
    if let Some((ticket, message)) = head(bank, Channel::D) {
        return Some(next_on_d(bank, ticket, &message.body));
    }
    if let Some((ticket, _)) = head(bank, Channel::C) {
        return Some(Receiving::TakeC(ticket));
    }
    next_probe(bank)
}

/// What takes the first message on D, which is a Grant or a ReleaseAck.
fn next_on_d(bank: &Bank, ticket: Ticket, body: &Body) -> Receiving
    requires head { (block : ℕ) × IsHead bank.now Channel.D ticket (record { block = block; body = body.now }) }
    requires acknowledged { IsEmpty bank.now Channel.E }
    ensures { IsTaken bank.now result }
{
    // For the prover: the clauses alone name the bank.
    let _ = bank;
    if is_grant(body) {
        Receiving::TakeGrant(ticket)
    } else {
        Receiving::TakeReleaseAck(ticket)
    }
}

/// What answers the first Probe, where nothing is on C, D and E. No client waits for a ReleaseAck then.
fn next_probe(bank: &Bank) -> Option<Receiving>
    requires acknowledged { IsEmpty bank.now Channel.E }
    requires granted { IsEmpty bank.now Channel.D }
    requires answered { IsEmpty bank.now Channel.C }
    ensures taken { IfSome result (λ call. IsTaken bank.now call) }
    ensures none { result ≡ None → AllTaken bank.now }
{
    // For the prover: the log is a run.
    let _log = bank.log();
    let (ticket, _) = head(bank, Channel::B)?;
    Some(Receiving::AnswerProbe(ticket))
}

/// What moves the oldest register on: what passes of one of its blocks to the memory and back, else its next action.
fn next_of_register(bank: &Bank, register: &Register) -> Receiving
    requires oldest { (rest : List Register) × (bank.now.registers ≡ register.now ∷ rest) }
    requires silent { AllTaken bank.now }
    ensures { IsTaken bank.now result }
{
    // For the prover: the log is a run, and the registers agree with its end.
    let _log = bank.log();
    let _registers = bank.registers();
    if let Some(call) = next_at_memory(bank, register.own) {
        return call;
    }
    if let Some(call) = next_of_victim(bank, register) {
        return call;
    }
    Receiving::Advance(register.own)
}

/// What moves on what passes of a register's victim between home and the memory.
fn next_of_victim(bank: &Bank, register: &Register) -> Option<Receiving>
    ensures taken { IfSome result (λ call. IsTaken bank.now call) }
    ensures none { result ≡ None → (victim : ℕ) → victim_of register.now ≡ Some victim
        → IsOwn bank.now.geometry bank.now.number victim → (end_at bank.now victim).outward ≡ Quiet }
{
    next_at_memory(bank, register.victim()?)
}

/// What moves on what passes of a block between home and the memory.
fn next_at_memory(bank: &Bank, block: BlockNo) -> Option<Receiving>
    ensures taken { IfSome result (λ call. IsTaken bank.now call) }
    ensures none { result ≡ None → IsOwn bank.now.geometry bank.now.number block
        → (end_at bank.now block).outward ≡ Quiet }
{
    match bank.outward(block)? {
        Outward::Quiet => None,
        Outward::Get | Outward::Put(_) => Some(Receiving::ServeMemory(block)),
        Outward::Data(_) | Outward::PutAck => Some(Receiving::TakeMemory(block)),
    }
}

/// What takes the first Acquire, where nothing else is under way. Where there is none either, the bank is quiet.
fn next_acquire(bank: &Bank) -> Option<Receiving>
    requires closed { bank.now.registers ≡ [] }
    requires silent { AllTaken bank.now }
    ensures taken { IfSome result (λ call. IsTaken bank.now call) }
    ensures quiet { result ≡ None → IsQuiet bank.now }
{
    // For the prover: the log is a run, the registers agree with its end, and there are registers and ways.
    let _log = bank.log();
    let _registers = bank.registers();
    let _serves = bank.open_blocks();
    let _clients = bank.geometry().clients();
    let (ticket, _) = head(bank, Channel::A)?;
    Some(Receiving::Accept(ticket))
}

/// The first message on a channel, with its ticket, of the lowest client of which one waits there.
fn head(bank: &Bank, channel: Channel) -> Option<(Ticket, Message)>
    ensures found { IfSome result (λ head. IsHead bank.now channel head.0 head.1) }
    ensures none { result ≡ None → IsEmpty bank.now channel }
{
    for number in 0..bank.geometry().clients() {
        if let Some(head) = bank.waiting(ClientId::new(number), channel, 0) {
            return Some(head);
        }
    }
    None
}

/// Whether a message is a Grant.
fn is_grant(body: &Body) -> bool
    ensures { result ≡ is_a_grant body.now }
{
    match body {
        Body::Downward(message) => message.is_grant(),
        _ => false,
    }
}
