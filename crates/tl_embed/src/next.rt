//! Which call moves a bank on, told as a request names it.
ghost use Rattle.std.specs.Prelude.{◌≡◌};
ghost use Rattle.tl_embed.specs.Next.{NextTold, by_block, by_ticket, call_told};

use crate::answer::Answer;
use tl_bank::Bank;
use tl_bank_rest::{Receiving, next_call};
use tl_types::{BlockNo, Ticket};

/// Tells a call of a bank by which something is received, and that it would not refuse now but for want of memory; 4
/// where the bank is quiet.
#[inline(never)]
pub fn tell_next(bank: &Bank, told: &mut Answer)
    ensures { NextTold bank.now told.new }
{
    match next_call(bank) {
        Some(call) => tell_call(call, told),
        None => told.set_status(4),
    }
}

/// Tells a call with its ticket or its block.
fn tell_call(call: Receiving, told: &mut Answer)
    ensures { told.new ≡ call_told call }
{
    match call {
        Receiving::AnswerProbe(ticket) => tell_by_ticket(5, ticket, told),
        Receiving::TakeGrant(ticket) => tell_by_ticket(6, ticket, told),
        Receiving::TakeReleaseAck(ticket) => tell_by_ticket(7, ticket, told),
        Receiving::Accept(ticket) => tell_by_ticket(8, ticket, told),
        Receiving::Advance(block) => tell_by_block(9, block, told),
        Receiving::TakeC(ticket) => tell_by_ticket(10, ticket, told),
        Receiving::TakeGrantAck(ticket) => tell_by_ticket(11, ticket, told),
        Receiving::ServeMemory(block) => tell_by_block(13, block, told),
        Receiving::TakeMemory(block) => tell_by_block(14, block, told),
    }
}

/// Tells a call with a ticket.
fn tell_by_ticket(call: u32, ticket: Ticket, told: &mut Answer)
    ensures { told.new ≡ by_ticket call ticket }
{
    told.set_status(0);
    told.what = 9;
    told.opcode = call;
    told.bank = ticket.bank.number();
    told.client = ticket.client.number();
    told.channel = ticket.channel.index() as u32;
    told.serial = ticket.serial;
}

/// Tells a call with a block.
fn tell_by_block(call: u32, block: BlockNo, told: &mut Answer)
    ensures { told.new ≡ by_block call block }
{
    told.set_status(0);
    told.what = 9;
    told.opcode = call;
    told.place = block.number();
}
