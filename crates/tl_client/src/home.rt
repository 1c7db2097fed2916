//! A bank's home.
ghost use Rattle.std.specs.Prelude.{◌≡◌, ◌≤◌, ◌++◌, ◌∷◌, [], IfOk, OnOk, false, true};
ghost use Rattle.std.specs.List.{All};
ghost use Rattle.tl_client.specs.Homes.{Serves, Takes, Works};
ghost use Rattle.tl_client.specs.declared.turn.Turn.{Turn};
ghost use Rattle.tl_client_mail.specs.Ways.{HasRoom};
ghost use Rattle.tl_client_ports.specs.Ports.{Asks, asked};

use crate::progress::Progress;
use crate::turn::Turn;
use std::alloc::{AllocError, Global};
use std::marker::Model;
use std::sync::Wait;
use std::time::Clock;
use tl_bank::{Action, Refusal};
use tl_client_mail::{BATCH, Links, Mail, Rest, Waiting};
use tl_client_ports::{FirstStep, Gate, HomePort};
use tl_types::{BankNo, BlockNo, Channel, Ticket};

/// A bank's home. Contracts see its bank, and the tickets that wait.
#[derive(Drop)]
pub struct Home {
    bank: BankNo,
    /// The tickets that this turn took.
    taken: Vec<Ticket>,
    waiting: Waiting,
    progress: Progress,
    rest: Rest,
    /// Whether a register may be open.
    may_be_open: bool,
    /// Whether the bank may have changed since it was last asked whether it is quiet.
    has_changed: bool,
    /// Whether the inbox may have tickets: its bell rang, or the last turn that took some took as many as a turn takes.
    may_have_mail: bool,
}

impl Model for Home {
    ghost use Rattle.tl_client.specs.Homes.{Waits};

    ghost Value = { Waits };

    ghost view = { λ h. record { bank = h.bank; waiting = h.waiting } };
}

impl Home {
    /// The home of a bank, which has no tickets. The error is want of memory.
    pub fn new(alloc: Global, bank: BankNo) -> Result<Home, AllocError>
        ensures { IfOk result
            (λ h. h ≡ record { bank = bank; waiting = record { kept = []; rest = []; room = BATCH } }) }
    {
        Ok(Home {
            bank,
            taken: Vec::with_capacity(alloc, BATCH)?,
            waiting: Waiting::new(alloc, BATCH)?,
            progress: Progress::new(),
            rest: Rest::new(),
            may_be_open: true,
            has_changed: true,
            may_have_mail: true,
        })
    }

    /// One turn, over any port and gate. What it takes of its inbox, at most `BATCH` tickets, joins those that wait: on
    /// E, then C, then A. It asks its bank each of them once, in order, but none of whose client and channel an earlier
    /// one was refused; the refused and those behind them wait on. An idle turn, and one that finds all done, asks none
    /// and takes none. No turn rings the done bell.
    pub fn turn<P: HomePort, G: Gate, R: Wait + Clock>(
        &mut self,
        rt: &R,
        port: &mut P,
        _gate: &G,
        clients: u32,
        mail: &mut Mail<'_>,
    ) -> Turn
        ensures works { result ≡ Turn.Worked
            → Works clients mail.old.inbox self.old mail.new.inbox self.new (P.asked port.new) }
        ensures idle { result ≡ Turn.Idle
            → (self.new ≡ self.old) × (P.asked port.new ≡ P.asked port.old) × (mail.new.inbox ≡ mail.old.inbox) }
        ensures finished { result ≡ Turn.Finished → (self.new ≡ self.old) × (P.asked port.new ≡ P.asked port.old)
            × (mail.new.inbox ≡ mail.old.inbox) × (clients ≤ mail.new.done.seat.seen) }
        ensures rung { mail.new.done.seat.rung ≡ mail.old.done.seat.rung }
    {
        let is_due = self.progress.is_due() || !self.waiting.is_empty() || mail.has_back();
        mail.send_again(rt);
        let is_rung = mail.is_rung();
        if self.is_finished(port, clients, mail) {
            return Turn::Finished;
        }
        if !is_rung && !is_due {
            self.rest.after_turn(rt, mail.parker(), false);
            return Turn::Idle;
        }
        self.has_changed = true;
        self.may_have_mail = self.may_have_mail || is_rung;
        match self.work(rt, port, clients, mail) {
            Ok(()) => Turn::Worked,
            Err(_) => {
                self.progress.go_on();
                Turn::Memory
            }
        }
    }

    /// Whether all clients are done and nothing is under way in the bank. Then all receivers hear of it.
    fn is_finished<P: HomePort>(&mut self, port: &P, clients: u32, mail: &mut Mail<'_>) -> bool
        ensures done { result ≡ true → clients ≤ mail.new.done.seat.seen }
        ensures rung { mail.new.done.seat.rung ≡ mail.old.done.seat.rung }
        ensures same { self.new ≡ self.old }
        ensures inbox { mail.new.inbox ≡ mail.old.inbox }
    {
        if mail.done() < u64::from(clients) || !self.has_changed {
            return false;
        }
        self.has_changed = port.is_quiet();
        if self.has_changed {
            mail.wake_all();
        }
        self.has_changed
    }

    /// A turn in which something is to be done.
    fn work<P: HomePort, R: Wait + Clock>(
        &mut self,
        rt: &R,
        port: &mut P,
        clients: u32,
        mail: &mut Mail<'_>,
    ) -> Result<(), AllocError>
        ensures works { OnOk result (Works clients mail.old.inbox self.old mail.new.inbox self.new (P.asked port.new)) }
        ensures done { mail.new.done ≡ mail.old.done }
    {
        port.begin();
        self.take_tickets(rt, clients, mail)?;
        self.serve_tickets(rt, port, mail)?;
        self.advance_registers(rt, port, mail)?;
        self.rest
            .after_turn(rt, mail.parker(), self.progress.has_worked());
        Ok(())
    }

    /// Takes the tickets of the inbox, where there may be some.
    fn take_tickets<R: Wait>(
        &mut self,
        rt: &R,
        clients: u32,
        mail: &mut Mail<'_>,
    ) -> Result<(), AllocError>
        ensures takes { OnOk result (Takes clients mail.old.inbox self.old mail.new.inbox self.new) }
        ensures done { mail.new.done ≡ mail.old.done }
    {
        self.progress.begin();
        if !self.may_have_mail {
            return Ok(());
        }
        self.take_mail(rt, clients, mail)
    }

    /// Takes the tickets of the inbox, at most `BATCH`, and lays them behind those that wait: those on E, then C, then
    /// A.
    fn take_mail<R: Wait>(
        &mut self,
        rt: &R,
        clients: u32,
        mail: &mut Mail<'_>,
    ) -> Result<(), AllocError>
        ensures takes { OnOk result (Takes clients mail.old.inbox self.old mail.new.inbox self.new) }
        ensures done { mail.new.done ≡ mail.old.done }
    {
        self.taken.clear();
        self.taken.reserve(BATCH)?;
        self.waiting.make_room(3 * BATCH)?;
        let links = Links::OfBank(self.bank, clients as usize);
        self.may_have_mail = false;
        if mail.take_tickets(rt, &links, &mut self.taken) {
            self.may_have_mail = true;
            self.progress.go_on();
        }
        self.waiting.push_all(&self.taken, Channel::E);
        self.waiting.push_all(&self.taken, Channel::C);
        self.waiting.push_all(&self.taken, Channel::A);
        Ok(())
    }

    /// Serves the tickets in order. A refused one is kept, and no later one of its client and channel is asked before
    /// it.
    fn serve_tickets<P: HomePort, R: Wait>(
        &mut self,
        rt: &R,
        port: &mut P,
        mail: &mut Mail<'_>,
    ) -> Result<(), AllocError>
        ensures served { OnOk result (Serves self.old (P.asked port.old) self.new (P.asked port.new)) }
        ensures inbox { mail.new.inbox ≡ mail.old.inbox }
        ensures done { mail.new.done ≡ mail.old.done }
    {
        self.waiting.begin();
        while let Some(ticket) = self.waiting.next() {
            if self.serve(rt, port, mail, ticket)? {
                self.waiting.served();
            } else {
                self.waiting.refused();
            }
        }
        Ok(())
    }

    /// Serves a ticket. `false` where it was refused.
    fn serve<P: HomePort, R: Wait>(
        &mut self,
        rt: &R,
        port: &mut P,
        mail: &mut Mail<'_>,
        ticket: Ticket,
    ) -> Result<bool, AllocError>
        ensures asked { IfOk result (λ served. P.asked port.new ≡ P.asked port.old ++ asked ticket served ∷ []) }
        ensures same { self.new ≡ self.old }
        ensures inbox { mail.new.inbox ≡ mail.old.inbox }
        ensures done { mail.new.done ≡ mail.old.done }
    {
        mail.make_room()?;
        let channel = ticket.channel;
        match ask(port, ticket) {
            Ok(sent) => {
                self.served(rt, mail, channel, sent);
                Ok(true)
            }
            Err(refusal) => self.progress.refused(refusal),
        }
    }

    /// A ticket was served, and what it sent goes its way.
    fn served<R: Wait>(
        &mut self,
        rt: &R,
        mail: &mut Mail<'_>,
        channel: Channel,
        sent: Option<Ticket>,
    )
        requires { All HasRoom mail.old.ways }
        ensures same { self.new ≡ self.old }
        ensures inbox { mail.new.inbox ≡ mail.old.inbox }
        ensures done { mail.new.done ≡ mail.old.done }
    {
        self.progress.succeed();
        self.may_be_open = self.may_be_open || channel == Channel::A;
        if let Some(ack) = sent {
            mail.send(rt, ack.client.index(), ack);
        }
    }

    /// One step of each open register.
    fn advance_registers<P: HomePort, R: Wait>(
        &mut self,
        rt: &R,
        port: &mut P,
        mail: &mut Mail<'_>,
    ) -> Result<(), AllocError>
        ensures asked { P.asked port.new ≡ P.asked port.old }
        ensures same { self.new ≡ self.old }
        ensures inbox { mail.new.inbox ≡ mail.old.inbox }
        ensures done { mail.new.done ≡ mail.old.done }
    {
        if !self.may_be_open {
            return Ok(());
        }
        mail.make_room()?;
        let FirstStep { open, answer } = port.advance_first();
        self.may_be_open = !open.is_empty();
        let Some(answer) = answer else {
            return Ok(());
        };
        let Some((first, later)) = open.as_slice().split_first() else {
            return Ok(());
        };
        self.answered(rt, port, mail, *first, answer)?;
        for block in later {
            self.advance(rt, port, mail, *block)?;
        }
        Ok(())
    }

    /// One step of the register of a block.
    fn advance<P: HomePort, R: Wait>(
        &mut self,
        rt: &R,
        port: &mut P,
        mail: &mut Mail<'_>,
        block: BlockNo,
    ) -> Result<(), AllocError>
        ensures asked { P.asked port.new ≡ P.asked port.old }
        ensures same { self.new ≡ self.old }
        ensures inbox { mail.new.inbox ≡ mail.old.inbox }
        ensures done { mail.new.done ≡ mail.old.done }
    {
        mail.make_room()?;
        let answer = port.advance(block);
        self.answered(rt, port, mail, block, answer)
    }

    /// What comes of a register that was asked for its step.
    #[inline(always)]
    fn answered<P: HomePort, R: Wait>(
        &mut self,
        rt: &R,
        port: &mut P,
        mail: &mut Mail<'_>,
        block: BlockNo,
        answer: Result<Action, Refusal>,
    ) -> Result<(), AllocError>
        requires { All HasRoom mail.old.ways }
        ensures asked { P.asked port.new ≡ P.asked port.old }
        ensures same { self.new ≡ self.old }
        ensures inbox { mail.new.inbox ≡ mail.old.inbox }
        ensures done { mail.new.done ≡ mail.old.done }
    {
        match answer {
            Ok(action) => {
                self.progress.succeed();
                self.follow(rt, port, mail, block, action)
            }
            Err(refusal) => self.progress.refuse(refusal),
        }
    }

    /// What comes of a register's step: a ticket goes its way, or the memory serves.
    fn follow<P: HomePort, R: Wait>(
        &mut self,
        rt: &R,
        port: &mut P,
        mail: &mut Mail<'_>,
        block: BlockNo,
        action: Action,
    ) -> Result<(), AllocError>
        requires { All HasRoom mail.old.ways }
        ensures asked { P.asked port.new ≡ P.asked port.old }
        ensures same { self.new ≡ self.old }
        ensures inbox { mail.new.inbox ≡ mail.old.inbox }
        ensures done { mail.new.done ≡ mail.old.done }
    {
        match action {
            Action::Probe(ticket) | Action::Grant(ticket) => {
                mail.send(rt, ticket.client.index(), ticket);
                Ok(())
            }
            Action::Get => self.ask_memory(port, block),
            Action::Put(victim) => self.ask_memory(port, victim),
            Action::Drop => Ok(()),
        }
    }

    /// The memory serves what was asked of a block, and home takes its answer.
    fn ask_memory<P: HomePort>(&mut self, port: &mut P, block: BlockNo) -> Result<(), AllocError>
        ensures asked { P.asked port.new ≡ P.asked port.old }
        ensures same { self.new ≡ self.old }
    {
        match port.pass_memory(block) {
            Ok(()) => Ok(()),
            Err(refusal) => self.progress.refuse(refusal),
        }
    }
}

/// A bank is asked a ticket, by the channel that it is on.
fn ask<P: HomePort>(port: &mut P, ticket: Ticket) -> Result<Option<Ticket>, Refusal>
    ensures { Asks ticket result (P.asked port.old) (P.asked port.new) }
{
    match ticket.channel {
        Channel::E => port.take_grant_ack(ticket).map(|()| None),
        Channel::C => port.take_c(ticket),
        _ => port.accept(ticket).map(|()| None),
    }
}
