//! What an agent does beside answering commands: it serves tickets, and asks for the copies that its command needs.
ghost use Rattle.std.specs.Prelude.{◌≡◌, ◌≢◌, ◌++◌, ◌∷◌, [], false, true, vec_len, IfOk, OnErr, OnOk};
ghost use Rattle.std.specs.List.{All};
ghost use Rattle.tl_client.specs.Agents.{AsksTwice, IsAsked, IsSameLinks, ServesDownward, ServesProbes, StaysQuiet, Takes, quiet_links};
ghost use Rattle.tl_client_mail.specs.Ways.{HasRoom, sent_by};
ghost use Rattle.tl_client_ports.specs.Ports.{Asks, asked};

use crate::carry_out::address_of;
use crate::progress::Progress;
use std::alloc::{AllocError, Global};
use std::marker::Model;
use std::sync::Wait;
use tl_bank::{Refusal, Share};
use tl_client_mail::{BATCH, Links, Mail, Waiting};
use tl_client_ports::Port;
use tl_map::Geometry;
use tl_script_words::Command;
use tl_types::{BankNo, BlockNo, Channel, ClientId, Grow, Prune, Ticket};

/// A kind of answer of home to a client.
#[derive(Clone, Copy, Debug, PartialEq, Eq)]
enum Answer {
    Grant,
    ReleaseAck,
}

impl Answer {
    /// The other kind.
    fn other(self) -> Answer {
        match self {
            Answer::Grant => Answer::ReleaseAck,
            Answer::ReleaseAck => Answer::Grant,
        }
    }
}

/// A client's side of its links: its tickets, its shares, and what it waits for. Contracts see the client, the number
/// of banks, whether an answer of home is awaited, and the tickets that wait.
#[derive(Drop)]
pub(crate) struct Requester {
    client: ClientId,
    geometry: Geometry,
    /// The client's share of each bank, by number.
    shares: Vec<Share>,
    /// The tickets that this turn took.
    taken: Vec<Ticket>,
    /// Grants and ReleaseAcks that are to be taken.
    downward: Waiting,
    /// Probes that are to be answered.
    probes: Waiting,
    /// The answer of home that the present command waits for.
    awaited: Option<Answer>,
    progress: Progress,
    /// Whether the inbox may have tickets: its bell rang, or the last turn that took some took as many as a turn takes.
    may_have_mail: bool,
}

impl Model for Requester {
    ghost use Rattle.std.specs.Prelude.{is_some, vec_len};
    ghost use Rattle.tl_client.specs.Agents.{ClientLinks};

    ghost Value = { ClientLinks };

    ghost view = { λ r.
        record {
          client = r.client;
          banks = vec_len r.shares;
          awaits = is_some r.awaited;
          downward = r.downward;
          probes = r.probes;
        } };
}

/// For how many tickets of each channel a client has room from the start.
pub(crate) const ROOM: usize = 2 * BATCH;

impl Requester {
    /// A client that waits for nothing, with its share of each bank by number.
    pub(crate) fn new(
        alloc: Global,
        client: ClientId,
        geometry: Geometry,
        shares: Vec<Share>,
    ) -> Result<Requester, AllocError>
        ensures { IfOk result (λ links. links ≡ quiet_links client (vec_len shares) ROOM) }
    {
        Ok(Requester {
            client,
            geometry,
            shares,
            taken: Vec::with_capacity(alloc, BATCH)?,
            downward: Waiting::new(alloc, ROOM)?,
            probes: Waiting::new(alloc, ROOM)?,
            awaited: None,
            progress: Progress::new(),
            may_have_mail: true,
        })
    }

    /// The shares.
    pub(crate) fn into_shares(self) -> Vec<Share> {
        self.shares
    }

    /// The client.
    pub(crate) fn client(&self) -> ClientId
        ensures { result ≡ self.now.client }
    {
        self.client
    }

    /// The block of a command.
    pub(crate) fn block_of(&self, command: &Command) -> BlockNo {
        self.geometry.block_at(address_of(command))
    }

    /// Whether the present command waits for an answer of home.
    pub(crate) fn is_waiting(&self) -> bool
        ensures { result ≡ self.now.awaits }
    {
        self.awaited.is_some()
    }

    /// The bell of the inbox rang.
    pub(crate) fn hear(&mut self)
        ensures { self.new ≡ self.old }
    {
        self.may_have_mail = true;
    }

    /// The next turn has something to do.
    pub(crate) fn go_on(&mut self)
        ensures { self.new ≡ self.old }
    {
        self.progress.go_on();
    }

    /// The present command was answered.
    pub(crate) fn succeed(&mut self)
        ensures { self.new ≡ self.old }
    {
        self.progress.succeed();
    }

    /// The present command was refused. Want of memory is an error.
    pub(crate) fn refuse(&mut self, refusal: Refusal) -> Result<(), AllocError>
        ensures { self.new ≡ self.old }
    {
        self.progress.refuse(refusal)
    }

    /// Whether a call succeeded in this turn.
    pub(crate) fn has_worked(&self) -> bool {
        self.progress.has_worked()
    }

    /// Whether something is to be done but for what the bell brings.
    pub(crate) fn is_due(&self) -> bool {
        self.progress.is_due() || !self.downward.is_empty() || !self.probes.is_empty()
    }

    /// A turn begins: the tickets of the inbox, where there may be some, join those that wait.
    pub(crate) fn take_tickets<R: Wait>(
        &mut self,
        rt: &R,
        mail: &mut Mail<'_>,
    ) -> Result<(), AllocError>
        ensures takes { OnOk result (Takes mail.old.inbox self.old mail.new.inbox self.new) }
        ensures client { self.new.client ≡ self.old.client }
        ensures awaits { self.new.awaits ≡ self.old.awaits }
        ensures sent { sent_by mail.new ≡ sent_by mail.old }
        ensures done { mail.new.done ≡ mail.old.done }
    {
        self.progress.begin();
        if !self.may_have_mail {
            return Ok(());
        }
        self.take_mail(rt, mail)
    }

    /// Takes the tickets of the inbox, at most `BATCH`, and lays each behind the others of its channel.
    fn take_mail<R: Wait>(&mut self, rt: &R, mail: &mut Mail<'_>) -> Result<(), AllocError>
        ensures takes { OnOk result (Takes mail.old.inbox self.old mail.new.inbox self.new) }
        ensures client { self.new.client ≡ self.old.client }
        ensures awaits { self.new.awaits ≡ self.old.awaits }
        ensures sent { sent_by mail.new ≡ sent_by mail.old }
        ensures done { mail.new.done ≡ mail.old.done }
    {
        self.taken.clear();
        self.taken.reserve(BATCH)?;
        self.downward.make_room(BATCH)?;
        self.probes.make_room(BATCH)?;
        let links = Links::OfClient(self.client, self.shares.len());
        self.may_have_mail = false;
        if mail.take_tickets(rt, &links, &mut self.taken) {
            self.may_have_mail = true;
            self.progress.go_on();
        }
        self.downward.push_all(&self.taken, Channel::D);
        self.probes.push_all(&self.taken, Channel::B);
        Ok(())
    }

    /// Serves the tickets on channel D in order. A refused one is kept, and no later one of its bank is asked before
    /// it.
    pub(crate) fn serve_downward<P: Port, R: Wait>(
        &mut self,
        rt: &R,
        port: &mut P,
        mail: &mut Mail<'_>,
    ) -> Result<(), AllocError>
        ensures served { OnOk result (ServesDownward self.old (P.asked port.old) self.new (P.asked port.new)) }
        ensures quiet { OnOk result
            (StaysQuiet self.old (sent_by mail.old) self.new (sent_by mail.new) (P.asked port.new)) }
        ensures client { self.new.client ≡ self.old.client }
        ensures successes { P.successes port.new ≡ P.successes port.old }
        ensures inbox { mail.new.inbox ≡ mail.old.inbox }
        ensures done { mail.new.done ≡ mail.old.done }
    {
        self.downward.begin();
        while let Some(ticket) = self.downward.next() {
            let served = self.take_answer(rt, port, mail, ticket)?;
            self.downward.answered(served);
        }
        Ok(())
    }

    /// Serves the tickets on channel B in order. A refused one is kept, and no later one of its bank is asked before
    /// it.
    pub(crate) fn serve_probes<P: Port, R: Wait>(
        &mut self,
        rt: &R,
        port: &mut P,
        mail: &mut Mail<'_>,
    ) -> Result<(), AllocError>
        ensures served { OnOk result (ServesProbes self.old (P.asked port.old) self.new (P.asked port.new)) }
        ensures quiet { OnOk result
            (StaysQuiet self.old (sent_by mail.old) self.new (sent_by mail.new) (P.asked port.new)) }
        ensures client { self.new.client ≡ self.old.client }
        ensures successes { P.successes port.new ≡ P.successes port.old }
        ensures inbox { mail.new.inbox ≡ mail.old.inbox }
        ensures done { mail.new.done ≡ mail.old.done }
    {
        self.probes.begin();
        while let Some(ticket) = self.probes.next() {
            let served = self.answer_probe(rt, port, mail, ticket)?;
            self.probes.answered(served);
        }
        Ok(())
    }

    /// Takes home's answer to an Acquire or a Release, and sends the GrantAck's ticket. `false` where it was refused.
    fn take_answer<P: Port, R: Wait>(
        &mut self,
        rt: &R,
        port: &mut P,
        mail: &mut Mail<'_>,
        ticket: Ticket,
    ) -> Result<bool, AllocError>
        ensures asked { IfOk result (λ served. IsAsked (asked ticket served) (P.asked port.old) (P.asked port.new)) }
        ensures same { IsSameLinks self.old self.new }
        ensures refused { IfOk result (λ served. served ≡ false → self.new ≡ self.old) }
        ensures sent { IfOk result (λ served. served ≡ false → sent_by mail.new ≡ sent_by mail.old) }
        ensures successes { P.successes port.new ≡ P.successes port.old }
        ensures inbox { mail.new.inbox ≡ mail.old.inbox }
        ensures done { mail.new.done ≡ mail.old.done }
    {
        mail.make_room()?;
        match self.ask_as_either(port, ticket) {
            Ok(sent) => {
                self.served(rt, mail, sent);
                Ok(true)
            }
            Err(refusal) => self.progress.refused(refusal),
        }
    }

    /// Answers a Probe, and sends the answer's ticket. `false` where it was refused.
    fn answer_probe<P: Port, R: Wait>(
        &mut self,
        rt: &R,
        port: &mut P,
        mail: &mut Mail<'_>,
        ticket: Ticket,
    ) -> Result<bool, AllocError>
        ensures asked { IfOk result (λ served. P.asked port.new ≡ P.asked port.old ++ asked ticket served ∷ []) }
        ensures same { self.new ≡ self.old }
        ensures sent { IfOk result (λ served. served ≡ false → sent_by mail.new ≡ sent_by mail.old) }
        ensures successes { P.successes port.new ≡ P.successes port.old }
        ensures inbox { mail.new.inbox ≡ mail.old.inbox }
        ensures done { mail.new.done ≡ mail.old.done }
    {
        mail.make_room()?;
        match self.ask_probe(port, ticket) {
            Ok(answer) => {
                self.served(rt, mail, Some(answer));
                Ok(true)
            }
            Err(refusal) => self.progress.refused(refusal),
        }
    }

    /// A ticket was served, and what it sent goes its way.
    fn served<R: Wait>(&mut self, rt: &R, mail: &mut Mail<'_>, sent: Option<Ticket>)
        requires { All HasRoom mail.old.ways }
        ensures same { self.new ≡ self.old }
        ensures inbox { mail.new.inbox ≡ mail.old.inbox }
        ensures done { mail.new.done ≡ mail.old.done }
    {
        self.progress.succeed();
        if let Some(ticket) = sent {
            mail.send(rt, ticket.bank.index(), ticket);
        }
    }

    /// A bank is asked for an answer of home: first as the kind that is awaited, and where it is not that, as the
    /// other.
    fn ask_as_either<P: Port>(
        &mut self,
        port: &mut P,
        ticket: Ticket,
    ) -> Result<Option<Ticket>, Refusal>
        ensures asked { AsksTwice ticket result (P.asked port.old) (P.asked port.new) }
        ensures same { IsSameLinks self.old self.new }
        ensures refused { OnErr result (self.new ≡ self.old) }
        ensures successes { P.successes port.new ≡ P.successes port.old }
    {
        let again = ticket;
        let kind = self.awaited.unwrap_or(Answer::Grant);
        match self.ask_as(port, kind, ticket) {
            Err(Refusal::NotHead) => self.ask_as(port, kind.other(), again),
            answer => answer,
        }
    }

    /// A bank is asked for an answer of home of this kind, which is then no longer awaited. The GrantAck's ticket, if
    /// there is one.
    fn ask_as<P: Port>(
        &mut self,
        port: &mut P,
        kind: Answer,
        ticket: Ticket,
    ) -> Result<Option<Ticket>, Refusal>
        ensures asked { Asks ticket result (P.asked port.old) (P.asked port.new) }
        ensures same { IsSameLinks self.old self.new }
        ensures refused { OnErr result (self.new ≡ self.old) }
        ensures successes { P.successes port.new ≡ P.successes port.old }
    {
        let sent = match kind {
            Answer::Grant => Some(self.ask_grant(port, ticket)?),
            Answer::ReleaseAck => {
                port.take_release_ack(ticket)?;
                None
            }
        };
        if self.awaited == Some(kind) {
            self.awaited = None;
        }
        Ok(sent)
    }

    /// A bank is asked for a Grant, with the client's share of it. One of which there is no share refuses the ticket.
    fn ask_grant<P: Port>(&mut self, port: &mut P, ticket: Ticket) -> Result<Ticket, Refusal>
        ensures asked { Asks ticket result (P.asked port.old) (P.asked port.new) }
        ensures same { self.new ≡ self.old }
        ensures successes { P.successes port.new ≡ P.successes port.old }
    {
        match self.shares.get_mut(ticket.bank.index()) {
            Some(share) => port.take_grant(ticket, share),
            None => port.take_grant(ticket, &mut Share::default()),
        }
    }

    /// A bank is asked to take a Probe's answer, with the client's share of it. One of which there is no share refuses
    /// the ticket.
    fn ask_probe<P: Port>(&mut self, port: &mut P, ticket: Ticket) -> Result<Ticket, Refusal>
        ensures asked { Asks ticket result (P.asked port.old) (P.asked port.new) }
        ensures same { self.new ≡ self.old }
        ensures successes { P.successes port.new ≡ P.successes port.old }
    {
        match self.shares.get_mut(ticket.bank.index()) {
            Some(share) => port.answer_probe(ticket, share),
            None => port.answer_probe(ticket, &mut Share::default()),
        }
    }

    /// Asks for the copy that a command needs, or gives up the one that it drops. What it sends is to be answered.
    pub(crate) fn change_copy<P: Port, R: Wait>(
        &mut self,
        rt: &R,
        port: &mut P,
        mail: &mut Mail<'_>,
        command: &Command,
    ) -> Result<(), AllocError>
        ensures same { IsSameLinks self.old self.new }
        ensures awaits { sent_by mail.new ≢ sent_by mail.old → self.new.awaits ≡ true }
        ensures waits { self.old.awaits ≡ true → self.new.awaits ≡ true }
        ensures asked { P.asked port.new ≡ P.asked port.old }
        ensures successes { P.successes port.new ≡ P.successes port.old }
        ensures inbox { mail.new.inbox ≡ mail.old.inbox }
        ensures done { mail.new.done ≡ mail.old.done }
    {
        let block = self.block_of(command);
        match command {
            Command::Load { address: _, len: _ } => {
                self.acquire(rt, port, mail, block, Grow::NtoB)
            }
            Command::Store {
                address: _,
                bytes: _,
            } => self.acquire(rt, port, mail, block, Grow::NtoT),
            Command::Drop { address: _ } => self.give_up(rt, port, mail, block),
        }
    }

    /// Asks for a copy; where the table of copies is full, gives up the one that was granted longest ago.
    fn acquire<P: Port, R: Wait>(
        &mut self,
        rt: &R,
        port: &mut P,
        mail: &mut Mail<'_>,
        block: BlockNo,
        grow: Grow,
    ) -> Result<(), AllocError>
        ensures same { IsSameLinks self.old self.new }
        ensures awaits { sent_by mail.new ≢ sent_by mail.old → self.new.awaits ≡ true }
        ensures waits { self.old.awaits ≡ true → self.new.awaits ≡ true }
        ensures asked { P.asked port.new ≡ P.asked port.old }
        ensures successes { P.successes port.new ≡ P.successes port.old }
        ensures inbox { mail.new.inbox ≡ mail.old.inbox }
        ensures done { mail.new.done ≡ mail.old.done }
    {
        mail.make_room()?;
        match ask_acquire(port, self.client, block, grow) {
            Ok(ticket) => {
                self.progress.succeed();
                self.awaited = Some(Answer::Grant);
                mail.send(rt, ticket.bank.index(), ticket);
                Ok(())
            }
            Err(Refusal::CopiesFull) => match self.oldest_beside(port, block) {
                Some(oldest) => self.give_up(rt, port, mail, oldest),
                None => Ok(()),
            },
            Err(refusal) => self.progress.refuse(refusal),
        }
    }

    /// Of the client's copies in the bank of a block, the one that was granted longest ago.
    fn oldest_beside<P: Port>(&self, port: &P, block: BlockNo) -> Option<BlockNo> {
        port.oldest_copy(self.client, self.bank_of(block)?)
    }

    /// The bank of a block, if the memory has it.
    fn bank_of(&self, block: BlockNo) -> Option<BankNo> {
        if self.geometry.has(block) {
            Some(self.geometry.place(block).bank)
        } else {
            None
        }
    }

    /// Releases a copy to None.
    fn give_up<P: Port, R: Wait>(
        &mut self,
        rt: &R,
        port: &mut P,
        mail: &mut Mail<'_>,
        block: BlockNo,
    ) -> Result<(), AllocError>
        ensures same { IsSameLinks self.old self.new }
        ensures awaits { sent_by mail.new ≢ sent_by mail.old → self.new.awaits ≡ true }
        ensures waits { self.old.awaits ≡ true → self.new.awaits ≡ true }
        ensures asked { P.asked port.new ≡ P.asked port.old }
        ensures successes { P.successes port.new ≡ P.successes port.old }
        ensures inbox { mail.new.inbox ≡ mail.old.inbox }
        ensures done { mail.new.done ≡ mail.old.done }
    {
        mail.make_room()?;
        let Some(bank) = self.bank_of(block) else {
            return Ok(());
        };
        let Some(share) = self.shares.get_mut(bank.index()) else {
            return Ok(());
        };
        match ask_release(port, self.client, block, share) {
            Ok(ticket) => {
                self.progress.succeed();
                self.awaited = Some(Answer::ReleaseAck);
                mail.send(rt, ticket.bank.index(), ticket);
                Ok(())
            }
            Err(refusal) => self.progress.refuse(refusal),
        }
    }
}

/// A bank is asked for a better copy: as from None, and where the client has a copy that is to become a Tip, from
/// Branch.
fn ask_acquire<P: Port>(
    port: &mut P,
    client: ClientId,
    block: BlockNo,
    grow: Grow,
) -> Result<Ticket, Refusal>
    ensures asked { P.asked port.new ≡ P.asked port.old }
    ensures successes { P.successes port.new ≡ P.successes port.old }
{
    match port.acquire(client, block, grow) {
        Err(Refusal::WrongFrom) if grow == Grow::NtoT => port.acquire(client, block, Grow::BtoT),
        answer => answer,
    }
}

/// A bank is told that a copy is given up to None: as from Tip, and where it is not that, from Branch.
fn ask_release<P: Port>(
    port: &mut P,
    client: ClientId,
    block: BlockNo,
    share: &mut Share,
) -> Result<Ticket, Refusal>
    ensures asked { P.asked port.new ≡ P.asked port.old }
    ensures successes { P.successes port.new ≡ P.successes port.old }
{
    match port.release(client, block, Prune::TtoN, share) {
        Err(Refusal::WrongFrom) => port.release(client, block, Prune::BtoN, share),
        answer => answer,
    }
}
