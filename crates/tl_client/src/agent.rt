//! A client's agent.
ghost use Rattle.std.specs.Prelude.{◌≡◌, ◌≢◌, ◌≤◌, [], false, length, true, vec_len, IfOk, OnOk};
ghost use Rattle.tl_client.specs.Agents.{AwaitsAnswers, IsSameLinks, Works, quiet_links};
ghost use Rattle.tl_client.specs.Answers.{Gains, IsBeginning, IsDone, RingsDone, answered_of};
ghost use Rattle.tl_client.specs.declared.turn.Turn.{Turn};
ghost use Rattle.tl_client_mail.specs.Ways.{sent_by};

use crate::carry_out::carry_out;
use crate::requester::{ROOM, Requester};
use crate::turn::Turn;
use std::alloc::{AllocError, Global};
use std::marker::Model;
use std::sync::Wait;
use std::time::Clock;
use tl_bank::{Refusal, Share, When};
use tl_client_mail::{Mail, Rest};
use tl_client_ports::{Gate, Port};
use tl_map::Geometry;
use tl_script_words::Command;
use tl_types::{AccessBytes, ClientId};

/// A client's agent. Contracts see its links with the tickets that wait, its script, what it answered, its clock, which
/// is the last stamp that it got, and whether it has rung the done bell. Of what it answered it keeps the bytes: the
/// commands are the script's.
#[derive(Drop)]
pub struct Agent<'s> {
    requester: Requester,
    script: &'s [Command],
    bytes: Vec<AccessBytes>,
    clock: u64,
    rest: Rest,
    /// Whether it has rung the done bell.
    has_rung: bool,
}

impl<'s> Model for Agent<'s> {
    ghost use Rattle.std.specs.Prelude.{◌≤◌, ◌<◌, ◌^◌, length, vec_capacity};
    ghost use Rattle.tl_client.specs.Answers.{AgentView, IsBeginning, answered_of};

    ghost Value = { AgentView };

    ghost view = { λ a.
        record {
          links = a.requester;
          script = a.script.now;
          answered = answered_of a.bytes.items a.script.now;
          clock = a.clock;
          has_rung = a.has_rung;
        } };

    ghost invariant = { λ a. IsBeginning
        (record {
          links = a.requester;
          script = a.script.now;
          answered = answered_of a.bytes.items a.script.now;
          clock = a.clock;
          has_rung = a.has_rung;
        })
        × (length a.bytes.items ≤ length a.script.now) × (length a.script.now ≤ vec_capacity a.bytes)
        × (length a.script.now < 2 ^ 32) };
}

impl<'s> Agent<'s> {
    /// An agent that has answered nothing, with room for all its answers. It is handed its shares of the banks, by
    /// number. The error is want of memory; for 2^32 commands and more there is none.
    pub fn new(
        alloc: Global,
        client: ClientId,
        geometry: Geometry,
        commands: &'s [Command],
        shares: Vec<Share>,
    ) -> Result<Agent<'s>, AllocError>
        ensures { IfOk result
            (λ a. a
            ≡ record {
              links = quiet_links client (vec_len shares) ROOM;
              script = commands.entry.now;
              answered = [];
              clock = 0;
              has_rung = false;
            }) }
    {
        if commands.len() > u32::MAX as usize {
            return Err(AllocError);
        }
        let bytes = Vec::with_capacity(alloc, commands.len())?;
        Ok(Agent {
            requester: Requester::new(alloc, client, geometry, shares)?,
            script: commands,
            bytes,
            clock: 0,
            rest: Rest::new(),
            has_rung: false,
        })
    }

    /// The bytes of each command that was answered, and of no other, and the shares. The answers are a beginning of the
    /// script's, each with its bytes.
    pub fn into_parts(self) -> (Vec<AccessBytes>, Vec<Share>)
        ensures answered { answered_of result.0.items self.entry.script ≡ self.entry.answered }
        ensures count { length result.0.items ≡ length self.entry.answered }
        ensures beginning { IsBeginning self.entry }
    {
        let Agent {
            bytes,
            requester,
            ..
        } = self;
        (bytes, requester.into_shares())
    }

    /// One turn, over any port and gate. The answers are a beginning of the script's; those that were there stay, and
    /// the loads and stores that the turn adds are, in order and with their bytes, what the port's successes gained.
    /// What it takes of its inbox, at most `BATCH` tickets, joins those that wait. It asks the banks each Grant and
    /// ReleaseAck, in order, and then each Probe, but none of whose bank and channel an earlier one was refused; the
    /// refused and those behind them wait on. An idle turn, and one that finds all clients done, asks the port for no
    /// ticket and takes none. Where a turn that serves no ticket sends something, which is its own Acquire or Release,
    /// an answer of home is awaited behind it. The agent rings the done bell in one turn alone, in which it is done: all
    /// is answered, nothing is left to send and no answer of home is awaited.
    pub fn turn<P: Port, G: Gate, R: Wait + Clock>(
        &mut self,
        rt: &R,
        port: &mut P,
        gate: &G,
        clients: u32,
        mail: &mut Mail<'_>,
    ) -> Turn
        ensures gains { Gains self.old (P.successes port.old) self.new (P.successes port.new) }
        ensures beginning { IsBeginning self.new }
        ensures works { result ≡ Turn.Worked
            → Works mail.old.inbox self.old.links mail.new.inbox self.new.links (P.asked port.new) }
        ensures idle { result ≡ Turn.Idle → (self.new ≡ self.old) × (P.successes port.new ≡ P.successes port.old)
            × (P.asked port.new ≡ P.asked port.old) × (mail.new.inbox ≡ mail.old.inbox) }
        ensures finished { result ≡ Turn.Finished
            → (self.new ≡ self.old) × (P.successes port.new ≡ P.successes port.old)
            × (P.asked port.new ≡ P.asked port.old) × (mail.new.inbox ≡ mail.old.inbox)
            × (clients ≤ mail.new.done.seat.seen) }
        ensures awaits { result ≡ Turn.Worked
            → AwaitsAnswers self.old.links (sent_by mail.old) self.new.links (sent_by mail.new) (P.asked port.new) }
        ensures rings { RingsDone self.old mail.old self.new mail.new }
    {
        let is_due = self.requester.is_due() || mail.has_back();
        if mail.done() >= u64::from(clients) {
            return Turn::Finished;
        }
        mail.send_again(rt);
        if mail.is_rung() {
            self.requester.hear();
        } else if !is_due {
            self.rest.after_turn(rt, mail.parker(), false);
            return Turn::Idle;
        }
        match self.work(rt, port, gate, mail) {
            Ok(()) => Turn::Worked,
            Err(_) => {
                self.requester.go_on();
                Turn::Memory
            }
        }
    }

    /// A turn in which something is to be done.
    fn work<P: Port, G: Gate, R: Wait + Clock>(
        &mut self,
        rt: &R,
        port: &mut P,
        gate: &G,
        mail: &mut Mail<'_>,
    ) -> Result<(), AllocError>
        ensures gains { Gains self.old (P.successes port.old) self.new (P.successes port.new) }
        ensures beginning { IsBeginning self.new }
        ensures works { OnOk result
            (Works mail.old.inbox self.old.links mail.new.inbox self.new.links (P.asked port.new)) }
        ensures awaits { OnOk result
            (AwaitsAnswers self.old.links (sent_by mail.old) self.new.links (sent_by mail.new) (P.asked port.new)) }
        ensures rings { RingsDone self.old mail.old self.new mail.new }
    {
        port.begin();
        self.requester.take_tickets(rt, mail)?;
        self.requester.serve_downward(rt, port, mail)?;
        self.try_command(rt, port, gate, mail)?;
        self.requester.serve_probes(rt, port, mail)?;
        self.finish(mail);
        self.rest
            .after_turn(rt, mail.parker(), self.requester.has_worked());
        Ok(())
    }

    /// Tries the present command once, unless it waits for an answer of home. What it sends, an Acquire or a Release,
    /// is to be answered.
    fn try_command<P: Port, G: Gate, R: Wait>(
        &mut self,
        rt: &R,
        port: &mut P,
        gate: &G,
        mail: &mut Mail<'_>,
    ) -> Result<(), AllocError>
        ensures gains { Gains self.old (P.successes port.old) self.new (P.successes port.new) }
        ensures beginning { IsBeginning self.new }
        ensures links { IsSameLinks self.old.links self.new.links }
        ensures awaits { sent_by mail.new ≢ sent_by mail.old → self.new.links.awaits ≡ true }
        ensures waits { self.old.links.awaits ≡ true → self.new.links.awaits ≡ true }
        ensures rung { self.new.has_rung ≡ self.old.has_rung }
        ensures asked { P.asked port.new ≡ P.asked port.old }
        ensures inbox { mail.new.inbox ≡ mail.old.inbox }
        ensures done { mail.new.done ≡ mail.old.done }
    {
        let index = self.bytes.len();
        if index >= self.script.len() || self.requester.is_waiting() {
            return Ok(());
        }
        let script = self.script;
        let command = &script[index];
        let when = When {
            clock: self.clock,
            index: index as u32,
        };
        let client = self.requester.client();
        let block = self.requester.block_of(command);
        gate.before(client, index);
        match carry_out(port, client, block, command, when) {
            Ok(done) => {
                self.clock = done.clock;
                self.bytes.push_reserved(done.bytes);
                self.requester.succeed();
                gate.answered(client, index);
                Ok(())
            }
            Err(Refusal::NoPermission) => self.requester.change_copy(rt, port, mail, command),
            Err(refusal) => self.requester.refuse(refusal),
        }
    }

    /// Rings the done bell once, when the agent is done.
    fn finish(&mut self, mail: &mut Mail<'_>)
        ensures same { self.new ≡ record self.old { has_rung = self.new.has_rung } }
        ensures sent { sent_by mail.new ≡ sent_by mail.old }
        ensures inbox { mail.new.inbox ≡ mail.old.inbox }
        ensures rings { RingsDone self.old mail.old self.new mail.new }
    {
        if self.is_done(mail) {
            mail.ring_done();
            self.has_rung = true;
        }
    }

    /// Whether the done bell is to be rung, which it was not: all is answered, nothing is left to send and no answer of
    /// home is awaited.
    fn is_done(&self, mail: &Mail<'_>) -> bool
        ensures { result ≡ true → (self.now.has_rung ≡ false) × IsDone self.now mail.now }
    {
        !self.has_rung
            && self.has_answered_all()
            && !self.requester.is_waiting()
            && mail.has_put_all()
    }

    /// Whether each command of the script was answered.
    fn has_answered_all(&self) -> bool
        ensures { result ≡ true → length self.now.answered ≡ length self.now.script }
    {
        self.bytes.len() >= self.script.len()
    }
}
