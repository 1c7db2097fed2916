//! What a call of a client would send, were it made now: a look before it, which changes nothing.
ghost use Rattle.std.specs.Prelude.{◌≡◌, None, Some, IfErr, IfOk, OnOk};
ghost use Rattle.tl_types.specs.declared.channel.Channel.{Channel};
ghost use Rattle.tl_types.specs.declared.message.Body.{Body};
ghost use Rattle.tl_types.specs.declared.message.Upward.{Upward};
ghost use Rattle.tl_protocol.specs.declared.event.Event.{Event};
ghost use Rattle.tl_bank.specs.Would.{WouldSend};
ghost use Rattle.tl_bank_spec.specs.Calls.{answer_probe_cases, release_cases};
ghost use Rattle.tl_bank_spec.specs.Cases.{block_named};
ghost use Rattle.tl_bank_spec.specs.Clock.{latest};
ghost use Rattle.tl_bank_spec.specs.Refusal.{first_of};

use crate::bank::Bank;
use crate::bank::checks::{PlannedAnswer, PlannedRelease};
use crate::share::Share;
use tl_bank_spec::Refusal;
use tl_types::{BlockNo, ClientId, ProbeAnswer, Prune, Surrender, Ticket};

impl Bank {
    /// What `release` would give up. The errors are those of `release`, but for `Memory`.
    pub fn would_release(
        &self,
        client: ClientId,
        block: BlockNo,
        prune: Prune,
        share: &Share,
    ) -> Result<Surrender, Refusal>
        ensures refused { IfErr result (λ r. first_of (release_cases self.now client block prune share.now) ≡ Some r) }
        ensures permitted { OnOk result (first_of (release_cases self.now client block prune share.now) ≡ None) }
        ensures sends { IfOk result
            (λ given. WouldSend self.now (Event.SendRelease client block prune) (Body.Upward (Upward.Release given))) }
    {
        let PlannedRelease {
            before: _,
            copy: _,
            given,
        } = self.check_release(client, block, prune, share)?;
        Ok(given)
    }

    /// What `answer_probe` would answer, and of which block. The errors are those of `answer_probe`, but for `Memory`.
    pub fn would_answer(
        &self,
        ticket: Ticket,
        share: &Share,
    ) -> Result<(BlockNo, ProbeAnswer), Refusal>
        ensures refused { IfErr result (λ r. first_of (answer_probe_cases self.now ticket share.now) ≡ Some r) }
        ensures permitted { OnOk result (first_of (answer_probe_cases self.now ticket share.now) ≡ None) }
        ensures block { IfOk result (λ answer. answer.0 ≡ block_named self.now ticket Channel.B) }
        ensures sends { IfOk result
            (λ answer. WouldSend self.now (Event.AnswerProbe ticket.client answer.0)
            (Body.Upward (Upward.ProbeAck answer.1))) }
    {
        // For the prover: the log is a run, in which the messages of a channel wait in the order of sending.
        let _log = self.log();
        let PlannedAnswer {
            block,
            before: _,
            copy: _,
            wait: _,
            answer,
        } = self.check_answer(&ticket, share)?;
        Ok((block, answer))
    }

    /// The clock that the next access of a client with a clock goes on from.
    pub fn latest(&self, clock: u64) -> u64
        ensures { result ≡ latest self.now clock }
    {
        self.clock.max(clock)
    }
}
