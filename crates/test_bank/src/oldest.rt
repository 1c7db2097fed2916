//! That the copy which a bank calls the oldest is the one granted longest ago: no clause says so of its age.
use crate::session::Session;
use crate::steps::{Step, first_that_fails};
use std::test::Fail;
use tl_bank::{Action, Refusal};
use tl_map::GeometryNumbers;
use tl_types::{BlockNo, ClientId, Grow, Prune, Ticket};

/// Two clients with four copies each, one bank with one set of four ways, two registers, and four blocks of eight
/// bytes.
const NUMBERS: GeometryNumbers = GeometryNumbers {
    version: 1,
    clients: 2,
    banks: 1,
    block_bytes: 8,
    sets: 1,
    ways: 4,
    registers: 2,
    copies: 4,
    memory_blocks: 4,
};

/// How many actions serve an Acquire at most: a fetch, a Probe of the other client, and the Grant.
const ACTIONS: u32 = 3;

impl Session {
    /// Asks for a block, and does all that has to be done until the GrantAck is taken.
    pub(crate) fn fetch(&mut self, client: u32, wanted: u32, grow: Grow) -> Result<(), Refusal> {
        let block = BlockNo::new(wanted);
        let asked = self.acquire(ClientId::new(client), block, grow)?;
        let _sent = self.take(asked)?;
        for _ in 0..ACTIONS {
            match self.advance(block)? {
                Action::Get => {
                    self.serve_memory(block)?;
                    self.take_memory(block)?;
                }
                Action::Probe(ticket) => self.answered(ticket)?,
                Action::Grant(ticket) => return self.answered(ticket),
                Action::Put(_) | Action::Drop => return Err(Refusal::NotYet),
            }
        }
        Err(Refusal::NotYet)
    }

    /// Takes a message to a client, and then what the client answered.
    fn answered(&mut self, ticket: Ticket) -> Result<(), Refusal> {
        if let Some(answer) = self.take(ticket)? {
            let _sent = self.take(answer)?;
        }
        Ok(())
    }

    /// Gives up a copy that may be written, until the ReleaseAck is taken.
    pub(crate) fn give_up(&mut self, client: u32, given: u32) -> Result<(), Refusal> {
        let client = ClientId::new(client);
        let released = self.release(client, BlockNo::new(given), Prune::TtoN, client)?;
        if let Some(answer) = self.take(released)? {
            self.take_release_ack(answer)?;
        }
        Ok(())
    }

    /// The number of the block that a client was granted longest ago.
    pub(crate) fn oldest(&self, client: u32) -> Option<u32> {
        Some(self.oldest_copy(ClientId::new(client))?.number())
    }
}

/// The steps of the test, in order.
const STEPS: &[Step] = &[
    Step::Oldest(0, None),
    Step::Fetch(0, 2, Grow::NtoB),
    Step::Oldest(0, Some(2)),
    Step::Fetch(0, 0, Grow::NtoB),
    Step::Oldest(0, Some(2)),
    Step::Fetch(0, 1, Grow::NtoB),
    Step::Oldest(0, Some(2)),
    Step::Oldest(1, None),
    Step::Oldest(2, None),
    // The oldest is probed away.
    Step::Fetch(1, 2, Grow::NtoT),
    Step::Oldest(0, Some(0)),
    Step::Oldest(1, Some(2)),
    // The oldest falls to Branch: it is as old as before, until it is granted anew.
    Step::Fetch(1, 0, Grow::NtoB),
    Step::Oldest(0, Some(0)),
    Step::Fetch(0, 0, Grow::BtoT),
    Step::Oldest(0, Some(1)),
    // The oldest is given up, and granted again.
    Step::GiveUp(0, 1),
    Step::Oldest(0, Some(0)),
    Step::Fetch(0, 1, Grow::NtoB),
    Step::Oldest(0, Some(0)),
    Step::GiveUp(0, 0),
    Step::Oldest(0, Some(1)),
    // What is only asked for is no copy.
    Step::GiveUp(0, 1),
    Step::Ask(0, 3),
    Step::Oldest(0, None),
];

#[test]
fn copies_are_as_old_as_their_last_grants(rt: HostRuntime) -> Result<(), Fail> {
    let failed = first_that_fails(rt.alloc(), NUMBERS, 0, &[], STEPS)?;
    assert_eq!(rt; failed, None);
    Ok(())
}
