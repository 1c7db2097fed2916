//! What no clause says: how many messages one channel takes, and that each is taken once, in the order of sending.
use std::alloc::{AllocError, Global};
use std::marker::Model;
use std::test::Fail;
use tl_links::{Links, Ticket, TicketError};
use tl_types::{BankNo, BlockNo, Body, Channel, ClientId, Grow, Message};

/// The links of bank 0 to one client. Its model says nothing, so that a test of many calls has their answers alone to
/// carry along.
#[derive(Drop)]
struct Wires {
    links: Links,
}

impl Model for Wires {
    ghost Value = { Unit {0} };

    ghost view = { λ _. tt };
}

/// What a look or a take answers: the block of the message.
type Taken = Result<u32, TicketError>;

impl Wires {
    fn new(alloc: Global) -> Result<Wires, AllocError> {
        let links = Links::new(alloc, BankNo::new(0), 1)?;
        Ok(Wires { links })
    }

    /// Sends an Acquire of a block: its serial, or the block that came back.
    fn send(&mut self, block: u32) -> Result<u64, u32> {
        let client = ClientId::new(0);
        if self.links.clients() == 0 || self.links.sent(client, Channel::A) == u64::MAX {
            return Err(block);
        }
        let message = Message {
            block: BlockNo::new(block),
            body: Body::AcquireBlock(Grow::NtoT),
        };
        match self.links.send(client, Channel::A, message) {
            Ok(ticket) => Ok(ticket.serial),
            Err(full) => Err(full.message.block.number()),
        }
    }

    /// The block of the first message on a channel, where it has this serial.
    fn head(&self, channel: Channel, serial: u64) -> Taken {
        if self.links.clients() == 0 {
            return Err(TicketError::NothingThere);
        }
        let message = self.links.head(Ticket {
            bank: self.links.bank(),
            client: ClientId::new(0),
            channel,
            serial,
        })?;
        Ok(message.block.number())
    }

    /// Takes that message.
    fn take(&mut self, channel: Channel, serial: u64) -> Taken {
        if self.links.clients() == 0 {
            return Err(TicketError::NothingThere);
        }
        let message = self.links.take(Ticket {
            bank: self.links.bank(),
            client: ClientId::new(0),
            channel,
            serial,
        })?;
        Ok(message.block.number())
    }
}

/// The first of blocks 0 to 63 whose Acquire gets another serial than the block's number.
fn first_with_another_serial(wires: &mut Wires) -> Option<u32> {
    for block in 0..64u32 {
        if wires.send(block) != Ok(u64::from(block)) {
            return Some(block);
        }
    }
    None
}

/// What a channel answers once it is full: a send, a look at the first message, a take of it, and another send.
fn when_full(wires: &mut Wires) -> (Result<u64, u32>, Taken, Taken, Result<u64, u32>) {
    (
        wires.send(64),
        wires.head(Channel::A, 0),
        wires.take(Channel::A, 0),
        wires.send(65),
    )
}

/// What old and other tickets answer then: the one that was taken, a look and a take of the second, and a channel with
/// no message.
fn when_one_was_taken(wires: &mut Wires) -> [Taken; 4] {
    [
        wires.take(Channel::A, 0),
        wires.head(Channel::A, 1),
        wires.take(Channel::A, 1),
        wires.take(Channel::E, 0),
    ]
}

#[test]
fn a_channel_takes_64_messages(rt: HostRuntime) -> Result<(), Fail> {
    let mut wires = Wires::new(rt.alloc())?;
    assert_eq!(rt;
        (
            first_with_another_serial(&mut wires),
            when_full(&mut wires),
            when_one_was_taken(&mut wires)
        ),
        (
            None,
            (Err(64), Ok(0), Ok(0), Ok(64)),
            [
                Err(TicketError::NotHead),
                Ok(1),
                Ok(1),
                Err(TicketError::NothingThere)
            ]
        )
    );
    Ok(())
}
