//! Whose Acquire home accepts last of a block, where no Grant says whose.
use crate::seen::Seen;
use std::alloc::{AllocError, Global};
use tl_rules::Shape;
use tl_types::{BlockNo, ClientId, Kind};

/// How many Acquires and Grants of a block a client has, and where its last Acquire stands.
#[derive(Clone, Copy)]
struct Asked {
    client: ClientId,
    acquires: usize,
    grants: usize,
    place: usize,
}

impl Asked {
    /// Nothing yet.
    fn nothing(client: ClientId) -> Asked {
        Asked {
            client,
            acquires: 0,
            grants: 0,
            place: 0,
        }
    }

    /// An Acquire more.
    fn acquire(&mut self, place: usize) {
        self.acquires = self.acquires.saturating_add(1);
        self.place = place;
    }

    /// A Grant more.
    fn grant(&mut self) {
        self.grants = self.grants.saturating_add(1);
    }

    /// Whether the last Acquire is not granted.
    fn waits(&self) -> bool {
        self.acquires > self.grants
    }
}

/// What was seen of a block: what its clients asked for, and whether a Get stands behind the last Grant.
#[derive(Drop)]
struct Asks {
    clients: Vec<Asked>,
    has_need: bool,
}

impl Asks {
    fn new(alloc: Global) -> Asks {
        Asks {
            clients: Vec::new(alloc),
            has_need: false,
        }
    }

    /// The place of a client, which is added where it is not there.
    fn place_of(&mut self, client: ClientId) -> Result<usize, AllocError> {
        for place in 0..self.clients.len() {
            if self.clients[place].client == client {
                return Ok(place);
            }
        }
        self.clients.push(Asked::nothing(client))?;
        Ok(self.clients.len().saturating_sub(1))
    }

    fn acquire(&mut self, client: ClientId, place: usize) -> Result<(), AllocError> {
        let at = self.place_of(client)?;
        if let Some(asked) = self.clients.get_mut(at) {
            asked.acquire(place);
        }
        Ok(())
    }

    fn grant(&mut self, client: ClientId) -> Result<(), AllocError> {
        self.has_need = false;
        let at = self.place_of(client)?;
        if let Some(asked) = self.clients.get_mut(at) {
            asked.grant();
        }
        Ok(())
    }

    /// Home serves one that it does not grant: of those that wait the one that asked first.
    fn last(&self) -> Option<ClientId> {
        if !self.has_need {
            return None;
        }
        let mut first = None;
        let mut least = usize::MAX;
        for asked in &self.clients {
            if asked.waits() && asked.place < least {
                first = Some(asked.client);
                least = asked.place;
            }
        }
        first
    }
}

/// One line more.
fn note(blocks: &mut Vec<Asks>, place: usize, line: &Seen) -> Result<(), AllocError> {
    match line {
        Seen::OnLink(c, block, message) => {
            let Some(asks) = blocks.get_mut(block.index()) else {
                return Ok(());
            };
            match message.kind {
                Kind::AcquireBlock(_) => asks.acquire(*c, place),
                Kind::Grant(_) | Kind::GrantData(_) => asks.grant(*c),
                _ => Ok(()),
            }
        }
        Seen::OnMemory(block, message) if message.kind == Kind::Get => {
            if let Some(asks) = blocks.get_mut(block.index()) {
                asks.has_need = true;
            }
            Ok(())
        }
        _ => Ok(()),
    }
}

/// The client whose Acquire home accepts last of a block, where a Get says that it serves one, and no Grant which.
#[derive(Drop)]
pub struct LastAccepts {
    clients: Vec<Option<ClientId>>,
}

impl LastAccepts {
    /// The client whose Acquire home accepts last of a block, where no Grant follows it.
    pub fn client(&self, block: BlockNo) -> Option<ClientId> {
        match self.clients.get(block.index()) {
            Some(client) => *client,
            None => None,
        }
    }

    /// What is chosen by what was seen: home takes the Acquires of several blocks in any order, so of each block the
    /// Acquire that stands first serves as well as another. The error is want of memory.
    pub fn of(alloc: Global, shape: Shape, seen: &[Seen]) -> Result<LastAccepts, AllocError> {
        let mut blocks = Vec::new(alloc);
        for _ in 0..shape.blocks {
            blocks.push(Asks::new(alloc))?;
        }
        for (place, line) in seen.iter().enumerate() {
            note(&mut blocks, place, line)?;
        }
        let mut clients = Vec::new(alloc);
        for asks in &blocks {
            clients.push(asks.last())?;
        }
        Ok(LastAccepts { clients })
    }
}
