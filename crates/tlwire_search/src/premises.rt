//! What the header of a record says of how it was seen.
ghost use Rattle.std.specs.Prelude.{◌≡◌, IfOk};
ghost use Rattle.tlwire_search.specs.Clients.{has_client, has_some, is_named};
ghost use Rattle.tlwire_search.specs.Naming.{no_clients, no_premises, with_all, with_one};
ghost use Rattle.tlwire_search.specs.Premises.{drops, has_drops, is_in_time, is_seen_at_pins, is_unseen, may_have_more, skew_of};

use crate::seen::Wire;
use std::alloc::{AllocError, Global};
use std::marker::Model;
use tl_types::ClientId;

/// The clients that lines of a header name: all by one line, or each by a line of its own.
#[derive(Drop)]
pub struct NamedClients {
    all: bool,
    named: Vec<ClientId>,
}

impl Model for NamedClients {
    ghost use Rattle.tlwire_search.specs.Clients.{ClientsState};

    ghost Value = { ClientsState };

    ghost view = { λ c. record { all = c.all; named = c.named.items } };
}

/// These clients again.
fn copied_clients(alloc: Global, clients: &[ClientId]) -> Result<Vec<ClientId>, AllocError>
    ensures { IfOk result (λ copy. copy.items ≡ clients.now) }
{
    let mut copy = Vec::with_capacity(alloc, clients.len())?;
    copy.extend_from_slice(clients)?;
    Ok(copy)
}

impl NamedClients {
    ghost use Rattle.std.specs.Prelude.{OnErr, OnOk};

    /// None.
    pub fn new(alloc: Global) -> NamedClients
        ensures { result ≡ no_clients }
    {
        NamedClients {
            all: false,
            named: Vec::new(alloc),
        }
    }

    /// The same again. Err is a refused request for memory.
    pub fn copied(&self, alloc: Global) -> Result<NamedClients, AllocError>
        ensures { IfOk result (λ copy. copy ≡ self.now) }
    {
        Ok(NamedClients {
            all: self.all,
            named: copied_clients(alloc, &self.named)?,
        })
    }

    /// Names all by one line.
    pub fn add_all(&mut self)
        ensures { self.new ≡ with_all self.old }
    {
        self.all = true;
    }

    /// Names one by a line of its own. Err is a refused request for memory, and nothing is changed.
    pub fn add(&mut self, client: ClientId) -> Result<(), AllocError>
        ensures added { OnOk result (self.new ≡ with_one self.old client) }
        ensures kept { OnErr result (self.new ≡ self.old) }
    {
        self.named.push(client)?;
        Ok(())
    }

    /// Whether one line names all.
    pub fn has_all(&self) -> bool
        ensures { result ≡ self.now.all }
    {
        self.all
    }

    /// Those that have a line of their own, in the order of these lines.
    pub fn named(&self) -> &[ClientId]
        ensures { result.now ≡ self.now.named }
    {
        &self.named
    }

    /// Whether a client has a line of its own.
    pub fn is_named(&self, client: ClientId) -> bool
        ensures { result ≡ is_named self.now client }
    {
        self.named.iter().any(|other| *other == client)
    }

    /// Whether a client is among them.
    pub fn has(&self, client: ClientId) -> bool
        ensures { result ≡ has_client self.now client }
    {
        self.all || self.is_named(client)
    }

    /// Whether some client is.
    pub fn has_some(&self) -> bool
        ensures { result ≡ has_some self.now }
    {
        self.all || self.named.len() > 0
    }
}

/// What the header of a record says of how it was seen. All of it holds together.
#[derive(Drop)]
pub struct Premises {
    /// `seen at clients`, `seen at client N`: whose links were seen at the client's pins, where A and C are sent as they
    /// are seen, and D taken as it is seen.
    pub pins: NamedClients,
    /// `seen at home`: at home's pins, where B and D are sent as they are seen, and A, C and E taken as they are seen.
    pub at_home: bool,
    /// `seen between`: each message between its sending and its taking, and the lines in order of time.
    pub between: bool,
    /// `skew D`: no line stands more than D lines behind a later one. Of several lines the least counts.
    pub skew: Option<u32>,
    /// `whole`: nothing was sent that was not seen.
    pub whole: bool,
    /// `memory unseen`: nobody watched the memory's link.
    pub memory_unseen: bool,
    /// `cores unseen`: nobody watched the cores.
    pub cores_unseen: bool,
    /// `drops clients`, `drops client N`: which clients may give up a clean copy without a word.
    pub dropping: NamedClients,
}

impl Premises {
    /// It says nothing.
    pub fn new(alloc: Global) -> Premises
        ensures { result ≡ no_premises }
    {
        Premises {
            pins: NamedClients::new(alloc),
            at_home: false,
            between: false,
            skew: None,
            whole: false,
            memory_unseen: false,
            cores_unseen: false,
            dropping: NamedClients::new(alloc),
        }
    }

    /// The same again. Err is a refused request for memory.
    pub fn copied(&self, alloc: Global) -> Result<Premises, AllocError>
        ensures { IfOk result (λ copy. copy ≡ self.now) }
    {
        Ok(Premises {
            pins: self.pins.copied(alloc)?,
            at_home: self.at_home,
            between: self.between,
            skew: self.skew,
            whole: self.whole,
            memory_unseen: self.memory_unseen,
            cores_unseen: self.cores_unseen,
            dropping: self.dropping.copied(alloc)?,
        })
    }

    /// Whether nobody watched a wire.
    pub fn is_unseen(&self, wire: Wire) -> bool
        ensures { result ≡ is_unseen self.now wire }
    {
        match wire {
            Wire::Link(_, _) => false,
            Wire::Memory(_) => self.memory_unseen,
            Wire::Core(_) => self.cores_unseen,
        }
    }

    /// Whether more may have been sent on a wire than a record has: the record was cut, or nobody watched the wire.
    pub fn may_have_more(&self, wire: Wire) -> bool
        ensures { result ≡ may_have_more self.now wire }
    {
        !self.whole || self.is_unseen(wire)
    }

    /// Whether a client's link was seen at the client's pins.
    pub fn is_seen_at_pins(&self, client: ClientId) -> bool
        ensures { result ≡ is_seen_at_pins self.now client }
    {
        self.pins.has(client)
    }

    /// By how many lines one may stand behind a later one: 0 where the header gives no number.
    pub fn skew_of(&self) -> u32
        ensures { result ≡ skew_of self.now }
    {
        self.skew.unwrap_or(0)
    }

    /// Whether lines stand in order of time: the header gives no skew, or one of 0.
    pub fn is_in_time(&self) -> bool
        ensures { result ≡ is_in_time self.now }
    {
        self.skew_of() == 0
    }

    /// Whether a client may give up a clean copy without a word.
    pub fn drops(&self, client: ClientId) -> bool
        ensures { result ≡ drops self.now client }
    {
        self.dropping.has(client)
    }

    /// Whether some client may.
    pub fn has_drops(&self) -> bool
        ensures { result ≡ has_drops self.now }
    {
        self.dropping.has_some()
    }
}
