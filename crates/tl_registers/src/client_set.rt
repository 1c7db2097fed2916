//! A set of clients.
ghost use Rattle.std.specs.Prelude.{◌≡◌, ◌<◌, false, true, replicate, slice_index_or, slice_set};

use std::marker::Model;
use tl_types::{CLIENTS, ClientId};

/// A set of the clients with numbers below `CLIENTS`. Contracts see for each number whether the set has that client.
#[derive(Clone, Debug, PartialEq, Eq)]
pub struct ClientSet {
    members: [bool; CLIENTS],
}

impl Model for ClientSet {
    ghost use Rattle.std.specs.Prelude.{List, Bool};

    ghost Value = { List Bool };

    ghost view = { λ s. s.members };

    ghost inverse = { λ members. record { members = members } };
}

impl Copy for ClientSet {}

impl ClientSet {
    /// The set of no client.
    pub fn new() -> ClientSet
        ensures { result ≡ replicate CLIENTS false }
    {
        ClientSet {
            members: [false; CLIENTS],
        }
    }

    /// Whether it has a client.
    pub fn contains(&self, client: ClientId) -> bool
        requires { client < CLIENTS }
        ensures { result ≡ slice_index_or self.now client false }
    {
        let index = client.index();
        self.members[index]
    }

    /// A client joins it.
    pub fn insert(&mut self, client: ClientId)
        requires { client < CLIENTS }
        ensures { self.new ≡ slice_set self.old client true }
    {
        self.members[client.index()] = true;
    }
}
