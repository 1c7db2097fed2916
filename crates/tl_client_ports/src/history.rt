//! What was asked at a port, as contracts see it. The list takes no memory, and no code can read it.
ghost use Rattle.std.specs.Prelude.{◌≡◌, ◌++◌, ◌∷◌, []};

use std::marker::Model;
use std::snapshot::Snapshot;

/// A thing behind those before it. Contracts see the list that it ends.
#[derive(Drop)]
struct Link<T> {
    before: Option<Snapshot<Link<T>>>,
    last: T,
}

impl<T> Model for Link<T> {
    ghost use Rattle.std.specs.Prelude.{◌++◌, ◌∷◌, [], List, length};
    ghost use Rattle.std.proofs.Common.{arith, length-append};
    ghost use Rattle.tl_client_ports.specs.History.{all_to};

    ghost Value = { List T };

    ghost view = { λ link. all_to link.before ++ link.last ∷ [] };

    ghost size = { length };

    ghost size_decreases = { λ link h. Prim.grind (arith, length-append) };
}

/// What happened so far, in order.
#[derive(Drop)]
pub(crate) struct History<T> {
    end: Option<Snapshot<Link<T>>>,
}

impl<T> Model for History<T> {
    ghost use Rattle.std.specs.Prelude.{List};
    ghost use Rattle.tl_client_ports.specs.History.{all_to};

    ghost Value = { List T };

    ghost view = { λ history. all_to history.end };
}

impl<T: Drop> History<T> {
    /// Nothing has happened yet.
    pub(crate) fn new() -> History<T>
        ensures { result ≡ [] }
    {
        History { end: None }
    }

    /// One more thing has happened.
    pub(crate) fn push(&mut self, last: T)
        ensures { self.new ≡ self.old ++ last ∷ [] }
    {
        let before = self.end.take();
        self.end = Some(Snapshot::of(&Link { before, last }));
    }
}
