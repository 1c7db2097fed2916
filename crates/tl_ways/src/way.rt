//! A way of a set.
ghost use Rattle.std.specs.Prelude.{◌≡◌, ℕ};

use std::marker::Model;

/// A way of a set, by its number.
#[derive(Clone, Debug, Default, PartialEq, Eq)]
pub struct Way {
    number: u32,
}

impl Model for Way {
    ghost Value = { ℕ };

    ghost view = { λ w. w.number };

    ghost inverse = { λ n. record { number = n } };
}

impl Copy for Way {}

impl Way {
    /// The way with this number.
    pub fn new(number: u32) -> Way
        ensures { result ≡ number }
    {
        Way { number }
    }

    /// The way's number.
    pub fn number(self) -> u32
        ensures { result ≡ self }
    {
        self.number
    }

    /// The way's place in a list of all ways of a set.
    pub fn index(self) -> usize
        ensures { result ≡ self }
    {
        self.number as usize
    }
}
