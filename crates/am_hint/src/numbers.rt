//! The new numbers of clauses where chains become hints.

ghost use Rattle.std.specs.Prelude.{◌≡◌, ◌+◌, ◌<◌, [], ◌∷◌, ◌++◌, length, OnErr, OnOk};
ghost use Rattle.am_hint.specs.inside.Translated.{NewNumbers, new_number};

use std::alloc::{AllocError, Global};
use std::marker::Model;

/// For each clause that a chain may name, its number among the clauses of hints. A clause of the
/// formula keeps its own.
#[derive(Drop)]
pub struct Numbers {
    given: u32,
    chains: Vec<u32>,
}

impl Model for Numbers {
    ghost use Rattle.am_hint.specs.inside.Translated.{NewNumbers};

    ghost Value = { NewNumbers };

    ghost view = { λ a. record { given = a.given; chains = a.chains.items } };
}

impl Numbers {
    pub fn new(alloc: Global, given: u32) -> Numbers
        ensures { result ≡ record { given = given; chains = [] } }
    {
        Numbers {
            given,
            chains: Vec::new(alloc),
        }
    }

    /// How many chains' clauses have a number.
    pub fn len(&self) -> usize
        ensures { result ≡ length self.now.chains }
    {
        self.chains.len()
    }

    /// Gives the next chain's clause its number.
    pub fn push(&mut self, number: u32) -> Result<(), AllocError>
        ensures { OnOk result (self.new ≡ record self.old { chains = self.old.chains ++ number ∷ [] }) }
    {
        self.chains.push(number)?;
        Ok(())
    }

    /// The new number of a clause.
    pub fn of(&self, number: u32) -> u32
        requires { number < self.now.given + length self.now.chains }
        ensures { result ≡ new_number self.now number }
    {
        if number < self.given {
            return number;
        }
        self.chains[(number - self.given) as usize]
    }
}
