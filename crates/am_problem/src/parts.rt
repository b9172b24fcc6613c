//! The parts of a problem, and its load.

ghost use Rattle.std.specs.Prelude.{◌≡◌, ◌≤◌, ◌<◌, ◌^◌, ◌*◌, ◌+◌, IfOk};
ghost use Rattle.am_bv.specs.Terms.{nodes};
ghost use Rattle.am_problem.specs.Limits.{IsFormed, slots_of};
ghost use Rattle.am_problem.specs.Loads.{assumption_weight, load_of, tested_term_weight};
ghost use Rattle.am_problem.specs.Stored.{seen_parts};

use crate::kind::Kind;
use am_bv::{Row, Term, Width};
use am_domain::Domain;
use am_tree::Grammar;
use std::alloc::{AllocError, Global};

/// The name of a nonterminal.
pub type Name = Row<u8>;

/// The names of the nonterminals, in the order of their rules.
pub type Names = Row<Name>;

/// The parts of a problem.
#[derive(Drop)]
pub(crate) struct Parts {
    pub(crate) width: Width,
    pub(crate) inputs: u32,
    pub(crate) operation: Term,
    pub(crate) assume: Option<Term>,
    pub(crate) kind: Kind,
    pub(crate) names: Names,
    pub(crate) grammar: Grammar,
    pub(crate) turns: u32,
    pub(crate) conflicts: u32,
}

impl Parts {
    /// The load.
    pub(crate) fn load(&self, alloc: Global) -> Result<u64, AllocError>
        requires formed { IsFormed (seen_parts self.now) }
        requires slots { slots_of (seen_parts self.now) ≤ 256 }
        ensures { IfOk result (λ l. l ≡ load_of (seen_parts self.now)) }
    {
        let w = self.width;
        let member = self.kind.member_term(alloc, w)?;
        let valid = self.kind.valid_term(alloc, w)?;
        let block = self.grammar.block_weight(w)
            + 4 * test_weight(w, &member)
            + 2 * test_weight(w, &valid);
        let turns = u64::from(self.turns) + 2;
        Ok(turns * block + self.operation.weight(w) + self.assumption_weight())
    }

    /// The weight of the assumption and its test.
    fn assumption_weight(&self) -> u64
        requires { IsFormed (seen_parts self.now) }
        ensures value { result ≡ assumption_weight self.now.width self.now.assume }
        ensures most { result ≤ 2 ^ 32 }
    {
        match &self.assume {
            None => 0,
            Some(term) => test_weight(self.width, term),
        }
    }
}

/// The weight of a term, and of the test whether its value isn't 0.
fn test_weight(w: Width, term: &Term) -> u64
    requires { nodes term.now ≤ 2 ^ 16 }
    ensures value { result ≡ tested_term_weight w term.now }
    ensures most { result ≤ 2 ^ 32 }
{
    term.weight(w) + u64::from(w.bits())
}
