//! Problems, and what they tell.

ghost use Rattle.std.specs.Prelude.{◌≡◌};
ghost use Rattle.std.specs.Option.{option_copied};
ghost use Rattle.am_problem.specs.Limits.{IsProblem};
ghost use Rattle.am_problem.specs.Loads.{load_of};

use crate::kind::Kind;
use crate::parts::{Name, Parts};
use am_bv::{Term, Width};
use am_tree::Grammar;
use std::marker::Model;

/// A problem: which transformer of which operation is sought, in which domain, and in which language of
/// terms. Contracts see its parts, and each problem is within all limits.
#[derive(Drop)]
pub struct Problem {
    pub(crate) parts: Parts,
    /// The load of the parts.
    pub(crate) load: u64,
}

impl Model for Problem {
    ghost use Rattle.std.specs.Coded.{codes};
    ghost use Rattle.am_bv.specs.contracts.term.Term as term;
    ghost use Rattle.am_tree.specs.contracts.grammar.Production as production;
    ghost use Rattle.am_problem.specs.Problem.{Problem as Data};

    ghost Value = { Data };

    ghost coded = { Prim.hlevel (codes, term.the_row.coded, production.the_row.coded) };

    ghost use Rattle.am_problem.specs.Stored.{IsStoredProblem, seen};

    ghost view = { seen };

    ghost invariant = { IsStoredProblem };
}

impl Problem {
    /// Each problem is within all limits.
    pub fn keeps_limits(&self)
        ensures { IsProblem self.now }
    {
        let _ = &self.parts;
    }

    /// The number of bits of a word.
    pub fn width(&self) -> Width
        ensures { result ≡ self.now.width }
    {
        self.parts.width
    }

    /// How many inputs the operation has, from 1 to 3.
    pub fn inputs(&self) -> u32
        ensures { result ≡ self.now.inputs }
    {
        self.parts.inputs
    }

    /// The operation, over the words of the inputs.
    pub fn operation(&self) -> &Term
        ensures { result.now ≡ self.now.operation }
    {
        &self.parts.operation
    }

    /// The assumption under which the operation is used: its value isn't 0. None is no assumption.
    pub fn assume(&self) -> Option<&Term>
        ensures { self.now.assume ≡ option_copied result }
    {
        self.parts.assume.as_ref()
    }

    /// The abstract domain.
    pub fn kind(&self) -> Kind
        ensures { result ≡ self.now.kind }
    {
        self.parts.kind
    }

    /// The names of the nonterminals, in the order of their rules.
    pub fn names(&self) -> &[Name]
        ensures { result.now ≡ self.now.names }
    {
        self.parts.names.as_slice()
    }

    /// The language of terms: one start for each field of the result.
    pub fn grammar(&self) -> &Grammar
        ensures rules { result.now.rules ≡ self.now.rules }
        ensures starts { result.now.starts ≡ self.now.starts }
        ensures depth { result.now.depth ≡ self.now.depth }
    {
        &self.parts.grammar
    }

    /// How many turns may be taken.
    pub fn turns(&self) -> u32
        ensures { result ≡ self.now.turns }
    {
        self.parts.turns
    }

    /// How many clauses may be derived for one query.
    pub fn conflicts(&self) -> u32
        ensures { result ≡ self.now.conflicts }
    {
        self.parts.conflicts
    }

    /// The load: a bound on the gates of each formula of the problem, at most 2^24.
    pub fn load(&self) -> u64
        ensures { result ≡ load_of self.now }
    {
        self.load
    }
}
