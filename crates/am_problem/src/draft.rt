//! Problems as they are read, before their names are looked up.

use crate::kind::Kind;
use am_bv::{Op, Row, Term, Width};
use am_syntax::Letter;
use std::marker::Model;

/// Where a term stands.
#[derive(Clone, Copy)]
pub struct Scope {
    pub(crate) width: Width,
    pub(crate) letter: Letter,
    pub(crate) variables: u32,
}

/// A production: a term without nonterminals, or an operator at nonterminals.
#[derive(Drop)]
pub enum Production<'a> {
    Leaf(Term),
    Node(Op, Row<&'a [u8]>),
}

/// A nonterminal and its productions.
#[derive(Drop)]
pub struct Rule<'a> {
    pub(crate) name: &'a [u8],
    pub(crate) productions: Row<Production<'a>>,
}

/// The operation, and under which assumption it is used.
#[derive(Drop)]
pub struct Header {
    pub(crate) width: Width,
    pub(crate) inputs: u32,
    pub(crate) operation: Term,
    pub(crate) assume: Option<Term>,
}

/// What may be spent.
#[derive(Clone, Copy)]
pub struct Budgets {
    pub(crate) depth: u32,
    pub(crate) turns: u32,
    pub(crate) conflicts: u32,
}

/// The lines of a problem, with nonterminals by their names.
#[derive(Drop)]
pub struct Lines<'a> {
    pub(crate) header: Header,
    pub(crate) kind: Kind,
    /// A nonterminal for each field of the domain.
    pub(crate) starts: Row<&'a [u8]>,
    pub(crate) budgets: Budgets,
    pub(crate) rules: Row<Rule<'a>>,
}

/// A problem as it was read, before its names are numbered and its size is tested. Contracts see its lines and
/// the place of the first name that no rule has.
#[derive(Drop)]
pub struct Draft<'a> {
    pub(crate) lines: Lines<'a>,
    /// The place of the first name that no rule has.
    pub(crate) undefined: Option<usize>,
}

impl<'a> Model for Draft<'a> {
    ghost use Rattle.std.specs.Coded.{codes};
    ghost use Rattle.am_bv.specs.contracts.term.Term as term;
    ghost use Rattle.am_problem.specs.Texts.{Draft as Data};

    ghost Value = { Data };

    ghost coded = { Prim.hlevel (codes, term.the_row.coded) };

    ghost use Rattle.am_problem.specs.StoredDraft.{IsStoredDraft, seen};

    ghost view = { seen };

    ghost invariant = { IsStoredDraft };
}
