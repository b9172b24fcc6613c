//! Terms over a row of fields.

ghost use Rattle.std.specs.Prelude.{◌≡◌, ◌*◌, ◌^◌, ◌<◌, ◌≤◌, ◌↔◌, IfOk, IsTrue, min};
ghost use Rattle.am_bv.specs.Operators.{arity};
ghost use Rattle.am_bv.specs.Terms.{binary, fits, has_arities, nodes, rename, ternary, unary, weight};

use crate::op::Op;
use crate::row::Row;
use crate::width::Width;
use std::alloc::{AllocError, Global};

/// A term over the words of a row of fields.
#[derive(PartialEq, Eq, Debug, Drop)]
pub enum Term {
    /// The same word everywhere.
    Const(u8),
    /// The field of this number, counted from 0.
    Field(u32),
    /// An operator at its arguments.
    Node(Op, Row<Term>),
}

/// A list of terms.
pub type Terms = Row<Term>;

impl Term {
    /// An operator at the one argument that it takes.
    pub fn unary(alloc: Global, op: Op, argument: Term) -> Result<Term, AllocError>
        requires { arity op ≡ 1 }
        ensures { IfOk result (λ t. t ≡ unary op argument) }
    {
        let mut args = Row::new(alloc);
        args.push(argument)?;
        Ok(Term::Node(op, args))
    }

    /// An operator at the two arguments that it takes.
    pub fn binary(alloc: Global, op: Op, first: Term, second: Term) -> Result<Term, AllocError>
        requires { arity op ≡ 2 }
        ensures { IfOk result (λ t. t ≡ binary op first second) }
    {
        let mut args = Row::new(alloc);
        args.push(first)?;
        args.push(second)?;
        Ok(Term::Node(op, args))
    }

    /// An operator at the three arguments that it takes.
    pub fn ternary(
        alloc: Global,
        op: Op,
        first: Term,
        second: Term,
        third: Term,
    ) -> Result<Term, AllocError>
        requires { arity op ≡ 3 }
        ensures { IfOk result (λ t. t ≡ ternary op first second third) }
    {
        let mut args = Row::new(alloc);
        args.push(first)?;
        args.push(second)?;
        args.push(third)?;
        Ok(Term::Node(op, args))
    }

    /// Whether each constant is a word of this width, each field is below `n`, and each operator has
    /// as many arguments as it takes.
    #[tactic(auto, using(crate::proofs::ByKind::laws))]
    pub fn fits(&self, w: Width, n: u32) -> bool
        ensures { result ≡ fits w n self.now }
    {
        match self {
            Term::Const(c) => *c <= w.mask(),
            Term::Field(i) => *i < n,
            Term::Node(op, args) => {
                let mut fit = args.len() == op.arity() as usize;
                for t in args.as_slice() {
                    fit = fit && t.fits(w, n);
                }
                fit
            }
        }
    }

    /// Whether each operator has as many arguments as it takes.
    #[tactic(auto, using(crate::proofs::ByKind::laws))]
    pub fn has_arities(&self) -> bool
        ensures { result ≡ has_arities self.now }
    {
        match self {
            Term::Const(_) | Term::Field(_) => true,
            Term::Node(op, args) => {
                let mut right = args.len() == op.arity() as usize;
                for t in args.as_slice() {
                    right = right && t.has_arities();
                }
                right
            }
        }
    }

    /// The number of operators and leaves, or 2^32 where there are more.
    #[tactic(auto, using(crate::proofs::ByKind::laws))]
    pub fn nodes(&self) -> u64
        ensures { result ≡ min (nodes self.now) (2 ^ 32) }
    {
        match self {
            Term::Const(_) | Term::Field(_) => 1,
            Term::Node(_, args) => {
                let mut count = 1;
                for t in args.as_slice() {
                    count = (count + t.nodes()).min(1 << 32);
                }
                count
            }
        }
    }

    /// The sum of its operators' weights at this width, which is at most 288 for each node. It is asked
    /// of terms with fewer than 2^32 nodes, where the sum can't wrap.
    #[tactic(auto, using(crate::proofs::ByKind::laws))]
    pub fn weight(&self, w: Width) -> u64
        requires { nodes self.now < 2 ^ 32 }
        ensures value { result ≡ weight w self.now }
        ensures most { result ≤ 288 * nodes self.now }
    {
        match self {
            Term::Const(_) | Term::Field(_) => 0,
            Term::Node(op, args) => {
                let mut sum = op.weight(w);
                for t in args.as_slice() {
                    sum += t.weight(w);
                }
                sum
            }
        }
    }

    /// An equal term.
    pub fn copy(&self, alloc: Global) -> Result<Term, AllocError>
        ensures { IfOk result (λ t. t ≡ self.now) }
    {
        match self {
            Term::Const(c) => Ok(Term::Const(*c)),
            Term::Field(i) => Ok(Term::Field(*i)),
            Term::Node(op, args) => {
                let mut copies = Row::new(alloc);
                for t in args.as_slice() {
                    copies.push(t.copy(alloc)?)?;
                }
                Ok(Term::Node(*op, copies))
            }
        }
    }

    /// The term with the field `fields[i]` for each field `i`. A field past the end of the list stays.
    #[tactic(auto, using(crate::proofs::ByKind::laws))]
    pub fn rename(&self, alloc: Global, fields: &[u32]) -> Result<Term, AllocError>
        ensures { IfOk result (λ t. t ≡ rename fields.now self.now) }
    {
        match self {
            Term::Const(c) => Ok(Term::Const(*c)),
            Term::Field(i) => Ok(Term::Field(*fields.get(*i as usize).unwrap_or(i))),
            Term::Node(op, args) => {
                let mut renamed = Row::new(alloc);
                for t in args.as_slice() {
                    renamed.push(t.rename(alloc, fields)?)?;
                }
                Ok(Term::Node(*op, renamed))
            }
        }
    }

    /// Whether both are the same term, which is what `==` answers.
    pub fn equals(&self, other: &Term) -> bool
        ensures { IsTrue result ↔ (self.now ≡ other.now) }
    {
        self == other
    }
}
