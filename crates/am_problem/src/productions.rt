//! The productions of a rule.

ghost use Rattle.std.specs.Prelude.{◌≡◌, codes};
ghost use Rattle.am_bv.specs.Operators.{arity};
ghost use Rattle.am_text.specs.Tokens.{words};
ghost use Rattle.am_syntax.specs.Pieces.{times};
ghost use Rattle.am_syntax.specs.Readers.{GivesRead, Makes};
ghost use Rattle.am_syntax.specs.Spelling.{IsScope};
ghost use Rattle.am_problem.specs.Grammar.{leaf_production, name_before, node_production, opening};
ghost use Rattle.am_problem.specs.Grammar.{opens_names, production, productions};
ghost use Rattle.am_problem.specs.StoredLines.{seen_names, seen_production, seen_productions, seen_scope};

use crate::draft::{Production, Scope};
use crate::header::read_names;
use am_bv::{Op, Row, Term};
use am_syntax::{
    Cause, Failure, Item, Listed, TermLimits, is_name, op_named, read_list, refuse_next,
    take_closing, take_key, take_operator, take_term,
};
use am_text::Cursor;
use am_tree::MOST_LEAF_NODES;
use std::alloc::Global;

/// Takes the parenthesis of a production, of so many more at most.
fn take_opening(text: &mut Cursor<'_>, room: usize) -> Result<(), Cause>
    ensures { GivesRead (λ _. tt) result text.old text.new (opening room).read }
{
    if room == 0 {
        refuse_next(text, Cause::Count)
    } else {
        take_key(text, b"(")
    }
}

/// As many nonterminals as an operator has arguments.
fn read_arguments<'a>(
    alloc: Global,
    text: &mut Cursor<'a>,
    op: Op,
) -> Result<Row<&'a [u8]>, Failure>
    ensures { Makes seen_names result text.old text.new (times (λ _. name_before (codes ")")) (arity op)).read }
{
    read_names(alloc, text, b")", op.arity())
}

/// A term of at most so many nodes.
fn read_leaf(
    alloc: Global,
    text: &mut Cursor<'_>,
    scope: &Scope,
    room: usize,
) -> Result<Term, Failure>
    ensures { Makes (λ t. t) result text.old text.new (leaf_production (seen_scope scope.now) room).read }
{
    let limits = TermLimits {
        letter: scope.letter,
        variables: scope.variables,
        nodes: if room == 0 { 0 } else { MOST_LEAF_NODES },
        nesting: MOST_LEAF_NODES as u32,
    };
    take_term(alloc, text, scope.width, &limits)
}

/// An operator at nonterminals.
#[tactic(auto, unfolding(crate::specs::Grammar::node_production))]
fn read_node_production<'a>(
    alloc: Global,
    text: &mut Cursor<'a>,
    room: usize,
) -> Result<(Op, Row<&'a [u8]>), Failure>
    ensures { Makes (λ x. (tt, (x.0, seen_names x.1))) result text.old text.new (node_production room).read }
{
    take_opening(text, room)?;
    let op = take_operator(text)?;
    let names = read_arguments(alloc, text, op)?;
    take_closing(text)?;
    Ok((op, names))
}

/// Whether an operator and a nonterminal come.
fn opens_names(text: &Cursor<'_>) -> bool
    ensures { result ≡ opens_names (words text.now) }
{
    let mut ahead = text.fork();
    let (Some(a), Some(b), Some(c)) = (ahead.next(), ahead.next(), ahead.next()) else {
        return false;
    };
    a.text == b"(".as_slice() && op_named(b.text).is_some() && is_name(c.text)
}

/// A production, of so many more at most.
#[tactic(auto, unfolding(crate::specs::Grammar::production))]
fn read_production<'a>(
    alloc: Global,
    text: &mut Cursor<'a>,
    scope: &Scope,
    room: usize,
) -> Result<Production<'a>, Failure>
    ensures { Makes seen_production result text.old text.new (production (seen_scope scope.now) room).read }
{
    if opens_names(text) {
        let (op, names) = read_node_production(alloc, text, room)?;
        Ok(Production::Node(op, names))
    } else {
        Ok(Production::Leaf(read_leaf(alloc, text, scope, room)?))
    }
}

/// The productions of a rule, so many at most.
#[derive(Clone, Copy)]
struct Productions {
    scope: Scope,
    room: usize,
}

impl<'a> Item<'a> for Productions {
    ghost use Rattle.std.specs.Prelude.{length, ◌-◌};
    ghost use Rattle.am_problem.specs.Lines.{Production as Data};
    ghost use Rattle.am_problem.specs.Grammar.{production};
    ghost use Rattle.am_problem.specs.StoredLines.{seen_production};

    type Value = Production<'a>;

    ghost Shown = { Data };

    ghost view = { seen_production };

    ghost reads = { λ own before. (production (seen_scope own.scope) (own.room - length before)).read };

    ghost can = { λ _. Unit {0} };

    #[tactic(auto, using(crate::proofs::Seen::seen))]
    fn read(
        &self,
        alloc: Global,
        text: &mut Cursor<'a>,
        seen: &[Production<'a>],
    ) -> Result<Production<'a>, Failure> {
        read_production(
            alloc,
            text,
            &self.scope,
            self.room.saturating_sub(seen.len()),
        )
    }
}

impl<'a> Listed<'a> for Productions {
    ghost use Rattle.am_problem.specs.Grammar.{goes_on};

    ghost goes = { goes_on };

    fn comes(&self, text: &Cursor<'a>) -> bool {
        match text.peek() {
            Some(token) => token.text != b"rule".as_slice() && token.text != b"end".as_slice(),
            None => false,
        }
    }
}

/// The productions of a rule.
#[tactic(auto, unfolding(crate::specs::Grammar::productions))]
pub(crate) fn read_productions<'a>(
    alloc: Global,
    text: &mut Cursor<'a>,
    scope: &Scope,
    room: usize,
) -> Result<Row<Production<'a>>, Failure>
    requires { IsScope (seen_scope scope.now) }
    ensures { Makes seen_productions result text.old text.new (productions (seen_scope scope.now) room).read }
{
    let productions = Productions {
        scope: *scope,
        room,
    };
    read_list(alloc, text, &productions)
}
