//! Which tree gives a term.
//!
//! A term is matched against the productions from its leaves up: for each subterm and each nonterminal
//! one tree is found, with the one depth that can be asked for it there, or there is none. So each
//! subterm is tried with each production once, however many productions match, and nothing below the
//! depth is looked at.

ghost use Rattle.std.specs.Prelude.{ℕ, suc, ◌≡◌, ◌<◌, ◌≤◌, List, [], IfOk, length, slice_index_or};
ghost use Rattle.std.specs.List.{AllZip};
ghost use Rattle.std.specs.Option.{option_copied};
ghost use Rattle.am_tree.specs.Trees.{Rules, IsFound};
ghost use Rattle.am_tree.specs.inside.Matched.{arguments_of, tree_at, AreFound, AreChildren, AreJoinedTrees};

use crate::grammar::{Grammar, Production, Productions};
use crate::tree::{Tree, Trees};
use am_bv::{Row, Term};
use std::alloc::{AllocError, Global};

/// For each nonterminal a tree of one term, if there is one.
type Table = Row<Option<Tree>>;

impl Grammar {
    /// A tree that derives from the nonterminal with the depth and gives the term, or None exactly where
    /// there is no such tree.
    pub fn find_tree(
        &self,
        alloc: Global,
        symbol: u32,
        depth: u32,
        term: &Term,
    ) -> Result<Option<Tree>, AllocError>
        requires { symbol < length self.now.rules }
        ensures { IfOk result (IsFound self.now.rules depth symbol term.now) }
    {
        if depth == 0 {
            return Ok(None);
        }
        let tables = self.tables(alloc, depth - 1, term)?;
        let productions = self.rules.get(symbol as usize).as_slice();
        first_tree(alloc, productions, term, tables.as_slice())
    }

    /// The table of each argument of the term.
    #[cycle(matching)]
    fn tables(&self, alloc: Global, depth: u32, term: &Term) -> Result<Row<Table>, AllocError>
        ensures { IfOk result (AllZip (AreFound self.now.rules depth) (arguments_of term.now)) }
    {
        let mut tables = Row::new(alloc);
        match term {
            Term::Const(_) | Term::Field(_) => Ok(tables),
            Term::Node(_, args) => {
                for arg in args.as_slice() {
                    tables.push(self.table(alloc, depth, arg)?)?;
                }
                Ok(tables)
            }
        }
    }

    /// The table of the term.
    #[cycle(matching)]
    fn table(&self, alloc: Global, depth: u32, term: &Term) -> Result<Table, AllocError>
        ensures { IfOk result (AreFound self.now.rules depth term.now) }
    {
        let mut table = Row::new(alloc);
        if depth == 0 {
            return Ok(table);
        }
        let below = self.tables(alloc, depth - 1, term)?;
        for productions in self.rules.as_slice() {
            table.push(first_tree(alloc, productions.as_slice(), term, below.as_slice())?)?;
        }
        Ok(table)
    }
}

/// A tree of the first production that makes the term, from the tables of its arguments.
fn first_tree(
    alloc: Global,
    productions: &[Production],
    term: &Term,
    tables: &[Table],
) -> Result<Option<Tree>, AllocError>
    requires { length productions.now ≤ 64 }
    ensures { IfOk result (λ found. (rules : Rules) (d n : ℕ) → slice_index_or rules n [] ≡ productions.now →
        AllZip (AreFound rules d) (arguments_of term.now) tables.now → IsFound rules (suc d) n term.now found) }
{
    for (i, production) in productions.iter().enumerate() {
        if let Some(children) = children(alloc, production, term, tables)? {
            return Ok(Some(Tree {
                production: i as u32,
                children,
            }));
        }
    }
    Ok(None)
}

/// The children with which the production makes the term.
fn children(
    alloc: Global,
    production: &Production,
    term: &Term,
    tables: &[Table],
) -> Result<Option<Trees>, AllocError>
    ensures { IfOk result (λ found. (rules : Rules) (d : ℕ) →
        AllZip (AreFound rules d) (arguments_of term.now) tables.now →
        AreChildren rules d production.now term.now found) }
{
    match production {
        Production::Leaf(leaf) => {
            if leaf.equals(term) {
                Ok(Some(Row::new(alloc)))
            } else {
                Ok(None)
            }
        }
        Production::Node(op, names) => match term {
            Term::Node(other, args) => {
                if op == other && names.len() == args.len() {
                    joined(alloc, names.as_slice(), tables)
                } else {
                    Ok(None)
                }
            }
            Term::Const(_) | Term::Field(_) => Ok(None),
        },
    }
}

/// The trees at the nonterminals, each from the table of its place.
fn joined(alloc: Global, names: &[u32], tables: &[Table]) -> Result<Option<Trees>, AllocError>
    ensures { IfOk result (λ found. (rules : Rules) (d : ℕ) (args : List Term) →
        AllZip (AreFound rules d) args tables.now → length names.now ≡ length args →
        AreJoinedTrees rules d names.now args found) }
{
    let mut trees = Row::new(alloc);
    for (i, name) in names.iter().enumerate() {
        match tree_at(tables, i, *name) {
            Some(tree) => trees.push(tree.copy(alloc)?)?,
            None => return Ok(None),
        }
    }
    Ok(Some(trees))
}

/// The tree at a nonterminal in the table of a place.
fn tree_at(tables: &[Table], place: usize, name: u32) -> Option<&Tree>
    ensures { option_copied result ≡ tree_at tables.now place name }
{
    tables.get(place)?.as_slice().get(name as usize)?.as_ref()
}
