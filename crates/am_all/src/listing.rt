//! All trees of a grammar, in order.

ghost use Rattle.std.specs.Prelude.{◌≡◌, ◌<◌, ◌++◌, IfOk, IsTrue, OnOk, length, map};
ghost use Rattle.am_tree.specs.Grammars.{is_production};
ghost use Rattle.am_tree.specs.Trees.{tree};
ghost use Rattle.am_tree.specs.Listed.{choices, trees_by, trees_of};
ghost use Rattle.am_all.specs.inside.Levels.{AreLevels, IsToldLevel};

use crate::choices::{choices, slices};
use crate::levels::{Level, have_trees};
use am_bv::Row;
use am_tree::{Grammar, Production, Tree, Trees};
use std::alloc::{AllocError, Global};

/// A list of tuples of trees.
pub type TreeRows = Row<Trees>;

/// The trees that derive from the nonterminal with as much depth as there are levels, ordered by their
/// productions, then by the first child, then by the second, and so on. What the levels say of nonterminals
/// without trees saves the listing of other children beside them.
#[cycle(listing)]
pub fn trees_of(
    alloc: Global,
    grammar: &Grammar,
    levels: &[Level],
    symbol: u32,
) -> Result<Trees, AllocError>
    requires symbol { symbol < length grammar.now.rules }
    requires levels { AreLevels grammar.now.rules levels.now }
    ensures { IfOk result (λ trees. trees ≡ trees_of grammar.now.rules (length levels.now) symbol) }
{
    let mut trees = Row::new(alloc);
    let Some((level, below)) = levels.split_last() else {
        return Ok(trees);
    };
    let productions = grammar.rules.get(symbol as usize).as_slice();
    for (i, production) in productions.iter().enumerate() {
        push_trees(
            alloc,
            grammar,
            level.as_slice(),
            below,
            i as u32,
            production,
            &mut trees,
        )?;
    }
    Ok(trees)
}

/// Puts the trees of a production with this number at the end, where the children have as much depth as there
/// are levels below.
#[cycle(listing)]
fn push_trees(
    alloc: Global,
    grammar: &Grammar,
    level: &[bool],
    below: &[Level],
    number: u32,
    production: &Production,
    trees: &mut Trees,
) -> Result<(), AllocError>
    requires production { IsTrue (is_production (length grammar.now.rules) production.now) }
    requires level { IsToldLevel (trees_of grammar.now.rules (length below.now)) level.now }
    requires levels { AreLevels grammar.now.rules below.now }
    ensures { OnOk result (trees.new ≡
        trees.old ++ trees_by (trees_of grammar.now.rules (length below.now)) number production.now) }
{
    match production {
        Production::Leaf(_) => trees.push(Tree {
            production: number,
            children: Row::new(alloc),
        }),
        Production::Node(_, names) => {
            if !have_trees(names.as_slice(), level) {
                return Ok(());
            }
            let mut lists = Row::new(alloc);
            for name in names.as_slice() {
                lists.push(trees_of(alloc, grammar, below, *name)?)?;
            }
            push_nodes(alloc, number, lists.as_slice(), trees)
        }
    }
}

/// Puts the trees at the end that have one of each list as children.
fn push_nodes(
    alloc: Global,
    number: u32,
    lists: &[Trees],
    trees: &mut Trees,
) -> Result<(), AllocError>
    ensures { OnOk result (trees.new ≡ trees.old ++ map (tree number) (choices lists.now)) }
{
    let slices = slices(alloc, lists)?;
    let rows = choices(alloc, slices.as_slice())?;
    for row in rows.as_slice() {
        trees.push(Tree {
            production: number,
            children: copies(alloc, row.as_slice())?,
        })?;
    }
    Ok(())
}

/// Equal trees.
pub fn copies(alloc: Global, trees: &[&Tree]) -> Result<Trees, AllocError>
    ensures { IfOk result (λ copies. copies ≡ map (λ t. t.now) trees.now) }
{
    let mut copies = Row::new(alloc);
    for tree in trees {
        copies.push(tree.copy(alloc)?)?;
    }
    Ok(copies)
}
