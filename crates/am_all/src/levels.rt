//! Which nonterminals have trees.

ghost use Rattle.std.specs.Prelude.{ℕ, suc, ◌≡◌, ◌+◌, false, List, [], All, IfOk, length, map};
ghost use Rattle.am_tree.specs.declared.tree.Tree.{Tree};
ghost use Rattle.am_tree.specs.Listed.{choices, trees_by, trees_of};
ghost use Rattle.am_all.specs.inside.Levels.{AreLevels, IsToldLevel};

use am_bv::Row;
use am_tree::{Grammar, Production, Productions};
use std::alloc::{AllocError, Global};

/// For each nonterminal whether it may have a tree with some depth. Where that is false it has none.
pub type Level = Row<bool>;

/// The levels of the depths from 0 up to the grammar's.
pub fn levels(alloc: Global, grammar: &Grammar) -> Result<Row<Level>, AllocError>
    ensures { IfOk result (λ levels. (length levels ≡ grammar.now.depth + 1) × AreLevels grammar.now.rules levels) }
{
    let rules = grammar.rules.as_slice();
    let mut levels = Row::new(alloc);
    let mut level = lowest(alloc, rules)?;
    for _ in 0..grammar.depth {
        let above = above(alloc, rules, level.as_slice())?;
        levels.push(level)?;
        level = above;
    }
    levels.push(level)?;
    Ok(levels)
}

/// With depth 0 no nonterminal has a tree.
fn lowest(alloc: Global, rules: &[Productions]) -> Result<Level, AllocError>
    ensures { IfOk result (IsToldLevel (trees_of rules.now 0)) }
{
    let mut level = Row::new(alloc);
    for _ in rules {
        level.push(false)?;
    }
    Ok(level)
}

/// The level of one depth more.
fn above(alloc: Global, rules: &[Productions], below: &[bool]) -> Result<Level, AllocError>
    ensures { IfOk result (λ level. (d : ℕ) → IsToldLevel (trees_of rules.now d) below.now →
        IsToldLevel (trees_of rules.now (suc d)) level) }
{
    let mut level = Row::new(alloc);
    for productions in rules {
        level.push(has_tree(productions.as_slice(), below))?;
    }
    Ok(level)
}

/// Whether one of the productions may have a tree whose children have the depth of the level.
fn has_tree(productions: &[Production], below: &[bool]) -> bool
    ensures { result ≡ false → (f : ℕ → List Tree) → IsToldLevel f below.now →
        All (λ p. (i : ℕ) → trees_by f i p ≡ []) productions.now }
{
    for production in productions {
        match production {
            Production::Leaf(_) => return true,
            Production::Node(_, names) => {
                if have_trees(names.as_slice(), below) {
                    return true;
                }
            }
        }
    }
    false
}

/// Whether each of the nonterminals may have a tree.
pub fn have_trees(names: &[u32], level: &[bool]) -> bool
    ensures { result ≡ false → (f : ℕ → List Tree) → IsToldLevel f level.now → choices (map f names.now) ≡ [] }
{
    for name in names {
        if let Some(false) = level.get(*name as usize) {
            return false;
        }
    }
    true
}
