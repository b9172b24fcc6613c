//! Trees, which say how a term comes from a grammar.

ghost use Rattle.std.specs.Prelude.{◌≡◌, IfOk};

use am_bv::Row;
use std::alloc::{AllocError, Global};

/// A tree of a grammar: the number of a production in its nonterminal's list, from 0, and one tree for
/// each of the production's arguments.
#[derive(Drop)]
pub struct Tree {
    pub production: u32,
    pub children: Row<Tree>,
}

/// A list of trees.
pub type Trees = Row<Tree>;

impl Tree {
    /// An equal tree.
    pub fn copy(&self, alloc: Global) -> Result<Tree, AllocError>
        ensures { IfOk result (λ t. t ≡ self.now) }
    {
        let mut children = Row::new(alloc);
        for t in self.children.as_slice() {
            children.push(t.copy(alloc)?)?;
        }
        Ok(Tree {
            production: self.production,
            children,
        })
    }
}
