//! What derives from a grammar, and the terms that trees give.

ghost use Rattle.std.specs.Prelude.{◌≡◌, ◌<◌, ◌↔◌, IfOk, IsTrue, length};
ghost use Rattle.am_tree.specs.Trees.{AreTrees, Derives, HasDerivation, term_of, terms_of};

use crate::grammar::{Grammar, Production};
use crate::tree::{Tree, Trees};
use am_bv::{Row, Term, Terms};
use std::alloc::{AllocError, Global};

impl Grammar {
    /// Whether the tree derives from the nonterminal with the depth.
    pub fn derives(&self, symbol: u32, depth: u32, tree: &Tree) -> bool
        requires { symbol < length self.now.rules }
        ensures { IsTrue result ↔ Derives self.now.rules depth symbol tree.now }
    {
        let productions = self.rules.get(symbol as usize);
        if depth == 0 || tree.production as usize >= productions.len() {
            return false;
        }
        let children = tree.children.as_slice();
        match productions.get(tree.production as usize) {
            Production::Leaf(_) => children.is_empty(),
            Production::Node(_, names) => {
                if names.len() != children.len() {
                    return false;
                }
                for (i, child) in children.iter().enumerate() {
                    if !self.derives(*names.get(i), depth - 1, child) {
                        return false;
                    }
                }
                true
            }
        }
    }

    /// The term of a tree that derives from the nonterminal with some depth: its leaves' terms, put for
    /// the nonterminals.
    pub fn term_of(&self, alloc: Global, symbol: u32, tree: &Tree) -> Result<Term, AllocError>
        requires { HasDerivation self.now.rules symbol tree.now }
        ensures { IfOk result (λ t. t ≡ term_of self.now.rules symbol tree.now) }
    {
        let productions = self.rules.get(symbol as usize);
        match productions.get(tree.production as usize) {
            Production::Leaf(term) => term.copy(alloc),
            Production::Node(op, names) => {
                let mut terms = Row::new(alloc);
                for (i, child) in tree.children.as_slice().iter().enumerate() {
                    let term = self.term_of(alloc, *names.get(i), child)?;
                    terms.push(term)?;
                }
                Ok(Term::Node(*op, terms))
            }
        }
    }

    /// The terms of a tuple of trees, one from each start.
    pub fn terms_of(&self, alloc: Global, trees: &Trees) -> Result<Terms, AllocError>
        requires { AreTrees self.now.rules self.now.starts self.now.depth trees.now }
        ensures { IfOk result (λ t. t ≡ terms_of self.now.rules self.now.starts trees.now) }
    {
        let mut terms = Terms::new(alloc);
        for (i, tree) in trees.as_slice().iter().enumerate() {
            let term = self.term_of(alloc, *self.starts.get(i), tree)?;
            terms.push(term)?;
        }
        Ok(terms)
    }
}
