//! Grammars of terms, their trees, how many there are, and the slots in which a formula can speak of
//! all of them.
//!
//! A [`Grammar`] has productions for each nonterminal: a leaf is a term over the fields, a node is an
//! operator with one nonterminal an argument. A tree derives from a nonterminal with a depth where its
//! production is one of the nonterminal's and its children derive with one depth less, and it gives a
//! term. [`Grammar::derives`] is that relation, [`Grammar::term_of`] the tree's term, and
//! [`Grammar::find_tree`] finds a tree of a term, or shows that there is none. [`Grammar::count`] is the
//! number of tuples of trees.
//!
//! A slot stands for one node of all trees at once: productions that name the same nonterminal at the
//! same place share a child. [`Grammar::layout`] lists the slots, [`Grammar::slots`] and
//! [`Grammar::block_weight`] are their number and weight, and never walk them.
//!
//! ```
//! let mut rule = Productions::new(alloc);
//! rule.push(Production::Leaf(Term::Field(0)))?;
//! let mut rules = Rules::new(alloc);
//! rules.push(rule)?;
//! let mut starts = Symbols::new(alloc);
//! starts.push(0)?;
//! let grammar = Grammar::new(rules, starts, 1).ok_or("no grammar")?;
//! if 0 < grammar.rules.len() {
//!     let tree = grammar.find_tree(alloc, 0, 1, &Term::Field(0))?; // the leaf
//! }
//! ```
//!
//! The limits stand in `specs/Grammars.antt`, the relation in `specs/Trees.antt`, the numbers in
//! `specs/Counts.antt`, slots and weights in `specs/Slots.antt` and `specs/Weights.antt`.
//!
//! # What is proved
//!
//! [`Grammar::new`] is None exactly outside the limits, `IsGrammar`. [`Grammar::derives`] is true exactly
//! where the tree derives, by the one relation `Derives`: its production is one of the nonterminal's,
//! and it has one child for each argument, which derives from it with one depth less; nothing derives
//! with depth 0. [`Grammar::term_of`] is the tree's term, and [`Grammar::terms_of`] has the terms of a tuple
//! of trees, one from each start. [`Grammar::find_tree`] answers a tree that derives and gives the term,
//! and None **exactly where no tree does**.
//!
//! [`Grammar::count`] is the number of tuples of trees, one from each start, and None exactly where
//! it is 2^128 or more; [`theorems`] has that it is the length of the list of all of them.
//! [`Grammar::layout`] is the list of slots in level order, each with the numbers of its productions
//! and of their arguments' slots. [`Grammar::slots`] is the length of that list, and
//! [`Grammar::block_weight`] the sum over it of the weights of the productions, each with the width
//! for its choice. [`shared`] gives the children of a slot: the arguments of its productions, each
//! one once, in order of first occurrence.
//!
//! No clause speaks of the cost. `find_tree` matches the term against the productions from below, and
//! decides each subterm within the depth once for each nonterminal, whatever the number of trees.
//! `count`, `slots` and `block_weight` take no memory and walk no slots: they fill a table of one number
//! a nonterminal, once for each level.
#![tactic(auto)]

mod counting;
mod derivation;
mod grammar;
mod matching;
mod slots;
mod sums;
pub mod theorems;
mod tree;

pub use grammar::{
    Grammar, MOST_DEPTH, MOST_LEAF_NODES, MOST_PRODUCTIONS, MOST_RULES, MOST_STARTS, Production,
    Productions, Rules, Symbols,
};
pub use slots::{Argument, Children, Layout, Slot, SlotRows, is_offered, shared};
pub use tree::{Tree, Trees};
