//! Laws of trees and slots for the proofs of other crates. Each function does nothing: its clauses are
//! the laws, and a call brings them into the caller's proof.

ghost use Rattle.am_tree.specs.Laid.{ChoicesSpellOne, LayoutsHaveTheTrees};
ghost use Rattle.am_tree.specs.Theorems.{BlockWeighsItsSlots, TuplesAreCounted, TuplesAreListed, TuplesStandOnce};

/// The number of tuples of trees is the length of their list, which has exactly those that derive, each once.
pub fn count_is_length()
    ensures counted { TuplesAreCounted }
    ensures listed { TuplesAreListed }
    ensures once { TuplesStandOnce }
{}

/// The weight of a block is the sum over the slots of the layout.
pub fn block_weighs_its_slots()
    ensures { BlockWeighsItsSlots }
{}

/// The slots of the layout spell exactly the tuples of trees that derive, and each choice of productions spells
/// one tuple at most.
pub fn layouts_have_the_trees()
    ensures trees { LayoutsHaveTheTrees }
    ensures one { ChoicesSpellOne }
{}
