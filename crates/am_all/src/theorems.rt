//! Laws of the list of all best tuples, for the proofs of other crates. The function does nothing: its clauses
//! are the laws, and a call brings them into the caller's proof.

ghost use Rattle.am_all.specs.Theorems.{HasEachBest, HasOnlyBest, IsEmptyWhereAbsent};
ghost use Rattle.am_all.specs.Theorems.{ListsDerivedTrees, ListsDerivedTuples};

/// The listed trees and tuples are those that derive. The list of all best tuples has only best ones, has the
/// terms of each best transformer, and is empty exactly where no transformer is sound.
pub fn lists_are_whole()
    ensures trees { ListsDerivedTrees }
    ensures tuples { ListsDerivedTuples }
    ensures only { HasOnlyBest }
    ensures each { HasEachBest }
    ensures empty { IsEmptyWhereAbsent }
{}
