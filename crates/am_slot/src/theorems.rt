//! Laws of templates for the proofs of other crates. Each function does nothing: its clause is the law,
//! and a call brings it into the caller's proof.

ghost use Rattle.am_slot.specs.Theorems.{SelectorsAreThoseOfTheLayout, AssignmentsServe, DerivedTuplesAreReached};
ghost use Rattle.am_slot.specs.Theorems.{TemplatesMakeSelectors, BlocksMakeTheirWeight};

/// There is one selector for each production of each slot of the layout.
pub fn selectors_are_those_of_the_layout()
    ensures { SelectorsAreThoseOfTheLayout }
{}

/// Truth values that meet a template choose one tuple of trees that derive, and every block reads as
/// this tuple.
pub fn assignments_serve()
    ensures { AssignmentsServe }
{}

/// Each tuple of trees that derive is chosen by truth values that meet a template, and from there
/// every block can be met.
pub fn derived_tuples_are_reached()
    ensures { DerivedTuplesAreReached }
{}

/// A template makes its selectors, as inputs, and clauses over them.
pub fn templates_make_selectors()
    ensures { TemplatesMakeSelectors }
{}

/// A block makes at most as many gates as it weighs, and no input.
pub fn blocks_make_their_weight()
    ensures { BlocksMakeTheirWeight }
{}
