//! Laws of terms for the proofs of other crates. Each function does nothing: its clauses are the
//! laws, and a call brings them into the caller's proof.

ghost use Rattle.am_bv.specs.Theorems.{ConstHasItsWord, FieldHasItsEntry, NodeHasItsOperatorsValue, ConstFitsAsWord};
ghost use Rattle.am_bv.specs.Theorems.{ConstHasArities, FieldHasArities, FittingTermsHaveArities, NodeHasArities};
ghost use Rattle.am_bv.specs.Theorems.{FieldFitsInRow, NodeFitsByArguments, ConstIsOneNode, FieldIsOneNode};
ghost use Rattle.am_bv.specs.Theorems.{NodeCountsItsArguments, ConstWeighsNothing, FieldWeighsNothing};
ghost use Rattle.am_bv.specs.Theorems.{NodeWeighsItsOperators, OperatorsGiveWords, FittingTermsGiveWords};
ghost use Rattle.am_bv.specs.Theorems.{OperatorsAreListed, FitsLongerRows, SameAtSameFields, RenamedConst};
ghost use Rattle.am_bv.specs.Theorems.{RenamedField, RenamedNode, RenamedReads, RenamedFits, RenamedNodes};
ghost use Rattle.am_bv.specs.Theorems.{RenamedWeighs};

/// What the value of a term is at each of its kinds.
pub fn value_by_kind()
    ensures constant { ConstHasItsWord }
    ensures field { FieldHasItsEntry }
    ensures node { NodeHasItsOperatorsValue }
{}

/// When a term fits at each of its kinds.
pub fn fits_by_kind()
    ensures constant { ConstFitsAsWord }
    ensures field { FieldFitsInRow }
    ensures node { NodeFitsByArguments }
{}

/// When the operators of a term have as many arguments as they take, at each of its kinds and where it
/// fits.
pub fn arities_by_kind()
    ensures constant { ConstHasArities }
    ensures field { FieldHasArities }
    ensures node { NodeHasArities }
    ensures fits { FittingTermsHaveArities }
{}

/// How many nodes a term of each kind has.
pub fn nodes_by_kind()
    ensures constant { ConstIsOneNode }
    ensures field { FieldIsOneNode }
    ensures node { NodeCountsItsArguments }
{}

/// How much a term of each kind weighs.
pub fn weight_by_kind()
    ensures constant { ConstWeighsNothing }
    ensures field { FieldWeighsNothing }
    ensures node { NodeWeighsItsOperators }
{}

/// Values are words of their width.
pub fn values_are_words()
    ensures operator { OperatorsGiveWords }
    ensures term { FittingTermsGiveWords }
{}

/// The list of all operators has each.
pub fn operators_are_listed()
    ensures { OperatorsAreListed }
{}

/// A term that fits a row of fields fits longer rows, and has the same value where the fields that
/// it fits are the same.
pub fn fields_past_the_row()
    ensures fits { FitsLongerRows }
    ensures value { SameAtSameFields }
{}

/// What renaming the fields gives at a term of each kind.
pub fn rename_by_kind()
    ensures constant { RenamedConst }
    ensures field { RenamedField }
    ensures node { RenamedNode }
{}

/// A renamed term reads the new fields, and keeps its nodes and its weight.
pub fn rename_keeps()
    ensures value { RenamedReads }
    ensures fits { RenamedFits }
    ensures nodes { RenamedNodes }
    ensures weight { RenamedWeighs }
{}
