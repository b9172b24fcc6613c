//! Laws of terms as circuits, for the proofs of other crates. Each function does nothing: its clause is the
//! law, and a call brings it into the caller's proof.

ghost use Rattle.am_blast.specs.Theorems.{TermsReadAsTheirValue, TermsMakeTheirWeight, TermsCanBeMet};
ghost use Rattle.am_blast.specs.Theorems.{OperatorsAreCircuits, NonzeroTestsTheNumber, ConstantsReadTheirNumber};

/// The circuit of a term reads as the term's value.
pub fn terms_read_as_their_value()
    ensures { TermsReadAsTheirValue }
{}

/// The circuit of a term makes gates over earlier variables, and no input: at most as many as the term
/// weighs, and exactly so many where none folds.
pub fn terms_make_their_weight()
    ensures { TermsMakeTheirWeight }
{}

/// Each choice of the earlier variables extends to truth values that the gates of a term have.
pub fn terms_can_be_met()
    ensures { TermsCanBeMet }
{}

/// The circuit of each operator reads as the operator's value, and makes as many gates as it weighs.
pub fn operators_are_circuits()
    ensures { OperatorsAreCircuits }
{}

/// The test whether a word isn't 0 is true exactly where the word reads another number.
pub fn nonzero_tests_the_number()
    ensures { NonzeroTestsTheNumber }
{}

/// The word of a constant reads as the constant.
pub fn constants_read_their_number()
    ensures { ConstantsReadTheirNumber }
{}
