//! Laws of the queries' formulas, of turns and of acceptance. Each function does nothing: its contract is a law,
//! which is proved, and a call brings it into the caller's proof.

ghost use Rattle.am_query.specs.AcceptanceLaws.{AbsentIsAccepted, AcceptedIsRight, AcceptedWithHintsIsRight};
ghost use Rattle.am_query.specs.AcceptanceLaws.{BestIsAccepted, HintsAreTestedInTurn, LogsAreTestedInTurn};
ghost use Rattle.am_query.specs.AcceptanceLaws.{VerdictsAreUnique, VerdictsExist};
ghost use Rattle.am_query.specs.Queries.{FormulasKeepTheLoad};
ghost use Rattle.am_query.specs.QueryLaws.{CloserOnesAreChosen, CloserOnesAreReached};
ghost use Rattle.am_query.specs.QueryLaws.{FailedExamplesAreChosen, FailedExamplesAreReached};
ghost use Rattle.am_query.specs.QueryLaws.{FitsAreChosen, FitsAreReached, UnsatisfiedFitHasNone};
ghost use Rattle.am_query.specs.QueryLaws.{UnsatisfiedPrecisionHasNoneCloser, UnsatisfiedSoundnessIsSound};
ghost use Rattle.am_query.specs.TurnLaws.{KeptAreDetermined, KeptAreSatisfied, KeptGrow, NoneIsKeptAtFirst};
ghost use Rattle.am_query.specs.TurnLaws.{NothingIsKept, PlacesGrow, TracesGrow, TracesShow, TurnsAreFew};

/// Truth values that satisfy the formula of a fit choose a transformer that satisfies the examples, and each such
/// transformer is chosen by some. Where none satisfy the formula, no transformer satisfies the examples.
pub fn fits_are_chosen()
    ensures chosen { FitsAreChosen }
    ensures reached { FitsAreReached }
    ensures none { UnsatisfiedFitHasNone }
{}

/// Truth values that satisfy the formula of soundness choose a true example that the transformer doesn't cover, and
/// each such example is chosen by some. Where none satisfy the formula, the transformer is sound.
pub fn failed_examples_are_chosen()
    ensures chosen { FailedExamplesAreChosen }
    ensures reached { FailedExamplesAreReached }
    ensures none { UnsatisfiedSoundnessIsSound }
{}

/// Truth values that satisfy the formula of precision choose a transformer that satisfies the examples, and a word
/// at some inputs that it excludes and the given one admits; each such transformer and word are chosen by some.
/// Where none satisfy the formula, no transformer that satisfies the examples is closer.
pub fn closer_ones_are_chosen()
    ensures chosen { CloserOnesAreChosen }
    ensures reached { CloserOnesAreReached }
    ensures none { UnsatisfiedPrecisionHasNoneCloser }
{}

/// Beside the true variable and its inputs, the circuit of a query has at most as many gates as the problem's load.
pub fn formulas_keep_the_load()
    ensures { FormulasKeepTheLoad }
{}

/// Before the first example no place is kept. The next place is kept exactly where some transformer satisfies the
/// positive examples, the kept ones and its own. The kept places are determined.
pub fn kept_examples_are_determined()
    ensures first { NoneIsKeptAtFirst }
    ensures grow { KeptGrow }
    ensures determined { KeptAreDetermined }
{}

/// Some transformer satisfies the positive examples and the kept ones, where some satisfies the positive ones at all;
/// else nothing is kept. One place more has the example at it.
pub fn kept_examples_are_satisfied()
    ensures satisfied { KeptAreSatisfied }
    ensures nothing { NothingIsKept }
    ensures further { PlacesGrow }
{}

/// The examples after a valid trace are true and valid, and no more than the turns. It goes on by a turn.
pub fn traces_show_examples()
    ensures show { TracesShow }
    ensures grow { TracesGrow }
{}

/// A valid trace has at most K * (K + 1) turns, where K is the number of the grammar's tuples of trees.
pub fn turns_are_few()
    ensures { TurnsAreFew }
{}

/// An outcome isn't both accepted and at fault, and has one fault at most. Where it is decided of each term and each
/// example whether it is as acceptance asks, an outcome is accepted or has a fault.
pub fn outcomes_have_one_verdict()
    ensures unique { VerdictsAreUnique }
    ensures exists { VerdictsExist }
{}

/// A log fails with its first fault, and, where it has none, where it doesn't end with the empty clause. So do hints.
pub fn refutations_are_tested_in_turn()
    ensures logs { LogsAreTestedInTurn }
    ensures hints { HintsAreTestedInTurn }
{}

/// A best transformer, or the fact that none is sound, is accepted with a valid trace and logs that refute.
pub fn refuted_outcomes_are_accepted()
    ensures best { BestIsAccepted }
    ensures absent { AbsentIsAccepted }
{}

/// What an accepted outcome of a problem says is right, by its logs or by hints: its transformer is best, or no
/// transformer is sound.
pub fn accepted_is_right()
    ensures logs { AcceptedIsRight }
    ensures hints { AcceptedWithHintsIsRight }
{}
