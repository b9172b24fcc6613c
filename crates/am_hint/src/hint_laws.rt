//! Why hints convince, and how lists of hints grow. Each function does nothing: its contract is a
//! law, which is proved.

ghost use Rattle.am_hint.specs.HintLaws.{NormalTestsAreRight, HintsAreSound, HintRefutationsAreSound};
ghost use Rattle.am_hint.specs.HintLaws.{HintsGrow, FirstHintFaultsStand};

/// The test of a hint's clause says yes exactly where the clause is normal.
pub fn normal_tests_are_right()
    ensures { NormalTestsAreRight }
{}

/// The clause of a hint that passes is true wherever the clauses that the hint may name are true.
pub fn hints_are_sound()
    ensures { HintsAreSound }
{}

/// Hints that refute a formula leave it no satisfying assignment.
pub fn hint_refutations_are_sound()
    ensures { HintRefutationsAreSound }
{}

/// Where all hints pass, and a further one passes after them, all pass with it.
pub fn hints_grow()
    ensures { HintsGrow }
{}

/// Where the hints before one pass and that one doesn't, its fault is the first of the whole list.
pub fn first_hint_faults_stand()
    ensures { FirstHintFaultsStand }
{}
