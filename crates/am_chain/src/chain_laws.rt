//! Laws of resolvents, chains and logs that a solver and a reader of logs rest on. Each function
//! does nothing: its contract is a law, which is proved.

ghost use Rattle.am_chain.specs.ChainLaws.{PivotsAreOpposite, ResolventsHaveTheOthers, StepsGrow, ChainsStayBelow};
ghost use Rattle.am_chain.specs.ChainLaws.{LogsStayBelow, FirstFaultsStand};
ghost use Rattle.am_chain.specs.Trimmed.{TrimmedChainsAreTheLogs};

/// Clauses in order have a pivot on a variable exactly where one of its literals stands alone in
/// the first, and its opposite alone in the second.
pub fn pivots_are_opposite()
    ensures { PivotsAreOpposite }
{}

/// A resolvent is in order, and has exactly the literals of both clauses that aren't of the
/// variable.
pub fn resolvents_have_the_others()
    ensures { ResolventsHaveTheOthers }
{}

/// A further step is taken after the others.
pub fn steps_grow()
    ensures { StepsGrow }
{}

/// The clause of a chain is in order and over the first variables where the clauses are that the
/// chain may name.
pub fn chains_stay_below()
    ensures { ChainsStayBelow }
{}

/// All clauses that a log derives from a formula are in order and over its variables.
pub fn logs_stay_below()
    ensures { LogsStayBelow }
{}

/// Where the chains before one are valid and that one isn't, its fault is the first of the whole
/// log.
pub fn first_faults_stand()
    ensures { FirstFaultsStand }
{}

/// Each chain of a trimmed log is one of the log's, and resolves on the same variables in the same
/// order.
pub fn trimmed_chains_are_the_logs()
    ensures { TrimmedChainsAreTheLogs }
{}
