//! Laws of the invariant between watches, clauses and trail. Each function does nothing: its contract is
//! a law, which is proved.

ghost use Rattle.am_watch.specs.WatchLaws.{DecisionsKeepWatches, ImplicationsKeepWatches, ReturnsKeepWatches};

/// `Trail::decide` keeps the invariant where all entries were passed.
pub fn decisions_keep_watches()
    ensures { DecisionsKeepWatches }
{}

/// `Trail::imply` keeps the invariant, whatever clause is the reason.
pub fn implications_keep_watches()
    ensures { ImplicationsKeepWatches }
{}

/// `Trail::back_to` keeps the invariant, with no repair of the watches.
pub fn returns_keep_watches()
    ensures { ReturnsKeepWatches }
{}
