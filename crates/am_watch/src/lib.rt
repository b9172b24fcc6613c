//! Unit propagation by two watched literals.
//!
//! A [`Watch`] knows for each clause of two or more literals two of them, and for each literal the
//! clauses that watch it. [`Watch::propagate`] looks only at clauses of which a watched literal
//! became false. It names a false clause, or answers that no clause is false and none is unit.
//! Each literal that it implies stands in its reason, whose other literals were false before.
//!
//! Going back on the trail needs no repair of the watches: the invariant between watches, clauses
//! and trail speaks of the literals that were passed alone.
//!
//! ```
//! let mut watch = Watch::new(alloc, &formula)?;
//! let mut trail = Trail::new(alloc, formula.vars)?;
//! trail.decide(Lit::new(0, true));
//! match watch.propagate(&mut trail, &formula, &learnt)? {
//!     Some(i) => {} // each literal of clause i is false
//!     None => {}    // no clause is false, and none is unit
//! }
//! ```
//!
//! The clauses are the formula's, and after them the learnt ones. What holds between them, the watches
//! and the trail stands in `specs/Watching.antt`.
//!
//! # What is proved
//!
//! [`Watch::propagate`] answers Some(i) only with a clause i whose literals are all false, and None only
//! where **every clause is settled**: a literal of it is true, or two have no value, so none is false
//! and none is unit. Then the head stands at the trail's end. After each answer, also want of memory, the
//! trail begins with its old entries and is at its old level; each further literal stands in its reason,
//! whose other literals were false before it.
//!
//! This rests on one invariant between watches, clauses and trail, `WatchesHold`. [`Watch::new`] gives it for an
//! empty trail, [`Watch::add`] keeps it for one more clause, `propagate` keeps it, and [`watch_laws`] say
//! that `Trail::decide` at the end of a trail, `Trail::imply` and `Trail::back_to` keep it. `add` takes
//! its memory before it changes anything. No clause tells watched literals from a scan of all clauses
//! that meets the same contract: that only clauses with a watched literal that became false are looked
//! at is not proved.
#![tactic(auto)]

mod lists;
mod looks;
mod watch;
pub mod watch_laws;
mod watcher;
mod watches;

pub use looks::clause_at;
pub use watch::Watch;
