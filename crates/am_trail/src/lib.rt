//! The trail of a search for a satisfying assignment, and the order in which it decides variables.
//!
//! A [`Trail`] is the list of literals that are true, in the order in which they became true. Each
//! was decided, at a new level, or implied by a clause, its reason, at the current level. Going
//! back to a level leaves exactly the literals of the levels up to it. A head marks how many of the
//! literals were passed, by whoever propagates them.
//!
//! An [`Order`] has an activity for each variable, and holds some of the variables. It gives the
//! held variable of the greatest activity, and the least number among equals.
//!
//! ```
//! let mut trail = Trail::new(alloc, 4)?;
//! trail.decide(Lit::new(2, true));
//! trail.imply(Lit::new(0, false), 7); // clause 7 forces it
//! let value = trail.value(Lit::new(0, true)); // Some(false)
//! trail.back_to(0); // no literal is left
//!
//! let mut order = Order::new(alloc, 4)?;
//! order.raise(3);
//! let first = order.take_first(); // Some(3), and then 0, 1, 2
//! ```
//!
//! Trails stand in `specs/Trails.antt`, orders in `specs/Orders.antt`.
//!
//! # What is proved
//!
//! A trail is a list of entries, each a literal with its level and its reason, with the current level and
//! a head. [`Trail::decide`] appends at a new level, [`Trail::imply`] at the current one, and all else
//! stays. [`Trail::back_to`] leaves exactly the entries of the levels up to the one given, and the head
//! at most at their number. [`Trail::pass`] moves the head by one. No variable stands in a trail twice.
//! [`Trail::value`] is None exactly where the variable has no value, and else says whether the literal is
//! true. [`Trail::entry`] and [`Trail::literal`] read the list, [`Trail::place`], [`Trail::level_of`] and
//! [`Trail::reason`] tell of the one entry of a variable; a reason is None exactly where the literal was
//! decided. [`Trail::count_upto`] is the number of entries of the levels up to one, which come first.
//!
//! An order is the activity of each variable, and the list of the held ones. [`Order::take_first`]
//! answers the held variable that **comes before all other held ones**, being more active, or as
//! active and of a smaller number, and holds it no more; it is None exactly where none is held.
//! [`Order::hold`] holds one more. [`Order::raise`] adds one to an activity, [`Order::raise_by`] adds a
//! number and stops at 2^64 - 1, [`Order::halve`] halves each; which are held stays.
//!
//! Only [`Trail::new`] and [`Order::new`] take memory. No clause speaks of the cost: an order is a heap,
//! so `take_first`, `hold` and `raise_by` take logarithmic time, and `halve`, which makes ties, linear.
#![tactic(auto)]

mod entry;
mod heap;
mod order;
mod places;
mod trail;
mod values;

pub use entry::Entry;
pub use order::Order;
pub use trail::Trail;
