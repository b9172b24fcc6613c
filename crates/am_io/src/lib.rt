//! Bytes in and bytes out, with every fault counted.
//!
//! A [`Source`] hands out bytes piece by piece, and a [`Sink`] takes them. Any call of either may
//! fail, and its count of faults then rises. [`read_all`] reads a source of limited length to its
//! end, and [`write_all`] hands a whole text to a sink. [`MemorySource`] and [`MemorySink`] keep
//! their bytes in memory and fail at calls of the caller's choice, which suits tests.
//! [`StdSource`] and [`StdSink`] stand over any reader and writer of std, such as the standard streams.
//!
//! ```text
//! fn copy<R: Source, W: Sink>(alloc: Global, input: &mut R, output: &mut W) -> bool
//!     requires source { R.faults input.old < 2 ^ 64 - 1 }
//!     requires sink { W.faults output.old < 2 ^ 64 - 1 }
//! {
//!     match read_all(alloc, input, 1 << 20) {
//!         Ok(text) => write_all(output, &text).is_ok(),
//!         Err(_) => false,
//!     }
//! }
//! ```
//!
//! # What is proved
//!
//! A [`Source`] gives the next bytes of its input, `Ok(0)` is its end, and a call fails exactly
//! where the source's count of faults rises. A [`Sink`] takes one byte or more of each piece, or
//! fails and takes none. [`read_all`] returns all bytes up to the end, at most `limit` of them; it
//! answers `ReadFault` exactly where the count rose and `Long` exactly where `limit + 1` bytes were
//! taken; after any other answer at most `limit` bytes are gone; it makes at most `limit + 1`
//! calls, which a clause says as a bound on any count that rises by at most one with each call.
//! [`write_all`] answers Ok only after the sink took the whole text in order and a `finish`
//! succeeded, and `WriteFault` exactly where the count rose; after every answer the sink has taken
//! a prefix of the text; it makes at most one call for each byte and one more, finishes once, and
//! takes no memory. The memory types fail at exactly the listed calls, and the sink also at a `put`
//! without room; they move exactly the least of the step, what is left, and the length of the buffer
//! or piece. A [`StdSource`] has left exactly what its reader has left, and a [`StdSink`] has taken
//! exactly what its writer holds, by std's own clauses on `Read` and `Write`; so nothing is read
//! twice, lost or made up, and nothing is answered that wasn't written. Standard input and output
//! tell contracts no bytes; but each body is one for all readers and writers, and so is its proof.
//!
//! A clause of std says what a call did to the bytes, and neither when it fails nor what a flush
//! does. That a [`StdSource`] and a [`StdSink`] fail only where std does, or where no byte was
//! written, and that `finish` flushes, is a line each to read.
#![tactic(auto)]

mod memory;
mod reading;
mod standard;
mod streams;
mod writing;

pub use memory::{MemorySink, MemorySource};
pub use reading::{ReadEnd, read_all};
pub use standard::{StdSink, StdSource};
pub use streams::{Failed, Sink, Source};
pub use writing::{WriteFault, write_all};
