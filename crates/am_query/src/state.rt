//! The examples that turns have shown.

ghost use Rattle.std.specs.Prelude.{◌≡◌, IfOk, OnErr, OnOk};
ghost use Rattle.am_query.specs.Turns.{after_trace, after_turn, no_examples};

use crate::places::at_places;
use crate::turn::{Trace, Turn};
use am_problem::{Negatives, Positives};
use std::alloc::{AllocError, Global};

/// Examples that a transformer is to satisfy, as they stand after some turns.
#[derive(PartialEq, Debug, Drop)]
pub struct State {
    /// Those that it is to cover.
    pub positives: Positives,
    /// Those that it is to exclude.
    pub negatives: Negatives,
}

impl State {
    /// No examples, which take no memory yet.
    pub fn new(alloc: Global) -> State
        ensures { result ≡ no_examples }
    {
        State {
            positives: Positives::new(alloc),
            negatives: Negatives::new(alloc),
        }
    }

    /// The examples after all turns of a trace.
    pub fn after(alloc: Global, trace: &Trace) -> Result<State, AllocError>
        ensures { IfOk result (λ state. state ≡ after_trace trace.now) }
    {
        let mut state = State::new(alloc);
        for turn in trace.as_slice() {
            state.advance(alloc, turn)?;
        }
        Ok(state)
    }

    /// Goes on by a turn. Where there is no memory for it, the examples stay as they were.
    pub fn advance(&mut self, alloc: Global, turn: &Turn) -> Result<(), AllocError>
        ensures ok { OnOk result (self.new ≡ after_turn self.old turn.now) }
        ensures err { OnErr result (self.new ≡ self.old) }
    {
        match turn {
            Turn::Positive { example, kept, .. } => {
                let negatives = at_places(alloc, &self.negatives, kept)?;
                self.positives.push(example.copy())?;
                self.negatives = negatives;
                Ok(())
            }
            Turn::Negative { example, .. } => self.negatives.push(example.copy()),
        }
    }
}
