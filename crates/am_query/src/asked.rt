//! What is asked after some turns.

ghost use Rattle.std.specs.Prelude.{◌≡◌, IfOk};
ghost use Rattle.am_query.specs.Turns.{after_trace, query_of};

use crate::places::{Places, at_places};
use crate::query::Query;
use crate::state::State;
use crate::turn::Trace;
use am_problem::{Negatives, Positive, Positives, Transformer};
use std::alloc::{AllocError, Global};

/// What is asked after some turns, of the transformer `term` that is at hand then.
#[derive(PartialEq, Debug, Drop)]
pub enum Asked {
    /// After no turn: does some transformer derive?
    Start,
    /// Does some transformer satisfy the positive examples, this one, and the negative ones at these places?
    Keep {
        term: Transformer,
        example: Positive,
        places: Places,
    },
    /// Is the transformer sound?
    Sound {
        term: Transformer,
    },
    /// Does some transformer that satisfies the examples exclude a word, at some inputs, that this one admits?
    Precise {
        term: Transformer,
    },
}

/// The query that was asked after the turns of a trace.
pub fn query_of(alloc: Global, trace: &Trace, asked: &Asked) -> Result<Query, AllocError>
    ensures { IfOk result (λ query. query ≡ query_of (after_trace trace.now) asked.now) }
{
    match asked {
        Asked::Start => Ok(Query::Fit {
            pos: Positives::new(alloc),
            neg: Negatives::new(alloc),
        }),
        Asked::Keep {
            example,
            places,
            ..
        } => {
            let State {
                mut positives,
                negatives,
            } = State::after(alloc, trace)?;
            positives.push(example.copy())?;
            Ok(Query::Fit {
                pos: positives,
                neg: at_places(alloc, &negatives, places)?,
            })
        }
        Asked::Sound { term } => Ok(Query::Sound {
            term: copy_transformer(alloc, term)?,
        }),
        Asked::Precise { term } => {
            let State {
                positives,
                negatives,
            } = State::after(alloc, trace)?;
            Ok(Query::Precise {
                term: copy_transformer(alloc, term)?,
                pos: positives,
                neg: negatives,
            })
        }
    }
}

/// The same transformer.
fn copy_transformer(alloc: Global, t: &Transformer) -> Result<Transformer, AllocError>
    ensures { IfOk result (λ copy. copy ≡ t.now) }
{
    let mut terms = Transformer::new(alloc);
    for term in t.as_slice() {
        terms.push(term.copy(alloc)?)?;
    }
    Ok(terms)
}
