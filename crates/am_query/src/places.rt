//! Places in a list of negative examples.

ghost use Rattle.std.specs.Prelude.{◌≡◌, IfOk, slice_get};
ghost use Rattle.am_query.specs.Turns.{at_places};

use am_bv::Row;
use am_problem::{Negative, Negatives};
use std::alloc::{AllocError, Global};

/// Numbers of negative examples, from 0.
pub type Places = Row<u32>;

/// The examples at the places, in their order. A place past the end has none.
pub fn at_places(alloc: Global, neg: &Negatives, places: &Places) -> Result<Negatives, AllocError>
    ensures { IfOk result (λ found. found ≡ at_places neg.now places.now) }
{
    let mut found = Negatives::new(alloc);
    for place in places.as_slice() {
        if let Some(example) = example_at(neg, *place) {
            found.push(example)?;
        }
    }
    Ok(found)
}

/// The example at a place, where there is one.
fn example_at(neg: &Negatives, place: u32) -> Option<Negative>
    ensures { result ≡ slice_get neg.now place }
{
    neg.as_slice()
        .get(place as usize)
        .map(|example| example.copy())
}
