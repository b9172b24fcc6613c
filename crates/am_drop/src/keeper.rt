//! Which negative examples stay beside a new positive one.

ghost use Rattle.std.specs.Prelude.{ℕ, ◌≡◌, ◌^◌, ◌<◌, ◌≤◌, [], ◌∷◌, ◌++◌, None, IfOk, length};
ghost use Rattle.am_query.specs.Answers.{IsFitAnswer, IsSpentQuery};
ghost use Rattle.am_query.specs.Queries.{AreFitted, input_count};
ghost use Rattle.am_query.specs.Transformers.{IsTransformerOf, SuitsExamples};
ghost use Rattle.am_query.specs.Turns.{at_places};
ghost use Rattle.am_query.specs.declared.query.Query.TheVariants.{Fit};
ghost use Rattle.am_drop.specs.Keeping.{IsKeeping, IsKeepingSpent};
ghost use Rattle.am_drop.specs.inside.Selections.{HasEnough, IsDecision, IsKeeper, IsSelection};

use crate::keeping::Keeping;
use am_chain::Log;
use am_problem::{Negatives, Positives, Problem, Transformer};
use am_query::{FitAnswer, Places, QueryAnswer, at_places, fit};
use std::alloc::{AllocError, Global};

/// Takes the negative examples in order, and keeps each where some transformer satisfies the positive ones,
/// those kept before it, and it.
///
/// A transformer for the positive examples alone is sought first. Where the transformer at hand satisfies an
/// example, that one is kept without a query. The answer is right whatever the limit of each query is. Where 3
/// to the number of the grammar's selectors is at most the limit, it isn't `Spent`. After an error there was no
/// memory.
pub fn keep(
    alloc: Global,
    p: &Problem,
    pos: &Positives,
    neg: &Negatives,
    limit: u64,
) -> Result<Keeping, AllocError>
    requires examples { AreFitted p.now pos.now neg.now }
    requires least { 1 ≤ limit }
    requires most { limit ≤ 2 ^ 30 }
    ensures answer { IfOk result (IsKeeping p.now pos.now neg.now limit) }
    ensures enough { IfOk result (λ k. 3 ^ input_count p.now (Fit pos.now neg.now) ≤ limit → ¬ IsKeepingSpent k) }
{
    match fit(alloc, p, pos, &Negatives::new(alloc), limit)? {
        QueryAnswer::Found(term) => {
            let keeper = Keeper {
                alloc,
                problem: p,
                pos,
                neg,
                limit,
            };
            let keeping = keeper.keep(term)?;
            Ok(keeping)
        }
        QueryAnswer::Refuted(log) => Ok(Keeping::Nothing(log)),
        QueryAnswer::Spent(log) => Ok(Keeping::Spent {
            places: Places::new(alloc),
            log,
        }),
    }
}

/// Examples of a problem, and the limit of each query.
#[derive(Drop)]
struct Keeper<'a> {
    alloc: Global,
    problem: &'a Problem,
    pos: &'a Positives,
    neg: &'a Negatives,
    limit: u64,
}

/// The places of the negative examples that are kept so far, and a transformer that satisfies the positive
/// examples and those at these places.
#[derive(Drop)]
struct Selection {
    places: Places,
    term: Transformer,
}

impl Keeper<'_> {
    /// Decides on all negative examples, where this transformer satisfies the positive ones.
    fn keep(&self, term: Transformer) -> Result<Keeping, AllocError>
        requires keeper { IsKeeper self.now }
        requires derivable { IsTransformerOf self.now.problem.now term }
        requires suits { SuitsExamples self.now.problem.now term self.now.pos.now [] }
        ensures answer { IfOk result
            (IsKeeping self.now.problem.now self.now.pos.now self.now.neg.now self.now.limit) }
        ensures enough { IfOk result (λ k. HasEnough self.now → ¬ IsKeepingSpent k) }
    {
        self.problem.keeps_limits();
        let mut selection = Selection {
            places: Places::new(self.alloc),
            term,
        };
        for place in 0..self.neg.len() as u32 {
            if let Some(log) = self.decide(&mut selection, place)? {
                return Ok(Keeping::Spent {
                    places: selection.places,
                    log,
                });
            }
        }
        Ok(Keeping::Kept {
            places: selection.places,
            term: selection.term,
        })
    }

    /// Decides on the example at a place. Where the limit is reached, the log is answered, and the place is
    /// after those that are kept.
    fn decide(&self, selection: &mut Selection, place: u32) -> Result<Option<Log>, AllocError>
        requires keeper { IsKeeper self.now }
        requires place { place < length self.now.neg.now }
        requires selection { IsSelection self.now place selection.old }
        ensures answer { IfOk result (IsDecision self.now place selection.new) }
        ensures enough { IfOk result (λ spent. HasEnough self.now → spent ≡ None) }
    {
        self.problem.keeps_limits();
        let example = self.neg.get(place as usize);
        if self.problem.satisfies_negative(&selection.term, example) {
            selection.places.push(place)?;
            return Ok(None);
        }
        match self.fit_further(&selection.places, place)? {
            QueryAnswer::Found(term) => {
                selection.places.push(place)?;
                selection.term = term;
                Ok(None)
            }
            QueryAnswer::Refuted(_) => Ok(None),
            QueryAnswer::Spent(log) => {
                selection.places.push(place)?;
                Ok(Some(log))
            }
        }
    }

    /// Looks for a transformer that satisfies the positive examples, the negative ones at the places, and the one
    /// at a further place.
    fn fit_further(&self, places: &Places, place: u32) -> Result<FitAnswer, AllocError>
        requires keeper { IsKeeper self.now }
        requires place { place < length self.now.neg.now }
        requires examples { AreFitted self.now.problem.now self.now.pos.now
            (at_places self.now.neg.now (places.now ++ place ∷ [])) }
        ensures answer { IfOk result (IsFitAnswer self.now.problem.now self.now.pos.now
            (at_places self.now.neg.now (places.now ++ place ∷ [])) self.now.limit) }
        ensures enough { IfOk result (λ a. HasEnough self.now → ¬ IsSpentQuery a) }
    {
        let mut examples = at_places(self.alloc, self.neg, places)?;
        examples.push(self.neg.get(place as usize).copy())?;
        let answer = fit(self.alloc, self.problem, self.pos, &examples, self.limit)?;
        Ok(answer)
    }
}
