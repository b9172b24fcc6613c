//! The turns of a synthesis.

ghost use Rattle.std.specs.Prelude.{◌≡◌, ◌+◌, ◌^◌, ◌≤◌, IfOk, [], ◌∷◌, ◌++◌, length};
ghost use Rattle.am_domain.specs.Question.{IsSound};
ghost use Rattle.am_problem.specs.Problem.{question_of};
ghost use Rattle.am_query.specs.Answers.{IsRefuted};
ghost use Rattle.am_query.specs.Transformers.{IsUncovered};
ghost use Rattle.am_query.specs.declared.query.Query.TheVariants.{Sound};
ghost use Rattle.am_dual.specs.inside.Underway.{IsBegun, IsNextTurn, IsUnderway, NothingSuits};

use am_chain::Log;
use am_drop::{Keeping, keep};
use am_problem::{Positive, Problem, Transformer};
use am_query::{
    Asked, Closer, Outcome, Places, QueryAnswer, State, Trace, Turn, at_places, fit, precise, sound,
};
use std::alloc::{AllocError, Global};

/// A synthesis between two turns.
#[derive(Drop)]
pub struct Synthesis {
    /// The turns so far.
    pub trace: Trace,
    /// The examples after them.
    pub state: State,
    /// A transformer that satisfies the examples.
    pub term: Transformer,
}

/// What comes next in a synthesis.
#[derive(Drop)]
pub enum Next {
    /// Another turn.
    Turn(Synthesis),
    /// The end.
    End(Outcome),
}

impl Synthesis {
    /// A synthesis without turns, where some transformer derives.
    pub fn start(alloc: Global, p: &Problem) -> Result<Next, AllocError>
        ensures { IfOk result (IsBegun p.now) }
    {
        let trace = Trace::new(alloc);
        let state = State::new(alloc);
        match fit(alloc, p, &state.positives, &state.negatives, limit(p))? {
            QueryAnswer::Found(term) => Ok(Next::Turn(Synthesis { trace, state, term })),
            QueryAnswer::Refuted(log) => Ok(Next::End(Outcome::Absent { trace, log })),
            QueryAnswer::Spent(log) => Ok(spent(trace, Asked::Start, log)),
        }
    }

    /// A turn: positive where the transformer isn't sound, else negative where there is a closer one.
    pub fn turn(self, alloc: Global, p: &Problem) -> Result<Next, AllocError>
        requires { IsUnderway p.now p.now.turns self }
        ensures { IfOk result (IsNextTurn p.now self.trace) }
    {
        match sound(alloc, p, &self.term, limit(p))? {
            QueryAnswer::Refuted(log) => self.negative_turn(alloc, p, log),
            QueryAnswer::Found(example) => self.positive_turn(alloc, p, example),
            QueryAnswer::Spent(log) => {
                let Synthesis {
                    trace,
                    state: _,
                    term,
                } = self;
                Ok(spent(trace, Asked::Sound { term }, log))
            }
        }
    }

    /// A turn by a true example that the transformer doesn't cover.
    fn positive_turn(
        self,
        alloc: Global,
        p: &Problem,
        example: Positive,
    ) -> Result<Next, AllocError>
        requires underway { IsUnderway p.now p.now.turns self }
        requires uncovered { IsUncovered p.now self.term example }
        ensures { IfOk result (IsNextTurn p.now self.trace) }
    {
        let Synthesis {
            trace,
            mut state,
            term,
        } = self;
        state.positives.push(example.copy())?;
        match keep(alloc, p, &state.positives, &state.negatives, limit(p))? {
            Keeping::Kept { places, term: next } => {
                state.negatives = at_places(alloc, &state.negatives, &places)?;
                let turn = Turn::Positive {
                    term,
                    example,
                    kept: places,
                };
                go_on(p, trace, turn, state, next)
            }
            Keeping::Nothing(log) => {
                let turn = Turn::Positive {
                    term,
                    example,
                    kept: Places::new(alloc),
                };
                absent(p, trace, turn, log)
            }
            Keeping::Spent { places, log } => {
                let asked = Asked::Keep {
                    term,
                    example,
                    places,
                };
                Ok(spent(trace, asked, log))
            }
        }
    }

    /// A turn of a sound transformer by an example that a closer one excludes, or the end where none is closer.
    fn negative_turn(self, alloc: Global, p: &Problem, sound_log: Log) -> Result<Next, AllocError>
        requires underway { IsUnderway p.now p.now.turns self }
        requires sound { IsSound (question_of p.now) self.term }
        requires refuted { IsRefuted p.now (Sound self.term) p.now.conflicts sound_log }
        ensures { IfOk result (IsNextTurn p.now self.trace) }
    {
        let Synthesis {
            trace,
            mut state,
            term,
        } = self;
        match precise(
            alloc,
            p,
            &term,
            &state.positives,
            &state.negatives,
            limit(p),
        )? {
            QueryAnswer::Refuted(best_log) => Ok(Next::End(Outcome::Best {
                term,
                trace,
                sound_log,
                best_log,
            })),
            QueryAnswer::Found(closer) => {
                let Closer {
                    term: next,
                    example,
                } = closer;
                state.negatives.push(example.copy())?;
                go_on(p, trace, Turn::Negative { term, example }, state, next)
            }
            QueryAnswer::Spent(log) => Ok(spent(trace, Asked::Precise { term }, log)),
        }
    }
}

/// Goes on after a turn with a transformer that satisfies the examples. Where that was one turn more than may be
/// made, the turns were spent.
fn go_on(
    p: &Problem,
    mut trace: Trace,
    turn: Turn,
    state: State,
    term: Transformer,
) -> Result<Next, AllocError>
    requires { IsUnderway p.now (p.now.turns + 1)
        (record { trace = trace ++ turn ∷ []; state = state; term = term }) }
    ensures { IfOk result (IsNextTurn p.now trace) }
{
    trace.push(turn)?;
    if trace.len() > p.turns() as usize {
        return Ok(Next::End(Outcome::Turns { trace }));
    }
    Ok(Next::Turn(Synthesis { trace, state, term }))
}

/// Ends after a turn where no transformer satisfies the positive examples. Where that was one turn more than may be
/// made, the turns were spent, else none is sound.
fn absent(p: &Problem, mut trace: Trace, turn: Turn, log: Log) -> Result<Next, AllocError>
    requires { NothingSuits p.now (p.now.turns + 1) (trace ++ turn ∷ []) log }
    ensures { IfOk result (IsNextTurn p.now trace) }
{
    trace.push(turn)?;
    if trace.len() <= p.turns() as usize {
        return Ok(Next::End(Outcome::Absent { trace, log }));
    }
    Ok(Next::End(Outcome::Turns { trace }))
}

/// Ends where the derived clauses were spent.
fn spent(trace: Trace, asked: Asked, log: Log) -> Next
    ensures { result ≡ Next.End (Outcome.Conflicts trace asked log) }
{
    Next::End(Outcome::Conflicts { trace, asked, log })
}

/// How many clauses may be derived for a query.
fn limit(p: &Problem) -> u64
    ensures value { result ≡ p.now.conflicts }
    ensures least { 1 ≤ result }
    ensures most { result ≤ 2 ^ 30 }
{
    p.keeps_limits();
    u64::from(p.conflicts())
}
