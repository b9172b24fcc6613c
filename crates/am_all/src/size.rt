//! Which problems are small enough to go through all their transformers and inputs.

ghost use Rattle.std.specs.Prelude.{MatchResult};
ghost use Rattle.am_all.specs.Sizes.{IsSmallProblem, IsTooGreat};

use am_domain::Domain;
use am_problem::Problem;
use am_syntax::Refusal;

/// How many bits the fields of all inputs of a small problem have at most.
pub const MOST_BITS: u32 = 16;

/// How many tuples of trees a small problem has at most.
pub const MOST_TUPLES: u128 = 4096;

/// Whether the problem is small. It is refused with `Wide`, where the fields of all inputs have more than 16
/// bits; else with `Many`, where there are more than 4,096 tuples of trees. `Many` tells their number, or
/// 2^64 - 1 where there are more. Takes no memory.
pub fn small(p: &Problem) -> Result<(), Refusal>
    ensures { MatchResult result (λ _. IsSmallProblem p.now) (IsTooGreat p.now) }
{
    p.keeps_limits();
    let bits = p.width().bits() * p.inputs() * p.kind().fields();
    if bits > MOST_BITS {
        return Err(Refusal::Wide(u64::from(bits)));
    }
    match p.grammar().count() {
        Some(count) if count <= MOST_TUPLES => Ok(()),
        Some(count) => Err(Refusal::Many(u64::try_from(count).unwrap_or(u64::MAX))),
        None => Err(Refusal::Many(u64::MAX)),
    }
}
