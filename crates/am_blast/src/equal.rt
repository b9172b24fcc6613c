//! Whether words are equal, and whether a word is 0.

ghost use Rattle.std.specs.Prelude.{◌≡◌, ◌*◌, IfOk, All, length};
ghost use Rattle.am_gate.specs.Circuit.{IsLiteral, HasRoom, Begins};
ghost use Rattle.am_blast.specs.Words.{AreWordPair};
ghost use Rattle.am_blast.specs.Comparisons.{equal, nonzero};
ghost use Rattle.am_gate.specs.Promises.{GivesStep};

use crate::bitwise::either;
use am_gate::Circuit;
use am_lit::Lit;
use std::alloc::AllocError;

/// Whether the words read the same number.
#[tactic(auto, using(am_gate::proofs::Laws::begins))]
pub(crate) fn is_equal(circuit: &mut Circuit, a: &[Lit], b: &[Lit]) -> Result<Lit, AllocError>
    requires words { AreWordPair circuit.old.vars a.now b.now }
    requires room { HasRoom (2 * length a.now) circuit.old }
    ensures ok { IfOk result (λ r.
        GivesStep (equal a.now b.now) (2 * length a.now) IsLiteral circuit.old r circuit.new) }
    ensures begins { Begins circuit.old circuit.new }
{
    let mut equal = circuit.truth();
    for i in 0..a.len() {
        let differ = circuit.xor(a[i], b[i])?;
        equal = circuit.and(equal, differ.opposite())?;
    }
    Ok(equal)
}

/// Makes the test whether a word reads another number than 0, and answers its literal.
///
/// It makes at most one gate for each literal of the word, from bit 0, and no input. After want of memory
/// the circuit begins with its earlier variables and clauses.
#[tactic(auto, using(am_gate::proofs::Laws::begins))]
pub fn is_nonzero(circuit: &mut Circuit, a: &[Lit]) -> Result<Lit, AllocError>
    requires room { HasRoom (length a.now) circuit.old }
    requires word { All (IsLiteral circuit.old.vars) a.now }
    ensures ok { IfOk result (λ r. GivesStep (nonzero a.now) (length a.now) IsLiteral circuit.old r circuit.new) }
    ensures begins { Begins circuit.old circuit.new }
{
    let mut nonzero = circuit.truth().opposite();
    for l in a {
        nonzero = either(circuit, nonzero, *l)?;
    }
    Ok(nonzero)
}
