//! The circuits of all operators: their gates and clauses, as an independent reference has them.

ghost use Rattle.std.specs.Prelude.{◌≡◌, ◌≤◌, ◌*◌, IfOk, OnOk};
ghost use Rattle.am_gate.specs.Circuit.{HasRoom, Grows, start};
ghost use Rattle.am_blast.specs.Words.{IsWord};

use crate::circuit_table::CIRCUITS;
use crate::codes::{and_then, codes};
use am_blast::{WordLits, blast};
use am_bv::{Op, Row, Term, Width};
use am_gate::Circuit;
use am_lit::{Formula, Lit};
use std::alloc::{AllocError, Global};
use std::test::Fail;

/// A word of inputs.
fn input_word(alloc: Global, circuit: &mut Circuit, w: Width) -> Result<WordLits, AllocError>
    requires { HasRoom 8 circuit.old }
    ensures word { IfOk result (IsWord w circuit.new.vars) }
    ensures grows { OnOk result (Grows 8 circuit.old circuit.new) }
{
    let mut word = WordLits::new(alloc);
    for _ in 0..w.bits() {
        let literal = circuit.input()?;
        word.push(literal)?;
    }
    Ok(word)
}

/// The operator over the fields in order.
fn over_fields(alloc: Global, op: Op) -> Result<Term, AllocError> {
    let mut args = Row::new(alloc);
    for i in 0..op.arity() {
        args.push(Term::Field(i))?;
    }
    Ok(Term::Node(op, args))
}

/// A new circuit of a form.
fn started(alloc: Global, folding: bool) -> Result<Circuit, AllocError>
    ensures { IfOk result (λ c. c ≡ start folding) }
{
    if folding {
        Circuit::new_folding(alloc)
    } else {
        Circuit::new(alloc)
    }
}

/// The formula and the word of a term over three words of inputs.
fn made(alloc: Global, folding: bool, w: Width, term: &Term) -> Result<(Formula, WordLits), Fail> {
    let mut circuit = started(alloc, folding)?;
    let a = input_word(alloc, &mut circuit, w)?;
    let b = input_word(alloc, &mut circuit, w)?;
    let c = input_word(alloc, &mut circuit, w)?;
    if !term.fits(w, 3) || term.nodes() >= 1 << 32 || term.weight(w) > 288 {
        return Err(Fail::from("the term is too large"));
    }
    let word = blast(alloc, &mut circuit, w, term, &[a, b, c])?;
    Ok((circuit.finish(), word))
}

/// A checksum of the codes of all clauses in order, and of the word.
fn checksum(formula: &Formula, word: &WordLits) -> u32 {
    let mut sum = 0;
    for i in 0..formula.clauses.len() {
        sum = and_then(sum, formula.clauses.clause(i));
    }
    and_then(sum, word.as_slice())
}

/// What the table says of a circuit.
fn said(alloc: Global, folding: bool, w: Width, term: &Term) -> Result<String, Fail> {
    let (formula, word) = made(alloc, folding, w, term)?;
    let gates = formula.vars.saturating_sub(1 + 3 * w.bits());
    let sum = checksum(&formula, &word);
    let clauses = &formula.clauses;
    let last = clauses.len().checked_sub(1).ok_or("no clause")?;
    let first_codes = codes(alloc, clauses.clause(last.min(1)))?;
    let last_codes = codes(alloc, clauses.clause(last))?;
    Ok(format!(in alloc; "{gates} {sum} ({first_codes}) ({last_codes})")?)
}

/// The table's line for an operator at a number of bits.
fn line(alloc: Global, op: Op, bits: u32) -> Result<String, Fail> {
    let w = Width::new(bits).ok_or("no width")?;
    let term = over_fields(alloc, op)?;
    let plain = said(alloc, false, w, &term)?;
    let folding = said(alloc, true, w, &term)?;
    Ok(format!(in alloc; "{op:?} {bits}: {plain}, {folding}")?)
}

#[test]
fn circuits_have_their_gates_and_clauses(rt: HostRuntime) -> Result<(), Fail> {
    let mut lines = CIRCUITS.lines();
    for op in Op::ALL {
        for bits in [2, 3, 8] {
            let line = line(rt.alloc(), op, bits)?;
            assert_eq!(rt; lines.next(), Some(line.as_str()));
        }
    }
    assert!(rt; lines.next().is_none());
    Ok(())
}
