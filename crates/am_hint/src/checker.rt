//! The checker of hints.

ghost use Rattle.std.specs.Prelude.{◌≡◌, ◌-◌, ◌^◌, ◌<◌, ◌↔◌, [], ◌++◌, length, map, slice_get, All, IfErr, IfOk};
ghost use Rattle.std.specs.Prelude.{IsTrue, MatchOption, None, OnErr, OnOk, Some};
ghost use Rattle.am_lit.specs.Clause.{IsFormula};
ghost use Rattle.am_lit.specs.Literal.{opposite_of, variable_of};
ghost use Rattle.am_lit.specs.Truth.{IsSatisfiable};
ghost use Rattle.am_chain.specs.Replay.{EndsEmpty};
ghost use Rattle.am_hint.specs.Hinted.{Hinted, IsHintFaultOf, IsTaken, fault_in, hinted_clauses};
ghost use Rattle.am_hint.specs.Hints.{propagation_fault};

use crate::fault::{HintError, HintFault, HintWhy};
use crate::hint::Hint;
use crate::normal::is_normal;
use crate::row::TrueLiterals;
use crate::status::Status;
use am_lit::{Clauses, Formula, Lit};
use std::alloc::{AllocError, Global};
use std::marker::Model;

/// Tests hints over a formula, and keeps their clauses. A clause of the formula has its number
/// there; the clause of the i-th hint that was added, from 0, has the number of the formula's
/// clauses plus i. Contracts see the formula's clauses as `given` and the hints' as `added`.
///
/// A test looks once at each clause that the hint names: for each code a byte says whether its
/// literal is true, and those that were made true are taken back before the next test.
#[derive(Drop)]
pub struct HintChecker<'a> {
    formula: &'a Formula,
    added: Clauses,
    /// The clause of the hint that is tested.
    clause: Vec<Lit>,
    /// The literals that are true in the test.
    row: TrueLiterals,
}

impl<'a> Model for HintChecker<'a> {
    ghost use Rattle.std.specs.Prelude.{◌≡◌, All};
    ghost use Rattle.am_lit.specs.Clause.{IsFormula};
    ghost use Rattle.am_lit.specs.Truth.{Implies};
    ghost use Rattle.am_hint.specs.Hinted.{Hinted};

    ghost Value = { Hinted };

    ghost view = { λ a. record { vars = a.formula.now.vars; given = a.formula.now.clauses; added = a.added } };

    ghost invariant = { λ a. (a.row.vars ≡ a.formula.now.vars) × IsFormula a.added a.formula.now.vars
        × All (Implies a.formula.now.clauses) a.added };
}

impl<'a> HintChecker<'a> {
    pub fn new(alloc: Global, formula: &'a Formula) -> Result<HintChecker<'a>, AllocError>
        ensures { IfOk result (λ k. k ≡ record { vars = formula.now.vars; given = formula.now.clauses; added = [] }) }
    {
        let row = TrueLiterals::new(alloc, formula.vars)?;
        Ok(HintChecker {
            formula,
            added: Clauses::new(alloc),
            clause: Vec::new(alloc),
            row,
        })
    }

    /// Adds the hint's clause with the next number, if the hint passes. A refused hint leaves the
    /// checker unchanged, and its fault is the first place where the test fails.
    pub fn add(&mut self, hint: &Hint) -> Result<(), HintError>
        requires clauses { length (hinted_clauses self.old) < 2 ^ 32 - 1 }
        requires places { length hint.now.by < 2 ^ 32 }
        ensures ok { OnOk result (IsTaken self.old self.new hint.now) }
        ensures fault { IfErr result (IsHintFaultOf (fault_in self.old hint.now)) }
        ensures err { OnErr result (self.new ≡ self.old) }
    {
        let codes = hint.clause.as_slice();
        if !is_normal(codes, self.formula.vars) {
            return Err(fault_at(0, HintWhy::NotNormal));
        }
        self.clause.clear();
        read(codes, &mut self.clause)?;
        self.row.clear();
        deny(self.clause.as_slice(), &mut self.row)?;
        let given = &self.formula.clauses;
        propagate(given, &self.added, hint.by.as_slice(), &mut self.row)?;
        self.added.push(self.clause.as_slice())?;
        Ok(())
    }

    /// Whether a hint was added and the last one's clause is empty. Then no assignment satisfies the
    /// formula.
    pub fn refuted(&self) -> bool
        ensures last { IsTrue result ↔ EndsEmpty self.now.added }
        ensures unsatisfiable { IsTrue result → ¬ (IsSatisfiable self.now.given) }
    {
        let len = self.added.len();
        len > 0 && self.added.clause(len - 1).is_empty()
    }
}

/// Appends the literals with these codes.
fn read(codes: &[u32], clause: &mut Vec<Lit>) -> Result<(), AllocError>
    requires { clause.old.items ≡ [] }
    ensures { OnOk result (clause.new.items ≡ codes.now) }
{
    for code in codes {
        clause.push(Lit::new(*code / 2, *code % 2 == 1))?;
    }
    Ok(())
}

/// Makes all literals of a clause false. None has a value before.
pub fn deny(clause: &[Lit], row: &mut TrueLiterals) -> Result<(), AllocError>
    requires empty { row.old.literals ≡ [] }
    requires below { All (λ l. variable_of l < row.old.vars) clause.now }
    ensures row { OnOk result (row.new.literals ≡ map opposite_of clause.now) }
    ensures vars { row.new.vars ≡ row.old.vars }
{
    for l in clause {
        row.push(l.opposite())?;
    }
    Ok(())
}

/// Takes the clauses with these numbers in order: each but the last makes a literal true, and the
/// last is false.
fn propagate(
    given: &Clauses,
    added: &Clauses,
    by: &[u32],
    row: &mut TrueLiterals,
) -> Result<(), HintError>
    requires clauses { length (given.now ++ added.now) < 2 ^ 32 }
    requires normal { IsFormula (given.now ++ added.now) row.old.vars }
    requires places { length by.now < 2 ^ 32 }
    ensures ok { OnOk result (propagation_fault (given.now ++ added.now) row.old.literals 0 by.now ≡ None) }
    ensures fault { IfErr result
        (IsHintFaultOf (propagation_fault (given.now ++ added.now) row.old.literals 0 by.now)) }
    ensures vars { row.new.vars ≡ row.old.vars }
{
    let mut place = 0;
    for number in by {
        let Some(clause) = find(given, added, *number) else {
            return Err(fault_at(place, HintWhy::NoClause));
        };
        match row.status_of(clause) {
            Status::Conflict => return Ok(()),
            Status::Forces(l) => row.push(l)?,
            Status::Open => return Err(fault_at(place, HintWhy::NotUnit)),
        }
        place += 1;
    }
    Err(fault_at(place, HintWhy::NoConflict))
}

/// The clause with this number, if there is one.
fn find<'a>(given: &'a Clauses, added: &'a Clauses, i: u32) -> Option<&'a [Lit]>
    requires { length (given.now ++ added.now) < 2 ^ 32 }
    ensures { let clause = slice_get (given.now ++ added.now) i in
        MatchOption result (clause ≡ None) (λ c. clause ≡ Some c.now) }
{
    if i < given.len() {
        Some(given.clause(i))
    } else if i - given.len() < added.len() {
        Some(added.clause(i - given.len()))
    } else {
        None
    }
}

fn fault_at(place: u32, why: HintWhy) -> HintError
    ensures { result ≡ HintError.Fault (record { place = place; why = why }) }
{
    HintError::Fault(HintFault { place, why })
}
