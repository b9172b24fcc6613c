//! Hints from chains.
//!
//! A chain whose clause holds a variable in both signs is left out, since no chain to a normal clause
//! uses it, and numbers move up. For each other chain all literals of its clause are made false, and
//! the clauses that it names are taken from the last step back to the first clause. There each
//! resolvent on the way is false, and so the clause that a step names has only false literals besides
//! the one that it is resolved on. Where that one is true already the clause is passed over; where it
//! has no value the clause makes it true; where it is false too, the clause ends the list.

ghost use Rattle.std.specs.Prelude.{◌≡◌, ℕ, List, ◌+◌, ◌-◌, ◌^◌, ◌<◌, ◌≤◌, [], ◌∷◌, ◌++◌, All, IfOk, None, OnOk, Ok};
ghost use Rattle.std.specs.Prelude.{length, map, slice_get, take};
ghost use Rattle.am_lit.specs.Literal.{opposite_of, variable_of};
ghost use Rattle.am_lit.specs.UnitRow.{IsConsistent};
ghost use Rattle.am_chain.specs.ChainLaws.{IsRisingBelow};
ghost use Rattle.am_chain.specs.Chains.{clause_of};
ghost use Rattle.am_chain.specs.Checked.{IsAdded, all_clauses, chain_outcome};
ghost use Rattle.am_chain.specs.Replay.{Refutes};
ghost use Rattle.am_hint.specs.Hints.{propagation_fault, status_of};
ghost use Rattle.am_hint.specs.HintReplay.{HintsRefute};
ghost use Rattle.am_hint.specs.inside.Translated.{AreMoved, AreTranslated, IsTakenBack, clauses_before};

use crate::checker::deny;
use crate::hint::{Codes, Hint, Hints, Places};
use crate::normal::is_normal;
use crate::numbers::Numbers;
use crate::row::TrueLiterals;
use crate::status::Status;
use am_chain::{AddError, Chain, Checker, Log};
use am_lit::{Formula, Lit};
use std::alloc::{AllocError, Global};

/// Hints that refute the formula, from a log that refutes it. There are at most as many hints as
/// chains, and each names at most 2^30 clauses.
pub fn translate(alloc: Global, formula: &Formula, log: &Log) -> Result<Hints, AllocError>
    requires refutes { Refutes formula.now.clauses log.now }
    requires numbers { length formula.now.clauses + length log.now < 2 ^ 32 - 1 }
    requires steps { All (λ chain. length chain.steps < 2 ^ 30) log.now }
    ensures refutes { IfOk result (λ hints. HintsRefute formula.now.vars formula.now.clauses hints) }
    ensures fewer { IfOk result (λ hints. length hints ≤ length log.now) }
    ensures short { IfOk result (λ hints. All (λ hint. length hint.by ≤ 2 ^ 30) hints) }
{
    let mut translation = Translation::new(alloc, formula)?;
    for k in 0..log.len() {
        translation.add(alloc, log.get(k))?;
    }
    Ok(translation.hints)
}

/// The chains so far, and their hints.
#[derive(Drop)]
struct Translation<'a> {
    formula: &'a Formula,
    checker: Checker<'a>,
    numbers: Numbers,
    hints: Hints,
    /// The literals that are true while a chain is translated.
    row: TrueLiterals,
}

impl<'a> Translation<'a> {
    fn new(alloc: Global, formula: &'a Formula) -> Result<Translation<'a>, AllocError>
        ensures formula { IfOk result (λ t. t.formula.now ≡ formula.now) }
        ensures checker { IfOk result (λ t. t.checker ≡ record { given = formula.now.clauses; derived = [] }) }
        ensures translated { IfOk result (λ t. AreTranslated formula.now.vars t.checker t.numbers t.hints) }
        ensures vars { IfOk result (λ t. t.row.vars ≡ formula.now.vars) }
    {
        Ok(Translation {
            formula,
            checker: Checker::new(alloc, formula),
            numbers: Numbers::new(alloc, formula.clauses.len()),
            hints: Hints::new(alloc),
            row: TrueLiterals::new(alloc, formula.vars)?,
        })
    }

    /// Adds a chain, and its hint unless it is left out.
    fn add(&mut self, alloc: Global, chain: &Chain) -> Result<(), AllocError>
        requires given { self.old.checker.given ≡ self.old.formula.now.clauses }
        requires clauses { length (all_clauses self.old.checker) < 2 ^ 32 - 1 }
        requires valid { (c : List ℕ) × (chain_outcome self.old.checker chain.now ≡ Ok c) }
        requires steps { length chain.now.steps < 2 ^ 30 }
        requires rising { All (IsRisingBelow self.old.formula.now.vars) (all_clauses self.old.checker) }
        requires vars { self.old.row.vars ≡ self.old.formula.now.vars }
        requires translated { AreTranslated self.old.formula.now.vars self.old.checker self.old.numbers self.old.hints }
        ensures same { OnOk result (self.new.formula.now ≡ self.old.formula.now) }
        ensures added { OnOk result
            (IsAdded self.old.checker self.new.checker (chain_outcome self.old.checker chain.now)) }
        ensures vars { OnOk result (self.new.row.vars ≡ self.old.row.vars) }
        ensures translated { OnOk result
            (AreTranslated self.old.formula.now.vars self.new.checker self.new.numbers self.new.hints) }
    {
        let number = self.formula.clauses.len() + self.hints.len() as u32;
        let newest = self.formula.clauses.len() + self.numbers.len() as u32;
        replay(&mut self.checker, chain)?;
        let codes = codes_of(alloc, self.checker.clause(newest))?;
        if !is_normal(codes.as_slice(), self.formula.vars) {
            self.numbers.push(number)?;
            return Ok(());
        }
        self.row.clear();
        deny(self.checker.clause(newest), &mut self.row)?;
        let by = places_of(alloc, &self.checker, &self.numbers, chain, &mut self.row)?;
        self.hints.push(Hint { clause: codes, by })?;
        self.numbers.push(number)?;
        Ok(())
    }
}

/// Adds a chain that is valid.
fn replay(checker: &mut Checker<'_>, chain: &Chain) -> Result<(), AllocError>
    requires clauses { length (all_clauses checker.old) < 2 ^ 32 - 1 }
    requires steps { length chain.now.steps < 2 ^ 32 }
    ensures { OnOk result (IsAdded checker.old checker.new (chain_outcome checker.old chain.now)) }
{
    match checker.add(chain) {
        Ok(()) => Ok(()),
        Err(AddError::Fault(_) | AddError::NoMemory) => Err(AllocError),
    }
}

/// The codes of a clause's literals.
fn codes_of(alloc: Global, clause: &[Lit]) -> Result<Codes, AllocError>
    ensures { IfOk result (λ codes. codes ≡ clause.now) }
{
    let mut codes = Codes::new(alloc);
    for l in clause {
        codes.push(l.code())?;
    }
    Ok(codes)
}

/// The new numbers of the clauses that show a chain's clause. All literals of that clause are false
/// in the row, and it holds no variable in both signs.
fn places_of(
    alloc: Global,
    checker: &Checker<'_>,
    numbers: &Numbers,
    chain: &Chain,
    row: &mut TrueLiterals,
) -> Result<Places, AllocError>
    requires clauses { length (all_clauses checker.now) < 2 ^ 32 }
    requires given { numbers.now.given ≡ length checker.now.given }
    requires rising { All (IsRisingBelow row.old.vars) (all_clauses checker.now) }
    requires clause { (c : List ℕ)
        × (clause_of (clauses_before checker.now (length numbers.now.chains)) chain.now ≡ Ok c)
        × IsConsistent c × (row.old.literals ≡ map opposite_of c) }
    ensures passes { IfOk result (λ by. (hinted : List (List ℕ))
        → AreMoved checker.now.given (take (length numbers.now.chains) checker.now.derived) hinted numbers.now.chains
        → propagation_fault (checker.now.given ++ hinted) row.old.literals 0 by ≡ None) }
    ensures short { IfOk result (λ by. length by ≤ length chain.now.steps + 1) }
    ensures vars { row.new.vars ≡ row.old.vars }
{
    let mut by = Places::new(alloc);
    let mut left = chain.steps.len();
    while left > 0 {
        left -= 1;
        let name = chain.steps.get(left).clause;
        if take_back(numbers.of(name), checker.clause(name), &mut by, row)? {
            return Ok(by);
        }
    }
    by.push(numbers.of(chain.first))?;
    Ok(by)
}

/// Takes a clause into account: whether it is false, and so ends the list.
fn take_back(
    number: u32,
    clause: &[Lit],
    by: &mut Places,
    row: &mut TrueLiterals,
) -> Result<bool, AllocError>
    requires { All (λ l. variable_of l < row.old.vars) clause.now }
    ensures taken { IfOk result (λ ends. IsTakenBack (status_of row.old.literals clause.now) number ends
        by.old by.new row.old.literals row.new.literals) }
    ensures vars { row.new.vars ≡ row.old.vars }
{
    match row.status_of(clause) {
        Status::Conflict => {
            by.push(number)?;
            Ok(true)
        }
        Status::Forces(l) => {
            by.push(number)?;
            row.push(l)?;
            Ok(false)
        }
        Status::Open => Ok(false),
    }
}
