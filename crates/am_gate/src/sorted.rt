//! Clauses in order, added to a store.

ghost use Rattle.std.specs.Prelude.{◌≡◌, ◌+◌, ◌-◌, ◌^◌, ◌<◌, ◌≤◌, ◌↔◌, IsTrue, [], ◌++◌, length, map, take, flat_map};
ghost use Rattle.std.specs.Prelude.{OnOk, OnErr};
ghost use Rattle.std.specs.List.Sorted.{IsStrictlyIncreasing};
ghost use Rattle.am_lit.specs.Literal.{variable_of};
ghost use Rattle.am_lit.specs.Clause.{sorted_literals};
ghost use Rattle.am_gate.specs.Circuit.{added};

use am_lit::{Clauses, Lit};
use std::alloc::{AllocError, Global};
use std::marker::Model;

/// A list of clauses, each of which is sorted by code and freed of repeats as it is added. A clause
/// that has a variable in both signs isn't added.
#[derive(Drop)]
pub struct SortedClauses {
    clauses: Clauses,
    /// Room for the clause that is being sorted.
    row: Vec<Lit>,
}

impl Model for SortedClauses {
    ghost use Rattle.std.specs.Prelude.{List, ℕ};

    ghost Value = { List (List ℕ) };

    ghost view = { λ a. a.clauses };
}

impl SortedClauses {
    pub fn new(alloc: Global) -> SortedClauses
        ensures { result ≡ [] }
    {
        SortedClauses {
            clauses: Clauses::new(alloc),
            row: Vec::new(alloc),
        }
    }

    /// Adds a clause.
    pub fn add(&mut self, literals: &[Lit]) -> Result<(), AllocError>
        requires { length self.old < 2 ^ 32 - 1 }
        ensures ok { OnOk result (self.new ≡ self.old ++ added literals.now) }
        ensures few { length self.new ≤ length self.old + 1 }
        ensures err { OnErr result (self.new ≡ self.old) }
    {
        if variables_rise(literals) {
            return self.clauses.push(literals);
        }
        sort(literals, &mut self.row)?;
        if variables_rise(&self.row) {
            self.clauses.push(&self.row)?;
        }
        Ok(())
    }

    /// Adds all of these clauses, or none.
    pub fn add_all(&mut self, rows: &[&[Lit]]) -> Result<(), AllocError>
        requires { length self.old + length rows.now < 2 ^ 32 }
        ensures ok { OnOk result (self.new ≡ self.old ++ flat_map added (map (λ row. row.now) rows.now)) }
        ensures few { length self.new ≤ length self.old + length rows.now }
        ensures err { OnErr result (self.new ≡ self.old) }
    {
        let before = self.clauses.len();
        for row in rows {
            if let Err(error) = self.add(row) {
                self.clauses.cut(before);
                return Err(error);
            }
        }
        Ok(())
    }

    pub fn into_clauses(self) -> Clauses
        ensures { result ≡ self }
    {
        self.clauses
    }
}

/// Whether each literal's variable is above the one before it. Sorted literals without repeats
/// fail this exactly where a variable stands in both signs.
fn variables_rise(literals: &[Lit]) -> bool
    ensures { IsTrue result ↔ IsStrictlyIncreasing (map variable_of literals.now) }
{
    for i in 1..literals.len() {
        if literals[i].variable() <= literals[i - 1].variable() {
            return false;
        }
    }
    true
}

/// Puts the literals into the row, sorted by code and without repeats.
fn sort(literals: &[Lit], row: &mut Vec<Lit>) -> Result<(), AllocError>
    ensures { OnOk result (row.new.items ≡ sorted_literals literals.now) }
{
    row.clear();
    row.extend_from_slice(literals)?;
    row.sort_unstable();
    row.dedup();
    Ok(())
}
