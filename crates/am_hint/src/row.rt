//! The literals that are true while a hint is tested.

ghost use Rattle.std.specs.Prelude.{◌≡◌, ℕ, ◌<◌, ◌/◌, [], ◌∷◌, ◌++◌, All, IfOk, IsTrue, OnErr, OnOk, false, length};
ghost use Rattle.am_lit.specs.Literal.{variable_of};
ghost use Rattle.am_hint.specs.Hints.{is_hinted_in, status_of};
ghost use Rattle.am_hint.specs.inside.Rows.{TrueRow, truth_at};

use crate::status::Status;
use am_lit::Lit;
use std::alloc::{AllocError, Global};
use std::marker::Model;

/// A row of true literals over a number of variables. Whether a literal is true is looked up in one
/// step, and all are taken back in as many steps as there are true ones.
#[derive(Drop)]
pub struct TrueLiterals {
    /// For each code, whether its literal is true.
    truths: Vec<bool>,
    /// The true literals, in the order in which they became true.
    row: Vec<Lit>,
}

impl Model for TrueLiterals {
    ghost use Rattle.std.specs.Prelude.{◌≡◌, ℕ, ◌/◌, length};
    ghost use Rattle.am_hint.specs.Hints.{is_hinted_in};
    ghost use Rattle.am_hint.specs.inside.Rows.{TrueRow, truth_at};

    ghost Value = { TrueRow };

    ghost view = { λ a. record { vars = length a.truths.items / 2; literals = a.row.items } };

    ghost invariant = { λ a. (l : ℕ) → truth_at a.truths.items l ≡ is_hinted_in a.row.items l };
}

impl TrueLiterals {
    /// The empty row over the variables below `vars`.
    pub fn new(alloc: Global, vars: u32) -> Result<TrueLiterals, AllocError>
        ensures { IfOk result (λ r. r ≡ record { vars = vars; literals = [] }) }
    {
        let truths = vec![in alloc; false; 2 * vars as usize]?;
        Ok(TrueLiterals {
            truths,
            row: Vec::new(alloc),
        })
    }

    /// Takes all literals back.
    pub fn clear(&mut self)
        ensures { self.new ≡ record self.old { literals = [] } }
    {
        unset_all(self.truths.as_mut_slice(), self.row.as_slice());
        self.row.clear();
    }

    /// Makes a literal true.
    pub fn push(&mut self, l: Lit) -> Result<(), AllocError>
        requires { variable_of l < self.old.vars }
        ensures ok { OnOk result (self.new ≡ record self.old { literals = self.old.literals ++ l ∷ [] }) }
        ensures err { OnErr result (self.new ≡ self.old) }
    {
        self.row.push(l)?;
        self.truths[l.code() as usize] = true;
        Ok(())
    }

    /// Whether a literal is true.
    pub fn has(&self, l: Lit) -> bool
        requires { variable_of l < self.now.vars }
        ensures { result ≡ is_hinted_in self.now.literals l }
    {
        self.truths[l.code() as usize]
    }

    /// What the row makes of a clause.
    pub fn status_of(&self, clause: &[Lit]) -> Status
        requires { All (λ l. variable_of l < self.now.vars) clause.now }
        ensures { result ≡ status_of self.now.literals clause.now }
    {
        let mut free = None;
        for l in clause {
            if self.has(l.opposite()) {
                continue;
            }
            if free.is_some() || self.has(*l) {
                return Status::Open;
            }
            free = Some(*l);
        }
        match free {
            Some(l) => Status::Forces(l),
            None => Status::Conflict,
        }
    }
}

fn unset_all(truths: &mut [bool], row: &[Lit])
    requires { (l : ℕ) → truth_at truths.old l ≡ is_hinted_in row.now l }
    ensures { (l : ℕ) → truth_at truths.new l ≡ false }
{
    for l in row {
        let code = l.code() as usize;
        truths[code] = false;
    }
}
