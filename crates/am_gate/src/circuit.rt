//! Circuits, and the calls that make them.

ghost use Rattle.std.specs.Prelude.{◌≡◌, ℕ, ◌<◌, ◌↔◌, Bool, true, false, List, [], ◌∷◌, All, IsTrue, Option, None};
ghost use Rattle.std.specs.Prelude.{if◌then◌else◌, IfOk, OnOk, OnErr};
ghost use Rattle.std.specs.List.Sorted.{IsStrictlyIncreasing};
ghost use Rattle.am_lit.specs.Literal.{literal_of};
ghost use Rattle.am_lit.specs.Truth.{Satisfies};
ghost use Rattle.am_lit.specs.UnitRow.{Determines};
ghost use Rattle.am_gate.specs.Circuit.{Net, Event, Event.Input, Event.And, Event.Xor, Event.Mux, start, truth, added};
ghost use Rattle.am_gate.specs.Circuit.{built, IsLiteral, HasInputs, HasRoom, Grows, Begins};
ghost use Rattle.am_gate.specs.Value.{Meets};
ghost use Rattle.am_gate.specs.Build.{ask, tell, Follows};
ghost use Rattle.am_gate.specs.Promises.{GivesOrKeeps};

use crate::fold::{folded_and, folded_mux, folded_xor};
use crate::sorted::SortedClauses;
use am_lit::{Formula, Lit};
use std::alloc::{AllocError, Global};
use std::marker::Model;

/// A circuit: variables that are inputs or gates, and the clauses that say so. It folds constants, or
/// it doesn't; that is its form. Contracts see its number of variables, its clauses and its form.
#[derive(Drop)]
pub struct Circuit {
    clauses: SortedClauses,
    vars: u32,
    folding: bool,
}

impl Model for Circuit {
    ghost use Rattle.am_gate.specs.Circuit.{Net, IsCircuit};

    ghost Value = { Net };

    ghost view = { λ c. record { vars = c.vars; clauses = c.clauses; folding = c.folding } };

    ghost invariant = { λ c. IsCircuit (record { vars = c.vars; clauses = c.clauses; folding = c.folding }) };
}

impl Circuit {
    /// A circuit of one variable, which is forced to be true. Each gate call makes a gate.
    pub fn new(alloc: Global) -> Result<Circuit, AllocError>
        ensures { IfOk result (λ c. c ≡ start false) }
    {
        Circuit::start(alloc, false)
    }

    /// A circuit that folds: of one variable, which is forced to be true. A gate call makes no gate where
    /// another literal has its value by the table in `specs/Folding.antt`, and answers that literal.
    pub fn new_folding(alloc: Global) -> Result<Circuit, AllocError>
        ensures { IfOk result (λ c. c ≡ start true) }
    {
        Circuit::start(alloc, true)
    }

    /// A new circuit of a form.
    fn start(alloc: Global, folding: bool) -> Result<Circuit, AllocError>
        ensures { IfOk result (λ c. c ≡ start folding) }
    {
        let mut clauses = SortedClauses::new(alloc);
        clauses.add(&[Lit::new(0, false)])?;
        Ok(Circuit {
            clauses,
            vars: 1,
            folding,
        })
    }

    /// The literal that is true.
    pub fn truth(&self) -> Lit
        ensures truth { result ≡ truth }
        ensures inside { IsLiteral self.now.vars result }
    {
        prove!(0 < self.vars);
        Lit::new(0, false)
    }

    /// Makes an input: a variable that may have either value.
    pub fn input(&mut self) -> Result<Lit, AllocError>
        requires { HasRoom 1 self.old }
        ensures { GivesOrKeeps (ask Input) 1 IsLiteral self.old result self.new }
    {
        let g = self.next();
        self.vars += 1;
        Ok(g)
    }

    /// Makes a gate that is true where both literals are, or folds it.
    pub fn and(&mut self, a: Lit, b: Lit) -> Result<Lit, AllocError>
        requires room { HasRoom 1 self.old }
        requires first { IsLiteral self.old.vars a }
        requires second { IsLiteral self.old.vars b }
        ensures { GivesOrKeeps (ask (And a b)) 1 IsLiteral self.old result self.new }
    {
        if let Some(l) = self.if_folding(folded_and(a, b)) {
            return Ok(l);
        }
        let g = self.next();
        self.clauses.add_all(&[
            &[a, g.opposite()],
            &[b, g.opposite()],
            &in_order(a.opposite(), b.opposite(), g),
        ])?;
        self.vars += 1;
        Ok(g)
    }

    /// Makes a gate that is true where the literals differ, or folds it.
    pub fn xor(&mut self, a: Lit, b: Lit) -> Result<Lit, AllocError>
        requires room { HasRoom 1 self.old }
        requires first { IsLiteral self.old.vars a }
        requires second { IsLiteral self.old.vars b }
        ensures { GivesOrKeeps (ask (Xor a b)) 1 IsLiteral self.old result self.new }
    {
        if let Some(l) = self.if_folding(folded_xor(a, b)) {
            return Ok(l);
        }
        let g = self.next();
        self.clauses.add_all(&[
            &in_order(a, b, g.opposite()),
            &in_order(a.opposite(), b.opposite(), g.opposite()),
            &in_order(a.opposite(), b, g),
            &in_order(a, b.opposite(), g),
        ])?;
        self.vars += 1;
        Ok(g)
    }

    /// Makes a gate that has the value of a where c is true, and the value of b where it is false, or
    /// folds it.
    pub fn mux(&mut self, c: Lit, a: Lit, b: Lit) -> Result<Lit, AllocError>
        requires room { HasRoom 1 self.old }
        requires choice { IsLiteral self.old.vars c }
        requires first { IsLiteral self.old.vars a }
        requires second { IsLiteral self.old.vars b }
        ensures { GivesOrKeeps (ask (Mux c a b)) 1 IsLiteral self.old result self.new }
    {
        if let Some(l) = self.if_folding(folded_mux(c, a, b)) {
            return Ok(l);
        }
        let g = self.next();
        self.clauses.add_all(&[
            &in_order(c.opposite(), a.opposite(), g),
            &in_order(c.opposite(), a, g.opposite()),
            &in_order(c, b.opposite(), g),
            &in_order(c, b, g.opposite()),
        ])?;
        self.vars += 1;
        Ok(g)
    }

    /// Forces a literal to be true. Nothing is folded.
    pub fn force(&mut self, l: Lit) -> Result<(), AllocError>
        requires room { HasRoom 1 self.old }
        requires literal { IsLiteral self.old.vars l }
        ensures ok { IfOk result (λ r. Follows (tell (l ∷ [])) self.old r self.new) }
        ensures grows { OnOk result (Grows 1 self.old self.new) }
        ensures err { OnErr result (self.new ≡ self.old) }
        ensures begins { Begins self.old self.new }
    {
        self.clause(&[l])?;
        Ok(())
    }

    /// Forces one of the literals to be true. Nothing is folded.
    pub fn clause(&mut self, literals: &[Lit]) -> Result<(), AllocError>
        requires room { HasRoom 1 self.old }
        requires literals { All (IsLiteral self.old.vars) literals.now }
        ensures ok { IfOk result (λ r. Follows (tell literals.now) self.old r self.new) }
        ensures grows { OnOk result (Grows 1 self.old self.new) }
        ensures err { OnErr result (self.new ≡ self.old) }
        ensures begins { Begins self.old self.new }
    {
        self.clauses.add(literals)?;
        Ok(())
    }

    /// The clauses, over all variables. Takes no memory.
    ///
    /// Whatever events made the circuit, the formula holds exactly where variable 0 is true, each gate
    /// that was made has its value and each forced clause holds. The inputs determine the formula, where
    /// the circuit was made by calls, whose events stand over earlier variables; their variables rise, and
    /// are variables of the formula.
    pub fn finish(self) -> Formula
        ensures clauses { result.clauses ≡ self.clauses }
        ensures vars { result.vars ≡ self.vars }
        ensures meaning { (v : ℕ → Bool) (events : List Event) → self ≡ built (start self.folding) events →
            Satisfies v result.clauses ↔ (IsTrue (v 0) × Meets v 1 events) }
        ensures determined { (inputs : List ℕ) → HasInputs inputs self →
            Determines result.clauses result.vars inputs }
        ensures rising { (inputs : List ℕ) → HasInputs inputs self → IsStrictlyIncreasing inputs }
        ensures below { (inputs : List ℕ) → HasInputs inputs self → All (λ x. x < result.vars) inputs }
    {
        Formula {
            clauses: self.clauses.into_clauses(),
            vars: self.vars,
        }
    }

    /// The literal that stands for a gate, where the circuit folds.
    fn if_folding(&self, folded: Option<Lit>) -> Option<Lit>
        ensures { result ≡ (if self.now.folding then folded else None) }
    {
        if self.folding { folded } else { None }
    }

    /// The literal of the next variable.
    fn next(&self) -> Lit
        requires { HasRoom 1 self.now }
        ensures { result ≡ literal_of self.now.vars false }
    {
        Lit::new(self.vars, false)
    }
}

/// The three literals of a gate's clause. The gate's own literal has the greatest code, and the
/// other two are put in order, so that the clause needs no sorting.
fn in_order(x: Lit, y: Lit, gate: Lit) -> [Lit; 3]
    ensures { added result ≡ added (x ∷ y ∷ gate ∷ []) }
{
    if x.code() <= y.code() {
        [x, y, gate]
    } else {
        [y, x, gate]
    }
}
