//! The current clause of a chain, as a set of literals. A resolution takes one literal out and puts
//! those of another clause in, so it looks at the other clause alone.

ghost use Rattle.std.specs.Prelude.{◌≡◌, ℕ, ◌+◌, ◌-◌, ◌^◌, ◌<◌, ◌≤◌, ◌↔◌, ◌⊎◌, ◌∷◌, [], ◌++◌, List, All, Contains};
ghost use Rattle.std.specs.Prelude.{length, true, false, ◌==◌, if◌then◌else◌, IsTrue, IfOk, OnOk, OnErr, MatchOption};
ghost use Rattle.std.specs.List.Sorted.{IsStrictlyIncreasing};
ghost use Rattle.am_lit.specs.Literal.{opposite_of, variable_of};
ghost use Rattle.am_chain.specs.Resolvent.{has_pivot, resolvent};
ghost use Rattle.am_chain.specs.inside.Marks.{AreMarksOf, is_in, mark_at};

use am_lit::{Clauses, Lit};
use std::alloc::{AllocError, Global};
use std::marker::Model;

/// A set of literals. Contracts see a list that has `true` at the code of each literal of the set.
#[derive(Drop)]
pub struct Marks {
    /// For each code, whether its literal is in the set. Literals past the end aren't.
    marks: Vec<bool>,
    /// The literals that were put in since the set was cleared. Some may be there twice, or may have
    /// been taken out again.
    touched: Vec<Lit>,
}

impl Model for Marks {
    ghost use Rattle.std.specs.Prelude.{ℕ, Bool, List, All, length, ◌<◌, ◌≤◌, ◌^◌, IsTrue};
    ghost use Rattle.am_chain.specs.inside.Marks.{is_in, mark_at};

    ghost Value = { List Bool };

    ghost view = { λ a. a.marks.items };

    ghost invariant = { λ a. (length a.marks.items ≤ 2 ^ 32) × All (λ l. l < length a.marks.items) a.touched.items
        × ((l : ℕ) → IsTrue (mark_at a.marks.items l) → IsTrue (is_in a.touched.items l)) };
}

impl Marks {
    /// The empty set.
    pub fn new(alloc: Global) -> Marks
        ensures { (l : ℕ) → mark_at result l ≡ false }
    {
        Marks {
            marks: Vec::new(alloc),
            touched: Vec::new(alloc),
        }
    }

    /// Takes all literals out.
    pub fn clear(&mut self)
        ensures { (l : ℕ) → mark_at self.new l ≡ false }
    {
        unmark_all(self.marks.as_mut_slice(), self.touched.as_slice());
        self.touched.clear();
    }

    /// Puts the literals of a clause into the empty set.
    pub fn fill(&mut self, clause: &[Lit]) -> Result<(), AllocError>
        requires empty { (l : ℕ) → mark_at self.old l ≡ false }
        requires rising { IsStrictlyIncreasing clause.now }
        ensures { OnOk result (AreMarksOf clause.now self.new) }
    {
        for l in clause {
            self.put(*l)?;
        }
        Ok(())
    }

    /// Resolves the set's clause with another one. False where they have no pivot on the variable.
    pub fn resolve(&mut self, variable: u32, other: &[Lit]) -> Result<bool, AllocError>
        requires { IsStrictlyIncreasing other.now }
        ensures pivot { IfOk result (λ taken. (c : List ℕ) → AreMarksOf c self.old
            → taken ≡ has_pivot variable c other.now) }
        ensures resolvent { IfOk result (λ taken. IsTrue taken → (c : List ℕ) → AreMarksOf c self.old
            → AreMarksOf (resolvent variable c other.now) self.new) }
    {
        let Some(pivot) = self.only_literal(variable) else {
            return Ok(false);
        };
        if !self.put_others(pivot.opposite(), other)? {
            return Ok(false);
        }
        self.take_out(pivot);
        Ok(true)
    }

    /// Appends the set's clause to a store.
    pub fn store(&mut self, clauses: &mut Clauses) -> Result<(), AllocError>
        requires { length clauses.old < 2 ^ 32 - 1 }
        ensures ok { OnOk result ((c : List ℕ) → AreMarksOf c self.old →
            clauses.new ≡ clauses.old ++ c ∷ []) }
        ensures err { OnErr result (clauses.new ≡ clauses.old) }
    {
        put_in_order(&mut self.touched, self.marks.as_slice());
        clauses.push(self.touched.as_slice())?;
        Ok(())
    }

    /// The set's literal of a variable, if there is just one.
    fn only_literal(&self, variable: u32) -> Option<Lit>
        ensures { MatchOption result
            ((l : ℕ) → variable_of l ≡ variable
            → IsTrue (mark_at self.now l) → IsTrue (mark_at self.now (opposite_of l)))
            (λ l. (variable_of l ≡ variable)
            × IsTrue (mark_at self.now l) × (mark_at self.now (opposite_of l) ≡ false)) }
    {
        let marks = self.marks.as_slice();
        if variable >= 1 << 31 {
            return None;
        }
        let plain = Lit::new(variable, false);
        let negated = plain.opposite();
        match (is_marked(marks, plain), is_marked(marks, negated)) {
            (true, false) => Some(plain),
            (false, true) => Some(negated),
            _ => None,
        }
    }

    /// Puts in the literals of a clause but those of one variable. Whether the clause holds the
    /// wanted literal of that variable and not its opposite; it may stop where it doesn't.
    fn put_others(&mut self, wanted: Lit, clause: &[Lit]) -> Result<bool, AllocError>
        ensures alone { IfOk result (λ alone. IsTrue alone
            ↔ (Contains clause.now wanted × (¬ (Contains clause.now (opposite_of wanted))))) }
        ensures others { IfOk result (λ alone. IsTrue alone → (l : ℕ) → IsTrue (mark_at self.new l)
            ↔ (IsTrue (mark_at self.old l)
            ⊎ (Contains clause.now l × (¬ (variable_of l ≡ variable_of wanted))))) }
    {
        let mut found = false;
        for l in clause {
            if l.variable() != wanted.variable() {
                self.put(*l)?;
                continue;
            }
            if *l != wanted {
                return Ok(false);
            }
            found = true;
        }
        Ok(found)
    }

    fn put(&mut self, l: Lit) -> Result<(), AllocError>
        ensures { OnOk result ((m : ℕ) → mark_at self.new m ≡ (if m == l then true else mark_at self.old m)) }
    {
        let code = l.code() as usize;
        cover(&mut self.marks, code + 1)?;
        if !self.marks[code] {
            self.touched.push(l)?;
            self.marks[code] = true;
        }
        Ok(())
    }

    fn take_out(&mut self, l: Lit)
        requires { IsTrue (mark_at self.old l) }
        ensures { (m : ℕ) → mark_at self.new m ≡ (if m == l then false else mark_at self.old m) }
    {
        let code = l.code() as usize;
        self.marks[code] = false;
    }
}

fn is_marked(marks: &[bool], l: Lit) -> bool
    ensures { result ≡ mark_at marks.now l }
{
    let code = l.code() as usize;
    code < marks.len() && marks[code]
}

/// Makes the list so long, with marks that say no.
fn cover(marks: &mut Vec<bool>, len: usize) -> Result<(), AllocError>
    ensures room { OnOk result (len ≤ length marks.new.items) }
    ensures length { (length marks.new.items ≡ length marks.old.items) ⊎ (length marks.new.items ≡ len) }
    ensures longer { length marks.old.items ≤ length marks.new.items }
    ensures same { (l : ℕ) → mark_at marks.new.items l ≡ mark_at marks.old.items l }
{
    if marks.len() < len {
        marks.resize(len, false)?;
    }
    Ok(())
}

fn unmark_all(marks: &mut [bool], touched: &[Lit])
    requires in_range { All (λ l. l < length marks.old) touched.now }
    requires all { (l : ℕ) → IsTrue (mark_at marks.old l) → IsTrue (is_in touched.now l) }
    ensures { (l : ℕ) → mark_at marks.new l ≡ false }
{
    for l in touched {
        let code = l.code() as usize;
        marks[code] = false;
    }
}

/// Leaves the marked literals, in order and without repeats.
fn put_in_order(touched: &mut Vec<Lit>, marks: &[bool])
    ensures rises { IsStrictlyIncreasing touched.new.items }
    ensures members { (l : ℕ) → Contains touched.new.items l
        ↔ (Contains touched.old.items l × IsTrue (mark_at marks.now l)) }
{
    touched.retain(|l| is_marked(marks, *l));
    touched.sort_unstable();
    touched.dedup();
}
