//! How the search chooses what to decide.

ghost use Rattle.std.specs.Prelude.{◌≡◌, ◌+◌, ◌^◌, ◌<◌, [], ◌∷◌, ◌++◌, true, false, All, Contains, length, IfOk};
ghost use Rattle.std.specs.Prelude.{IfNone, IfSome};
ghost use Rattle.am_lit.specs.Literal.{variable_of};
ghost use Rattle.am_lit.specs.UnitRow.{IsFree};
ghost use Rattle.am_chain.specs.declared.chain.Step.{Step};
ghost use Rattle.am_trail.specs.Trails.{HasValue, literals};
ghost use Rattle.am_trail.specs.Trails.{upto};
ghost use Rattle.am_trail.specs.declared.entry.Entry.{Entry};
ghost use Rattle.am_solve.specs.inside.Choosing.{IsPick, IsTotal, KeepsHeld};
ghost use Rattle.am_solve.specs.inside.Searches.{Chooses};

use am_chain::Step;
use am_lit::Lit;
use am_trail::{Order, Trail};
use std::alloc::{AllocError, Global};

/// By how much a variable's activity grows with a conflict.
const RAISE: u64 = 65_536;

/// After how many conflicts the activities are halved, so that they stay below 2^20.
const HALVE_AFTER: u64 = 8;

/// The most active variable is decided first, and gets the value that it had last, false at first.
#[derive(Drop)]
pub struct Choice {
    pub order: Order,
    pub phases: Vec<bool>,
}

/// Whether a literal's variable has a value.
fn has_value(trail: &Trail, l: Lit) -> bool
    requires { variable_of l < trail.now.vars }
    ensures yes { result ≡ true → HasValue trail.now.entries (variable_of l) }
    ensures no { result ≡ false → IsFree (literals trail.now.entries) l }
{
    trail.value(l).is_some()
}

impl Choice {
    /// All variables are held, with activity 0.
    pub fn new(alloc: Global, vars: u32) -> Result<Choice, AllocError>
        ensures { IfOk result (λ a. Chooses a vars []) }
    {
        Ok(Choice {
            order: Order::new(alloc, vars)?,
            phases: vec![in alloc; false; vars as usize]?,
        })
    }

    /// The literal of a variable that has the value that it had last.
    fn literal(&self, variable: u32) -> Lit
        requires small { variable < 2 ^ 31 }
        requires inside { variable < length self.now.phases.items }
        ensures { variable_of result ≡ variable }
    {
        Lit::new(variable, !self.phases[variable as usize])
    }

    /// A literal of the first variable of a list that has no value.
    fn pick_first(&self, trail: &Trail, first: &[u32]) -> Option<Lit>
        requires vars { length self.now.phases.items ≡ trail.now.vars }
        requires small { trail.now.vars < 2 ^ 31 }
        requires below { All (λ v. v < trail.now.vars) first.now }
        ensures none { IfNone result (All (HasValue trail.now.entries) first.now) }
        ensures some { IfSome result (λ l. (variable_of l < trail.now.vars) × IsFree (literals trail.now.entries) l
            × Contains first.now (variable_of l)) }
    {
        for variable in first {
            let l = self.literal(*variable);
            if !has_value(trail, l) {
                return Some(l);
            }
        }
        None
    }

    /// A literal of the most active variable without a value, if there is one. The variables that
    /// were looked at are held no more.
    fn pick_active(&mut self, trail: &Trail) -> Option<Lit>
        requires ready { Chooses self.old trail.now.vars trail.now.entries }
        requires small { trail.now.vars < 2 ^ 31 }
        ensures none { IfNone result (IsTotal trail.now.vars trail.now.entries) }
        ensures some { IfSome result (λ l. (variable_of l < trail.now.vars) × IsFree (literals trail.now.entries) l) }
        ensures ready_none { IfNone result (Chooses self.new trail.now.vars trail.now.entries) }
        ensures ready_some { IfSome result (λ l. (e : Entry) → e.literal ≡ l
            → Chooses self.new trail.now.vars (trail.now.entries ++ e ∷ [])) }
    {
        loop {
            self.order.known();
            let Some(variable) = self.order.take_first() else {
                return None;
            };
            self.order.known();
            let l = self.literal(variable);
            if !has_value(trail, l) {
                return Some(l);
            }
        }
    }

    /// A literal of a variable without a value, if there is one: of a list's first one, or else of
    /// the most active one.
    pub fn pick(&mut self, trail: &Trail, first: &[u32]) -> Option<Lit>
        requires ready { Chooses self.old trail.now.vars trail.now.entries }
        requires small { trail.now.vars < 2 ^ 31 }
        requires below { All (λ v. v < trail.now.vars) first.now }
        ensures none { IfNone result (IsTotal trail.now.vars trail.now.entries) }
        ensures some { IfSome result (IsPick trail.now first.now) }
        ensures ready_none { IfNone result (Chooses self.new trail.now.vars trail.now.entries) }
        ensures ready_some { IfSome result (λ l. (e : Entry) → e.literal ≡ l
            → Chooses self.new trail.now.vars (trail.now.entries ++ e ∷ [])) }
    {
        if let Some(l) = self.pick_first(trail, first) {
            return Some(l);
        }
        match self.pick_active(trail) {
            Some(l) => Some(l),
            None => None,
        }
    }

    /// Holds the variables of the entries above a level again, and keeps their values.
    pub fn give_back(&mut self, trail: &Trail, level: u32)
        requires { Chooses self.old trail.now.vars trail.now.entries }
        ensures { Chooses self.new trail.now.vars (upto level trail.now.entries) }
    {
        trail.known();
        let start = trail.count_upto(level);
        for i in start..trail.len() {
            let l = trail.literal(i);
            let variable = l.variable();
            self.order.hold(variable);
            self.phases[variable as usize] = !l.negated();
        }
    }

    /// Raises the variables that a conflict resolved on.
    fn raise_resolved(&mut self, steps: &[Step])
        requires { All (λ (s : Step). s.variable < length self.old.order.activities) steps.now }
        ensures order { KeepsHeld self.old.order self.new.order }
        ensures phases { self.new.phases ≡ self.old.phases }
    {
        for step in steps {
            self.order.raise_by(step.variable, RAISE);
        }
    }

    /// Raises the variables that a conflict kept.
    fn raise_kept(&mut self, clause: &[Lit])
        requires { All (λ l. variable_of l < length self.old.order.activities) clause.now }
        ensures order { KeepsHeld self.old.order self.new.order }
        ensures phases { self.new.phases ≡ self.old.phases }
    {
        for l in clause {
            self.order.raise_by(l.variable(), RAISE);
        }
    }

    /// Raises each variable of a conflict once: those that it resolved on, and those that it kept.
    pub fn raise(&mut self, steps: &[Step], clause: &[Lit])
        requires steps { All (λ (s : Step). s.variable < length self.old.order.activities) steps.now }
        requires clause { All (λ l. variable_of l < length self.old.order.activities) clause.now }
        ensures order { KeepsHeld self.old.order self.new.order }
        ensures phases { self.new.phases ≡ self.old.phases }
    {
        self.raise_resolved(steps);
        self.raise_kept(clause);
    }

    /// Halves all activities after each few conflicts.
    pub fn age(&mut self, conflicts: u64)
        ensures order { KeepsHeld self.old.order self.new.order }
        ensures phases { self.new.phases ≡ self.old.phases }
    {
        if conflicts % HALVE_AFTER == 0 {
            self.order.halve();
        }
    }
}
