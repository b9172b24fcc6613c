//! Conflict analysis down to decided literals.

ghost use Rattle.std.specs.Prelude.{◌≡◌, ◌+◌, ◌-◌, ◌<◌, ◌≤◌, ℕ, ◌++◌, length, All, OnOk, IfOk};
ghost use Rattle.std.specs.List.Sorted.{IsStrictlyIncreasing};
ghost use Rattle.am_lit.specs.Clause.{IsNormal};
ghost use Rattle.am_trail.specs.Trails.{literals};
ghost use Rattle.am_watch.specs.Watching.{IsExplained};
ghost use Rattle.am_solve.specs.inside.Marking.{AreKeptLiterals, OpposesDecision, WasDecided};
ghost use Rattle.am_solve.specs.inside.Searching.{IsConflict, IsFalseClause, SettledBelow};
ghost use Rattle.am_solve.specs.inside.Searches.{FitsTrail, HasResolved, IsAnalysis};

use crate::analysis::{Found, absent_literal, mark_all, resolve_at};
use crate::marks::Marks;
use am_chain::Steps;
use am_lit::{Clauses, Lit};
use am_trail::Trail;
use am_watch::clause_at;
use std::alloc::{AllocError, Global};

/// Resolves the current clause on the entry at a place, unless it isn't marked or was decided.
pub fn resolve_implied(
    marks: &mut Marks,
    steps: &mut Steps,
    trail: &Trail,
    given: &Clauses,
    learnt: &Clauses,
    i: u32,
) -> Result<(), AllocError>
    requires rise { All IsStrictlyIncreasing (given.now ++ learnt.now) }
    requires explained { IsExplained 0 (given.now ++ learnt.now) trail.now.entries }
    requires inside { i < length trail.now.entries }
    requires start { marks.old.start ≡ 0 }
    requires fits { FitsTrail trail.now marks.old }
    ensures start { OnOk result (marks.new.start ≡ 0) }
    ensures fits { OnOk result (FitsTrail trail.now marks.new) }
    ensures resolved { OnOk result ((first : ℕ)
        → HasResolved (given.now ++ learnt.now) trail.now marks.old first steps.old (i + 1)
        → HasResolved (given.now ++ learnt.now) trail.now marks.new first steps.new i) }
{
    if !marks.places[i as usize] {
        return Ok(());
    }
    let Some(reason) = trail.reason(trail.literal(i).variable()) else {
        return Ok(());
    };
    resolve_at(marks, steps, trail, given, learnt, i, reason)?;
    Ok(())
}

/// What is left of a false clause after all steps on implied literals: the marked places.
#[derive(Drop)]
pub struct Resolved {
    pub marks: Marks,
    pub steps: Steps,
}

/// Resolves a false clause backwards along the trail until only opposites of decided literals are
/// left.
pub fn resolve_all(
    alloc: Global,
    trail: &Trail,
    given: &Clauses,
    learnt: &Clauses,
    conflict: u32,
) -> Result<Resolved, AllocError>
    requires { IsConflict (given.now ++ learnt.now) trail.now.entries conflict }
    ensures resolved { IfOk result (λ f. HasResolved (given.now ++ learnt.now) trail.now f.marks conflict f.steps 0) }
    ensures len { IfOk result (λ f. length f.marks.places.items ≡ length trail.now.entries) }
{
    trail.known();
    let mut marks = Marks::new(alloc, trail.len(), 0)?;
    let mut steps = Steps::new(alloc);
    let absent = absent_literal(trail);
    mark_all(
        &mut marks,
        trail,
        clause_at(given, learnt, conflict),
        absent,
    )?;
    let mut i = trail.len();
    while i > 0 {
        i -= 1;
        resolve_implied(&mut marks, &mut steps, trail, given, learnt, i)?;
    }
    Ok(Resolved { marks, steps })
}

/// The opposites of the literals at the marked places before a place.
pub fn marked_before(
    alloc: Global,
    trail: &Trail,
    marks: &Marks,
    start: u32,
) -> Result<Vec<Lit>, AllocError>
    requires start { start ≤ length trail.now.entries }
    requires len { length marks.now.places.items ≡ length trail.now.entries }
    ensures { IfOk result (λ kept.
        AreKeptLiterals (literals trail.now.entries) start marks.now.places.items kept.items) }
{
    let mut kept = Vec::new(alloc);
    for i in 0..start {
        if marks.places[i as usize] {
            kept.push(trail.literal(i).opposite())?;
        }
    }
    Ok(kept)
}

/// Resolves a false clause backwards until only opposites of decided literals are left.
pub fn analyse_decided(
    alloc: Global,
    trail: &Trail,
    given: &Clauses,
    learnt: &Clauses,
    conflict: u32,
) -> Result<Found, AllocError>
    requires level { 0 < trail.now.level }
    requires number { conflict < length (given.now ++ learnt.now) }
    requires untrue { IsFalseClause (given.now ++ learnt.now) trail.now.entries conflict }
    requires normal { All (IsNormal trail.now.vars) (given.now ++ learnt.now) }
    requires explained { IsExplained 0 (given.now ++ learnt.now) trail.now.entries }
    requires below { SettledBelow (given.now ++ learnt.now) trail.now.entries trail.now.level }
    ensures analysed { IfOk result (IsAnalysis (given.now ++ learnt.now) trail.now conflict) }
    ensures kept { IfOk result (λ f. All (OpposesDecision trail.now.entries) f.kept.items) }
    ensures left { IfOk result (λ f. WasDecided trail.now.entries f.place) }
{
    trail.known();
    let Resolved { marks, steps } = resolve_all(alloc, trail, given, learnt, conflict)?;
    let start = trail.count_upto(trail.level() - 1);
    let kept = marked_before(alloc, trail, &marks, start)?;
    Ok(Found {
        kept,
        steps,
        place: start,
    })
}
