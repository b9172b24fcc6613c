//! Conflict analysis: resolving backwards along the trail.

ghost use Rattle.std.specs.Prelude.{◌≡◌, ◌≢◌, ◌+◌, ◌-◌, ◌<◌, ◌≤◌, ℕ, Bool, true, false, List, [], ◌++◌, length, All};
ghost use Rattle.std.specs.Prelude.{Contains, slice_index_or, OnOk, IfOk, IsSome, Some};
ghost use Rattle.am_lit.specs.Literal.{opposite_of};
ghost use Rattle.am_trail.specs.Trails.{literals};
ghost use Rattle.am_lit.specs.SearchLaws.{IsFalseIn};
ghost use Rattle.am_trail.specs.declared.entry.Entry.{Entry};
ghost use Rattle.am_lit.specs.Clause.{IsNormal};
ghost use Rattle.am_watch.specs.Watching.{IsExplained};
ghost use Rattle.am_chain.specs.inside.Marks.{mark_at};
ghost use Rattle.am_solve.specs.inside.Marking.{IsUnique, LeadsToOne};
ghost use Rattle.am_solve.specs.inside.Searching.{IsConflict, IsFalseClause, SettledBelow};
ghost use Rattle.am_solve.specs.inside.Searches.{CanResolveAt, CountsMarks, FitsTrail, HasResolvedAt, IsAnalysis};
ghost use Rattle.am_solve.specs.inside.Searches.{MarksMore};

use crate::marks::Marks;
use am_chain::{Step, Steps};
use am_lit::{Clauses, Lit};
use am_trail::Trail;
use am_watch::clause_at;
use std::alloc::{AllocError, Global};

/// Marks the places of the false literals of a clause, but for one literal.
pub fn mark_all(
    marks: &mut Marks,
    trail: &Trail,
    clause: &[Lit],
    besides: Lit,
) -> Result<(), AllocError>
    requires len { length marks.old.places.items ≡ length trail.now.entries }
    requires untrue { All (λ m. m ≢ besides → Contains (literals trail.now.entries) (opposite_of m)) clause.now }
    requires counted { CountsMarks (literals trail.now.entries) marks.old }
    ensures start { marks.new.start ≡ marks.old.start }
    ensures more { OnOk result (MarksMore (literals trail.now.entries) marks.old marks.new clause.now besides) }
    ensures counted { OnOk result (CountsMarks (literals trail.now.entries) marks.new) }
    ensures grows { OnOk result (marks.old.count ≤ marks.new.count) }
{
    trail.known();
    for l in clause {
        if *l != besides {
            let place = trail.place(l.variable());
            marks.mark(trail, place, *l)?;
        }
    }
    Ok(())
}

/// Resolves the current clause on the variable of the entry at a marked place, with its reason.
pub fn resolve_at(
    marks: &mut Marks,
    steps: &mut Steps,
    trail: &Trail,
    given: &Clauses,
    learnt: &Clauses,
    i: u32,
    reason: u32,
) -> Result<(), AllocError>
    requires can { CanResolveAt (given.now ++ learnt.now) trail.now marks.old reason i }
    requires fits { FitsTrail trail.now marks.old }
    ensures start { marks.new.start ≡ marks.old.start }
    ensures resolved { OnOk result
        (HasResolvedAt (given.now ++ learnt.now) trail.now marks.old marks.new steps.old steps.new i) }
{
    trail.known();
    let l = trail.literal(i);
    marks.unmark(trail, i);
    mark_all(marks, trail, clause_at(given, learnt, reason), l)?;
    let step = Step {
        variable: l.variable(),
        clause: reason,
    };
    steps.push(step)?;
    Ok(())
}

/// The last marked place before a place.
pub fn last_marked(marks: &Marks, trail: &Trail, before: u32) -> u32
    requires counted { CountsMarks (literals trail.now.entries) marks.now }
    requires some { 0 < marks.now.count }
    requires before { before ≤ length marks.now.places.items }
    requires above { (k : ℕ) → before ≤ k → mark_at marks.now.places.items k ≡ false }
    ensures before { result < before }
    ensures start { marks.now.start ≤ result }
    ensures marked { mark_at marks.now.places.items result ≡ true }
    ensures above { (k : ℕ) → result < k → mark_at marks.now.places.items k ≡ false }
{
    trail.known();
    let mut i = before - 1;
    while !marks.places[i as usize] {
        i -= 1;
    }
    i
}

/// The reason of the entry at a place, which was implied.
pub fn reason_at(trail: &Trail, i: u32) -> u32
    requires place { i < length trail.now.entries }
    requires implied { (d : Entry) → IsSome (slice_index_or trail.now.entries i d).reason }
    ensures { (d : Entry) → (slice_index_or trail.now.entries i d).reason ≡ Some result }
{
    match trail.reason(trail.literal(i).variable()) {
        Some(reason) => reason,
        None => unreachable!(),
    }
}

/// The clause of a conflict: the literals that are kept, the place of the one that is left, and the
/// steps of its chain.
#[derive(Drop)]
pub struct Found {
    pub kept: Vec<Lit>,
    pub steps: Steps,
    pub place: u32,
}

/// A literal that no false clause has.
pub fn absent_literal(trail: &Trail) -> Lit
    ensures { (c : List ℕ) → IsFalseIn (literals trail.now.entries) c
        → (m : ℕ) → Contains c m → m ≢ result }
{
    trail.known();
    if trail.len() == 0 {
        return Lit::new(0, false);
    }
    trail.literal(trail.len() - 1)
}

/// Resolves a false clause backwards along the trail until one literal from the place `start` on is
/// left.
pub fn first_unique(
    alloc: Global,
    trail: &Trail,
    given: &Clauses,
    learnt: &Clauses,
    conflict: u32,
    start: u32,
) -> Result<Found, AllocError>
    requires conflict { IsConflict (given.now ++ learnt.now) trail.now.entries conflict }
    requires leads { LeadsToOne (given.now ++ learnt.now) trail.now.entries start conflict }
    ensures { IfOk result (λ f. (marks : List Bool)
        × IsUnique (given.now ++ learnt.now) (literals trail.now.entries) start
        conflict marks f.kept.items f.steps f.place) }
{
    trail.known();
    let mut marks = Marks::new(alloc, trail.len(), start)?;
    let mut steps = Steps::new(alloc);
    let absent = absent_literal(trail);
    mark_all(
        &mut marks,
        trail,
        clause_at(given, learnt, conflict),
        absent,
    )?;
    let mut place = last_marked(&marks, trail, trail.len());
    while marks.count > 1 {
        let reason = reason_at(trail, place);
        resolve_at(&mut marks, &mut steps, trail, given, learnt, place, reason)?;
        place = last_marked(&marks, trail, place);
    }
    Ok(Found {
        kept: marks.kept,
        steps,
        place,
    })
}

/// Resolves a false clause backwards until one literal of the current level is left.
pub fn analyse(
    alloc: Global,
    trail: &Trail,
    given: &Clauses,
    learnt: &Clauses,
    conflict: u32,
) -> Result<Found, AllocError>
    requires level { 0 < trail.now.level }
    requires number { conflict < length (given.now ++ learnt.now) }
    requires untrue { IsFalseClause (given.now ++ learnt.now) trail.now.entries conflict }
    requires normal { All (IsNormal trail.now.vars) (given.now ++ learnt.now) }
    requires explained { IsExplained 0 (given.now ++ learnt.now) trail.now.entries }
    requires below { SettledBelow (given.now ++ learnt.now) trail.now.entries trail.now.level }
    ensures { IfOk result (IsAnalysis (given.now ++ learnt.now) trail.now conflict) }
{
    trail.known();
    let start = trail.count_upto(trail.level() - 1);
    let found = first_unique(alloc, trail, given, learnt, conflict, start)?;
    Ok(found)
}
