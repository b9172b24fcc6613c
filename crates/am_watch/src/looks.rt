//! What a clause's literals are worth under a trail.

ghost use Rattle.std.specs.Prelude.{◌≡◌, ◌≢◌, ℕ, ◌<◌, ◌≤◌, ◌++◌, [], length, slice_index_or, All, Contains, List};
ghost use Rattle.std.specs.Prelude.{IfNone, IfSome, true, false};
ghost use Rattle.am_lit.specs.Literal.{opposite_of, variable_of};
ghost use Rattle.am_lit.specs.UnitRow.{IsForcedBy};
ghost use Rattle.am_lit.specs.SearchLaws.{IsFalseIn};
ghost use Rattle.am_trail.specs.Trails.{literals};
ghost use Rattle.am_trail.specs.declared.entry.Entry.{Entry};
ghost use Rattle.am_watch.specs.declared.watcher.Watcher.{Watcher};
ghost use Rattle.am_watch.specs.declared.watcher.Pair.{Pair};
ghost use Rattle.am_watch.specs.Watching.{Extends, KeepsWatches, IsFalseAt};

use am_lit::{Clauses, Lit};
use am_trail::Trail;

/// The clause of a number: the given ones come first.
pub fn clause_at<'a>(given: &'a Clauses, learnt: &'a Clauses, i: u32) -> &'a [Lit]
    requires { i < length (given.now ++ learnt.now) }
    ensures { result.now ≡ slice_index_or (given.now ++ learnt.now) i [] }
{
    if i < given.len() {
        given.clause(i)
    } else {
        learnt.clause(i - given.len())
    }
}

pub fn is_true(trail: &Trail, l: Lit) -> bool
    requires { variable_of l < trail.now.vars }
    ensures { result ≡ true → Contains (literals trail.now.entries) l }
{
    match trail.value(l) {
        Some(b) => b,
        None => false,
    }
}

pub fn is_false(trail: &Trail, l: Lit) -> bool
    requires { variable_of l < trail.now.vars }
    ensures yes { result ≡ true → Contains (literals trail.now.entries) (opposite_of l) }
    ensures no { result ≡ false → ¬ (Contains (literals trail.now.entries) (opposite_of l)) }
{
    trail.known();
    match trail.value(l) {
        Some(b) => !b,
        None => false,
    }
}

/// A literal of the clause other than this one that isn't false, if there is one.
pub fn open_besides(clause: &[Lit], other: Lit, trail: &Trail) -> Option<Lit>
    requires { (l : ℕ) → Contains clause.now l → variable_of l < trail.now.vars }
    ensures none { IfNone result
        (All (λ m. m ≢ other → Contains (literals trail.now.entries) (opposite_of m)) clause.now) }
    ensures some { IfSome result (λ l. Contains clause.now l × (l ≢ other)
        × (¬ (Contains (literals trail.now.entries) (opposite_of l)))) }
{
    for l in clause {
        if !is_false(trail, *l) && *l != other {
            return Some(*l);
        }
    }
    None
}

/// A literal of the clause that isn't false, if there is one.
pub fn first_open(clause: &[Lit], trail: &Trail) -> Option<Lit>
    requires { (l : ℕ) → Contains clause.now l → variable_of l < trail.now.vars }
    ensures none { IfNone result (All (λ m. Contains (literals trail.now.entries) (opposite_of m)) clause.now) }
    ensures some { IfSome result (λ l. Contains clause.now l
        × (¬ (Contains (literals trail.now.entries) (opposite_of l)))) }
{
    for l in clause {
        if !is_false(trail, *l) {
            return Some(*l);
        }
    }
    None
}

/// Makes a literal true that a clause forces, unless it has a value. False says that the clause is
/// false.
pub fn force(trail: &mut Trail, given: &Clauses, learnt: &Clauses, number: u32, l: Lit) -> bool
    requires number { number < length (given.now ++ learnt.now) }
    requires forced { IsForcedBy (literals trail.old.entries) (slice_index_or (given.now ++ learnt.now) number []) l }
    requires variable { variable_of l < trail.old.vars }
    ensures yes { result ≡ true → Contains (literals trail.new.entries) l }
    ensures no { result ≡ false
        → IsFalseIn (literals trail.new.entries) (slice_index_or (given.now ++ learnt.now) number []) }
    ensures extends { Extends (given.now ++ learnt.now) trail.old trail.new }
    ensures head { trail.new.head ≡ trail.old.head }
    ensures holds { (lists : List (List Watcher)) (pairs : List Pair) (fresh : List ℕ)
        → KeepsWatches lists pairs fresh (given.now ++ learnt.now) trail.old
        → KeepsWatches lists pairs fresh (given.now ++ learnt.now) trail.new }
{
    trail.known();
    match trail.value(l) {
        Some(b) => b,
        None => {
            trail.imply(l, number);
            true
        }
    }
}

/// A literal of the clause other than this one that was made false on the current level, if there
/// is one. All others are false.
pub fn false_at_level(clause: &[Lit], other: Lit, trail: &Trail) -> Option<Lit>
    requires { All (λ m. m ≢ other → Contains (literals trail.now.entries) (opposite_of m)) clause.now }
    ensures { IfSome result
        (λ l. Contains clause.now l × (l ≢ other) × IsFalseAt trail.now.entries trail.now.level l) }
{
    for l in clause {
        if *l != other && trail.level_of(l.variable()) == trail.level() {
            return Some(*l);
        }
    }
    None
}

/// Whether a true literal is true at level 0, and so for good.
pub fn is_for_good(trail: &Trail, l: Lit) -> bool
    requires { Contains (literals trail.now.entries) l }
    ensures { result ≡ true → (e : Entry) × Contains trail.now.entries e × (e.literal ≡ l) × (e.level ≤ 0) }
{
    trail.level_of(l.variable()) == 0
}
