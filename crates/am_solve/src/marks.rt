//! The marked places of a trail.

ghost use Rattle.std.specs.Prelude.{◌≡◌, ◌+◌, ◌-◌, ◌<◌, ◌≤◌, ℕ, true, false, List, length, slice_index, slice_set};
ghost use Rattle.std.specs.Prelude.{OnOk, IfOk};
ghost use Rattle.am_lit.specs.Literal.{opposite_of};
ghost use Rattle.am_trail.specs.Trails.{literals};
ghost use Rattle.am_chain.specs.inside.Marks.{mark_at};
ghost use Rattle.am_solve.specs.inside.Searches.{CountsMarks};

use am_lit::Lit;
use am_trail::Trail;
use std::alloc::{AllocError, Global};

/// The marked places of a trail. Those from `start` on are counted, and the false literals of those
/// before it are kept.
#[derive(Drop)]
pub struct Marks {
    pub places: Vec<bool>,
    pub kept: Vec<Lit>,
    pub count: usize,
    pub start: u32,
}

impl Marks {
    /// No marks for these many places.
    pub fn new(alloc: Global, len: u32, start: u32) -> Result<Marks, AllocError>
        ensures len { IfOk result (λ a. length a.places.items ≡ len) }
        ensures none { IfOk result (λ a. (k : ℕ) → mark_at a.places.items k ≡ false) }
        ensures start { IfOk result (λ a. a.start ≡ start) }
        ensures counted { IfOk result (λ a. (row : List ℕ) → CountsMarks row a) }
    {
        Ok(Marks {
            places: vec![in alloc; false; len as usize]?,
            kept: Vec::new(alloc),
            count: 0,
            start,
        })
    }

    /// Marks the place of a false literal.
    pub fn mark(&mut self, trail: &Trail, place: u32, l: Lit) -> Result<(), AllocError>
        requires place { place < length self.old.places.items }
        requires literal { l ≡ opposite_of (slice_index (literals trail.now.entries) place) }
        requires counted { CountsMarks (literals trail.now.entries) self.old }
        ensures start { self.new.start ≡ self.old.start }
        ensures places { OnOk result (self.new.places.items ≡ slice_set self.old.places.items place true) }
        ensures grows { OnOk result (self.old.count ≤ self.new.count) }
        ensures counted { OnOk result (CountsMarks (literals trail.now.entries) self.new) }
    {
        trail.known();
        let index = place as usize;
        if self.places[index] {
            return Ok(());
        }
        self.places[index] = true;
        if place < self.start {
            self.kept.push(l)?;
        } else {
            self.count += 1;
        }
        Ok(())
    }

    /// Takes back the mark of a place that is counted.
    pub fn unmark(&mut self, trail: &Trail, place: u32)
        requires place { place < length self.old.places.items }
        requires high { self.old.start ≤ place }
        requires marked { mark_at self.old.places.items place ≡ true }
        requires counted { CountsMarks (literals trail.now.entries) self.old }
        ensures start { self.new.start ≡ self.old.start }
        ensures kept { self.new.kept.items ≡ self.old.kept.items }
        ensures places { self.new.places.items ≡ slice_set self.old.places.items place false }
        ensures count { self.new.count + 1 ≡ self.old.count }
        ensures counted { CountsMarks (literals trail.now.entries) self.new }
    {
        trail.known();
        let index = place as usize;
        self.places[index] = false;
        self.count -= 1;
    }
}
