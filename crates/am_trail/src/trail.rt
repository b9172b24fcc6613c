//! The literals of an assignment, in the order in which they became true.

ghost use Rattle.std.specs.Prelude.{◌≡◌, ℕ, ◌+◌, ◌<◌, ◌≤◌, [], length, take, IfOk, IfNone, IfSome};
ghost use Rattle.std.specs.Prelude.{Contains, IsTrue, ◌↔◌, if◌then◌else◌, slice_index, slice_index_or};
ghost use Rattle.am_lit.specs.Literal.{variable_of, opposite_of};
ghost use Rattle.am_lit.specs.UnitRow.{IsFree};
ghost use Rattle.am_trail.specs.Trails.{Assigned, HasValue, IsEntryAt, IsTrail, Leads, OfVariable, decided, implied};
ghost use Rattle.am_trail.specs.Trails.{literals, returned, upto};
ghost use Rattle.am_trail.specs.declared.entry.Entry.{Entry};

use crate::Entry;
use crate::places::{entry_of, keep_first, place_of, put};
use crate::values::{Value, set_true};
use am_lit::Lit;
use std::alloc::{AllocError, Global};
use std::marker::Model;

/// A list of literals, each with its level and its reason, the current level, and the head: how many
/// of the literals were passed. A literal's level is the number of decisions up to it.
#[derive(Drop)]
pub struct Trail {
    entries: Vec<Entry>,
    places: Vec<u32>,
    values: Vec<Value>,
    level: u32,
    head: u32,
}

impl Model for Trail {
    ghost use Rattle.std.specs.Prelude.{length, vec_len, vec_capacity, ◌≡◌, ◌<◌, ◌≤◌, ◌*◌, ◌^◌};
    ghost use Rattle.am_trail.specs.Trails.{Assigned, Leads, literals};
    ghost use Rattle.am_trail.specs.inside.Places.{IsPlaced, variables};
    ghost use Rattle.am_trail.specs.inside.Values.{AreLiteralValues};

    ghost Value = { Assigned };

    ghost view = { λ a. record {
      vars = length a.places.items;
      entries = a.entries.items;
      level = a.level;
      head = a.head;
    } };

    ghost invariant = { λ a. IsPlaced (variables a.entries.items) a.places.items × Leads 0 a.entries.items a.level
        × (vec_len a.places ≤ vec_capacity a.entries) × (vec_len a.places < 2 ^ 32)
        × (a.head ≤ length a.entries.items) × AreLiteralValues (literals a.entries.items) a.values.items
        × (vec_len a.values ≡ 2 * vec_len a.places) };
}

/// How many entries stand on the levels up to this one.
fn count_upto(entries: &[Entry], level: u32) -> usize
    requires { (top : ℕ) × Leads 0 entries.now top }
    ensures within { result ≤ length entries.now }
    ensures prefix { take result entries.now ≡ upto level entries.now }
    ensures above { (k : ℕ) (d : Entry) → result ≤ k → k < length entries.now
        → level < (slice_index_or entries.now k d).level }
{
    let mut len = entries.len();
    while len > 0 && entries[len - 1].level > level {
        len -= 1;
    }
    len
}

impl Trail {
    /// An empty trail at level 0, for the variables below `vars`. No other call takes memory.
    pub fn new(alloc: Global, vars: u32) -> Result<Trail, AllocError>
        ensures { IfOk result (λ t. t ≡ record { vars = vars; entries = []; level = 0; head = 0 }) }
    {
        Ok(Trail {
            entries: Vec::with_capacity(alloc, vars as usize)?,
            places: vec![in alloc; 0; vars as usize]?,
            values: vec![in alloc; Value::Free; 2 * vars as usize]?,
            level: 0,
            head: 0,
        })
    }

    /// Whether a literal is true, or None where its variable has no value.
    pub fn value(&self, l: Lit) -> Option<bool>
        requires { variable_of l < self.now.vars }
        ensures none { IfNone result (IsFree (literals self.now.entries) l) }
        ensures some { IfSome result (λ b. Contains (literals self.now.entries) (if b then l else opposite_of l)) }
    {
        match self.values[l.code() as usize] {
            Value::Free => None,
            Value::True => Some(true),
            Value::False => Some(false),
        }
    }

    /// Makes a literal true at a new level.
    pub fn decide(&mut self, l: Lit)
        requires variable { variable_of l < self.old.vars }
        requires free { IsFree (literals self.old.entries) l }
        ensures { self.new ≡ decided self.old l }
    {
        self.level += 1;
        let entry = Entry {
            literal: l,
            level: self.level,
            reason: None,
        };
        put(&mut self.entries, &mut self.places, entry);
        set_true(&mut self.values, l);
    }

    /// Makes a literal true at the current level, since the clause with this number forces it.
    pub fn imply(&mut self, l: Lit, reason: u32)
        requires variable { variable_of l < self.old.vars }
        requires free { IsFree (literals self.old.entries) l }
        ensures { self.new ≡ implied self.old l reason }
    {
        let entry = Entry {
            literal: l,
            level: self.level,
            reason: Some(reason),
        };
        put(&mut self.entries, &mut self.places, entry);
        set_true(&mut self.values, l);
    }

    /// Takes back all levels above this one. The head is at most the new length.
    pub fn back_to(&mut self, level: u32)
        requires { level ≤ self.old.level }
        ensures { self.new ≡ returned self.old level }
    {
        let len = count_upto(self.entries.as_slice(), level);
        keep_first(&mut self.entries, &mut self.places, &mut self.values, len);
        self.level = level;
        self.head = self.head.min(len as u32);
    }

    /// The current level.
    pub fn level(&self) -> u32
        ensures { result ≡ self.now.level }
    {
        self.level
    }

    /// The number of literals.
    pub fn len(&self) -> u32
        ensures { result ≡ length self.now.entries }
    {
        self.entries.len() as u32
    }

    /// Whether no literal is true.
    pub fn is_empty(&self) -> bool
        ensures { IsTrue result ↔ (self.now.entries ≡ []) }
    {
        self.entries.is_empty()
    }

    /// The entry at a place, from 0.
    pub fn entry(&self, i: u32) -> Entry
        requires { i < length self.now.entries }
        ensures { IsEntryAt self.now.entries i result }
    {
        self.entries[i as usize]
    }

    /// The literal at a place, from 0.
    pub fn literal(&self, i: u32) -> Lit
        requires { i < length self.now.entries }
        ensures { result ≡ slice_index (literals self.now.entries) i }
    {
        self.entries[i as usize].literal
    }

    /// The level at which a variable got its value.
    pub fn level_of(&self, variable: u32) -> u32
        requires { HasValue self.now.entries variable }
        ensures { OfVariable self.now.entries variable (λ e. result ≡ e.level) }
    {
        entry_of(self.entries.as_slice(), self.places.as_slice(), variable).level
    }

    /// The clause that forced a variable's value, or None where it was decided.
    pub fn reason(&self, variable: u32) -> Option<u32>
        requires { HasValue self.now.entries variable }
        ensures { OfVariable self.now.entries variable (λ e. result ≡ e.reason) }
    {
        entry_of(self.entries.as_slice(), self.places.as_slice(), variable).reason
    }

    /// The place of a variable that has a value.
    pub fn place(&self, variable: u32) -> u32
        requires { HasValue self.now.entries variable }
        ensures within { result < length self.now.entries }
        ensures at { variable_of (slice_index (literals self.now.entries) result) ≡ variable }
    {
        place_of(self.entries.as_slice(), self.places.as_slice(), variable)
    }

    /// How many literals were passed.
    pub fn head(&self) -> u32
        ensures { result ≡ self.now.head }
    {
        self.head
    }

    /// Passes one more literal.
    pub fn pass(&mut self)
        requires { self.old.head < length self.old.entries }
        ensures { self.new ≡ record self.old { head = self.old.head + 1 } }
    {
        self.head += 1;
    }

    /// How many literals stand on the levels up to this one. They come first.
    pub fn count_upto(&self, level: u32) -> u32
        ensures within { result ≤ length self.now.entries }
        ensures prefix { take result self.now.entries ≡ upto level self.now.entries }
        ensures above { (k : ℕ) (d : Entry) → result ≤ k → k < length self.now.entries
            → level < (slice_index_or self.now.entries k d).level }
    {
        let _len = self.len();
        count_upto(self.entries.as_slice(), level) as u32
    }

    /// What is known of each trail. It does nothing.
    pub fn known(&self)
        ensures { IsTrail self.now }
    {
        let _head = self.head;
    }
}
