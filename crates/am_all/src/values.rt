//! The abstract values of a problem's domain, and the members of all tuples.

ghost use Rattle.std.specs.Prelude.{◌≡◌, ◌*◌, ◌^◌, ◌<◌, ◌≤◌, IfOk};
ghost use Rattle.am_domain.specs.Tuple.{IsTuple};
ghost use Rattle.am_problem.specs.Kinds.{fields_of};
ghost use Rattle.am_all.specs.inside.Numbers.{words_at};
ghost use Rattle.am_all.specs.inside.Values.{AreAllMembers, AreAllValues, IsMemberSet};

use crate::word_set::WordSet;
use am_bv::{Row, Width};
use am_domain::{Domain, Fields};
use am_problem::Problem;
use std::alloc::{AllocError, Global};

/// An abstract value, and its members.
#[derive(Drop)]
pub struct Value {
    pub fields: Fields,
    pub members: WordSet,
}

/// The members of each tuple of words, by its number.
pub fn all_members(alloc: Global, p: &Problem) -> Result<Row<WordSet>, AllocError>
    requires { p.now.width * fields_of p.now.kind ≤ 16 }
    ensures { IfOk result (AreAllMembers p.now) }
{
    let (w, count) = (p.width(), p.kind().fields());
    let mut sets = Row::new(alloc);
    for number in 0..1 << (w.bits() * count) {
        sets.push(members(p, &tuple_at(w, count, number)))?;
    }
    Ok(sets)
}

/// The abstract values.
pub fn abstract_values(
    alloc: Global,
    p: &Problem,
    sets: &[WordSet],
) -> Result<Row<Value>, AllocError>
    requires small { p.now.width * fields_of p.now.kind ≤ 16 }
    requires sets { AreAllMembers p.now sets.now }
    ensures { IfOk result (AreAllValues p.now) }
{
    let (w, kind) = (p.width(), p.kind());
    let mut values = Row::new(alloc);
    for (number, members) in sets.iter().enumerate() {
        let fields = tuple_at(w, kind.fields(), number as u32);
        if kind.valid(w, &fields) {
            values.push(Value {
                fields,
                members: *members,
            })?;
        }
    }
    Ok(values)
}

/// The members of a tuple.
fn members(p: &Problem, fields: &Fields) -> WordSet
    requires { IsTuple p.now.width (fields_of p.now.kind) fields.now }
    ensures { IsMemberSet p.now fields.now result }
{
    let (w, kind) = (p.width(), p.kind());
    let mut members = WordSet::new();
    for c in 0..=w.mask() {
        if kind.contains(w, fields, c) {
            members.insert(c);
        }
    }
    members
}

/// The tuple of so many words with this number.
fn tuple_at(w: Width, count: u32, number: u32) -> Fields
    requires { count ≤ 4 }
    ensures value { result ≡ words_at w count number }
    ensures tuple { IsTuple w count result }
{
    let base = u32::from(w.mask()) + 1;
    let mut tuple = Fields::new();
    let mut rest = number;
    for _ in 0..count {
        tuple.push((rest % base) as u8);
        rest /= base;
    }
    tuple
}
