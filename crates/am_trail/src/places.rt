//! The places of a trail's variables.

ghost use Rattle.std.specs.Prelude.{◌≡◌, ◌+◌, ◌*◌, ◌^◌, ◌<◌, ◌≤◌, [], ◌∷◌, ◌++◌, length, take, slice_index, vec_len};
ghost use Rattle.std.specs.Prelude.{vec_capacity, Contains, IfNone, IfSome, if◌then◌else◌};
ghost use Rattle.am_lit.specs.Literal.{variable_of, opposite_of};
ghost use Rattle.am_trail.specs.Trails.{literals};
ghost use Rattle.am_trail.specs.inside.Places.{IsPlaced, variables};
ghost use Rattle.am_trail.specs.inside.Values.{AreLiteralValues};
ghost use Rattle.am_trail.specs.declared.entry.Entry.{Entry};

use crate::Entry;
use crate::values::{Value, set_free};

/// Appends an entry, and notes its place plus one at its variable.
pub fn put(entries: &mut Vec<Entry>, places: &mut Vec<u32>, entry: Entry)
    requires placed { IsPlaced (variables entries.old.items) places.old.items }
    requires room { vec_len places.old ≤ vec_capacity entries.old }
    requires small { vec_len places.old < 2 ^ 32 }
    requires variable { variable_of entry.literal < vec_len places.old }
    requires free { slice_index places.old.items (variable_of entry.literal) ≡ 0 }
    ensures entries { entries.new.items ≡ entries.old.items ++ entry ∷ [] }
    ensures placed { IsPlaced (variables entries.new.items) places.new.items }
    ensures room { vec_capacity entries.old ≤ vec_capacity entries.new }
    ensures len { vec_len places.new ≡ vec_len places.old }
{
    let variable = entry.literal.variable() as usize;
    entries.push_reserved(entry);
    let place = entries.len() as u32;
    places[variable] = place;
}

/// Takes back the entries from a place on.
pub fn keep_first(
    entries: &mut Vec<Entry>,
    places: &mut Vec<u32>,
    values: &mut Vec<Value>,
    len: usize,
)
    requires placed { IsPlaced (variables entries.old.items) places.old.items }
    requires values { AreLiteralValues (literals entries.old.items) values.old.items }
    requires both { vec_len values.old ≡ 2 * vec_len places.old }
    requires len { len ≤ vec_len entries.old }
    ensures entries { entries.new.items ≡ take len entries.old.items }
    ensures placed { IsPlaced (variables entries.new.items) places.new.items }
    ensures values { AreLiteralValues (literals entries.new.items) values.new.items }
    ensures room { vec_capacity entries.old ≤ vec_capacity entries.new }
    ensures len { vec_len places.new ≡ vec_len places.old }
    ensures both { vec_len values.new ≡ vec_len values.old }
{
    while entries.len() > len {
        if let Some(entry) = entries.pop() {
            let variable = entry.literal.variable() as usize;
            places[variable] = 0;
            set_free(values, entry.literal);
        }
    }
}

/// The entry of a variable that has a value.
pub fn entry_of(entries: &[Entry], places: &[u32], variable: u32) -> Entry
    requires placed { IsPlaced (variables entries.now) places.now }
    requires assigned { Contains (variables entries.now) variable }
    ensures { (e : Entry) → Contains entries.now e → variable_of e.literal ≡ variable → result ≡ e }
{
    let place = places[variable as usize];
    entries[place as usize - 1]
}

/// The place of a variable that has a value.
pub fn place_of(entries: &[Entry], places: &[u32], variable: u32) -> u32
    requires placed { IsPlaced (variables entries.now) places.now }
    requires assigned { Contains (variables entries.now) variable }
    ensures within { result < length entries.now }
    ensures at { slice_index (variables entries.now) result ≡ variable }
{
    let _len = entries.len();
    places[variable as usize] - 1
}
