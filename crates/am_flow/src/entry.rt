//! What is known at the nodes of a flow.

ghost use Rattle.std.specs.Prelude.{◌≡◌, ◌↔◌, IfOk, IsTrue, Some};
ghost use Rattle.am_flow.specs.States.{joined_entries, joined_rows};
ghost use Rattle.am_flow.specs.inside.Rows.{IsFlowEntry, IsFlowRow};

use crate::flow::Flow;
use crate::stepped::Stepped;
use crate::values::Values;
use am_domain::Domain;
use std::alloc::{AllocError, Global};

/// What is known at a node: a value for each variable, or that nothing gets there.
pub type Entry = Option<Values>;

/// The same entry.
fn copied_entry(alloc: Global, entry: &Entry) -> Result<Entry, AllocError>
    ensures { IfOk result (λ e. e ≡ entry.now) }
{
    match entry {
        None => Ok(None),
        Some(row) => Ok(Some(row.copy(alloc)?)),
    }
}

/// The same entries.
pub fn copied(alloc: Global, entries: &[Entry]) -> Result<Vec<Entry>, AllocError>
    ensures { IfOk result (λ copies. copies.items ≡ entries.now) }
{
    let mut copies = Vec::with_capacity(alloc, entries.len())?;
    'copies: for entry in entries {
        copies.push(copied_entry(alloc, entry)?)?;
    }
    Ok(copies)
}

/// Whether both entries are the same.
fn is_same(entry: &Entry, other: &Entry) -> bool
    ensures { IsTrue result ↔ (entry.now ≡ other.now) }
{
    match (entry, other) {
        (None, None) => true,
        (Some(row), Some(other)) => row.equals(other),
        _ => false,
    }
}

/// Whether both lists have the same entries.
pub fn are_same(entries: &[Entry], others: &[Entry]) -> bool
    ensures { IsTrue result ↔ (entries.now ≡ others.now) }
{
    if entries.len() != others.len() {
        return false;
    }
    'entries: for (i, entry) in entries.iter().enumerate() {
        if !is_same(entry, &others[i]) {
            return false;
        }
    }
    true
}

/// A row that joins the values of both, variable by variable.
fn joined_rows(flow: &Flow, row: Values, other: &Stepped<'_>) -> Values
    requires row { IsFlowRow flow.now row }
    requires other { IsFlowRow flow.now other.now }
    ensures { result ≡ joined_rows flow.now row other.now }
{
    let (w, kind) = (flow.width(), flow.kind());
    let mut joined = row;
    'variables: for i in 0..joined.len() {
        let value = kind.join(w, joined.get(i), other.get(i));
        joined.put(i, value);
    }
    joined
}

/// A row that joins an entry with another row.
pub fn joined(
    alloc: Global,
    flow: &Flow,
    entry: Entry,
    other: &Stepped<'_>,
) -> Result<Values, AllocError>
    requires entry { IsFlowEntry flow.now entry }
    requires other { IsFlowRow flow.now other.now }
    ensures { IfOk result (λ row. Some row ≡ joined_entries flow.now entry (Some other.now)) }
{
    match entry {
        None => other.copy(alloc),
        Some(row) => Ok(joined_rows(flow, row, other)),
    }
}
