//! Rows of abstract values.

ghost use Rattle.std.specs.Prelude.{◌≡◌, ◌<◌, ◌↔◌, [], IfOk, IsTrue, length, replicate, slice_index_or, slice_set};

use am_domain::Fields;
use std::alloc::{AllocError, Global};
use std::marker::Model;

/// An abstract value for each variable. Contracts see the list of the values.
#[derive(Drop)]
pub struct Values {
    values: Vec<Fields>,
}

impl Model for Values {
    ghost use Rattle.std.specs.Prelude.{List, ℕ};

    ghost Value = { List (List ℕ) };

    ghost view = { λ row. row.values.items };
}

impl Values {
    /// The same value for each of so many variables.
    pub(crate) fn repeated(alloc: Global, value: &Fields, count: u32) -> Result<Values, AllocError>
        ensures { IfOk result (λ row. row ≡ replicate count value.now) }
    {
        let values = repeated(alloc, value, count)?;
        Ok(Values { values })
    }

    /// The same values.
    pub(crate) fn copy(&self, alloc: Global) -> Result<Values, AllocError>
        ensures { IfOk result (λ row. row ≡ self.now) }
    {
        let values = copied(alloc, self.as_slice())?;
        Ok(Values { values })
    }

    /// The number of variables.
    pub fn len(&self) -> usize
        ensures { result ≡ length self.now }
    {
        self.values.len()
    }

    /// Whether there are no variables.
    pub fn is_empty(&self) -> bool
        ensures { IsTrue result ↔ (self.now ≡ []) }
    {
        self.values.is_empty()
    }

    /// The value of a variable.
    pub fn get(&self, variable: usize) -> &Fields
        requires { variable < length self.now }
        ensures { result.now ≡ slice_index_or self.now variable [] }
    {
        &self.values[variable]
    }

    /// The values, in order.
    pub fn as_slice(&self) -> &[Fields]
        ensures { result.now ≡ self.now }
    {
        self.values.as_slice()
    }

    /// Gives a variable another value.
    pub(crate) fn put(&mut self, variable: usize, value: Fields)
        requires { variable < length self.old }
        ensures { self.new ≡ slice_set self.old variable value }
    {
        self.values[variable] = value;
    }

    /// Whether both have the same values.
    pub fn equals(&self, other: &Values) -> bool
        ensures { IsTrue result ↔ (self.now ≡ other.now) }
    {
        are_equal(self.as_slice(), other.as_slice())
    }
}

/// So many copies of a value.
fn repeated(alloc: Global, value: &Fields, count: u32) -> Result<Vec<Fields>, AllocError>
    ensures { IfOk result (λ copies. copies.items ≡ replicate count value.now) }
{
    let mut copies = Vec::with_capacity(alloc, count as usize)?;
    'copies: for _ in 0..count {
        copies.push(value.copy())?;
    }
    Ok(copies)
}

/// The same values.
fn copied(alloc: Global, values: &[Fields]) -> Result<Vec<Fields>, AllocError>
    ensures { IfOk result (λ copies. copies.items ≡ values.now) }
{
    let mut copies = Vec::with_capacity(alloc, values.len())?;
    'copies: for value in values {
        copies.push(value.copy())?;
    }
    Ok(copies)
}

/// Whether both lists have the same values.
fn are_equal(values: &[Fields], others: &[Fields]) -> bool
    ensures { IsTrue result ↔ (values.now ≡ others.now) }
{
    if values.len() != others.len() {
        return false;
    }
    'values: for (i, value) in values.iter().enumerate() {
        if !value.equals(&others[i]) {
            return false;
        }
    }
    true
}
