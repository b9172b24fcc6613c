//! Rows in which one value is another.

ghost use Rattle.std.specs.Prelude.{◌≡◌, ◌<◌, [], IfOk, length, slice_index_or, slice_set};

use crate::values::Values;
use am_domain::Fields;
use std::alloc::{AllocError, Global};
use std::marker::Model;

/// A value that a variable gets.
#[derive(Drop)]
struct Change {
    variable: u32,
    value: Fields,
}

/// A row in which one value may be another. Contracts see the row with that value.
#[derive(Drop)]
pub struct Stepped<'a> {
    row: &'a Values,
    change: Option<Change>,
}

impl<'a> Model for Stepped<'a> {
    ghost use Rattle.std.specs.Prelude.{List, ℕ};

    ghost Value = { List (List ℕ) };

    ghost use Rattle.am_flow.specs.inside.Changes.{IsChange, changed};

    ghost view = { λ s. changed s.row.now s.change };

    ghost invariant = { λ s. IsChange s.row.now s.change };
}

impl<'a> Stepped<'a> {
    /// The row as it is.
    pub fn same(row: &'a Values) -> Stepped<'a>
        ensures { result ≡ row.now }
    {
        Stepped { row, change: None }
    }

    /// The row with another value of a variable.
    pub fn changed(row: &'a Values, variable: u32, value: Fields) -> Stepped<'a>
        requires { variable < length row.now }
        ensures { result ≡ slice_set row.now variable value }
    {
        Stepped {
            row,
            change: Some(Change { variable, value }),
        }
    }

    /// The value of a variable.
    pub fn get(&self, variable: usize) -> &Fields
        requires { variable < length self.now }
        ensures { result.now ≡ slice_index_or self.now variable [] }
    {
        match &self.change {
            Some(change) if change.variable as usize == variable => &change.value,
            _ => self.row.get(variable),
        }
    }

    /// A row of its own.
    pub fn copy(&self, alloc: Global) -> Result<Values, AllocError>
        ensures { IfOk result (λ row. row ≡ self.now) }
    {
        let mut row = self.row.copy(alloc)?;
        if let Some(change) = &self.change {
            row.put(change.variable as usize, change.value.copy());
        }
        Ok(row)
    }
}
