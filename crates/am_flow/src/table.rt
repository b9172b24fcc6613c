//! Tables: what an analysis found.

ghost use Rattle.std.specs.Prelude.{◌≡◌, ◌↔◌, [], IsTrue, length};
ghost use Rattle.std.specs.Option.{option_copied};
ghost use Rattle.am_flow.specs.States.{entry_at};

use crate::entry::Entry;
use crate::values::Values;
use std::marker::Model;

/// What an analysis found at each node. Contracts see the list of the entries.
#[derive(Drop)]
pub struct Table {
    pub(crate) entries: Vec<Entry>,
}

impl Model for Table {
    ghost use Rattle.am_flow.specs.States.{State};

    ghost Value = { State };

    ghost view = { λ t. t.entries.items };
}

impl Table {
    /// How many nodes there are.
    pub fn len(&self) -> usize
        ensures { result ≡ length self.now }
    {
        self.entries.len()
    }

    /// Whether there are no nodes.
    pub fn is_empty(&self) -> bool
        ensures { IsTrue result ↔ (self.now ≡ []) }
    {
        self.entries.is_empty()
    }

    /// A value for each variable at a node, or `None` where nothing gets there, or where there is no such node.
    pub fn get(&self, node: usize) -> Option<&Values>
        ensures { option_copied result ≡ entry_at self.now node }
    {
        self.entries.get(node)?.as_ref()
    }

    /// The entries of all nodes, in order.
    pub(crate) fn as_slice(&self) -> &[Entry]
        ensures { result.now ≡ self.now }
    {
        self.entries.as_slice()
    }
}
