//! The analysis of a flow.

ghost use Rattle.std.specs.Prelude.{IfOk};
ghost use Rattle.am_flow.specs.Flows.{AreOperations};
ghost use Rattle.am_flow.specs.States.{IsTable};
ghost use Rattle.am_flow.specs.Stored.{seen_operations};

use crate::entry::are_same;
use crate::flow::Flow;
use crate::operation::Operation;
use crate::round::{first_state, round};
use crate::table::Table;
use std::alloc::{AllocError, Global};

/// The table of a flow: the first state of its analysis that equals the next one.
///
/// # Errors
///
/// There was no memory.
pub fn analyse(
    alloc: Global,
    flow: &Flow,
    operations: &[Operation<'_>],
) -> Result<Table, AllocError>
    requires { AreOperations flow.now (seen_operations operations.now) }
    ensures { IfOk result (IsTable flow.now (seen_operations operations.now)) }
{
    let mut state = first_state(alloc, flow, operations)?;
    'rounds: loop {
        let next = round(alloc, flow, operations, state.as_slice())?;
        if are_same(next.as_slice(), state.as_slice()) {
            return Ok(Table { entries: state });
        }
        state = next;
    }
}
