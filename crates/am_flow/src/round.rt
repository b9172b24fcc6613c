//! Rounds, in which the steps of all edges are joined.

ghost use Rattle.std.specs.Prelude.{◌≡◌, IfOk, OnOk};
ghost use Rattle.am_flow.specs.Flows.{AreOperations};
ghost use Rattle.am_flow.specs.States.{first_state, round};
ghost use Rattle.am_flow.specs.Stored.{seen_operations};
ghost use Rattle.am_flow.specs.inside.Rows.{IsState};
ghost use Rattle.am_flow.specs.inside.Steps.{CanFollowEdge, JoinsStep};

use crate::entry::{Entry, copied, joined};
use crate::flow::{Edge, Flow};
use crate::operation::Operation;
use crate::step::edge_step;
use crate::values::Values;
use am_domain::Domain;
use std::alloc::{AllocError, Global};

/// The first state: all words are possible at node 0, and nothing gets to the others.
pub fn first_state(
    alloc: Global,
    flow: &Flow,
    operations: &[Operation<'_>],
) -> Result<Vec<Entry>, AllocError>
    requires { AreOperations flow.now (seen_operations operations.now) }
    ensures { IfOk result (λ state. state.items ≡ first_state flow.now) }
{
    let top = flow.kind().top(flow.width());
    let mut state = Vec::with_capacity(alloc, flow.nodes() as usize)?;
    state.push(Some(Values::repeated(alloc, &top, flow.variables())?))?;
    'others: for _ in 1..flow.nodes() {
        state.push(None)?;
    }
    Ok(state)
}

/// Joins the step of an edge, taken from one state, into another.
fn join_step(
    alloc: Global,
    flow: &Flow,
    operations: &[Operation<'_>],
    before: &[Entry],
    after: &mut [Entry],
    edge: &Edge,
) -> Result<(), AllocError>
    requires operations { AreOperations flow.now (seen_operations operations.now) }
    requires before { IsState flow.now before.now }
    requires after { IsState flow.now after.old }
    requires edge { CanFollowEdge flow.now (seen_operations operations.now) edge.now }
    ensures { OnOk result
        (JoinsStep flow.now (seen_operations operations.now) before.now edge.now after.old after.new) }
{
    if let Some(step) = edge_step(flow, operations, before, edge) {
        let to = edge.to as usize;
        let entry = after[to].take();
        after[to] = Some(joined(alloc, flow, entry, &step)?);
    }
    Ok(())
}

/// The state after a round, in which all steps are taken from the state before it.
pub fn round(
    alloc: Global,
    flow: &Flow,
    operations: &[Operation<'_>],
    before: &[Entry],
) -> Result<Vec<Entry>, AllocError>
    requires operations { AreOperations flow.now (seen_operations operations.now) }
    requires before { IsState flow.now before.now }
    ensures { IfOk result (λ after. after.items ≡ round flow.now (seen_operations operations.now) before.now) }
{
    let mut after = copied(alloc, before)?;
    let edges = flow.edges();
    'edges: for edge in edges {
        join_step(alloc, flow, operations, before, after.as_mut_slice(), edge)?;
    }
    Ok(after)
}
