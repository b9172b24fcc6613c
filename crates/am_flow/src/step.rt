//! The steps of edges: what comes of a row of abstract values.

ghost use Rattle.std.specs.Prelude.{◌≡◌, ◌≤◌, ◌<◌, All, Some, [], flat_map, length, slice_index_or};
ghost use Rattle.am_flow.specs.Flows.{AreOperations};
ghost use Rattle.am_flow.specs.States.{applied, at, edge_step, stepped};
ghost use Rattle.am_flow.specs.Stored.{seen_operation, seen_operations};
ghost use Rattle.am_flow.specs.inside.Rows.{IsFlowRow, IsState};
ghost use Rattle.am_flow.specs.inside.Steps.{CanAct, CanApply, CanFollowEdge};

use crate::entry::Entry;
use crate::flow::{Action, Edge, Flow};
use crate::operation::Operation;
use crate::stepped::Stepped;
use crate::values::Values;
use am_domain::{Domain, Fields};
use am_problem::Inputs;

/// The step of an edge, or `None` where nothing gets along it.
pub fn edge_step<'a>(
    flow: &Flow,
    operations: &[Operation<'_>],
    state: &'a [Entry],
    edge: &Edge,
) -> Option<Stepped<'a>>
    requires operations { AreOperations flow.now (seen_operations operations.now) }
    requires state { IsState flow.now state.now }
    requires edge { CanFollowEdge flow.now (seen_operations operations.now) edge.now }
    ensures { result ≡ edge_step flow.now (seen_operations operations.now) state.now edge.now }
{
    match &state[edge.from as usize] {
        None => None,
        Some(row) => step(flow, operations, &edge.action, row),
    }
}

/// What an action makes of a row, or `None` where nothing gets on.
fn step<'a>(
    flow: &Flow,
    operations: &[Operation<'_>],
    action: &Action,
    row: &'a Values,
) -> Option<Stepped<'a>>
    requires operations { AreOperations flow.now (seen_operations operations.now) }
    requires row { IsFlowRow flow.now row.now }
    requires action { CanAct flow.now (seen_operations operations.now) action.now }
    ensures { result ≡ stepped flow.now (seen_operations operations.now) action.now row.now }
{
    let (w, kind) = (flow.width(), flow.kind());
    match action {
        Action::Skip => Some(Stepped::same(row)),
        Action::Any(a) => Some(Stepped::changed(row, *a, kind.top(w))),
        Action::Set(a, c) => Some(Stepped::changed(row, *a, kind.of_word(w, *c))),
        Action::Copy(a, b) => Some(Stepped::changed(row, *a, row.get(*b as usize).copy())),
        Action::Apply {
            operation,
            to,
            from,
        } => {
            let operation = &operations[*operation as usize];
            let value = applied(flow, operation, row, from.as_slice())?;
            Some(Stepped::changed(row, *to, value))
        }
    }
}

/// The tidied result of an operation's transformer at the values of some variables, or `None` where it has no member.
fn applied(flow: &Flow, operation: &Operation<'_>, row: &Values, from: &[u32]) -> Option<Fields>
    requires row { IsFlowRow flow.now row.now }
    requires operation { CanApply flow.now (seen_operation operation.now) from.now }
    ensures { result ≡ applied flow.now (Some (seen_operation operation.now)) (at [] row.now from.now) }
{
    let inputs = inputs_at(row, from);
    let raw = operation.problem.result(operation.transformer, &inputs);
    flow.kind().tidy(flow.width(), &raw)
}

/// The fields of the values of some variables, one after another.
fn inputs_at(row: &Values, from: &[u32]) -> Inputs
    requires places { All (λ b. b < length row.now) from.now }
    requires few { length (flat_map (λ b. slice_index_or row.now b []) from.now) ≤ 12 }
    ensures { result ≡ flat_map (λ b. slice_index_or row.now b []) from.now }
{
    let mut inputs = Inputs::new();
    'variables: for variable in from {
        inputs.extend(row.get(*variable as usize).as_slice());
    }
    inputs
}
