//! The text of a flow.

ghost use Rattle.std.specs.Prelude.{IfOk};
ghost use Rattle.am_syntax.specs.Readers.{Makes};
ghost use Rattle.am_syntax.specs.Texts.{MakesAt};
ghost use Rattle.am_flow.specs.Flows.{IsFlow};
ghost use Rattle.am_flow.specs.Grammar.{flow};

use crate::edges::read_edges;
use crate::flow::Flow;
use crate::limits::{MOST_NODES, MOST_VARIABLES};
use crate::shape::Shape;
use am_problem::take_keyed_domain;
use am_syntax::{Failure, ReadError, follow, placed, take_key, take_keyed_number, take_width};
use am_text::Cursor;
use std::alloc::Global;

/// A flow, up to its `end`.
#[tactic(auto, unfolding(crate::specs::Grammar::flow))]
fn read_flow(alloc: Global, text: &mut Cursor<'_>, operations: u32) -> Result<Flow, Failure>
    ensures value { Makes (λ f. f) result text.old text.new (flow operations).read }
    ensures limits { IfOk result (IsFlow operations) }
{
    take_keyed_number(text, b"flow", 1, 1)?;
    let width = take_width(text)?;
    let kind = take_keyed_domain(text)?;
    let variables = take_keyed_number(text, b"variables", 1, u64::from(MOST_VARIABLES))? as u32;
    let nodes = take_keyed_number(text, b"nodes", 1, u64::from(MOST_NODES))? as u32;
    let shape = Shape {
        width,
        operations,
        variables,
        nodes,
    };
    let edges = read_edges(alloc, text, &shape)?;
    take_key(text, b"end")?;
    Ok(Flow {
        width,
        kind,
        variables,
        nodes,
        edges,
    })
}

/// Reads a flow up to its `end`, over so many operations, in the middle of a text.
///
/// # Errors
///
/// `Refused`: the first token that no flow has here. The cursor stands at it. `NoMemory`: the cursor stays.
pub fn flow_at(alloc: Global, c: &mut Cursor<'_>, operations: u32) -> Result<Flow, ReadError>
    ensures value { MakesAt (λ f. f) result c.old c.new (flow operations).read }
    ensures limits { IfOk result (IsFlow operations) }
{
    let mut ahead = c.fork();
    let read = read_flow(alloc, &mut ahead, operations);
    let flow = follow(c, ahead, read);
    placed(flow, &*c)
}
