//! The edges of a flow, as text.

ghost use Rattle.am_syntax.specs.Readers.{Makes};
ghost use Rattle.am_flow.specs.Grammar.{edge, edge_line, edges};
ghost use Rattle.am_flow.specs.inside.Shapes.{IsFlowShape, seen_shape};

use crate::actions::read_action;
use crate::flow::{Edge, Edges};
use crate::limits::MOST_EDGES;
use crate::shape::{Shape, take_index};
use am_syntax::{Cause, Failure, Item, Listed, is_next, read_list, refuse_next, take_key};
use am_text::Cursor;
use std::alloc::Global;

/// `edge`, two nodes and an action.
#[tactic(auto, unfolding(crate::specs::Grammar::edge_line))]
fn read_edge_line(alloc: Global, text: &mut Cursor<'_>, shape: &Shape) -> Result<Edge, Failure>
    requires { IsFlowShape (seen_shape shape.now) }
    ensures { Makes (λ e. e) result text.old text.new (edge_line (seen_shape shape.now)).read }
{
    take_key(text, b"edge")?;
    let from = take_index(text, shape.nodes)?;
    let to = take_index(text, shape.nodes)?;
    let action = read_action(alloc, text, shape)?;
    Ok(Edge { from, to, action })
}

/// An edge after others, of which there may be one more.
#[tactic(auto, unfolding(crate::specs::Grammar::edge))]
fn read_edge(
    alloc: Global,
    text: &mut Cursor<'_>,
    shape: &Shape,
    seen: &[Edge],
) -> Result<Edge, Failure>
    requires { IsFlowShape (seen_shape shape.now) }
    ensures { Makes (λ e. e) result text.old text.new (edge (seen_shape shape.now) seen.now).read }
{
    if seen.len() < MOST_EDGES {
        read_edge_line(alloc, text, shape)
    } else {
        refuse_next(text, Cause::Count)?;
        unreachable!()
    }
}

/// The edges of a flow, line by line.
#[derive(Clone, Copy)]
struct EdgeLines {
    shape: Shape,
}

impl<'a> Item<'a> for EdgeLines {
    ghost use Rattle.am_flow.specs.declared.flow.Edge.{Edge as Data};
    ghost use Rattle.am_flow.specs.Grammar.{edge};
    ghost use Rattle.am_flow.specs.inside.Shapes.{IsFlowShape, seen_shape};

    type Value = Edge;

    ghost Shown = { Data };

    ghost view = { λ e. e };

    ghost reads = { λ own seen. (edge (seen_shape own.shape) seen).read };

    ghost can = { λ own. IsFlowShape (seen_shape own.shape) };

    fn read(&self, alloc: Global, text: &mut Cursor<'a>, seen: &[Edge]) -> Result<Edge, Failure> {
        read_edge(alloc, text, &self.shape, seen)
    }
}

impl<'a> Listed<'a> for EdgeLines {
    ghost use Rattle.std.specs.Prelude.{codes};
    ghost use Rattle.am_syntax.specs.Pieces.{next_is};

    ghost goes = { next_is (codes "edge") };

    fn comes(&self, text: &Cursor<'a>) -> bool {
        is_next(text, b"edge")
    }
}

/// The edges.
#[tactic(auto, unfolding(crate::specs::Grammar::edges))]
pub fn read_edges(alloc: Global, text: &mut Cursor<'_>, shape: &Shape) -> Result<Edges, Failure>
    requires { IsFlowShape (seen_shape shape.now) }
    ensures { Makes (λ es. es) result text.old text.new (edges (seen_shape shape.now)).read }
{
    read_list(alloc, text, &EdgeLines { shape: *shape })
}
