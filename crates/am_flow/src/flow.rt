//! Flows: small programs over words.

ghost use Rattle.std.specs.Prelude.{◌≡◌};

use am_bv::{Row, Width};
use am_problem::Kind;
use std::marker::Model;

/// Numbers of variables, from 0.
pub type Variables = Row<u32>;

/// What an edge does with the words of the variables.
#[derive(PartialEq, Debug, Drop)]
pub enum Action {
    /// Nothing.
    Skip,
    /// Gives the variable any word.
    Any(u32),
    /// Gives the variable this word.
    Set(u32, u8),
    /// Gives the first variable the word of the second.
    Copy(u32, u32),
    /// Gives a variable the value of an operation at the words of some variables. Where the operation has an
    /// assumption that fails there, the edge isn't followed.
    Apply {
        operation: u32,
        to: u32,
        from: Variables,
    },
}

/// An edge from one node to another. Nodes have the numbers from 0.
#[derive(PartialEq, Debug, Drop)]
pub struct Edge {
    pub from: u32,
    pub to: u32,
    pub action: Action,
}

/// Edges, in order.
pub type Edges = Row<Edge>;

/// A small program over words: nodes, variables that hold a word each, and edges between nodes. It is within the
/// limits, over some number of operations.
#[derive(Drop)]
pub struct Flow {
    pub(crate) width: Width,
    pub(crate) kind: Kind,
    pub(crate) variables: u32,
    pub(crate) nodes: u32,
    pub(crate) edges: Edges,
}

impl Model for Flow {
    ghost use Rattle.am_flow.specs.Flows.{Flow as Data};

    ghost Value = { Data };

    ghost use Rattle.am_flow.specs.Stored.{IsStoredFlow, seen};

    ghost view = { seen };

    ghost invariant = { IsStoredFlow };
}

impl Flow {
    /// The number of bits of a word.
    pub fn width(&self) -> Width
        ensures { result ≡ self.now.width }
    {
        self.width
    }

    /// The abstract domain.
    pub fn kind(&self) -> Kind
        ensures { result ≡ self.now.kind }
    {
        self.kind
    }

    /// How many variables there are, from 1 to 8.
    pub fn variables(&self) -> u32
        ensures { result ≡ self.now.variables }
    {
        self.variables
    }

    /// How many nodes there are, from 1 to 64.
    pub fn nodes(&self) -> u32
        ensures { result ≡ self.now.nodes }
    {
        self.nodes
    }

    /// The edges, in order.
    pub fn edges(&self) -> &[Edge]
        ensures { result.now ≡ self.now.edges }
    {
        self.edges.as_slice()
    }
}
