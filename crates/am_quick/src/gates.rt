//! Gates, and a table of them by their inputs.

use crate::rows::{NONE, at, put, short};
use std::alloc::{AllocError, Global};

/// What a gate computes of its inputs.
#[derive(Clone, Copy, PartialEq, Eq)]
pub enum Kind {
    /// Whether the first two hold.
    And,
    /// Whether one of the first two holds and not the other one.
    Xor,
    /// Where the first holds, the second, else the third.
    Mux,
}

/// A literal that equals a function of literals.
#[derive(Clone, Copy)]
pub struct Gate {
    pub output: u32,
    pub kind: Kind,
    pub inputs: [u32; 3],
}

impl Gate {
    /// The conjunction of two literals.
    pub fn and(output: u32, a: u32, b: u32) -> Gate {
        Gate {
            output,
            kind: Kind::And,
            inputs: [a.min(b), a.max(b), NONE],
        }
    }

    /// The parity of two variables, or its opposite where `negated` is 1.
    pub fn xor(output: u32, v: u32, w: u32, negated: u32) -> Gate {
        Gate {
            output: output ^ negated,
            kind: Kind::Xor,
            inputs: [v.min(w).wrapping_mul(2), v.max(w).wrapping_mul(2), NONE],
        }
    }

    /// The choice between two literals by a third one, with a positive second input.
    pub fn mux(output: u32, chooser: u32, yes: u32, no: u32) -> Gate {
        let negated = yes & 1;
        Gate {
            output: output ^ negated,
            kind: Kind::Mux,
            inputs: [chooser, yes ^ negated, no ^ negated],
        }
    }

    /// Whether two gates compute the same.
    fn is_like(&self, other: &Gate) -> bool {
        self.kind == other.kind
            && self.inputs[0] == other.inputs[0]
            && self.inputs[1] == other.inputs[1]
            && self.inputs[2] == other.inputs[2]
    }

    /// A number that gates which compute the same share.
    fn hash(&self) -> u64 {
        let mut hash = self.inputs[0] as u64;
        hash = hash
            .wrapping_mul(0x9e37_79b9)
            .wrapping_add(self.inputs[1] as u64);
        hash = hash
            .wrapping_mul(0x9e37_79b9)
            .wrapping_add(self.inputs[2] as u64);
        hash.wrapping_mul(0x9e37_79b9) >> 8
    }
}

/// A table of gates. Those of one hash stand in a list.
#[derive(Drop)]
pub struct Gates {
    heads: Vec<u32>,
    nexts: Vec<u32>,
    gates: Vec<Gate>,
}

impl Gates {
    pub fn new(alloc: Global, vars: usize) -> Result<Gates, AllocError> {
        Ok(Gates {
            heads: vec![in alloc; NONE; vars.saturating_add(1)]?,
            nexts: Vec::new(alloc),
            gates: Vec::new(alloc),
        })
    }

    /// The place of a gate's list.
    fn place(&self, gate: &Gate) -> usize {
        let len = self.heads.len() as u64;
        if len == 0 {
            return 0;
        }
        (gate.hash() % len) as usize
    }

    /// The output of the gate at a place of the table, if it computes the same as another one.
    fn output_at(&self, i: usize, gate: &Gate) -> Option<u32> {
        if i < self.gates.len() && self.gates[i].is_like(gate) {
            Some(self.gates[i].output)
        } else {
            None
        }
    }

    /// The output of a gate that computes the same, or `NONE`.
    pub fn find(&self, gate: &Gate) -> u32 {
        let mut i = at(self.heads.as_slice(), self.place(gate));
        for _ in 0..self.gates.len() {
            if i == NONE {
                break;
            }
            if let Some(output) = self.output_at(i as usize, gate) {
                return output;
            }
            i = at(self.nexts.as_slice(), i as usize);
        }
        NONE
    }

    /// Adds a gate.
    pub fn push(&mut self, gate: Gate) -> Result<(), AllocError> {
        let place = self.place(&gate);
        let i = short(self.gates.len());
        self.nexts.push(at(self.heads.as_slice(), place))?;
        self.gates.push(gate)?;
        put(self.heads.as_mut_slice(), place, i);
        Ok(())
    }
}
