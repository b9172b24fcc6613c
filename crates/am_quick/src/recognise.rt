//! Which gate the clauses of a definition make.

use crate::arena::Arena;
use crate::gates::Gate;
use crate::rows::NONE;

/// The literal of a variable in a clause, or `NONE`.
fn literal_of(lits: &[u32], v: u32) -> u32 {
    for l in lits {
        if *l / 2 == v {
            return *l;
        }
    }
    NONE
}

/// The first literal of a clause that is of neither variable, or `NONE`.
fn other_literal(lits: &[u32], v: u32, w: u32) -> u32 {
    for l in lits {
        if *l / 2 != v && *l / 2 != w {
            return *l;
        }
    }
    NONE
}

/// Whether each of some clauses has so many literals, one of them of a variable.
fn all_have(arena: &Arena, clauses: &[u32], size: usize, v: u32) -> bool {
    for clause in clauses {
        if arena.size(*clause) != size || literal_of(arena.lits(*clause), v) == NONE {
            return false;
        }
    }
    true
}

/// Whether one of some clauses has the literals `l` and `other` and no more.
fn has_pair(arena: &Arena, clauses: &[u32], l: u32, other: u32) -> bool {
    for clause in clauses {
        let lits = arena.lits(*clause);
        if lits.len() == 2 && lits.contains(&l) && lits.contains(&other) {
            return true;
        }
    }
    false
}

/// The conjunction that three clauses make of a variable or its opposite: the first has three literals.
fn and_of(arena: &Arena, clauses: &[u32], long: u32, v: u32) -> Option<Gate> {
    let lits = arena.lits(long);
    let output = literal_of(lits, v);
    let a = other_literal(lits, v, v);
    let b = other_literal(lits, v, a / 2);
    if output == NONE || a == NONE || b == NONE {
        return None;
    }
    let (a, b) = (a ^ 1, b ^ 1);
    if has_pair(arena, clauses, output ^ 1, a) && has_pair(arena, clauses, output ^ 1, b) {
        Some(Gate::and(output, a, b))
    } else {
        None
    }
}

/// The one of some clauses that has three literals, or `NONE`.
fn long_of(arena: &Arena, clauses: &[u32]) -> u32 {
    for clause in clauses {
        if arena.size(*clause) == 3 {
            return *clause;
        }
    }
    NONE
}

/// The parity that four clauses of three literals make of a variable, if they have two other variables.
fn xor_of(arena: &Arena, clauses: &[u32], first: u32, v: u32) -> Option<Gate> {
    let lits = arena.lits(first);
    let a = other_literal(lits, v, v);
    let b = other_literal(lits, v, a / 2);
    if !all_have(arena, clauses, 3, a / 2) || !all_have(arena, clauses, 3, b / 2) {
        return None;
    }
    let signs = (literal_of(lits, v) ^ a ^ b) & 1;
    Some(Gate::xor(v.wrapping_mul(2), a / 2, b / 2, signs ^ 1))
}

/// The other variable that stands in each of some clauses, or `NONE`.
fn chooser_of(arena: &Arena, clauses: &[u32], first: u32, v: u32) -> u32 {
    let a = other_literal(arena.lits(first), v, v) / 2;
    let b = other_literal(arena.lits(first), v, a) / 2;
    if all_have(arena, clauses, 3, a) {
        a
    } else if all_have(arena, clauses, 3, b) {
        b
    } else {
        NONE
    }
}

/// What a variable is where the chooser's literal is false in its clauses, or `NONE` where they don't agree.
fn chosen(arena: &Arena, clauses: &[u32], v: u32, chooser: u32) -> u32 {
    let mut input = NONE;
    let mut signs: u32 = 0;
    for clause in clauses {
        let lits = arena.lits(*clause);
        if literal_of(lits, chooser / 2) != chooser {
            continue;
        }
        let l = literal_of(lits, v);
        let own = other_literal(lits, v, chooser / 2) ^ ((l & 1) ^ 1);
        if input != NONE && own != input {
            return NONE;
        }
        input = own;
        signs |= 1 << (l & 1);
    }
    if signs == 3 { input } else { NONE }
}

/// The choice that four clauses of three literals make of a variable.
fn mux_of(arena: &Arena, clauses: &[u32], first: u32, v: u32) -> Option<Gate> {
    let w = chooser_of(arena, clauses, first, v);
    if w == NONE {
        return None;
    }
    let chooser = w.wrapping_mul(2);
    let yes = chosen(arena, clauses, v, chooser ^ 1);
    let no = chosen(arena, clauses, v, chooser);
    if yes == NONE || no == NONE {
        return None;
    }
    Some(Gate::mux(v.wrapping_mul(2), chooser, yes, no))
}

/// The gate that the clauses of a variable make of it.
pub fn gate_of(arena: &Arena, clauses: &[u32], v: u32) -> Option<Gate> {
    if clauses.len() == 3 {
        return and_of(arena, clauses, long_of(arena, clauses), v);
    }
    if clauses.len() != 4 || !all_have(arena, clauses, 3, v) {
        return None;
    }
    let first = long_of(arena, clauses);
    match xor_of(arena, clauses, first, v) {
        Some(gate) => Some(gate),
        None => mux_of(arena, clauses, first, v),
    }
}
