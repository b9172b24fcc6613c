//! The limits of problems, certificates and flows, as the language states them.

use am_all::{MOST_BITS, MOST_TUPLES};
use am_cert::{MOST_BYTES, MOST_NESTING, MOST_TERM_NODES};
use am_flow::{MOST_EDGES, MOST_NODES as MOST_FLOW_NODES, MOST_VARIABLES};
use am_problem::{
    LAST_PROBLEM, MOST_CONFLICTS, MOST_INPUTS, MOST_LOAD, MOST_NODES, MOST_SLOTS, MOST_TURNS,
};
use am_tree::{MOST_DEPTH, MOST_LEAF_NODES, MOST_PRODUCTIONS, MOST_RULES, MOST_STARTS};

const _: () = prove!(MOST_RULES == 16 && MOST_PRODUCTIONS == 64 && MOST_STARTS == 4);

const _: () = prove!(MOST_DEPTH == 5 && MOST_LEAF_NODES == 64);

const _: () = prove!(MOST_INPUTS == 3 && MOST_NODES == 64);

const _: () = prove!(MOST_TURNS == 4096 && MOST_CONFLICTS == 1_000_000);

const _: () = prove!(MOST_SLOTS == 256 && MOST_LOAD == 16_777_216);

const _: () = prove!(LAST_PROBLEM == 999_999);

const _: () = prove!(MOST_BITS == 16 && MOST_TUPLES == 4096);

const _: () = prove!(MOST_TERM_NODES == 16_384 && MOST_NESTING == 128);

const _: () = prove!(MOST_BYTES == 67_108_864);

const _: () = prove!(MOST_VARIABLES == 8 && MOST_FLOW_NODES == 64 && MOST_EDGES == 256);
