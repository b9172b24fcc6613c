//! The operators of terms.

ghost use Rattle.std.specs.Prelude.{◌≡◌, ◌≤◌};
ghost use Rattle.am_bv.specs.Operators.{arity, weight_of};

use crate::width::Width;

/// The operators. They are those of SMT-LIB's fixed-size bit-vectors and have their names without
/// the prefix `bv`; `Eq` is its `=`, and `Ite` its `ite`. The names `Umin`, `Umax`, `Smin` and
/// `Smax` are ours. All arguments and the value are words of one width: a comparison answers the
/// word 1 where it holds and 0 where it doesn't, and `Ite` asks whether a word isn't 0.
#[derive(Clone, Copy, PartialEq, Eq, Debug)]
pub enum Op {
    /// The complement of each bit.
    Not,
    /// 0 minus the argument, modulo 2^w.
    Neg,
    /// Both, bit by bit.
    And,
    /// At least one, bit by bit.
    Or,
    /// Exactly one, bit by bit.
    Xor,
    /// The sum modulo 2^w.
    Add,
    /// The difference modulo 2^w.
    Sub,
    /// The product modulo 2^w.
    Mul,
    /// The unsigned quotient; by 0 it is the greatest word.
    Udiv,
    /// The unsigned remainder; by 0 it is the dividend.
    Urem,
    /// The first shifted left by the second; by w or more the value is 0.
    Shl,
    /// The first shifted right by the second, with zeros moved in.
    Lshr,
    /// The first shifted right by the second, with copies of its top bit moved in.
    Ashr,
    /// Whether both are equal.
    Eq,
    /// Whether the first is less, unsigned.
    Ult,
    /// Whether the first is at most the second, unsigned.
    Ule,
    /// Whether the first is less, signed.
    Slt,
    /// Whether the first is at most the second, signed.
    Sle,
    /// The lesser, unsigned.
    Umin,
    /// The greater, unsigned.
    Umax,
    /// The lesser, signed.
    Smin,
    /// The greater, signed.
    Smax,
    /// The second where the first isn't 0, else the third.
    Ite,
}

impl Op {
    /// All operators, each of them once.
    pub const ALL: [Op; 23] = [
        Op::Not,
        Op::Neg,
        Op::And,
        Op::Or,
        Op::Xor,
        Op::Add,
        Op::Sub,
        Op::Mul,
        Op::Udiv,
        Op::Urem,
        Op::Shl,
        Op::Lshr,
        Op::Ashr,
        Op::Eq,
        Op::Ult,
        Op::Ule,
        Op::Slt,
        Op::Sle,
        Op::Umin,
        Op::Umax,
        Op::Smin,
        Op::Smax,
        Op::Ite,
    ];

    /// The number of arguments that it takes.
    pub fn arity(self) -> u32
        ensures value { result ≡ arity self }
        ensures most { result ≤ 3 }
    {
        match self {
            Op::Not | Op::Neg => 1,
            Op::And | Op::Or | Op::Xor => 2,
            Op::Add | Op::Sub | Op::Mul | Op::Udiv | Op::Urem => 2,
            Op::Shl | Op::Lshr | Op::Ashr => 2,
            Op::Eq | Op::Ult | Op::Ule | Op::Slt | Op::Sle => 2,
            Op::Umin | Op::Umax | Op::Smin | Op::Smax => 2,
            Op::Ite => 3,
        }
    }

    /// The number of gates in its circuit over words of this width.
    pub fn weight(self, w: Width) -> u64
        ensures value { result ≡ weight_of w self }
        ensures most { result ≤ 288 }
    {
        let bits = u64::from(w.bits());
        match self {
            Op::Not => 0,
            Op::And | Op::Or | Op::Xor => bits,
            Op::Mul => bits * (bits + 1) / 2 + 3 * bits * bits,
            Op::Udiv | Op::Urem => 4 * bits * (bits + 1),
            Op::Shl | Op::Lshr | Op::Ashr => bits * bits,
            Op::Eq | Op::Ite => 2 * bits,
            Op::Umin | Op::Umax | Op::Smin | Op::Smax => 4 * bits,
            Op::Neg | Op::Add | Op::Sub | Op::Ult | Op::Ule | Op::Slt | Op::Sle => 3 * bits,
        }
    }
}
