//! The operators at words.

ghost use Rattle.std.specs.Prelude.{◌≡◌, ◌-◌, ◌+◌, ◌%◌, ◌^◌, ◌<◌, ◌≤◌, length};
ghost use Rattle.am_bv.specs.Words.{AreWords, complement, one_if};
ghost use Rattle.am_bv.specs.Operators.{arity, apply, shl_of, lshr_of, ashr_of};

use crate::op::Op;
use crate::width::Width;

impl Op {
    /// The value at these words.
    pub fn apply(self, w: Width, args: &[u8]) -> u8
        requires count { length args.now ≡ arity self }
        requires words { AreWords w args.now }
        ensures value { result ≡ apply w self args.now }
        ensures word { result < 2 ^ w }
    {
        let mask = w.mask();
        match self {
            Op::Not => complement(w, args[0]),
            Op::Neg => w.difference(0, args[0]),
            Op::And => args[0] & args[1],
            Op::Or => args[0] | args[1],
            Op::Xor => args[0] ^ args[1],
            Op::Add => w.truncate(args[0].wrapping_add(args[1])),
            Op::Sub => w.difference(args[0], args[1]),
            Op::Mul => w.truncate(args[0].wrapping_mul(args[1])),
            Op::Udiv => args[0].checked_div(args[1]).unwrap_or(mask),
            Op::Urem => args[0].checked_rem(args[1]).unwrap_or(args[0]),
            Op::Shl => shift_left(w, args[0], args[1]),
            Op::Lshr => shift_right(w, args[0], args[1]),
            Op::Ashr => shift_right_signed(w, args[0], args[1]),
            Op::Eq => truth(args[0] == args[1]),
            Op::Ult => truth(args[0] < args[1]),
            Op::Ule => truth(args[0] <= args[1]),
            Op::Slt => truth(w.signed(args[0]) < w.signed(args[1])),
            Op::Sle => truth(w.signed(args[0]) <= w.signed(args[1])),
            Op::Umin => args[0].min(args[1]),
            Op::Umax => args[0].max(args[1]),
            Op::Smin => {
                if w.signed(args[0]) < w.signed(args[1]) {
                    args[0]
                } else {
                    args[1]
                }
            }
            Op::Smax => {
                if w.signed(args[0]) < w.signed(args[1]) {
                    args[1]
                } else {
                    args[0]
                }
            }
            Op::Ite => { if args[0] != 0 { args[1] } else { args[2] } }
        }
    }
}

/// The word that a comparison answers.
fn truth(holds: bool) -> u8
    ensures value { result ≡ one_if holds }
    ensures most { result ≤ 1 }
{
    u8::from(holds)
}

fn complement(w: Width, a: u8) -> u8
    requires { a < 2 ^ w }
    ensures value { result ≡ complement w a }
    ensures word { result < 2 ^ w }
{
    w.mask() - a
}

fn shift_left(w: Width, a: u8, by: u8) -> u8
    ensures value { result ≡ shl_of w a by }
    ensures word { result < 2 ^ w }
{
    if u32::from(by) < w.bits() {
        w.truncate(a << by)
    } else {
        0
    }
}

fn shift_right(w: Width, a: u8, by: u8) -> u8
    requires { a < 2 ^ w }
    ensures value { result ≡ lshr_of w a by }
    ensures word { result < 2 ^ w }
{
    if u32::from(by) < w.bits() { a >> by } else { 0 }
}

fn shift_right_signed(w: Width, a: u8, by: u8) -> u8
    requires { a < 2 ^ w }
    ensures value { result ≡ ashr_of w a by }
    ensures word { result < 2 ^ w }
{
    let mask = w.mask();
    let shifted = shift_right(w, a, by);
    if a > mask >> 1 {
        shifted | complement(w, shift_right(w, mask, by))
    } else {
        shifted
    }
}
