//! The names of operators.

ghost use Rattle.std.specs.Prelude.{◌≡◌};
ghost use Rattle.am_syntax.specs.Names.{no_name, op_name, op_named, operator};
ghost use Rattle.am_syntax.specs.Readers.{GivesRead};

use crate::judge::{Judge, take};
use crate::refusal::Cause;
use am_bv::Op;
use am_text::Cursor;

/// The name of an operator.
pub fn op_name(op: Op) -> &'static [u8]
    ensures { result.now ≡ op_name op }
{
    match op {
        Op::Not => b"not",
        Op::Neg => b"neg",
        Op::And => b"and",
        Op::Or => b"or",
        Op::Xor => b"xor",
        Op::Add => b"add",
        Op::Sub => b"sub",
        Op::Mul => b"mul",
        Op::Udiv => b"udiv",
        Op::Urem => b"urem",
        Op::Shl => b"shl",
        Op::Lshr => b"lshr",
        Op::Ashr => b"ashr",
        Op::Eq => b"eq",
        Op::Ult => b"ult",
        Op::Ule => b"ule",
        Op::Slt => b"slt",
        Op::Sle => b"sle",
        Op::Umin => b"umin",
        Op::Umax => b"umax",
        Op::Smin => b"smin",
        Op::Smax => b"smax",
        Op::Ite => b"ite",
    }
}

/// The operator of this name.
#[tactic(auto, using(crate::proofs::Finds::find_more), unfolding(crate::specs::Names::op_named))]
pub fn op_named(word: &[u8]) -> Option<Op>
    ensures { result ≡ op_named word.now }
{
    for op in Op::ALL {
        if op_name(op) == word {
            return Some(op);
        }
    }
    None
}

/// Why a word is refused that names nothing: a parenthesis is no name at all.
pub fn no_name(word: &[u8]) -> Cause
    ensures { result ≡ no_name word.now }
{
    if word == b"(".as_slice() || word == b")".as_slice() {
        Cause::Syntax
    } else {
        Cause::Name
    }
}

/// The name of an operator.
#[derive(Clone, Copy)]
pub struct Operator;

impl<'a> Judge<'a> for Operator {
    ghost use Rattle.am_bv.specs.declared.op.Op.{Op as Operation};
    ghost use Rattle.am_syntax.specs.Names.{operator_judge};

    type Value = Op;

    ghost Shown = { Operation };

    ghost view = { λ op. op };

    ghost verdict = { λ _ word. operator_judge word };

    ghost known = { λ _ _. Unit {0} };

    fn judge(&self, word: &'a [u8]) -> Result<Op, Cause> {
        op_named(word).ok_or(no_name(word))
    }
}

/// Takes the name of an operator.
#[tactic(auto, unfolding(crate::specs::Names::operator))]
pub fn take_operator(text: &mut Cursor<'_>) -> Result<Op, Cause>
    ensures { GivesRead (λ op. op) result text.old text.new operator.read }
{
    take(text, &Operator)
}
