//! The truth values of a trail's literals.

ghost use Rattle.std.specs.Prelude.{◌≡◌, ◌+◌, ◌*◌, ◌≤◌, ℕ, List, [], ◌∷◌, ◌++◌, vec_len};
ghost use Rattle.am_lit.specs.Literal.{variable_of};
ghost use Rattle.am_lit.specs.UnitRow.{IsFree};
ghost use Rattle.am_trail.specs.inside.Values.{AreLiteralValues};

use am_lit::Lit;

/// What a literal is worth, in one byte.
#[derive(Clone, Copy, PartialEq, Eq)]
pub enum Value {
    Free,
    True,
    False,
}

/// Notes that a literal is true.
pub fn set_true(values: &mut Vec<Value>, l: Lit)
    requires { 2 * variable_of l + 2 ≤ vec_len values.old }
    ensures len { vec_len values.new ≡ vec_len values.old }
    ensures values { (row : List ℕ) → AreLiteralValues row values.old.items →
        AreLiteralValues (row ++ l ∷ []) values.new.items }
{
    values[l.code() as usize] = Value::True;
    values[l.opposite().code() as usize] = Value::False;
}

/// Notes that a literal has no value any more.
pub fn set_free(values: &mut Vec<Value>, l: Lit)
    requires { 2 * variable_of l + 2 ≤ vec_len values.old }
    ensures len { vec_len values.new ≡ vec_len values.old }
    ensures values { (row : List ℕ) → AreLiteralValues (row ++ l ∷ []) values.old.items → IsFree row l
        → AreLiteralValues row values.new.items }
{
    values[l.code() as usize] = Value::Free;
    values[l.opposite().code() as usize] = Value::Free;
}
