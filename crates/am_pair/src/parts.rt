//! The parts of a pair's tuples.

ghost use Rattle.std.specs.Prelude.{◌≡◌, ◌+◌, ◌≤◌, ◌++◌, length, ◌∷◌, []};
ghost use Rattle.std.specs.List.{range_with_len};
ghost use Rattle.am_pair.specs.Pairs.{first, second};

use am_domain::Fields;
use arrayvec::ArrayVec;

/// The part of the first domain.
pub fn first(p: &Fields) -> Fields
    requires { 2 ≤ length p.now }
    ensures { result ≡ first p.now }
{
    Fields::from_slice(&p.as_slice()[..2])
}

/// The part of the second domain.
pub fn second(p: &Fields) -> Fields
    requires { 2 ≤ length p.now }
    ensures { result ≡ second p.now }
{
    Fields::from_slice(&p.as_slice()[2..])
}

/// The tuple of two parts.
pub fn joined(x: &Fields, y: &Fields) -> Fields
    requires { length x.now + length y.now ≤ 4 }
    ensures { result ≡ x.now ++ y.now }
{
    let mut p = x.copy();
    p.extend(y.as_slice());
    p
}

/// The numbers that the second domain's fields have in a pair.
pub fn fields_from_two(count: u32) -> ArrayVec<u32, 3>
    requires { count ≤ 2 }
    ensures { result.items ≡ range_with_len 2 count }
{
    let mut fields = ArrayVec::new();
    for j in 0..count {
        fields.push(2 + j);
    }
    fields
}

/// The same, and then the number of a word's field.
pub fn fields_and_word(count: u32, word: u32) -> ArrayVec<u32, 3>
    requires { count ≤ 2 }
    ensures { result.items ≡ range_with_len 2 count ++ word ∷ [] }
{
    let mut fields = fields_from_two(count);
    fields.push(word);
    fields
}
