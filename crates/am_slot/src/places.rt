//! Where an argument stands among the children of a slot.

ghost use Rattle.std.specs.Prelude.{◌≡◌, ◌<◌, length, IfSome};
ghost use Rattle.am_slot.specs.inside.Places.{place_from};

use am_tree::Argument;

/// The place of an argument in a list, if it stands there.
pub fn place_of(list: &[Argument], argument: Argument) -> Option<usize>
    ensures value { result ≡ place_from 0 list.now argument }
    ensures inside { IfSome result (λ i. i < length list.now) }
{
    for (i, other) in list.iter().enumerate() {
        if argument.same(*other) {
            return Some(i);
        }
    }
    None
}
