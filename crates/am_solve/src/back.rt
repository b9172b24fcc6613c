//! The level to go back to.

ghost use Rattle.std.specs.Prelude.{◌≡◌, ℕ, [], All, Contains, ◌⊎◌, max};
ghost use Rattle.am_lit.specs.Literal.{opposite_of};
ghost use Rattle.am_trail.specs.Trails.{literals};
ghost use Rattle.am_watch.specs.Watching.{IsFalseAt};

use am_lit::Lit;
use am_trail::Trail;

fn larger(a: u32, b: u32) -> u32
    ensures { result ≡ max a b }
{
    if a < b { b } else { a }
}

/// The greatest level on which one of the literals was made false, or 0.
pub fn greatest_level(trail: &Trail, kept: &[Lit]) -> u32
    requires { All (λ m. Contains (literals trail.now.entries) (opposite_of m)) kept.now }
    ensures { ((m : ℕ) × Contains kept.now m × IsFalseAt trail.now.entries result m)
        ⊎ ((kept.now ≡ []) × (result ≡ 0)) }
{
    let mut greatest = 0;
    for l in kept {
        greatest = larger(greatest, trail.level_of(l.variable()));
    }
    greatest
}
