//! The literals that stand for gates of constants, of a literal twice, and of a literal and its opposite.

ghost use Rattle.std.specs.Prelude.{◌≡◌};
ghost use Rattle.am_gate.specs.Circuit.{Event.And, Event.Xor, Event.Mux, truth};
ghost use Rattle.am_gate.specs.Folding.{folded};

use am_lit::Lit;

/// The literal that is true.
fn on() -> Lit
    ensures { result ≡ truth }
{
    Lit::new(0, false)
}

/// The literal that stands for the gate of both literals.
pub fn folded_and(a: Lit, b: Lit) -> Option<Lit>
    ensures { result ≡ folded (And a b) }
{
    let on = on();
    let off = on.opposite();
    if a == off || b == off {
        Some(off)
    } else if a == on {
        Some(b)
    } else if b == on {
        Some(a)
    } else if a == b {
        Some(a)
    } else if a == b.opposite() {
        Some(off)
    } else {
        None
    }
}

/// The literal that stands for the gate of literals that differ.
pub fn folded_xor(a: Lit, b: Lit) -> Option<Lit>
    ensures { result ≡ folded (Xor a b) }
{
    let on = on();
    let off = on.opposite();
    if a == off {
        Some(b)
    } else if b == off {
        Some(a)
    } else if a == on {
        Some(b.opposite())
    } else if b == on {
        Some(a.opposite())
    } else if a == b {
        Some(off)
    } else if a == b.opposite() {
        Some(on)
    } else {
        None
    }
}

/// The literal that stands for the gate of a choice.
pub fn folded_mux(c: Lit, a: Lit, b: Lit) -> Option<Lit>
    ensures { result ≡ folded (Mux c a b) }
{
    let on = on();
    let off = on.opposite();
    if c == on {
        Some(a)
    } else if c == off {
        Some(b)
    } else if a == b {
        Some(a)
    } else if a == on && b == off {
        Some(c)
    } else if a == off && b == on {
        Some(c.opposite())
    } else {
        None
    }
}
