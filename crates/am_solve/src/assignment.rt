//! The assignment of a trail that gives each variable a value.

ghost use Rattle.std.specs.Prelude.{◌≡◌, ◌^◌, ◌<◌, not, Contains, length, IfOk};
ghost use Rattle.am_lit.specs.Literal.{literal_of};
ghost use Rattle.am_lit.specs.Truth.{AllHold, value_at};
ghost use Rattle.am_trail.specs.Trails.{HasValue, literals};
ghost use Rattle.am_solve.specs.inside.Choosing.{IsTotal};

use am_lit::{Assignment, Lit, Values};
use am_trail::Trail;
use std::alloc::{AllocError, Global};

/// The value of a variable that has one.
fn value_of(trail: &Trail, variable: u32) -> bool
    requires small { variable < 2 ^ 31 }
    requires below { variable < trail.now.vars }
    requires valued { HasValue trail.now.entries variable }
    ensures { Contains (literals trail.now.entries) (literal_of variable (not result)) }
{
    match trail.value(Lit::new(variable, false)) {
        Some(value) => value,
        None => unreachable!(),
    }
}

/// The values that a trail gives to all variables.
pub fn assignment_of(alloc: Global, trail: &Trail, vars: u32) -> Result<Assignment, AllocError>
    requires vars { vars ≡ trail.now.vars }
    requires small { vars < 2 ^ 31 }
    requires total { IsTotal trail.now.vars trail.now.entries }
    ensures len { IfOk result (λ a. length a.values ≡ vars) }
    ensures holds { IfOk result (λ a. AllHold (value_at a.values) (literals trail.now.entries)) }
{
    trail.known();
    let mut values = Values::new(alloc);
    for variable in 0..vars {
        values.push(value_of(trail, variable))?;
    }
    Ok(Assignment { values })
}
