//! What the edges of a flow do, as text.

ghost use Rattle.std.specs.Prelude.{◌≡◌, ◌∷◌, ◌-◌, ◌^◌, IfOk, codes};
ghost use Rattle.am_syntax.specs.Pieces.{◌▹◌, is_number_next, keyed, number, repeat};
ghost use Rattle.am_syntax.specs.Readers.{GivesRead, Makes};
ghost use Rattle.am_flow.specs.Grammar.{action, variable};
ghost use Rattle.am_flow.specs.inside.Shapes.{IsFlowShape, apply, seen_shape};

use crate::flow::{Action, Variables};
use crate::shape::{Shape, take_index};
use am_bv::Row;
use am_syntax::{
    Cause, Failure, Item, Listed, is_next, is_number_next, read_list, take_key, take_number,
};
use am_text::Cursor;
use std::alloc::{AllocError, Global};

/// Takes a word.
fn take_word(text: &mut Cursor<'_>, shape: &Shape) -> Result<u8, Cause>
    ensures { GivesRead (λ c. c) result text.old text.new (number 0 (2 ^ shape.now.width - 1)).read }
{
    let word = take_number(text, 0, u64::from(shape.width.mask()))?;
    Ok(word as u8)
}

/// `any` and a variable.
fn take_any(text: &mut Cursor<'_>, shape: &Shape) -> Result<u32, Cause>
    ensures { GivesRead (λ a. a) result text.old text.new (keyed (codes "any") (variable (seen_shape shape.now))).read }
{
    take_key(text, b"any")?;
    take_index(text, shape.variables)
}

/// `set`, a variable and a word.
fn take_set(text: &mut Cursor<'_>, shape: &Shape) -> Result<(u32, u8), Cause>
    ensures { let s = seen_shape shape.now in
        let set = keyed (codes "set") (variable s ▹ λ _. number 0 (2 ^ s.width - 1)) in
        GivesRead (λ x. x) result text.old text.new set.read }
{
    take_key(text, b"set")?;
    let variable = take_index(text, shape.variables)?;
    let word = take_word(text, shape)?;
    Ok((variable, word))
}

/// `copy` and two variables.
fn take_copy(text: &mut Cursor<'_>, shape: &Shape) -> Result<(u32, u32), Cause>
    ensures { let s = seen_shape shape.now in
        let copy = keyed (codes "copy") (variable s ▹ λ _. variable s) in
        GivesRead (λ x. x) result text.old text.new copy.read }
{
    take_key(text, b"copy")?;
    let to = take_index(text, shape.variables)?;
    let from = take_index(text, shape.variables)?;
    Ok((to, from))
}

/// Variables, as long as a number comes.
#[derive(Clone, Copy)]
struct More {
    shape: Shape,
}

impl<'a> Item<'a> for More {
    ghost use Rattle.std.specs.Prelude.{ℕ};
    ghost use Rattle.am_flow.specs.Grammar.{variable};
    ghost use Rattle.am_flow.specs.inside.Shapes.{seen_shape};

    type Value = u32;

    ghost Shown = { ℕ };

    ghost view = { λ a. a };

    ghost reads = { λ own _. (variable (seen_shape own.shape)).read };

    ghost can = { λ _. Unit {0} };

    fn read(&self, _alloc: Global, text: &mut Cursor<'a>, _seen: &[u32]) -> Result<u32, Failure> {
        Ok(take_index(text, self.shape.variables)?)
    }
}

impl<'a> Listed<'a> for More {
    ghost use Rattle.am_syntax.specs.Pieces.{is_number_next};

    ghost goes = { is_number_next };

    fn comes(&self, text: &Cursor<'a>) -> bool {
        is_number_next(text)
    }
}

/// More variables, as long as a number comes.
fn read_more(alloc: Global, text: &mut Cursor<'_>, shape: &Shape) -> Result<Variables, Failure>
    requires { IsFlowShape (seen_shape shape.now) }
    ensures { let s = seen_shape shape.now in
        Makes (λ more. more) result text.old text.new (repeat is_number_next (λ _. variable s)).read }
{
    read_list(alloc, text, &More { shape: *shape })
}

/// A variable and those after it.
fn before(alloc: Global, first: u32, more: &[u32]) -> Result<Variables, AllocError>
    ensures { IfOk result (λ all. all ≡ first ∷ more.now) }
{
    let mut all = Row::new(alloc);
    all.push(first)?;
    'more: for variable in more {
        all.push(*variable)?;
    }
    Ok(all)
}

/// `apply`, an operation, a variable, and the variables that it is applied to.
fn read_apply(alloc: Global, text: &mut Cursor<'_>, shape: &Shape) -> Result<Action, Failure>
    requires { IsFlowShape (seen_shape shape.now) }
    ensures { Makes (λ a. a) result text.old text.new (apply (seen_shape shape.now)) }
{
    take_key(text, b"apply")?;
    let operation = take_index(text, shape.operations)?;
    let to = take_index(text, shape.variables)?;
    let first = take_index(text, shape.variables)?;
    let more = read_more(alloc, text, shape)?;
    let from = before(alloc, first, more.as_slice())?;
    Ok(Action::Apply {
        operation,
        to,
        from,
    })
}

/// What an edge does.
#[tactic(auto, unfolding(crate::specs::Grammar::action))]
pub fn read_action(alloc: Global, text: &mut Cursor<'_>, shape: &Shape) -> Result<Action, Failure>
    requires { IsFlowShape (seen_shape shape.now) }
    ensures { Makes (λ a. a) result text.old text.new (action (seen_shape shape.now)).read }
{
    if is_next(text, b"skip") {
        take_key(text, b"skip")?;
        Ok(Action::Skip)
    } else if is_next(text, b"any") {
        let variable = take_any(text, shape)?;
        Ok(Action::Any(variable))
    } else if is_next(text, b"set") {
        let (variable, word) = take_set(text, shape)?;
        Ok(Action::Set(variable, word))
    } else if is_next(text, b"copy") {
        let (to, from) = take_copy(text, shape)?;
        Ok(Action::Copy(to, from))
    } else {
        read_apply(alloc, text, shape)
    }
}
