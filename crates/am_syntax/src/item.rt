//! Items one after the other, each of which sees the items before it.

ghost use Rattle.std.specs.Prelude.{◌≡◌, [], Err, map};
ghost use Rattle.am_text.specs.Tokens.{words};
ghost use Rattle.am_syntax.specs.declared.refusal.Failure.TheVariants.{NoMemory};
ghost use Rattle.am_syntax.specs.Pieces.{MovesOn, repeat_from, times_from};
ghost use Rattle.am_syntax.specs.Readers.{Makes};

use crate::ahead::follow;
use crate::judge::{Judge, take};
use crate::refusal::Failure;
use am_bv::Row;
use am_text::Cursor;
use std::alloc::Global;

/// What stands one after the other.
pub trait Item<'a> {
    ghost use Rattle.std.specs.Prelude.{List};
    ghost use Rattle.am_syntax.specs.Readers.{Reader};

    /// An item in memory.
    type Value: Drop;

    /// An item as plain data.
    ghost Shown: { Type 0 };

    ghost view: { Self.Value → Shown };

    /// How an item is read after those seen.
    ghost reads: { Self → List Shown → Reader Shown };

    /// When an item can be read.
    ghost can: { Self → Type 0 };

    /// Reads an item after those seen.
    ///
    /// # Errors
    ///
    /// `Refused`: the first token that no item has here. The cursor stands at it. `NoMemory`: the
    /// cursor may stand anywhere, and its caller gives it up.
    fn read(
        &self,
        alloc: Global,
        text: &mut Cursor<'a>,
        seen: &[Self::Value],
    ) -> Result<Self::Value, Failure>
        requires { can self.now }
        ensures { Makes view result text.old text.new (reads self.now (map view seen.now)) };
}

/// What stands one after the other as long as the text goes on so.
pub trait Listed<'a>: Item<'a> {
    ghost use Rattle.std.specs.Prelude.{Bool};
    ghost use Rattle.am_syntax.specs.Readers.{Words};

    /// Whether an item comes before these words.
    ghost goes: { Words → Bool };

    /// Whether an item comes.
    fn comes(&self, text: &Cursor<'a>) -> bool
        ensures { result ≡ goes (words text.now) };
}

/// Tokens of one judge, one after the other.
#[derive(Clone, Copy)]
pub struct Each<J> {
    pub judge: J,
}

impl<'a, J: Judge<'a>> Item<'a> for Each<J> {
    ghost use Rattle.am_syntax.specs.Readers.{judged};

    type Value = J::Value;

    ghost Shown = { J.Shown };

    ghost view = { J.view };

    ghost reads = { λ own _. judged (J.verdict own.judge) };

    ghost can = { λ _. Unit {0} };

    fn read(
        &self,
        _alloc: Global,
        text: &mut Cursor<'a>,
        _seen: &[J::Value],
    ) -> Result<J::Value, Failure> {
        Ok(take(text, &self.judge)?)
    }
}

fn read_times_ahead<'a, I: Item<'a>>(
    alloc: Global,
    ahead: &mut Cursor<'a>,
    item: &I,
    count: u32,
) -> Result<Row<I::Value>, Failure>
    requires { I.can item.now }
    ensures { Makes (map I.view) result ahead.old ahead.new (times_from (I.reads item.now) count []) }
{
    let mut found = Row::new(alloc);
    'items: for _ in 0..count {
        found.push(item.read(alloc, ahead, found.as_slice())?)?;
    }
    Ok(found)
}

/// Reads so many items.
///
/// # Errors
///
/// `Refused`: an item's refusal. The cursor stands at the refused token. `NoMemory`: the cursor
/// stays.
pub fn read_times<'a, I: Item<'a>>(
    alloc: Global,
    text: &mut Cursor<'a>,
    item: &I,
    count: u32,
) -> Result<Row<I::Value>, Failure>
    requires { I.can item.now }
    ensures read { Makes (map I.view) result text.old text.new (times_from (I.reads item.now) count []) }
    ensures stays { result ≡ Err NoMemory → text.new ≡ text.old }
{
    let mut ahead = text.fork();
    let read = read_times_ahead(alloc, &mut ahead, item, count);
    follow(text, ahead, read)
}

fn read_list_ahead<'a, I: Listed<'a>>(
    alloc: Global,
    ahead: &mut Cursor<'a>,
    item: &I,
) -> Result<Row<I::Value>, Failure>
    requires can { I.can item.now }
    requires moves { MovesOn (I.reads item.now) }
    ensures { Makes (map I.view) result ahead.old ahead.new (repeat_from I.goes (I.reads item.now) []) }
{
    let mut found = Row::new(alloc);
    'items: while item.comes(ahead) {
        found.push(item.read(alloc, ahead, found.as_slice())?)?;
    }
    Ok(found)
}

/// Reads items as long as one comes.
///
/// # Errors
///
/// `Refused`: an item's refusal. The cursor stands at the refused token. `NoMemory`: the cursor
/// stays.
pub fn read_list<'a, I: Listed<'a>>(
    alloc: Global,
    text: &mut Cursor<'a>,
    item: &I,
) -> Result<Row<I::Value>, Failure>
    requires can { I.can item.now }
    requires moves { MovesOn (I.reads item.now) }
    ensures read { Makes (map I.view) result text.old text.new (repeat_from I.goes (I.reads item.now) []) }
    ensures stays { result ≡ Err NoMemory → text.new ≡ text.old }
{
    let mut ahead = text.fork();
    let read = read_list_ahead(alloc, &mut ahead, item);
    follow(text, ahead, read)
}
