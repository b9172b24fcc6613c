//! Lists that take one item from each of a row of lists.

ghost use Rattle.std.specs.Prelude.{◌≡◌, ◌∷◌, ◌++◌, [], map, replicate, IfOk, OnOk};
ghost use Rattle.std.specs.List.{flat_map};
ghost use Rattle.am_tree.specs.Listed.{choices};
ghost use Rattle.am_all.specs.inside.Seen.{seen, seen_rows};

use am_bv::Row;
use std::alloc::{AllocError, Global};

/// One item of each of some lists.
pub type Choice<'a, T> = Row<&'a T>;

/// The lists that take one item from each of the lists, ordered by the first item, then by the second, and
/// so on.
pub fn choices<'a, T>(alloc: Global, lists: &[&'a [T]]) -> Result<Row<Choice<'a, T>>, AllocError>
    ensures { IfOk result (λ rows.
        seen_rows rows ≡ choices (seen lists.now)) }
{
    let mut rows = Row::new(alloc);
    rows.push(Row::new(alloc))?;
    for list in lists {
        rows = longer(alloc, rows.as_slice(), list)?;
    }
    Ok(rows)
}

/// Each of the rows with each of the items after it.
fn longer<'a, T>(
    alloc: Global,
    rows: &[Choice<'a, T>],
    list: &'a [T],
) -> Result<Row<Choice<'a, T>>, AllocError>
    ensures { IfOk result (λ longer. seen_rows longer ≡
        flat_map (λ row. map (λ x. row ++ x ∷ []) list.now) (seen_rows rows.now)) }
{
    let mut longer = Row::new(alloc);
    for row in rows {
        push_longer(alloc, &mut longer, row.as_slice(), list)?;
    }
    Ok(longer)
}

/// Puts the row with each of the items after it at the end of the rows.
fn push_longer<'a, T>(
    alloc: Global,
    rows: &mut Row<Choice<'a, T>>,
    row: &[&'a T],
    list: &'a [T],
) -> Result<(), AllocError>
    ensures { OnOk result (seen_rows rows.new ≡
        seen_rows rows.old ++ map (λ x. seen row.now ++ x ∷ []) list.now) }
{
    for item in list {
        let mut longer = copied(alloc, row)?;
        longer.push(item)?;
        rows.push(longer)?;
    }
    Ok(())
}

/// The same items.
fn copied<'a, T>(alloc: Global, row: &[&'a T]) -> Result<Choice<'a, T>, AllocError>
    ensures { IfOk result (λ copy. seen copy ≡ seen row.now) }
{
    let mut copy = Row::new(alloc);
    for item in row {
        copy.push(*item)?;
    }
    Ok(copy)
}

/// The lists as slices.
pub fn slices<'a, T>(alloc: Global, lists: &'a [Row<T>]) -> Result<Row<&'a [T]>, AllocError>
    ensures { IfOk result (λ slices. seen slices ≡ lists.now) }
{
    let mut slices = Row::new(alloc);
    for list in lists {
        slices.push(list.as_slice())?;
    }
    Ok(slices)
}

/// The same list so many times.
pub fn repeated<'a, T>(alloc: Global, list: &'a [T], count: u32) -> Result<Row<&'a [T]>, AllocError>
    ensures { IfOk result (λ lists. seen lists ≡ replicate count list.now) }
{
    let mut lists = Row::new(alloc);
    for _ in 0..count {
        lists.push(list)?;
    }
    Ok(lists)
}
