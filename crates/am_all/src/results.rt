//! The results of tuples of trees at the cases, and how they compare.

ghost use Rattle.std.specs.Prelude.{◌≡◌, ◌*◌, ◌<◌, ◌≤◌, All, IfOk, MatchBool, length, map, slice_index};
ghost use Rattle.am_bv.specs.Words.{AreWords};
ghost use Rattle.am_all.specs.inside.Numbers.{tuple_number};
ghost use Rattle.am_all.specs.inside.Results.{AreResultNumbers, IsBeyond, IsCovering, IsMissing, IsResultInside};
ghost use Rattle.am_all.specs.inside.Seen.{seen};

use crate::candidates::Candidate;
use crate::cases::Case;
use crate::word_set::WordSet;
use am_bv::{Row, Width};
use std::alloc::{AllocError, Global};

/// The number of the result at each case.
pub type Numbers = Row<u16>;

/// The numbers of the tuple's results at so many cases.
pub fn numbers(
    alloc: Global,
    w: Width,
    tuple: &[&Candidate],
    count: usize,
) -> Result<Numbers, AllocError>
    requires few { w * length tuple.now ≤ 16 }
    requires long { All (λ c. length c.now.values ≡ count) tuple.now }
    requires words { All (λ c. AreWords w c.now.values) tuple.now }
    ensures { IfOk result (AreResultNumbers w (seen tuple.now) count) }
{
    let mut numbers = Row::new(alloc);
    for i in 0..count {
        numbers.push(number_at(w, tuple, i))?;
    }
    Ok(numbers)
}

/// The number of the tuple's result at a case.
fn number_at(w: Width, tuple: &[&Candidate], i: usize) -> u16
    requires few { w * length tuple.now ≤ 16 }
    requires long { All (λ c. i < length c.now.values) tuple.now }
    requires words { All (λ c. AreWords w c.now.values) tuple.now }
    ensures { result ≡ tuple_number w (map (λ c. slice_index c.now.values i) tuple.now) }
{
    let base = u32::from(w.mask()) + 1;
    let mut number = 0;
    for j in (0..tuple.len()).rev() {
        number = number * base + u32::from(*tuple[j].values.get(i));
    }
    number as u16
}

/// Whether the results' sets have all images.
pub fn is_covering(cases: &[Case], sets: &[WordSet], numbers: &[u16]) -> bool
    requires long { length numbers.now ≡ length cases.now }
    requires inside { All (λ n. n < length sets.now) numbers.now }
    ensures { MatchBool result (IsCovering cases.now sets.now numbers.now) (IsMissing cases.now sets.now numbers.now) }
{
    for (i, case) in cases.iter().enumerate() {
        if !case.images.is_subset(&sets[numbers[i] as usize]) {
            return false;
        }
    }
    true
}

/// Whether the sets of the one's results are subsets of the other's.
pub fn is_inside(sets: &[WordSet], inner: &[u16], outer: &[u16]) -> bool
    requires long { length outer.now ≡ length inner.now }
    requires first { All (λ n. n < length sets.now) inner.now }
    requires second { All (λ n. n < length sets.now) outer.now }
    ensures { MatchBool result (IsResultInside sets.now inner.now outer.now) (IsBeyond sets.now inner.now outer.now) }
{
    for (i, number) in inner.iter().enumerate() {
        let other = outer[i];
        if *number != other && !sets[*number as usize].is_subset(&sets[other as usize]) {
            return false;
        }
    }
    true
}
