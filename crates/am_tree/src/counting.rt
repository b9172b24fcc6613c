//! How many tuples of trees a grammar has.

ghost use Rattle.std.specs.Prelude.{ℕ, ◌≡◌, ◌+◌, ◌*◌, ◌^◌, ◌<◌, ◌≤◌, [], All, length, slice_index_or, sum_by};
ghost use Rattle.std.specs.Option.{SomeIff};
ghost use Rattle.am_tree.specs.Counts.{product_by, production_count, tree_count, tuple_count};
ghost use Rattle.am_tree.specs.Slots.{arguments, AreInside};
ghost use Rattle.am_tree.specs.inside.Counted.{IsCount, AreCounts};

use crate::grammar::{Grammar, MOST_RULES, Production, Productions};
use arrayvec::ArrayVec;

/// A number for each nonterminal, or None where it is 2^128 or more.
type Counts = ArrayVec<Option<u128>, MOST_RULES>;

impl Grammar {
    /// The number of tuples of trees, one from each start with the grammar's depth, or None exactly where
    /// it is 2^128 or more. Two trees with one term count twice. Takes no memory.
    pub fn count(&self) -> Option<u128>
        ensures { SomeIff result (tuple_count self.now.rules self.now.starts self.now.depth < 2 ^ 128)
            (tuple_count self.now.rules self.now.starts self.now.depth) }
    {
        let rules = self.rules.as_slice();
        let mut counts = zeros(rules.len());
        for _ in 0..self.depth {
            counts = counts_above(rules, counts.as_slice());
        }
        product_of(self.starts.as_slice(), counts.as_slice())
    }
}

/// So many times 0.
fn zeros(n: usize) -> Counts
    requires { n ≤ 16 }
    ensures len { length result.items ≡ n }
    ensures zeros { AreCounts (λ _. 0) result.items }
{
    let mut counts = Counts::new();
    for _ in 0..n {
        counts.push(Some(0));
    }
    counts
}

/// The numbers of trees with one depth more, by those with a depth.
fn counts_above(rules: &[Productions], below: &[Option<u128>]) -> Counts
    requires few { length rules.now ≤ 16 }
    requires inside { AreInside (length below.now) rules.now }
    ensures len { length result.items ≡ length rules.now }
    ensures counts { (f : ℕ → ℕ) → AreCounts f below.now →
        AreCounts (λ n. sum_by (production_count f) (slice_index_or rules.now n [])) result.items }
{
    let mut counts = Counts::new();
    for productions in rules {
        counts.push(sum_of(productions.as_slice(), below));
    }
    counts
}

/// How many trees these productions make, by the numbers for the nonterminals of their arguments.
fn sum_of(productions: &[Production], below: &[Option<u128>]) -> Option<u128>
    requires { All (λ p. All (λ a. a.symbol < length below.now) (arguments p)) productions.now }
    ensures { (f : ℕ → ℕ) → AreCounts f below.now →
        IsCount (sum_by (production_count f) productions.now) result }
{
    let mut sum = Some(0);
    for production in productions {
        sum = plus(sum, count_of(production, below));
    }
    sum
}

/// How many trees the production makes, by the numbers for the nonterminals of its arguments.
fn count_of(production: &Production, below: &[Option<u128>]) -> Option<u128>
    requires { All (λ a. a.symbol < length below.now) (arguments production.now) }
    ensures { (f : ℕ → ℕ) → AreCounts f below.now → IsCount (production_count f production.now) result }
{
    match production {
        Production::Leaf(_) => Some(1),
        Production::Node(_, names) => product_of(names.as_slice(), below),
    }
}

/// The product of the numbers for these nonterminals.
fn product_of(names: &[u32], counts: &[Option<u128>]) -> Option<u128>
    requires { All (λ n. n < length counts.now) names.now }
    ensures { (f : ℕ → ℕ) → AreCounts f counts.now → IsCount (product_by f names.now) result }
{
    let mut product = Some(1);
    for n in names {
        product = times(product, counts[*n as usize]);
    }
    product
}

fn plus(a: Option<u128>, b: Option<u128>) -> Option<u128>
    ensures { (x y : ℕ) → IsCount x a → IsCount y b → IsCount (x + y) result }
{
    match (a, b) {
        (Some(a), Some(b)) => a.checked_add(b),
        _ => None,
    }
}

fn times(a: Option<u128>, b: Option<u128>) -> Option<u128>
    ensures { (x y : ℕ) → IsCount x a → IsCount y b → IsCount (x * y) result }
{
    match (a, b) {
        (Some(0), _) | (_, Some(0)) => Some(0),
        (Some(a), Some(b)) => a.checked_mul(b),
        _ => None,
    }
}
