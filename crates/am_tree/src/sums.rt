//! Sums over all slots of a grammar, without making them.

ghost use Rattle.std.specs.Prelude.{ℕ, ◌≡◌, ◌+◌, ◌-◌, ◌*◌, ◌^◌, ◌<◌, ◌≤◌, All, length, sum_by, slice_index};
ghost use Rattle.am_tree.specs.Slots.{arguments, layout_of, offered, offered_by, shared, shared_by};
ghost use Rattle.am_tree.specs.Weights.{production_weight, slot_weight, block_weight};
ghost use Rattle.am_tree.specs.inside.Totals.{total, AreBoundedTotals, HasBounds, HasSmallLeaf};

use crate::grammar::{Grammar, MOST_RULES, Production, Productions};
use crate::slots::{is_offered, shared};
use am_bv::Width;
use arrayvec::ArrayVec;

/// A number for each nonterminal.
type Sums = ArrayVec<u64, MOST_RULES>;

impl Grammar {
    /// The number of slots of the layout. Takes no memory.
    pub fn slots(&self) -> u64
        ensures { result ≡ length (layout_of self.now.rules self.now.starts self.now.depth) }
    {
        let count = self.rules.len();
        self.total(ones(count), ones(count))
    }

    /// The number of gates that the slots' words take at this width, at most: the sum over all slots
    /// and their productions of a production's weight and the width. Takes no memory.
    pub fn block_weight(&self, w: Width) -> u64
        ensures value { result ≡ block_weight self.now.rules w (self.now.depth - 1) self.now.starts }
        ensures most { result ≤ 2 ^ 21 * length (layout_of self.now.rules self.now.starts self.now.depth) }
    {
        let rules = self.rules.as_slice();
        self.total(slot_weights(rules, w, 0), slot_weights(rules, w, 1))
    }

    /// The sum over all slots, where a slot of the last level counts `last` of its nonterminal, and any
    /// other slot `inner` of it.
    fn total(&self, last: Sums, inner: Sums) -> u64
        requires last { AreBoundedTotals (length self.now.rules) (2 ^ 21) last.items }
        requires inner { AreBoundedTotals (length self.now.rules) (2 ^ 21) inner.items }
        ensures { let g = self.now in result ≡
            total g.rules (slice_index last.items) (slice_index inner.items) (g.depth - 1) g.starts }
    {
        let mut sums = last;
        for _ in 0..self.depth - 1 {
            sums = sums_above(self.rules.as_slice(), inner.as_slice(), sums.as_slice());
        }
        let mut total = 0;
        for n in self.starts.as_slice() {
            total += sums[*n as usize];
        }
        total
    }
}

/// The number 1 for each of so many nonterminals.
fn ones(count: usize) -> Sums
    requires { count ≤ 16 }
    ensures len { length result.items ≡ count }
    ensures each { All (λ x. x ≡ 1) result.items }
{
    let mut ones = Sums::new();
    for _ in 0..count {
        ones.push(1);
    }
    ones
}

/// What a slot of each nonterminal weighs, with so many levels below it.
fn slot_weights(rules: &[Productions], w: Width, below: u32) -> Sums
    requires { HasBounds rules.now }
    ensures numbers { AreBoundedTotals (length rules.now) (2 ^ 21) result.items }
    ensures each { (n : ℕ) → n < length rules.now →
        slice_index result.items n ≡ slot_weight w (offered rules.now below n) }
{
    let mut weights = Sums::new();
    for productions in rules {
        weights.push(slot_weight(productions.as_slice(), w, below));
    }
    weights
}

/// What a slot with these productions weighs, with so many levels below it.
fn slot_weight(productions: &[Production], w: Width, below: u32) -> u64
    requires few { length productions.now ≤ 64 }
    requires small { All HasSmallLeaf productions.now }
    ensures value { result ≡ slot_weight w (offered_by below productions.now) }
    ensures most { result ≤ 2 ^ 21 }
{
    let mut sum = 0;
    for production in productions {
        if !is_offered(below, production) {
            continue;
        }
        sum += production_weight(production, w) + u64::from(w.bits());
    }
    sum
}

/// What a production weighs without its choice.
fn production_weight(production: &Production, w: Width) -> u64
    requires { HasSmallLeaf production.now }
    ensures value { result ≡ production_weight w production.now }
    ensures most { result ≤ 288 * 64 }
{
    match production {
        Production::Leaf(term) => term.weight(w),
        Production::Node(op, _) => op.weight(w),
    }
}

/// The sums with one level more below, by those with fewer.
fn sums_above(rules: &[Productions], inner: &[u64], below: &[u64]) -> Sums
    requires rules { HasBounds rules.now }
    requires inner { AreBoundedTotals (length rules.now) (2 ^ 21) inner.now }
    requires below { AreBoundedTotals (length rules.now) (2 ^ 53) below.now }
    ensures len { length result.items ≡ length rules.now }
    ensures each { (n : ℕ) → n < length rules.now →
        slice_index result.items n ≡ slice_index inner.now n
        + sum_by (λ a. slice_index below.now a.symbol) (shared rules.now 1 n) }
{
    let mut sums = Sums::new();
    for (n, productions) in rules.iter().enumerate() {
        sums.push(inner[n] + children_sum(productions.as_slice(), below));
    }
    sums
}

/// The sum over the children of a slot with these productions.
fn children_sum(productions: &[Production], below: &[u64]) -> u64
    requires short { All (λ p. length (arguments p) ≤ 3) productions.now }
    requires few { length productions.now ≤ 64 }
    requires inside { All (λ a. a.symbol < length below.now) (shared_by 1 productions.now) }
    requires below { All (λ x. x ≤ 2 ^ 53) below.now }
    ensures value { result ≡ sum_by (λ a. slice_index below.now a.symbol) (shared_by 1 productions.now) }
    ensures most { result ≤ 192 * 2 ^ 53 }
{
    let children = shared(1, productions);
    let mut sum = 0;
    for argument in children.as_slice() {
        sum += below[argument.symbol as usize];
    }
    sum
}
