//! Watchers, and pairs of watched literals.

ghost use Rattle.std.specs.Prelude.{◌≡◌, if◌then◌else◌, ◌==◌};
ghost use Rattle.am_watch.specs.Pairs.{other_of};

use am_lit::Lit;

/// Stands in the list of a watched literal: the clause, and one of its literals, which is looked at
/// first.
#[derive(Clone, Copy, Debug, PartialEq, Eq)]
pub struct Watcher {
    pub clause: u32,
    pub blocker: Lit,
}

/// The two watched literals of a clause.
#[derive(Clone, Copy, Debug, PartialEq, Eq)]
pub struct Pair {
    pub first: Lit,
    pub second: Lit,
}

/// What became of a watcher that was visited.
#[derive(Clone, Copy, Debug, PartialEq, Eq)]
pub enum Visit {
    /// It stays, since its clause is true.
    Stays,
    /// It went, since its clause is watched elsewhere.
    Goes,
    /// Its clause, with this number, is false.
    Conflicts(u32),
}

/// The other one of two watched literals.
pub fn other_of(pair: Pair, l: Lit) -> Lit
    ensures { result ≡ other_of pair l }
{
    if pair.first == l {
        pair.second
    } else {
        pair.first
    }
}
