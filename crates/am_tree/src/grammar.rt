//! Grammars: the productions of each nonterminal, the starts, and the depth of the trees.

ghost use Rattle.std.specs.Prelude.{◌≡◌, ◌≤◌, ◌↔◌, IfSome, IfNone, IsTrue, All, length, nat_lt, sum_by};
ghost use Rattle.std.specs.List.{list_all};
ghost use Rattle.am_tree.specs.Grammars.{IsGrammar, is_production};
ghost use Rattle.am_tree.specs.inside.Formed.{AreGrammarRules};

use am_bv::{Op, Row, Term};

/// How many nonterminals a grammar has at most.
pub const MOST_RULES: usize = 16;

/// How many productions a grammar has at most, in all.
pub const MOST_PRODUCTIONS: usize = 64;

/// How many starts a grammar has at most.
pub const MOST_STARTS: usize = 4;

/// The greatest depth of a grammar's trees.
pub const MOST_DEPTH: u32 = 5;

/// How many nodes the term of a leaf has at most.
pub const MOST_LEAF_NODES: u64 = 64;

/// A list of nonterminals, or of the numbers of productions or slots.
pub type Symbols = Row<u32>;

/// A production: a term over the fields, or an operator with one nonterminal an argument.
#[derive(Drop)]
pub enum Production {
    Leaf(Term),
    Node(Op, Symbols),
}

/// The productions of one nonterminal.
pub type Productions = Row<Production>;

/// The productions of each nonterminal.
pub type Rules = Row<Productions>;

/// A grammar: the productions of each nonterminal, the start of each output field, and the depth of
/// its trees.
///
/// It has at most 16 nonterminals, 64 productions in all and 4 starts, and a depth from 1 to 5. A leaf
/// has at most 64 nodes, each operator as many arguments as it takes, and each nonterminal that is named
/// is one of the grammar's.
#[derive(Drop)]
pub struct Grammar {
    pub rules: Rules,
    pub starts: Symbols,
    pub depth: u32,
    pub ghost well_formed: { IsGrammar rules starts depth },
}

impl Grammar {
    /// The grammar of these parts, or None exactly where they aren't within the limits above.
    pub fn new(rules: Rules, starts: Symbols, depth: u32) -> Option<Grammar>
        ensures some { IfSome result (λ g. (g.rules ≡ rules) × (g.starts ≡ starts) × (g.depth ≡ depth)) }
        ensures none { IfNone result (¬ IsGrammar rules starts depth) }
    {
        if is_grammar(rules.as_slice(), starts.as_slice(), depth) {
            Some(Grammar {
                rules,
                starts,
                depth,
            })
        } else {
            None
        }
    }
}

/// Whether these are the parts of a grammar.
fn is_grammar(rules: &[Productions], starts: &[u32], depth: u32) -> bool
    ensures { IsTrue result ↔ IsGrammar rules.now starts.now depth }
{
    if rules.len() > MOST_RULES
        || starts.len() > MOST_STARTS
        || depth < 1
        || depth > MOST_DEPTH
        || !are_rules(rules)
    {
        return false;
    }
    are_below(starts, rules.len())
}

/// Whether all are productions of a grammar with these rules, and at most 64 in number.
fn are_rules(rules: &[Productions]) -> bool
    ensures { IsTrue result ↔ AreGrammarRules rules.now }
{
    let mut total = 0;
    for productions in rules {
        if productions.len() > MOST_PRODUCTIONS - total
            || !are_productions(productions.as_slice(), rules.len())
        {
            return false;
        }
        total += productions.len();
    }
    true
}

/// Whether all are productions of a grammar with so many nonterminals.
fn are_productions(productions: &[Production], count: usize) -> bool
    ensures { IsTrue result ↔ All (λ p. IsTrue (is_production count p)) productions.now }
{
    for production in productions {
        if !is_production(production, count) {
            return false;
        }
    }
    true
}

/// Whether it is a production of a grammar with so many nonterminals.
fn is_production(production: &Production, count: usize) -> bool
    ensures { result ≡ is_production count production.now }
{
    match production {
        Production::Leaf(term) => term.nodes() <= MOST_LEAF_NODES && term.has_arities(),
        Production::Node(op, names) => {
            names.len() == op.arity() as usize && are_below(names.as_slice(), count)
        }
    }
}

/// Whether all numbers are below one.
fn are_below(names: &[u32], count: usize) -> bool
    ensures { result ≡ list_all (λ n. nat_lt n count) names.now }
{
    names.iter().all(|n| (*n as usize) < count)
}
