//! The problem of a number, for trials of many problems.

ghost use Rattle.std.specs.Prelude.{◌≡◌, ◌≤◌, ◌<◌, ◌^◌, ◌*◌, IfOk};
ghost use Rattle.std.specs.List.{range_with_len};
ghost use Rattle.am_problem.specs.Generator.{HasSound, argument_rule, field_rule, made_depth, made_kind};
ghost use Rattle.am_problem.specs.Generator.{made_problem_of};
ghost use Rattle.am_problem.specs.Generator.{made_names, made_operation, made_operator, made_rules, made_width};
ghost use Rattle.am_problem.specs.Generator.{pair_production};
ghost use Rattle.am_problem.specs.Stored.{seen_parts};

use crate::kind::Kind;
use crate::numbering::copy_name;
use crate::parts::{Names, Parts};
use crate::problem::Problem;
use am_bv::{Op, Term, Width};
use am_domain::Domain;
use am_tree::{Grammar, Production, Productions, Rules, Symbols};
use std::alloc::{AllocError, Global};

/// The last number that has a problem.
pub const LAST_PROBLEM: u32 = 999_999;

const _: () = prove!(LAST_PROBLEM == 999_999);

/// The domains of made problems.
const KINDS: [Kind; 5] = [
    Kind::UInterval,
    Kind::SInterval,
    Kind::KnownBits,
    Kind::Parity,
    Kind::Congruence,
];

/// The operations of made problems.
const OPERATIONS: [Op; 12] = [
    Op::Add,
    Op::Sub,
    Op::And,
    Op::Or,
    Op::Xor,
    Op::Mul,
    Op::Umin,
    Op::Umax,
    Op::Shl,
    Op::Lshr,
    Op::Udiv,
    Op::Urem,
];

/// The operators of their grammars.
const OPERATORS: [Op; 8] = [
    Op::And,
    Op::Or,
    Op::Xor,
    Op::Add,
    Op::Sub,
    Op::Umin,
    Op::Umax,
    Op::Smin,
];

/// The names of the nonterminals of the result's fields.
const FIELD_NAMES: [&[u8]; 2] = [b"F0", b"F1"];

/// The name of the nonterminal of all arguments.
const ARGUMENT_NAME: &[u8] = b"A";

const TURNS: u32 = 200;

const CONFLICTS: u32 = 200_000;

/// The problem of a number: an operation on two words over one of five domains, with a grammar of depth 2 or
/// 3. In it a field of the result is a constant or an operator at two arguments, and an argument is a field
/// of an input, 0 or an operator at two arguments. The constants are the words of the greatest abstract
/// value, so each such problem has a sound transformer.
pub fn make_problem(alloc: Global, n: u32) -> Result<Problem, AllocError>
    requires { n ≤ 999999 }
    ensures made { IfOk result (λ p. p ≡ made_problem_of n) }
    ensures solvable { IfOk result HasSound }
{
    let parts = parts_of(alloc, n)?;
    let load = parts.load(alloc)?;
    Ok(Problem { parts, load })
}

/// The parts of the problem of a number.
fn parts_of(alloc: Global, n: u32) -> Result<Parts, AllocError>
    ensures { IfOk result (λ parts. seen_parts parts ≡ made_problem_of n) }
{
    let width = width_of(n);
    let kind = kind_of(n);
    let fields = kind.fields();
    let operation = Term::binary(alloc, operation_of(n), Term::Field(0), Term::Field(1))?;
    let names = names_of(alloc, fields)?;
    let rules = rules_of(alloc, n / 840, width, kind)?;
    let starts = starts_of(alloc, fields)?;
    Ok(Parts {
        width,
        inputs: 2,
        operation,
        assume: None,
        kind,
        names,
        grammar: Grammar {
            rules,
            starts,
            depth: depth_of(n),
        },
        turns: TURNS,
        conflicts: CONFLICTS,
    })
}

fn width_of(n: u32) -> Width
    ensures { result ≡ made_width n }
{
    Width::new(2 + n % 7).unwrap()
}

fn kind_of(n: u32) -> Kind
    ensures { result ≡ made_kind n }
{
    KINDS[(n / 7 % 5) as usize]
}

fn operation_of(n: u32) -> Op
    ensures { result ≡ made_operation n }
{
    OPERATIONS[(n / 35 % 12) as usize]
}

fn depth_of(n: u32) -> u32
    ensures { result ≡ made_depth n }
{
    2 + n / 420 % 2
}

fn operator_of(s: u32) -> Op
    ensures { result ≡ made_operator s }
{
    OPERATORS[(s % 8) as usize]
}

/// The names of the nonterminals, where the result has so many fields.
fn names_of(alloc: Global, fields: u32) -> Result<Names, AllocError>
    requires { fields ≤ 2 }
    ensures { IfOk result (λ names. names ≡ made_names fields) }
{
    let mut names = Names::new(alloc);
    for name in &FIELD_NAMES[..fields as usize] {
        names.push(copy_name(alloc, name)?)?;
    }
    names.push(copy_name(alloc, ARGUMENT_NAME)?)?;
    Ok(names)
}

/// The nonterminals of so many fields of the result.
fn starts_of(alloc: Global, fields: u32) -> Result<Symbols, AllocError>
    ensures { IfOk result (λ starts. starts ≡ range_with_len 0 fields) }
{
    let mut starts = Symbols::new(alloc);
    for field in 0..fields {
        starts.push(field)?;
    }
    Ok(starts)
}

/// The productions of all nonterminals, where `s` chooses the operators.
fn rules_of(alloc: Global, s: u32, width: Width, kind: Kind) -> Result<Rules, AllocError>
    requires { s < 2 ^ 31 }
    ensures { IfOk result (λ rules. rules ≡ made_rules s width kind) }
{
    let argument = kind.fields();
    let operators = [
        operator_of(s),
        operator_of(s / 8 + 1),
        operator_of(s / 64 + 3),
    ];
    let mut rules = Rules::new(alloc);
    let top = kind.top(width);
    for word in top.as_slice() {
        rules.push(field_rule(alloc, argument, &operators, *word)?)?;
    }
    rules.push(argument_rule(alloc, argument, operator_of(s / 512 + 5))?)?;
    Ok(rules)
}

/// The productions of a field of the result: a constant, and operators at two arguments.
fn field_rule(
    alloc: Global,
    argument: u32,
    operators: &[Op],
    word: u8,
) -> Result<Productions, AllocError>
    ensures { IfOk result (λ rule. rule ≡ field_rule argument operators.now word) }
{
    let mut rule = Productions::new(alloc);
    rule.push(Production::Leaf(Term::Const(word)))?;
    for op in operators {
        rule.push(pair_production(alloc, argument, *op)?)?;
    }
    Ok(rule)
}

/// The productions of an argument: the fields of both inputs, 0, and an operator at two arguments.
fn argument_rule(alloc: Global, argument: u32, op: Op) -> Result<Productions, AllocError>
    requires { argument ≤ 4 }
    ensures { IfOk result (λ rule. rule ≡ argument_rule argument (2 * argument) op) }
{
    let mut rule = Productions::new(alloc);
    for field in 0..2 * argument {
        rule.push(Production::Leaf(Term::Field(field)))?;
    }
    rule.push(Production::Leaf(Term::Const(0)))?;
    rule.push(pair_production(alloc, argument, op)?)?;
    Ok(rule)
}

/// An operator at two arguments.
fn pair_production(alloc: Global, argument: u32, op: Op) -> Result<Production, AllocError>
    ensures { IfOk result (λ p. p ≡ pair_production argument op) }
{
    let mut arguments = Symbols::new(alloc);
    arguments.push(argument)?;
    arguments.push(argument)?;
    Ok(Production::Node(op, arguments))
}
