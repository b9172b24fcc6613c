//! Printing of problems.

ghost use Rattle.std.specs.Prelude.{◌≡◌, ◌∷◌, [], All, IsTrue, codes, flat_map, map};
ghost use Rattle.am_syntax.specs.Canonical.{Appends, line, lines, spaced};
ghost use Rattle.am_syntax.specs.Numerals.{is_name};
ghost use Rattle.am_problem.specs.Limits.{IsNonterminal, IsProblem, IsProductionOf};
ghost use Rattle.am_problem.specs.Printing.{assume_rows, budget_rows, domain_rows, header_rows, operation_row};
ghost use Rattle.am_problem.specs.Printing.{CanonicalTextsAreRead, problem_text, production_words, rule_row};
ghost use Rattle.am_problem.specs.Texts.{name_at, named, named_production, named_rule};

use crate::problem::Problem;
use am_bv::Op;
use am_syntax::{Entry, Letter, op_name, print_line, print_term, print_word};
use am_text::Writer;
use am_tree::Production;
use std::alloc::AllocError;

/// Appends a problem's canonical text.
///
/// # Errors
///
/// There was no memory. The writer holds its old text and a part of the problem's from its beginning.
#[tactic(auto, using(crate::proofs::Printed::problem_parts, am_syntax::proofs::Laws::appending))]
pub fn print_problem(out: &mut Writer, p: &Problem) -> Result<(), AllocError>
    ensures { Appends result out.old out.new (problem_text p.now) }
{
    p.keeps_limits();
    print_header(out, p)?;
    print_domain(out, p)?;
    print_budgets(out, p)?;
    print_rules(out, p)?;
    print_line(out, b"end", &[])
}

/// Appends the lines up to that of the assumption.
#[tactic(auto, using(am_syntax::proofs::Laws::appending))]
fn print_header(out: &mut Writer, p: &Problem) -> Result<(), AllocError>
    requires { IsProblem p.now }
    ensures { Appends result out.old out.new (lines (header_rows (named p.now).header)) }
{
    print_line(out, b"amurth", &[Entry::Number(1)])?;
    print_line(out, b"width", &[Entry::Number(u64::from(p.width().bits()))])?;
    print_operation(out, p)?;
    print_assumption(out, p)
}

/// Appends the line of the operation.
#[tactic(auto, using(crate::proofs::Printed::operation_fits))]
fn print_operation(out: &mut Writer, p: &Problem) -> Result<(), AllocError>
    requires { IsProblem p.now }
    ensures { Appends result out.old out.new (line (operation_row (named p.now).header)) }
{
    let inputs = Entry::Number(u64::from(p.inputs()));
    print_line(
        out,
        b"operation",
        &[inputs, Entry::Term(Letter::X, p.operation())],
    )
}

/// Appends the line of the assumption, where there is one.
#[tactic(auto, using(crate::proofs::Printed::assumption_fits))]
fn print_assumption(out: &mut Writer, p: &Problem) -> Result<(), AllocError>
    requires { IsProblem p.now }
    ensures { Appends result out.old out.new (lines (assume_rows p.now.assume)) }
{
    match p.assume() {
        Some(term) => print_line(out, b"assume", &[Entry::Term(Letter::X, term)]),
        None => Ok(()),
    }
}

/// Appends the lines of the domain and of the starts.
#[tactic(auto, using(am_syntax::proofs::Laws::appending))]
fn print_domain(out: &mut Writer, p: &Problem) -> Result<(), AllocError>
    requires { IsProblem p.now }
    ensures { Appends result out.old out.new (lines (domain_rows (named p.now))) }
{
    print_line(out, b"domain", &[Entry::Word(p.kind().name())])?;
    print_starts(out, p, p.grammar().starts.as_slice())
}

/// Appends the line of the starts.
fn print_starts(out: &mut Writer, p: &Problem, starts: &[u32]) -> Result<(), AllocError>
    requires limits { IsProblem p.now }
    requires known { All (IsNonterminal p.now) starts.now }
    ensures { Appends result out.old out.new (line (codes "start" ∷ map (name_at p.now.names) starts.now)) }
{
    out.word(b"start")?;
    print_names(out, p, starts)?;
    out.newline()
}

/// Appends the lines of what may be spent.
#[tactic(auto, using(am_syntax::proofs::Laws::appending))]
fn print_budgets(out: &mut Writer, p: &Problem) -> Result<(), AllocError>
    requires { IsProblem p.now }
    ensures { Appends result out.old out.new (lines (budget_rows (named p.now).budgets)) }
{
    print_line(
        out,
        b"depth",
        &[Entry::Number(u64::from(p.grammar().depth))],
    )?;
    print_line(out, b"turns", &[Entry::Number(u64::from(p.turns()))])?;
    print_line(
        out,
        b"conflicts",
        &[Entry::Number(u64::from(p.conflicts()))],
    )
}

/// Appends the lines of all rules.
fn print_rules(out: &mut Writer, p: &Problem) -> Result<(), AllocError>
    requires { IsProblem p.now }
    ensures { Appends result out.old out.new (lines (map rule_row (named p.now).rules)) }
{
    let names = p.names();
    'rules: for (i, productions) in p.grammar().rules.as_slice().iter().enumerate() {
        print_rule(out, p, names[i].as_slice(), productions.as_slice())?;
    }
    Ok(())
}

/// Appends the line of a rule.
fn print_rule(
    out: &mut Writer,
    p: &Problem,
    name: &[u8],
    productions: &[Production],
) -> Result<(), AllocError>
    requires limits { IsProblem p.now }
    requires name { IsTrue (is_name name.now) }
    requires known { All (IsProductionOf p.now) productions.now }
    ensures { let rule = named_rule p.now.names name.now productions.now in
        Appends result out.old out.new (line (rule_row rule)) }
{
    out.word(b"rule")?;
    print_word(out, name)?;
    'productions: for production in productions {
        print_production(out, p, production)?;
    }
    out.newline()
}

/// Appends a production after a space.
#[tactic(auto, using(crate::proofs::Printed::leaf_fits))]
fn print_production(
    out: &mut Writer,
    p: &Problem,
    production: &Production,
) -> Result<(), AllocError>
    requires limits { IsProblem p.now }
    requires known { IsProductionOf p.now production.now }
    ensures { let shown = named_production p.now.names production.now in
        Appends result out.old out.new (32 ∷ spaced (production_words shown)) }
{
    out.space()?;
    match production {
        Production::Leaf(term) => print_term(out, Letter::F, term),
        Production::Node(op, symbols) => print_call(out, p, *op, symbols.as_slice()),
    }
}

/// Appends an operator at nonterminals.
fn print_call(out: &mut Writer, p: &Problem, op: Op, symbols: &[u32]) -> Result<(), AllocError>
    requires limits { IsProblem p.now }
    requires known { All (IsNonterminal p.now) symbols.now }
    ensures { let shown = named_production p.now.names (Production.Node op symbols.now) in
        Appends result out.old out.new (spaced (production_words shown)) }
{
    out.word(b"(")?;
    out.word(op_name(op))?;
    print_names(out, p, symbols)?;
    out.word(b")")
}

/// Appends the names of nonterminals, each after a space.
fn print_names(out: &mut Writer, p: &Problem, symbols: &[u32]) -> Result<(), AllocError>
    requires limits { IsProblem p.now }
    requires known { All (IsNonterminal p.now) symbols.now }
    ensures { Appends result out.old out.new (flat_map (λ n. 32 ∷ name_at p.now.names n) symbols.now) }
{
    let names = p.names();
    'symbols: for n in symbols {
        print_word(out, names[*n as usize].as_slice())?;
    }
    Ok(())
}

/// What was printed reads back.
pub fn canonical_texts_are_read()
    ensures { CanonicalTextsAreRead }
{}
