//! The solver: values from outside, and each answer once.

ghost use Rattle.std.specs.Prelude.{◌≡◌, ◌<◌, ◌+◌, ◌-◌, ◌^◌, length, ℕ, IfOk, slice_index_or};

use am_chain::{Checker, Log};
use am_lit::{Assignment, Clauses, Formula, Lit};
use am_solve::{Answer, solve};
use std::alloc::{AllocError, Global};
use std::test::Fail;

#[derive(Clone, Copy, Debug, PartialEq, Eq)]
enum Verdict {
    Sat,
    Unsat(usize),
    Spent(usize),
}

fn lit(code: u32) -> Lit {
    Lit::new(code / 2, code % 2 == 1)
}

/// A formula in the making.
#[derive(Drop)]
struct Maker {
    clauses: Clauses,
    row: Vec<Lit>,
}

impl Maker {
    fn new(alloc: Global) -> Maker {
        Maker {
            clauses: Clauses::new(alloc),
            row: Vec::new(alloc),
        }
    }

    /// Adds the clause of these codes, in order.
    fn add(&mut self, codes: &[u32]) -> Result<(), Fail> {
        self.row.clear();
        for code in codes {
            self.row.push(lit(*code))?;
        }
        self.row.sort()?;
        if self.clauses.len() < 1_000_000 {
            self.clauses.push(self.row.as_slice())?;
        }
        Ok(())
    }

    fn formula(self, vars: u32) -> Result<Formula, Fail> {
        Ok(Formula::new(self.clauses, vars).ok_or("no formula")?)
    }
}

/// Whether each clause has a literal that holds.
fn satisfies(assignment: &Assignment, formula: &Formula) -> bool {
    if assignment.values.len() < formula.vars as usize {
        return false;
    }
    for i in 0..formula.clauses.len() {
        let mut holds = false;
        for l in formula.clauses.clause(i) {
            if (l.variable() as usize) < assignment.values.len() && assignment.holds(*l) {
                holds = true;
            }
        }
        if !holds {
            return false;
        }
    }
    true
}

/// Whether a checker is refuted after all chains of a log, or None where it doesn't take one of them.
fn replayed(alloc: Global, formula: &Formula, log: &Log) -> Result<Option<bool>, Fail>
    requires { length formula.now.clauses + length log.now < 2 ^ 32 - 1 }
{
    let mut checker = Checker::new(alloc, formula);
    for i in 0..log.len() {
        let chain = log.get(i);
        if chain.steps.len() > 1_000_000 || checker.add(chain).is_err() {
            return Ok(None);
        }
    }
    Ok(Some(checker.refuted()))
}

/// The variables below a number.
fn first_variables(alloc: Global, count: u32) -> Result<Vec<u32>, AllocError>
    ensures len { IfOk result (λ v. length v.items ≡ count) }
    ensures each { IfOk result (λ v. (k d : ℕ) → k < count → slice_index_or v.items k d ≡ k) }
{
    let mut variables = Vec::new(alloc);
    for v in 0..count {
        variables.push(v)?;
    }
    Ok(variables)
}

/// What the solver answers, with the first variables for a base. Its assignment is evaluated, and its log
/// replayed.
fn judge(alloc: Global, formula: &Formula, count: u32, limit: u64) -> Result<Verdict, Fail> {
    if formula.vars >= 1 << 30 || formula.clauses.len() >= 1 << 31 || formula.vars < count {
        return Err("too large".into());
    }
    let base = first_variables(alloc, count)?;
    match solve(alloc, formula, base.as_slice(), limit.clamp(1, 1 << 30))? {
        Answer::Sat(assignment) => {
            let _holds = Some(satisfies(&assignment, formula))
                .filter(|b| *b)
                .ok_or("it doesn't hold")?;
            Ok(Verdict::Sat)
        }
        Answer::Unsat(log) => {
            if replayed(alloc, formula, &log)? != Some(true) {
                return Err("it doesn't refute".into());
            }
            Ok(Verdict::Unsat(log.len()))
        }
        Answer::Spent(log) => {
            if replayed(alloc, formula, &log)? != Some(false) {
                return Err("a chain isn't valid".into());
            }
            Ok(Verdict::Spent(log.len()))
        }
    }
}

/// The clauses that hold each of these variables once.
fn all_signs(alloc: Global) -> Result<Formula, Fail> {
    let mut maker = Maker::new(alloc);
    for signs in 0..8u32 {
        maker.add([signs % 2, 2 + signs / 2 % 2, 4 + signs / 4 % 2].as_slice())?;
    }
    maker.formula(3)
}

/// That each of `holes + 1` pigeons has a hole, and no two have the same.
fn pigeons(alloc: Global, holes: u32) -> Result<Formula, Fail> {
    let mut maker = Maker::new(alloc);
    let mut row = Vec::new(alloc);
    for pigeon in 0..holes.saturating_add(1) {
        row.clear();
        for hole in 0..holes {
            row.push(place(holes, pigeon, hole))?;
        }
        maker.add(row.as_slice())?;
        apart(&mut maker, holes, pigeon)?;
    }
    maker.formula(holes.saturating_mul(holes.saturating_add(1)))
}

/// The code of a pigeon's place in a hole.
fn place(holes: u32, pigeon: u32, hole: u32) -> u32 {
    pigeon
        .saturating_mul(holes)
        .saturating_add(hole)
        .saturating_mul(2)
}

/// That a pigeon shares no hole with one before it.
fn apart(maker: &mut Maker, holes: u32, pigeon: u32) -> Result<(), Fail> {
    for other in 0..pigeon {
        for hole in 0..holes {
            let first = place(holes, other, hole).saturating_add(1);
            let second = place(holes, pigeon, hole).saturating_add(1);
            maker.add([first, second].as_slice())?;
        }
    }
    Ok(())
}

/// That each of twelve variables differs from the next one, and the first and the last differ, or
/// don't.
fn parities(alloc: Global, differ: bool) -> Result<Formula, Fail> {
    let mut maker = Maker::new(alloc);
    for v in 0..11u32 {
        maker.add([2 * v, 2 * v + 2].as_slice())?;
        maker.add([2 * v + 1, 2 * v + 3].as_slice())?;
    }
    let sign = u32::from(!differ);
    maker.add([0, 22 + sign].as_slice())?;
    maker.add([1, 23 - sign].as_slice())?;
    maker.formula(12)
}

/// Numbers that look random.
#[derive(Clone, Copy)]
struct Random {
    state: u32,
}

impl Random {
    fn next(&mut self) -> u32 {
        self.state ^= self.state << 13;
        self.state ^= self.state >> 17;
        self.state ^= self.state << 5;
        self.state
    }
}

/// Clauses of three of sixty variables.
fn threes(alloc: Global, seed: u32) -> Result<Formula, Fail> {
    let mut random = Random { state: seed };
    let mut maker = Maker::new(alloc);
    for _ in 0..270 {
        let (a, b, c) = (
            random.next() % 120,
            random.next() % 120,
            random.next() % 120,
        );
        if a / 2 != b / 2 && a / 2 != c / 2 && b / 2 != c / 2 {
            maker.add([a, b, c].as_slice())?;
        }
    }
    maker.formula(60)
}

#[test]
fn a_limit_is_kept(rt: HostRuntime) -> Result<(), Fail> {
    let alloc = rt.alloc();
    let formula = all_signs(alloc)?;
    assert_eq!(rt; judge(alloc, &formula, 3, 1)?, Verdict::Spent(1));
    let is_unsat = matches!(judge(alloc, &formula, 3, 27)?, Verdict::Unsat(_));
    assert!(rt; is_unsat);
    Ok(())
}

#[test]
fn an_empty_clause_and_no_clause(rt: HostRuntime) -> Result<(), Fail> {
    let alloc = rt.alloc();
    let mut maker = Maker::new(alloc);
    let none: [u32; 1] = [0];
    maker.add(&none[..0])?;
    assert_eq!(rt; judge(alloc, &maker.formula(0)?, 0, 1)?, Verdict::Unsat(1));
    assert_eq!(rt;
        judge(alloc, &Maker::new(alloc).formula(2)?, 2, 1)?,
        Verdict::Sat
    );
    Ok(())
}

#[test]
fn pigeons_have_too_few_holes(rt: HostRuntime) -> Result<(), Fail> {
    let alloc = rt.alloc();
    for holes in 4..6u32 {
        let formula = pigeons(alloc, holes)?;
        let Verdict::Unsat(chains) = judge(alloc, &formula, 20, 5_000)? else {
            return Err("it isn't refuted".into());
        };
        let exact = chains as u64;
        assert_eq!(rt; judge(alloc, &formula, 20, exact)?, Verdict::Unsat(chains));
        let fewer = exact.saturating_sub(1);
        assert_eq!(rt;
            judge(alloc, &formula, 20, fewer)?,
            Verdict::Spent(fewer as usize)
        );
    }
    Ok(())
}

#[test]
fn what_takes_long_is_refuted_quickly(rt: HostRuntime) -> Result<(), Fail> {
    let alloc = rt.alloc();
    let is_unsat = matches!(
        judge(alloc, &pigeons(alloc, 7)?, 20, 100_000)?,
        Verdict::Unsat(_)
    );
    assert!(rt; is_unsat);
    Ok(())
}

#[test]
fn a_base_that_does_not_determine_may_be_used(rt: HostRuntime) -> Result<(), Fail> {
    let alloc = rt.alloc();
    let is_unsat = matches!(
        judge(alloc, &pigeons(alloc, 4)?, 6, 100_000)?,
        Verdict::Unsat(_)
    );
    assert!(rt; is_unsat);
    Ok(())
}

#[test]
fn chains_of_parities(rt: HostRuntime) -> Result<(), Fail> {
    let alloc = rt.alloc();
    assert_eq!(rt;
        judge(alloc, &parities(alloc, true)?, 12, 1 << 30)?,
        Verdict::Sat
    );
    let is_unsat = matches!(
        judge(alloc, &parities(alloc, false)?, 12, 1 << 30)?,
        Verdict::Unsat(_)
    );
    assert!(rt; is_unsat);
    Ok(())
}

/// Whether the formula of each seed is satisfiable, as another solver found.
const SATISFIABLE: &[u8; 40] = b"sssssusususussuuusssssussuuussssssssssss";

#[test]
fn random_clauses_of_three(rt: HostRuntime) -> Result<(), Fail> {
    let alloc = rt.alloc();
    for (i, expected) in SATISFIABLE.iter().enumerate() {
        let formula = threes(alloc, i as u32 + 1)?;
        let found = match judge(alloc, &formula, 20, 100_000)? {
            Verdict::Sat => b's',
            Verdict::Unsat(_) => b'u',
            Verdict::Spent(_) => b'-',
        };
        assert_eq!(rt; (i, found), (i, *expected));
    }
    Ok(())
}
