//! Joins and tidied tuples of the domains, as an independent reference has them.

ghost use Rattle.am_bv.specs.Words.{AreWords};

use am_bits::{Congruence, Known, Parity};
use am_bv::Width;
use am_domain::{Domain, Fields};
use am_interval::{Signed, Unsigned};
use am_pair::Pair;
use am_wrap::Wrapped;
use std::process::Abort;
use std::test::Fail;

// A line of the tables of joins has a number of bits, and joins with semicolons between them: two values, and their
// join. One of the tables of tidied tuples has raw tuples in the same way, each with the tuple that it is tidied to, or
// `none`.

static UNSIGNED_JOINS: &str = "\
2: 1 2, 0 1, 0 2
4: 3 9, 5 14, 3 14
8: 100 200, 0 255, 0 255";

static SIGNED_JOINS: &str = "\
2: 3 0, 2 3, 2 0
4: 13 2, 9 1, 9 2
8: 200 100, 128 127, 128 127";

/// There are some for each rule.
static WRAPPED_JOINS: &str = "\
2: 1 0, 3 3, 1 0; 1 3, 2 3, 1 3; 0 0, 3 0, 3 0; 3 3, 1 0, 1 0; 1 2, 3 3, 1 3; 0 0, 1 1, 0 1; 1 2, 3 0, 1 0
2: 0 0, 2 2, 0 2; 2 2, 0 1, 0 2; 1 1, 0 0, 0 1; 3 0, 0 2, 3 2; 3 1, 1 2, 3 2; 0 2, 3 1, 3 2; 2 3, 0 2, 0 3
2: 0 2, 2 0, 0 3; 1 3, 3 1, 1 0
3: 3 0, 4 4, 3 0; 7 6, 2 5, 7 6; 4 4, 6 4, 6 4; 2 2, 4 2, 4 2; 4 5, 7 0, 4 0; 1 2, 4 5, 1 5; 5 7, 2 2, 5 2
3: 1 1, 2 0, 1 0; 3 3, 0 2, 0 3; 6 6, 1 4, 1 6; 4 1, 1 2, 4 2; 4 0, 6 3, 4 3; 2 6, 1 5, 1 6; 7 1, 6 0, 6 1
3: 3 1, 5 3, 3 2; 4 1, 6 4, 4 3
4: 14 1, 3 4, 14 4; 2 5, 3 4, 2 5; 0 0, 8 8, 0 8; 8 7, 3 15, 8 7; 15 10, 1 3, 15 10; 12 11, 3 11, 12 11
4: 5 5, 13 9, 13 9; 1 3, 8 4, 8 4; 13 13, 4 4, 13 4; 4 6, 7 15, 4 15; 4 12, 15 1, 4 1; 13 6, 8 11, 13 11
4: 2 2, 9 1, 9 2; 15 1, 9 13, 9 1; 9 15, 12 8, 9 8; 14 6, 4 10, 14 10; 2 0, 1 8, 1 0; 7 14, 15 12, 15 14
4: 12 8, 6 1, 12 11; 1 9, 9 1, 1 0";

static KNOWN_JOINS: &str = "\
2: 1 2, 3 0, 1 0
4: 10 5, 11 4, 10 4
8: 240 15, 128 7, 128 7";

static PARITY_JOINS: &str = "\
2: 1, 2, 3
4: 1, 1, 1
8: 2, 3, 3";

static CONGRUENCE_JOINS: &str = "\
4: 3 1, 3 2, 0 0; 7 5, 3 1, 3 1; 7 5, 7 4, 0 0
2: 3 2, 1 0, 1 0
8: 255 200, 255 72, 127 72";

static UNSIGNED_KNOWN_JOINS: &str = "\
2: 0 2 0 0, 1 1 2 0, 0 2 0 0; 1 3 2 0, 0 2 1 0, 0 3 0 0; 2 3 1 0, 0 1 3 0, 0 3 1 0; 3 3 0 0, 1 1 2 1, 1 3 0 0
2: 2 3 1 2, 0 2 3 0, 0 3 1 0; 0 1 2 0, 3 3 0 1, 0 3 0 0
3: 1 5 0 0, 3 5 4 2, 1 5 0 0; 0 6 1 0, 7 7 0 0, 0 7 0 0; 1 6 0 1, 5 6 2 4, 1 6 0 0; 6 7 0 0, 4 5 1 0, 4 7 0 0
3: 4 7 0 0, 3 5 0 1, 3 7 0 0; 0 5 1 0, 2 6 0 2, 0 6 0 0
4: 0 10 0 0, 1 4 12 1, 0 10 0 0; 5 15 2 1, 6 12 0 2, 5 15 0 0; 6 14 8 4, 12 13 0 8, 6 14 0 0
4: 10 11 5 0, 1 2 8 1, 1 11 0 0; 1 8 14 1, 4 15 0 4, 1 15 0 0; 11 11 0 9, 1 1 10 0, 1 11 0 0";

static UNSIGNED_CONGRUENCE_JOINS: &str = "\
2: 2 3 0 0, 3 3 0 0, 2 3 0 0; 1 1 0 0, 0 1 0 0, 0 1 0 0; 1 1 0 0, 0 0 1 0, 0 1 0 0; 0 3 1 0, 1 3 1 1, 0 3 0 0
2: 0 0 0 0, 1 3 0 0, 0 3 0 0; 0 1 1 0, 1 2 3 1, 0 2 0 0
3: 1 6 0 0, 5 5 7 5, 1 6 0 0; 0 0 0 0, 5 5 3 1, 0 5 0 0; 3 4 0 0, 0 5 1 0, 0 5 0 0; 0 7 3 0, 3 6 7 3, 0 7 0 0
3: 1 5 7 1, 5 5 3 1, 1 5 3 1; 1 4 1 1, 4 5 7 4, 1 5 0 0
4: 6 11 0 0, 8 10 7 0, 6 11 0 0; 2 2 0 0, 8 15 1 0, 2 15 0 0; 8 12 3 0, 0 3 15 0, 0 12 3 0
4: 6 15 0 0, 2 8 3 2, 2 15 0 0; 11 14 7 3, 0 0 15 0, 0 14 0 0; 1 15 7 1, 2 6 1 0, 1 15 0 0";

static WRAPPED_CONGRUENCE_JOINS: &str = "\
2: 1 0 0 0, 2 1 1 0, 1 0 0 0; 0 2 3 0, 2 0 3 2, 0 3 1 0; 0 2 1 0, 2 0 1 0, 0 3 1 0; 2 1 1 0, 1 2 3 1, 2 1 0 0
2: 0 1 1 0, 3 2 0 0, 3 2 0 0; 1 1 0 0, 2 1 0 0, 2 1 0 0
3: 2 7 1 0, 6 6 1 0, 2 7 1 0; 1 1 1 1, 4 2 1 0, 4 2 0 0; 0 2 0 0, 1 3 1 1, 0 3 0 0; 4 1 1 0, 1 2 3 1, 4 2 0 0
3: 3 4 1 1, 1 0 3 1, 1 0 1 1; 4 1 7 4, 1 7 3 1, 4 3 0 0
4: 4 2 0 0, 6 11 1 0, 4 2 0 0; 1 4 7 1, 4 10 0 0, 1 10 0 0; 5 2 7 5, 7 15 7 7, 5 2 1 1
4: 7 12 15 7, 13 9 3 1, 13 12 1 1; 11 6 3 3, 12 12 15 12, 11 6 0 0; 4 8 15 4, 6 14 15 6, 4 14 1 0";

static KNOWN_TIDIES: &str = "\
3: 0 0 > 0 0; 4 1 > 4 1; 5 2 > 5 2; 3 6 > none";

static PARITY_TIDIES: &str = "\
3: 0 > none; 1 > 1; 2 > 2; 3 > 3; 4 > none; 6 > 2";

static CONGRUENCE_TIDIES: &str = "\
3: 0 0 > 0 0; 1 1 > 1 1; 7 5 > 7 5; 5 4 > 1 0; 6 3 > 0 0; 3 5 > 3 1";

static UNSIGNED_KNOWN_TIDIES: &str = "\
2: 2 1 0 1 > none; 0 3 0 1 > 1 3 0 1; 0 3 0 2 > 2 3 0 2; 0 3 2 0 > 0 1 2 0; 0 0 0 2 > none; 0 0 0 3 > none
2: 2 2 1 0 > 2 2 1 2; 0 1 2 1 > 1 1 2 1; 1 3 0 0 > 1 3 0 0
3: 6 3 1 6 > none; 0 3 5 0 > 0 2 5 0; 2 6 2 4 > 4 5 2 4; 0 7 0 6 > 6 7 0 6; 0 1 0 2 > none; 0 2 4 3 > none
3: 3 4 0 2 > 3 3 4 3; 3 3 0 1 > 3 3 4 3; 0 4 0 0 > 0 4 0 0
4: 1 10 3 4 > 4 4 11 4; 5 11 3 4 > none; 1 15 3 4 > 4 12 3 4; 5 3 12 2 > none; 0 13 1 0 > 0 12 1 0
4: 5 14 4 10 > 10 11 4 10; 3 15 5 8 > 8 10 5 8; 1 2 1 6 > none; 2 6 8 7 > none; 2 13 1 6 > 6 6 9 6
4: 9 12 6 9 > 9 9 6 9; 10 14 0 10 > 10 14 0 10";

static UNSIGNED_CONGRUENCE_TIDIES: &str = "\
2: 1 0 1 3 > none; 2 3 2 2 > 2 3 0 0; 2 3 2 0 > 2 3 0 0; 0 3 1 1 > 1 3 1 1; 2 2 3 3 > none; 2 2 3 0 > none
2: 2 2 2 3 > 2 2 3 2; 1 1 3 1 > 1 1 3 1; 1 3 1 1 > 1 3 1 1
3: 7 0 3 1 > none; 2 6 1 1 > 3 5 1 1; 0 2 2 5 > 0 2 0 0; 3 7 4 5 > 3 7 0 0; 3 6 7 0 > none; 1 4 7 0 > none
3: 5 6 5 0 > 6 6 7 6; 0 6 7 2 > 2 2 7 2; 3 5 1 1 > 3 5 1 1
4: 4 1 8 11 > none; 2 8 12 11 > 2 8 0 0; 3 7 12 9 > 3 7 0 0; 1 7 13 10 > 2 6 1 0; 13 13 1 4 > none
4: 3 14 15 1 > none; 5 6 3 5 > 5 5 15 5; 5 5 12 2 > 5 5 15 5; 5 13 1 1 > 5 13 1 1";

static WRAPPED_CONGRUENCE_TIDIES: &str = "\
2: 0 3 1 0 > 0 2 1 0; 2 1 0 1 > 2 1 0 0; 3 0 0 2 > 3 0 0 0; 0 2 3 3 > none; 0 0 3 2 > none; 1 2 1 0 > 2 2 3 2
2: 3 1 3 1 > 1 1 3 1; 3 2 0 0 > 3 2 0 0
3: 1 3 5 3 > 1 3 1 1; 7 1 2 6 > 7 1 0 0; 0 6 2 4 > 0 6 0 0; 2 3 7 7 > none; 2 2 1 1 > none; 4 4 0 1 > 4 4 7 4
3: 0 3 3 4 > 0 0 7 0; 1 2 0 0 > 1 2 0 0
4: 10 7 2 6 > 10 7 0 0; 9 5 0 9 > 9 5 0 0; 11 8 13 1 > 11 7 1 1; 0 8 15 9 > none; 2 2 1 13 > none
4: 11 5 7 2 > 2 2 15 2; 8 7 15 10 > 10 10 15 10; 12 0 1 0 > 12 0 1 0";

/// Puts the low bits of a byte at the end of a row of at most four words.
fn add(w: Width, row: &mut Fields, byte: u8)
    requires { AreWords w row.old }
    ensures { AreWords w row.new }
{
    if row.len() < 4 {
        row.push(w.truncate(byte));
    }
}

/// A row of the numbers of a text.
fn row(w: Width, text: &str) -> Fields
    ensures { AreWords w result }
{
    let mut row = Fields::new();
    for number in text.split_whitespace() {
        add(w, &mut row, number.parse().unwrap_or(0));
    }
    row
}

fn width(bits: &str) -> Result<Width, Fail> {
    Ok(Width::new(bits.parse().unwrap_or(0)).ok_or("no width")?)
}

fn check_join<D: Domain>(rt: &impl Abort, domain: &D, w: Width, join: &str) -> Result<(), Fail> {
    let (first, others) = join.split_once(", ").ok_or("one value")?;
    let (second, joined) = others.split_once(", ").ok_or("no join")?;
    let (a, b) = (row(w, first), row(w, second));
    let fields = domain.fields();
    assert!(rt; a.len() == fields && b.len() == fields);
    assert!(rt; domain.valid(w, &a) && domain.valid(w, &b));
    assert!(rt; domain.join(w, &a, &b) == row(w, joined), "{join}");
    Ok(())
}

fn check_joins<D: Domain>(rt: &impl Abort, domain: &D, table: &str) -> Result<(), Fail> {
    for line in table.lines() {
        let (bits, joins) = line.split_once(": ").ok_or("no bits")?;
        let w = width(bits)?;
        for join in joins.split("; ") {
            check_join(rt, domain, w, join)?;
        }
    }
    Ok(())
}

fn check_tidy<D: Domain>(rt: &impl Abort, domain: &D, w: Width, tuples: &str) -> Result<(), Fail> {
    let (raw, tidied) = tuples.split_once(" > ").ok_or("one tuple")?;
    let raw = row(w, raw);
    assert!(rt; raw.len() == domain.fields());
    match domain.tidy(w, &raw) {
        Some(found) => assert!(rt; found == row(w, tidied), "{tuples}"),
        None => assert!(rt; tidied == "none", "{tuples}"),
    }
    Ok(())
}

fn check_tidies<D: Domain>(rt: &impl Abort, domain: &D, table: &str) -> Result<(), Fail> {
    for line in table.lines() {
        let (bits, tidies) = line.split_once(": ").ok_or("no bits")?;
        let w = width(bits)?;
        for tuples in tidies.split("; ") {
            check_tidy(rt, domain, w, tuples)?;
        }
    }
    Ok(())
}

#[test]
fn joins_are_those_of_the_reference(rt: HostRuntime) -> Result<(), Fail> {
    check_joins(&rt, &Unsigned, UNSIGNED_JOINS)?;
    check_joins(&rt, &Signed, SIGNED_JOINS)?;
    check_joins(&rt, &Wrapped, WRAPPED_JOINS)?;
    check_joins(&rt, &Known, KNOWN_JOINS)?;
    check_joins(&rt, &Parity, PARITY_JOINS)?;
    check_joins(&rt, &Congruence, CONGRUENCE_JOINS)
}

#[test]
fn joins_of_pairs_are_those_of_the_reference(rt: HostRuntime) -> Result<(), Fail> {
    check_joins(&rt, &Pair::new(Unsigned, Known), UNSIGNED_KNOWN_JOINS)?;
    check_joins(
        &rt,
        &Pair::new(Unsigned, Congruence),
        UNSIGNED_CONGRUENCE_JOINS,
    )?;
    check_joins(
        &rt,
        &Pair::new(Wrapped, Congruence),
        WRAPPED_CONGRUENCE_JOINS,
    )
}

#[test]
fn tuples_are_tidied_as_the_reference_has_it(rt: HostRuntime) -> Result<(), Fail> {
    check_tidies(&rt, &Known, KNOWN_TIDIES)?;
    check_tidies(&rt, &Parity, PARITY_TIDIES)?;
    check_tidies(&rt, &Congruence, CONGRUENCE_TIDIES)?;
    check_tidies(&rt, &Pair::new(Unsigned, Known), UNSIGNED_KNOWN_TIDIES)?;
    check_tidies(
        &rt,
        &Pair::new(Unsigned, Congruence),
        UNSIGNED_CONGRUENCE_TIDIES,
    )?;
    check_tidies(
        &rt,
        &Pair::new(Wrapped, Congruence),
        WRAPPED_CONGRUENCE_TIDIES,
    )
}
