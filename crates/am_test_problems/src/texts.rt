//! Numbers, names and terms that are read alone, and the texts of errors.

use am_bv::{Term, Width};
use am_syntax::{Letter, ReadError, Refusal, TermLimits, open, read_name, read_number, read_term};
use std::alloc::Global;
use std::test::Fail;

/// The term of a text at width 3 over four fields.
fn term(alloc: Global, text: &[u8]) -> Result<Term, ReadError> {
    let limits = TermLimits {
        letter: Letter::F,
        variables: 4,
        nodes: 64,
        nesting: 128,
    };
    let mut cursor = open(text)?;
    let w = Width::new(3).ok_or(ReadError::NoMemory)?;
    read_term(alloc, &mut cursor, w, &limits)
}

#[test]
fn numbers_names_and_terms_are_read_alone(rt: HostRuntime) -> Result<(), Fail> {
    let mut number = open(b"18446744073709551615")?;
    assert_eq!(rt; read_number(&mut number, u64::MAX), Ok(u64::MAX));
    let mut name = open(b"Abcdefghij1234567")?;
    assert_eq!(rt; read_name(&mut name), Err(Refusal::Syntax(0)));
    assert_eq!(rt; term(rt.alloc(), b"(add f3 (not 7))")?.nodes(), 4);
    Ok(())
}

#[test]
fn errors_have_texts(rt: HostRuntime) -> Result<(), Fail> {
    assert_eq!(rt;
        format!(in rt.alloc(); "{}", ReadError::Refused(Refusal::Long))?.as_str(),
        "refused"
    );
    assert_eq!(rt;
        format!(in rt.alloc(); "{}", ReadError::NoMemory)?.as_str(),
        "no memory"
    );
    Ok(())
}
