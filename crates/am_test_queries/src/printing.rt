//! Canonical texts of certificates, as an independent reference prints them, and the texts of errors.

use am_cert::{CheckFail, MOST_BYTES, print_certificate, read_certificate};
use am_query::Fault;
use am_syntax::{ReadError, Refusal};
use am_text::Writer;
use std::alloc::Global;
use std::test::Fail;

macro_rules! lines {
    ($($line:literal)*) => { concat!($($line, "\n"),*) };
}

/// Both kinds of turns, a query with an example, and numbers up to the largest.
static SPENT: &str = lines! {
    "certificate 2"
    "amurth 1"
    "width 2"
    "operation 1 (not x0)"
    "domain u-interval"
    "start L H"
    "depth 1"
    "turns 3"
    "conflicts 100000"
    "rule L (not f1) (not f0) 0"
    "rule H (not f0) 3"
    "end"
    "answer conflicts"
    "negative 0 3 in 1 1 out 0"
    "negative (not f1) (not f0) in 2 2 out 1"
    "positive 0 (not f0) in 0 3 word 3 kept 1"
    "query keep 0 (not f0) in 0 3 word 3 kept 0"
    "log spent"
    "chain 0"
    "chain 4294967295 2 17 4294967295 0"
    "end"
};

/// Terms, two logs, and one of them without chains.
static CLAIMED: &str = lines! {
    "certificate 1"
    "amurth 1"
    "width 2"
    "operation 1 (not x0)"
    "domain u-interval"
    "start L H"
    "depth 1"
    "turns 40"
    "conflicts 100000"
    "rule L (not f1) (not f0) 0"
    "rule H (not f0) 3"
    "end"
    "answer best"
    "term (not f1)"
    "term (not f0)"
    "negative 0 3 in 1 2 out 3"
    "log sound"
    "chain 108 32 102 27 82"
    "chain 20"
    "log best"
    "end"
};

/// One turn more than may be spent, which keeps nothing.
static UNFINISHED: &str = lines! {
    "certificate 1"
    "amurth 1"
    "width 2"
    "operation 1 (not x0)"
    "domain u-interval"
    "start L H"
    "depth 1"
    "turns 0"
    "conflicts 1"
    "rule L (not f1)"
    "rule H (not f0)"
    "end"
    "answer turns"
    "positive 3 0 in 1 2 word 2 kept"
    "end"
};

/// The same certificate with other spaces.
static LOOSE: &str =
    " certificate\n1 amurth 1 width 2 operation 1( not x0 )domain u-interval start L H depth 1 turns 0 conflicts 1
rule L( not f1 )rule H(not f0)end answer turns positive 3  0 in 1\n2 word 2 kept end";

/// The canonical text of a text's certificate.
fn printed(alloc: Global, text: &str) -> Result<Vec<u8>, ReadError> {
    let bytes = text.as_bytes();
    if bytes.len() > MOST_BYTES {
        return Err(ReadError::Refused(Refusal::Long));
    }
    let certificate = read_certificate(alloc, bytes)?;
    let mut out = Writer::new(alloc);
    print_certificate(&mut out, &certificate)?;
    Ok(out.finish())
}

#[test]
fn certificates_are_printed_canonically(rt: HostRuntime) -> Result<(), Fail> {
    for (text, canonical) in [
        (SPENT, SPENT),
        (CLAIMED, CLAIMED),
        (UNFINISHED, UNFINISHED),
        (LOOSE, UNFINISHED),
    ] {
        let printed = printed(rt.alloc(), text)?;
        assert_eq!(rt; printed.as_slice(), canonical.as_bytes());
    }
    Ok(())
}

#[test]
fn errors_have_texts(rt: HostRuntime) -> Result<(), Fail> {
    let alloc = rt.alloc();
    let rejected = CheckFail::Rejected(Fault::Unfinished);
    assert_eq!(rt; format!(in alloc; "{rejected}")?.as_str(), "rejected");
    assert_eq!(rt;
        format!(in alloc; "{}", CheckFail::NoMemory)?.as_str(),
        "no memory"
    );
    Ok(())
}
