//! Made problems, as an independent reference has them.

use am_problem::{LAST_PROBLEM, make_problem, print_problem};
use am_text::Writer;
use std::alloc::{AllocError, Global};
use std::test::Fail;

/// A checksum, and then the bytes of a text.
fn and_then(checksum: u32, text: &[u8]) -> u32 {
    let mut sum = checksum;
    for byte in text {
        sum = sum
            .wrapping_mul(33)
            .wrapping_add(u32::from(*byte))
            .wrapping_add(1);
    }
    sum
}

/// The canonical text of a number's problem.
fn made_text(alloc: Global, n: u32) -> Result<Vec<u8>, AllocError> {
    let problem = make_problem(alloc, n.min(LAST_PROBLEM))?;
    let mut out = Writer::new(alloc);
    print_problem(&mut out, &problem)?;
    Ok(out.finish())
}

#[test]
fn made_problems_are_those_of_the_reference(rt: HostRuntime) -> Result<(), Fail> {
    let mut checksum = 0;
    for i in 0..40_u32 {
        let text = made_text(rt.alloc(), i * 25_639)?;
        checksum = and_then(checksum, text.as_slice());
    }
    assert_eq!(rt; checksum, 182_675_802);
    Ok(())
}
