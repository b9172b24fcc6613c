//! A trail and an order of variables by example, by the calls that the solver doesn't make.

use am_lit::Lit;
use am_trail::{Order, Trail};
use std::test::Fail;

#[test]
fn a_trail_begins_with_what_was_decided(rt: HostRuntime) -> Result<(), Fail> {
    let mut trail = Trail::new(rt.alloc(), 4)?;
    let was_empty = trail.is_empty();
    trail.decide(Lit::new(3, true));
    assert!(rt; was_empty && trail.entry(0).literal.code() == 7);
    Ok(())
}

#[test]
fn halves_that_are_the_same_go_by_number(rt: HostRuntime) -> Result<(), Fail> {
    let mut order = Order::new(rt.alloc(), 4)?;
    order.raise_by(3, 5);
    order.raise_by(1, 4);
    order.raise_by(2, 6);
    order.halve();
    assert_eq!(rt; (order.activity(2), order.take_first()), (3, Some(2)));
    assert_eq!(rt;
        (order.take_first(), order.take_first()),
        (Some(1), Some(3))
    );
    Ok(())
}
