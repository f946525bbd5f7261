//! The worked rows of the pool: what is refused, at which moment, and what comes back.
use crate::{EdgePool, PoolFault};
use std::alloc::Global;
use std::process::Abort;

#[test]
fn takes_until_full(rt: HostRuntime) {
    let mut pool = EdgePool::with_cells(rt.alloc(), 4).expect(&rt, "memory");
    let first = pool.take(1).expect(&rt, "one of four cells");
    let _second = pool.take(2).expect(&rt, "two of three cells");
    assert!(&rt; pool.take(2).is_err());
    assert_eq!(&rt; pool.uncut(), 1);
    let _third = pool.take(1).expect(&rt, "the last cell");
    assert!(&rt; pool.take(1).is_err());
    pool.give(first);
    assert_eq!(&rt; pool.spare(1), 1);
    assert!(&rt; pool.take(1).is_ok());
    assert_eq!(&rt; pool.spare(1), 0);
}

#[test]
fn refuses_to_grow(rt: HostRuntime) {
    let mut pool = EdgePool::with_cells(rt.alloc(), 4).expect(&rt, "memory");
    assert!(&rt; pool.reserve(2, 2).is_ok());
    assert!(&rt; pool.reserve(1, 1) == Err(PoolFault::Full));
    let block = pool.take(2).expect(&rt, "a reserved block");
    match pool.grow(block, 3) {
        Ok(_) => panic!(&rt; "no block of four cells is left"),
        Err((back, _)) => assert_eq!(&rt; pool.read(&back, 1), (0, 0)),
    }
}

#[test]
fn grows_in_place_and_elsewhere(rt: HostRuntime) {
    let mut pool = EdgePool::with_cells(rt.alloc(), 12).expect(&rt, "memory");
    let block = pool.take(3).expect(&rt, "a block of four cells");
    pool.write(&block, 2, (9, 9));
    let Ok(wider) = pool.grow(block, 4) else {
        panic!(&rt; "the class stays")
    };
    assert_eq!(&rt; pool.uncut(), 8);
    let Ok(longer) = pool.grow(wider, 5) else {
        panic!(&rt; "eight cells are left")
    };
    assert_eq!(&rt; pool.cells(&longer)[2], (9, 9));
    assert_eq!(&rt; pool.read(&longer, 4), (0, 0));
    assert_eq!(&rt; pool.uncut(), 0);
    assert_eq!(&rt; pool.spare(4), 1);
}
