use crate::join_large;
use std::alloc::{AllocError, Global};
use std::test::*;

// A value with so many levels, each of which takes some of the stack where it is dropped.
#[derive(Drop)]
enum Chain {
    End,
    Link(Box<Chain>),
}

fn chain_of(alloc: Global, levels: u64) -> Result<Chain, AllocError> {
    let mut all = Chain::End;
    for _ in 0..levels {
        all = Chain::Link(Box::new(alloc, all)?);
    }
    Ok(all)
}

fn is_dropped(alloc: Global, levels: u64) -> bool {
    match chain_of(alloc, levels) {
        Ok(all) => {
            drop(all);
            true
        }
        Err(_) => false,
    }
}

#[test]
fn a_deep_value_is_dropped(rt: HostRuntime) -> Result<(), Fail> {
    let alloc = rt.alloc();
    let mut calls = 0u64;
    let (dropped, called) = join_large(
        &rt,
        &mut || is_dropped(alloc, 2_000_000),
        &mut || {
            calls += 1;
            calls
        },
    );
    assert!(&rt; dropped);
    assert_eq!(&rt; called, 1);
    Ok(())
}
