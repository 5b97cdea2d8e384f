//! Many nodes: with ample memory none are refused.

use crate::Family;
use std::test::Fail;

#[test]
fn a_million_nodes_have_places(rt: HostRuntime) -> Result<(), Fail> {
    let links = Family::new(rt.alloc(), [3, 3], 1_000_000)?;
    assert_eq!(rt; links.nodes(), 1_000_000);
    Ok(())
}

#[test]
fn lists_grow_to_a_million_nodes(rt: HostRuntime) -> Result<(), Fail> {
    let mut links = Family::new(rt.alloc(), [3, 3], 10)?;
    for _turn in 0..10 {
        links.grow(99_999)?;
    }
    assert_eq!(rt; links.nodes(), 1_000_000);
    Ok(())
}
