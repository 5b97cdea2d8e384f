//! Lists by index: a random walk beside plain vectors.
ghost use Rattle.std.specs.Prelude.{◌≡◌, ℕ, ◌<◌, ◌^◌, length};
ghost use Rattle.idx_links.specs.Families.{lists_of};

use crate::Family;
use std::alloc::{AllocError, Global};
use std::test::Fail;

mod large;

const LISTS: usize = 3;

// Two families of three lists, queried only for existing nodes.
#[derive(Drop)]
struct Lists {
    links: Family<2>,
    nodes: usize,
    ghost sized: { (k : ℕ) → k < 2 → length (lists_of links k) ≡ 3 },
    ghost counted: { links.nodes ≡ nodes },
}

impl Lists {
    fn new(alloc: Global, nodes: usize) -> Result<Lists, AllocError>
        requires { nodes < 2 ^ 62 }
    {
        let links = Family::new(alloc, [LISTS, LISTS], nodes)?;
        Ok(Lists { links, nodes })
    }

    fn grow(&mut self, more: usize) -> Result<(), AllocError> {
        if self.nodes >= 1 << 62 || more >= 1 << 62 {
            return Err(AllocError);
        }
        self.links.grow(more)?;
        self.nodes += more;
        Ok(())
    }

    // Returns false if there is no such list or node, or if the node is on a list of the family.
    fn push_back(&mut self, family: usize, list: usize, node: usize) -> bool {
        if family >= 2 || list >= LISTS || node >= self.nodes {
            return false;
        }
        if self.links.list_of(family, node).is_some() {
            return false;
        }
        self.links.push_back(family, list, node);
        true
    }

    // False where the node is on no list of the family.
    fn unlink(&mut self, family: usize, node: usize) -> bool {
        if family >= 2 || node >= self.nodes {
            return false;
        }
        let Some(_list) = self.links.list_of(family, node) else {
            return false
        };
        self.links.unlink(family, node);
        true
    }

    // Whether the list holds these nodes in this order.
    fn is_list(&self, family: usize, list: usize, nodes: &[usize]) -> bool {
        if family >= 2 || list >= LISTS || self.links.len(family, list) != nodes.len() {
            return false;
        }
        let mut at = self.links.front(family, list);
        for want in nodes {
            let Some(node) = at else { return false };
            if node != *want || node >= self.nodes {
                return false;
            }
            let Some(_list) = self.links.list_of(family, node) else {
                return false
            };
            at = self.links.next(family, node);
        }
        at.is_none()
    }
}

// Lists, by the first try that isn't refused memory.
fn made(alloc: Global, nodes: usize) -> Option<Lists>
    requires { nodes < 2 ^ 62 }
{
    for _ in 0..40 {
        if let Ok(lists) = Lists::new(alloc, nodes) {
            return Some(lists);
        }
    }
    None
}

#[test]
fn node_leaves_one_family_and_stays_in_the_other(rt: HostRuntime) -> Result<(), Fail> {
    let mut lists = made(rt.alloc(), 4).ok_or("no lists")?;
    for node in [2, 0, 3] {
        assert!(rt; lists.push_back(0, 1, node) && lists.push_back(1, 2, node));
    }
    assert!(rt; !lists.push_back(0, 0, 2), "on a list already");
    assert!(rt; lists.unlink(0, 0) && !lists.unlink(0, 0));
    assert!(rt; lists.is_list(0, 1, &[2, 3]) && lists.is_list(1, 2, &[2, 0, 3]));
    assert!(rt; lists.push_back(0, 1, 0) && lists.unlink(0, 2));
    assert!(rt; lists.is_list(0, 1, &[3, 0]) && lists.is_list(0, 0, &[]));
    Ok(())
}

#[test]
fn more_places_than_32_bits_count_are_refused(rt: HostRuntime) -> Result<(), Fail> {
    assert!(rt; Lists::new(rt.alloc(), 1 << 31).is_err());
    assert!(rt; Lists::new(rt.alloc(), 1 << 61).is_err());
    let mut lists = made(rt.alloc(), 2).ok_or("no lists")?;
    assert!(rt; lists.push_back(0, 1, 1) && lists.grow(1 << 31).is_err());
    assert!(rt; lists.is_list(0, 1, &[1]) && !lists.push_back(1, 0, 2));
    Ok(())
}

// Each call comes just after a refused growth.
#[test]
fn calls_succeed_while_growth_is_refused(rt: HostRuntime) -> Result<(), Fail> {
    let mut lists = made(rt.alloc(), 3).ok_or("no lists")?;
    for node in [1, 0, 2] {
        assert!(rt; lists.grow(1 << 61).is_err() && lists.push_back(1, 2, node));
    }
    assert!(rt; lists.grow(1 << 61).is_err() && lists.is_list(1, 2, &[1, 0, 2]));
    assert!(rt; lists.grow(1 << 61).is_err() && lists.unlink(1, 0));
    assert!(rt; lists.grow(1 << 61).is_err() && lists.is_list(1, 2, &[1, 2]));
    assert!(rt; lists.grow(1 << 61).is_err() && !lists.push_back(1, 0, 3));
    Ok(())
}

// Run with each allocation refused in turn: a refused call leaves the lists unchanged.
#[test]
fn lists_stay_where_memory_is_refused(rt: HostRuntime) -> Result<(), Fail> {
    let mut lists = made(rt.alloc(), 2).ok_or("no lists")?;
    assert!(rt; lists.push_back(0, 1, 1) && lists.push_back(0, 1, 0));
    for _ in 0..40 {
        if lists.grow(2).is_ok() {
            break;
        }
        assert!(rt; lists.is_list(0, 1, &[1, 0]) && !lists.push_back(1, 0, 2));
    }
    assert!(rt; lists.push_back(0, 1, 3) && lists.is_list(0, 1, &[1, 0, 3]));
    Ok(())
}
