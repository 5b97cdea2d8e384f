//! Letters between posts and an inbox, and what no clause promises: that a call returns.

use crate::{Inbox, mailbox};
use std::alloc::AllocError;
use std::test::*;
use std::thread;

/// Returns an inbox with places for 4 numbers.
fn four_places(rt: &HostRuntime) -> Result<Inbox<u64>, AllocError> {
    mailbox(rt.alloc(), 4)
}

#[test]
fn messages_of_two_posts_come_in_their_order(rt: HostRuntime) -> Result<(), Fail> {
    let mut inbox = four_places(&rt)?;
    let mut one = inbox.post()?;
    let mut two = inbox.post()?;
    assert_eq!(rt; one.send(&rt, 1), Ok(()));
    assert_eq!(rt; two.send(&rt, 11), Ok(()));
    assert_eq!(rt; one.send(&rt, 2), Ok(()));
    assert_eq!(rt; inbox.next(&rt), Some(1));
    assert_eq!(rt; inbox.next(&rt), Some(11));
    assert_eq!(rt; inbox.try_next(&rt), Some(2));
    assert_eq!(rt; inbox.try_next(&rt), None);
    Ok(())
}

#[test]
fn a_message_without_a_place_comes_back(rt: HostRuntime) -> Result<(), Fail> {
    let mut inbox = four_places(&rt)?;
    let mut post = inbox.post()?;
    for number in 0..4u64 {
        assert_eq!(rt; post.send(&rt, number), Ok(()));
    }
    assert_eq!(rt; post.send(&rt, 4), Err(4));
    assert_eq!(rt; inbox.next(&rt), Some(0));
    assert_eq!(rt; post.send(&rt, 4), Ok(()));
    Ok(())
}

#[test]
fn a_message_of_another_thread_wakes_the_inbox(rt: HostRuntime) -> Result<(), Fail> {
    let mut inbox = four_places(&rt)?;
    let mut post = inbox.post()?;
    let (_, got) = thread::join(&rt, || post.send(&rt, 7), || inbox.next(&rt));
    assert_eq!(rt; got, Some(7));
    Ok(())
}
