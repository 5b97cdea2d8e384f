//! How alerts are printed.

use crate::Alert;
use std::test::Fail;

#[test]
fn alerts_are_told_in_plain_words(rt: HostRuntime) -> Result<(), Fail> {
    let text = format!(in rt.alloc(); "{}", Alert::SequenceSpent)?;
    assert_eq!(rt; text.as_str(), "sequence numbers are spent");
    assert_eq!(rt; Alert::SequenceSpent.number(), 2);
    assert_eq!(rt; Alert::NoMemory.number(), 15);
    Ok(())
}
