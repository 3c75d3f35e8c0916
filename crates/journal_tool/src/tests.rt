// A journal as lines and back.
use crate::decode::listing;
use crate::encode::journal_of;
use std::test::Fail;

const TEXT: &str =
    "0 offer 100 0 1 10 4\n7 withdraw 100 0 1\n12 revise 105 15 1 -1 4\n19 settle 281474976710655\n28 note bowl \\5c 3\\0a\n39 ask\n";

#[test]
fn there_and_back(rt: HostRuntime) -> Result<(), Fail> {
    let heap = rt.alloc();
    let journal = journal_of(heap, TEXT)?;
    assert_eq!(rt; journal.len(), 41);
    let text = listing(heap, &journal)?;
    assert!(rt; text.as_str() == TEXT);
    Ok(())
}
