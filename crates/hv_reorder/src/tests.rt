//! What no clause says: that there is room where there is memory, and worked cases.
use crate::Reorder;
use std::test::Fail;

#[test]
fn gives_items_by_number(rt: HostRuntime) -> Result<(), Fail> {
    let mut reorder = Reorder::new(rt.alloc(), 3)?;
    reorder.put(1, 'b');
    assert_eq!(rt; reorder.next(), None);
    reorder.put(0, 'a');
    assert_eq!(rt; reorder.next(), Some('a'));
    assert_eq!(rt; reorder.next(), Some('b'));
    assert_eq!(rt; reorder.next(), None);
    reorder.put(2, 'c');
    assert_eq!(rt; reorder.next(), Some('c'));
    assert_eq!(rt; reorder.next(), None);
    Ok(())
}

#[test]
fn of_no_items(rt: HostRuntime) -> Result<(), Fail> {
    let mut reorder = Reorder::<u8>::new(rt.alloc(), 0)?;
    assert_eq!(rt; reorder.next(), None);
    Ok(())
}

/// The one allocation is that of `new`: where it is refused, the answer is that there was not
/// enough memory.
#[test]
fn answers_want_of_memory(rt: HostRuntime) {
    let _ = Reorder::<u8>::new(rt.alloc(), 64);
}
