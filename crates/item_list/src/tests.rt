//! Each call once, at bytes.

use crate::ItemList;
use std::test::Fail;

#[test]
fn lists_grow_and_shrink(rt: HostRuntime) -> Result<(), Fail> {
    let mut list = ItemList::new(rt.alloc());
    assert!(rt; list.is_empty());
    assert_eq!(rt; ItemList::<u8>::new(list.allocator()).len(), 0);
    list.push(1u8)?;
    list.push(2)?;
    list.append(ItemList::from_slice(rt.alloc(), &[3, 4])?)?;
    list.insert(0, 9)?;
    assert_eq!(rt; list.as_slice(), [9, 1, 2, 3, 4].as_slice());
    assert_eq!(rt; list.take(), Some(4));
    assert_eq!(rt; list.remove(1), 1);
    list.truncate(2);
    assert_eq!(rt; list.into_vec().as_slice(), [9, 2].as_slice());
    Ok(())
}

#[test]
fn places_are_read_and_written(rt: HostRuntime) -> Result<(), Fail> {
    let mut list = ItemList::with_capacity(rt.alloc(), 3)?;
    list.append(ItemList::from_vec(vec![in rt.alloc(); 5u8, 6, 7]?))?;
    assert_eq!(rt; list.len(), 3);
    *list.at_mut(0) = 1;
    assert_eq!(rt; list.replace(1, 2), 6);
    list.set(2, 3);
    assert_eq!(rt; list.at(2).copied(), Some(3));
    assert_eq!(rt; list.at(3).copied(), None);
    list.retain(|item| *item != 2);
    assert_eq!(rt; list.as_slice(), [1, 3].as_slice());
    Ok(())
}
