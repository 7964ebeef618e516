//! Items come, are counted and go.

use crate::Shelf;
use std::test::Fail;

#[test]
fn items_come_and_are_changed(rt: HostRuntime) -> Result<(), Fail> {
    let mut shelf = Shelf::new(rt.alloc());
    let first = shelf.add(7u32)?;
    let second = shelf.add(8)?;
    *shelf.get_mut(second) = 9;
    assert_eq!(rt; (*shelf.get(first), *shelf.get(second)), (7, 9));
    assert_eq!(rt; shelf.added(), 2);
    Ok(())
}

#[test]
fn an_item_goes_with_its_last_count(rt: HostRuntime) -> Result<(), Fail> {
    let mut shelf = Shelf::new(rt.alloc());
    let place = shelf.add(7u32)?;
    shelf.raise(place);
    assert_eq!(rt; shelf.count(place), 2);
    assert_eq!(rt; shelf.lower(place), None);
    assert_eq!(rt; shelf.lower(place), Some(7));
    assert!(rt; !shelf.live(place));
    assert_eq!(rt; shelf.count(place), 0);
    Ok(())
}

#[test]
fn a_free_place_is_used_again(rt: HostRuntime) -> Result<(), Fail> {
    let mut shelf = Shelf::new(rt.alloc());
    let first = shelf.add(7u32)?;
    let second = shelf.add(8)?;
    assert_eq!(rt; shelf.lower(first), Some(7));
    let third = shelf.add(9)?;
    assert_eq!(rt; (first, second, third), (0, 1, 0));
    assert_eq!(rt; (*shelf.get(second), *shelf.get(third)), (8, 9));
    Ok(())
}
