//! The account of errors.

use crate::{ErrorMode, Note, NoteBook, Part};
use pdata_tree::{Context, Place};
use pdata_value::EvalErr;
use std::test::Fail;

// A note of that statement.
fn note(index: u32) -> Note {
    let place = Place {
        resource: 0,
        scope: 1,
        log: 2,
    };
    Note {
        part: Part::Statement,
        group: 0,
        index,
        context: Context::Log,
        place,
        err: EvalErr::DivideByZero,
    }
}

#[test]
fn the_first_eight_errors_are_noted(rt: HostRuntime) -> Result<(), Fail> {
    let mut book = NoteBook::new();
    for index in 0..10 {
        book.put(note(index));
    }
    assert_eq!(rt; book.count(), 10);
    assert_eq!(rt; book.notes().len(), 8);
    Ok(())
}

#[test]
fn a_copy_is_a_book_of_its_own(rt: HostRuntime) -> Result<(), Fail> {
    let mut book = NoteBook::new();
    book.put(note(0));
    let mut copy = book.copy();
    copy.put(note(1));
    assert_eq!(rt; copy.count(), 2);
    assert_eq!(rt; copy.notes().len(), 2);
    assert_eq!(rt; copy.notes().first(), book.notes().first());
    assert_eq!(rt; book.count(), 1);
    Ok(())
}

#[test]
fn modes_say_whether_the_work_goes_on(rt: HostRuntime) -> Result<(), Fail> {
    for (mode, goes_on, count) in [
        (ErrorMode::Ignore, true, 1),
        (ErrorMode::Silent, true, 0),
        (ErrorMode::Propagate, false, 0),
    ] {
        let mut book = NoteBook::new();
        assert_eq!(rt; book.meet(mode, note(0)).is_ok(), goes_on, "{mode:?}");
        assert_eq!(rt; book.count(), count, "{mode:?}");
    }
    Ok(())
}
