//! Loans of one place.

use shared_bytes::{Marked, are_one};
use sqlite_items::Items;
use std::alloc::{AllocError, Global};
use std::rc::Rc;

fn marked(alloc: Global) -> Result<Rc<Marked>, AllocError> {
    let bytes = Items::from_slice(alloc, b"int")?;
    Ok(Rc::new(alloc, Marked::new(bytes))?)
}

// Which of two handles of one place and one of another are of one place. Each mark is behind it as it was.
fn are_of_one_place(one: &Rc<Marked>, again: &Rc<Marked>, other: &Rc<Marked>) -> [bool; 8] {
    [
        are_one(one, again),
        are_one(again, one),
        are_one(one, one),
        are_one(one, other),
        are_one(other, again),
        are_one(one, again),
        are_one(other, other),
        again.bytes() == b"int".as_slice(),
    ]
}

fn told(alloc: Global) -> Result<[bool; 8], AllocError> {
    let one = marked(alloc)?;
    let other = marked(alloc)?;
    let again = one.clone()?;
    Ok(are_of_one_place(&one, &again, &other))
}

#[test]
fn handles_of_one_place_are_told_from_the_same_bytes_elsewhere(rt: HostRuntime) {
    let wanted = [true, true, true, false, false, true, true, true];
    assert!(rt; told(rt.alloc()) == Ok(wanted));
}
