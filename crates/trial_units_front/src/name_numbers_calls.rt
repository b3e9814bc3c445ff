//! The numbers of names.

use name_numbers::Names;
use std::alloc::{AllocError, Global};

// A number that a name was given, or 8 where memory ended.
fn given(number: Result<usize, AllocError>) -> usize {
    match number {
        Ok(number) => number,
        Err(_) => 8,
    }
}

// The number that a name has, or 9.
fn found(number: Option<usize>) -> usize {
    match number {
        Some(number) => number,
        None => 9,
    }
}

// The numbers of a second name and of the first; then those that both have, and a third one hasn't.
fn number_two(alloc: Global, names: &mut Names) -> [usize; 5] {
    let second = given(names.number(alloc, b"second"));
    let first = given(names.number(alloc, b"first"));
    [
        second,
        first,
        found(names.find(b"second")),
        found(names.find(b"first")),
        found(names.find(b"third")),
    ]
}

// Whether a first name was added, and those numbers.
fn numbers(alloc: Global) -> (bool, [usize; 5]) {
    let mut names = Names::new(alloc);
    let is_added = names.add(alloc, b"first").is_ok();
    let numbers = number_two(alloc, &mut names);
    drop(names);
    (is_added, numbers)
}

#[test]
fn names_have_their_places(rt: HostRuntime) {
    assert!(rt; numbers(rt.alloc()) == (true, [1, 0, 1, 0, 9]));
}
