//! Rows with equal keys.

use linked_row::Row;
use std::alloc::{AllocError, Global};

// Whether entries with equal keys stand in the order of insertion: the first of three, what follows each, and, without
// the one in the middle, what follows the first and the last.
fn middle_goes(alloc: Global) -> Result<bool, AllocError> {
    let mut row = Row::new(alloc, 8)?;
    row.insert_sorted(5, 30);
    row.insert_sorted(6, 10);
    row.insert_sorted(7, 30);
    let first = row.first();
    let second = row.next(6);
    let third = row.next(5);
    row.remove(5);
    let left = [row.next(6), row.last()];
    drop(row);
    Ok(
        [first, second, third, left[0], left[1]]
            == [
                Some((6, 10)),
                Some((5, 30)),
                Some((7, 30)),
                Some((7, 30)),
                Some((7, 30)),
            ],
    )
}

// Whether the second of three of one key isn't held once it is removed, and what follows the first and the third.
fn second_goes(alloc: Global) -> Result<bool, AllocError> {
    let mut row = Row::new(alloc, 3)?;
    row.insert_sorted(0, 5);
    row.insert_sorted(1, 5);
    row.insert_sorted(2, 5);
    row.remove(1);
    let left = [row.first(), row.next(0), row.next(2)];
    let is_held = row.holds(1);
    drop(row);
    Ok(!is_held && left == [Some((0, 5)), Some((2, 5)), None])
}

#[test]
fn entries_follow_one_another(rt: HostRuntime) {
    let are_so = [middle_goes(rt.alloc()), second_goes(rt.alloc())];
    assert!(rt; are_so == [Ok(true), Ok(true)]);
}
