//! Thirteen live intervals for twelve registers.

use icode_ops::Interval;
use linear_scan::Scanner;
use std::alloc::{AllocError, Global};

// The interval of a register that begins at the op of its number.
macro_rules! nested {
    ($reg:literal, $end:literal) => {
        Interval {
            reg: $reg,
            start: $reg,
            end: $end,
        }
    };
}

const NESTED: [Interval; 13] = [
    nested!(0, 40),
    nested!(1, 39),
    nested!(2, 38),
    nested!(3, 37),
    nested!(4, 36),
    nested!(5, 35),
    nested!(6, 34),
    nested!(7, 33),
    nested!(8, 32),
    nested!(9, 31),
    nested!(10, 30),
    nested!(11, 29),
    nested!(12, 28),
];

// Whether the thirteenth is spilled, and none of the first twelve alone.
fn is_spilled(alloc: Global) -> Result<[bool; 2], AllocError> {
    let mut scanner = Scanner::new(alloc)?;
    let mut places = [0; 14];
    scanner.scan(&NESTED, &mut places);
    let is_spilled = places == [12, 1, 2, 3, 4, 5, 6, 7, 8, 9, 10, 11, 0, 12];
    scanner.scan(&NESTED[0..12], &mut places);
    drop(scanner);
    let has_none = places == [0, 1, 2, 3, 4, 5, 6, 7, 8, 9, 10, 11, 12, 12];
    Ok([is_spilled, has_none])
}

#[test]
fn thirteenth_interval_is_spilled(rt: HostRuntime) {
    assert!(rt; is_spilled(rt.alloc()) == Ok([true; 2]));
}
