//! Values at the edges of the words, and constants by their nodes.

use crate::nodes::word;
use icode_ops::{BinKind, UnKind};
use meaning_operators::{binary_value, constant_value, unary_value};
use sqlite_items::Boxed;
use std::alloc::{AllocError, Global};
use typed_tree::{Expr, binary, unary};

fn sum(alloc: Global) -> Result<Boxed<Expr>, AllocError> {
    let a = word(alloc, 4294967295)?;
    let b = word(alloc, 3)?;
    binary(alloc, BinKind::Add, a, b)
}

fn trap(alloc: Global) -> Result<Boxed<Expr>, AllocError> {
    let a = sum(alloc)?;
    let b = word(alloc, 0)?;
    binary(alloc, BinKind::DivideSigned, a, b)
}

// The values of a sum, of a number as a char, of a division by 0, and of a variable.
fn values(alloc: Global) -> Result<[Option<u32>; 4], AllocError> {
    let sum = constant_value(sum(alloc)?.get());
    let letter = constant_value(unary(alloc, UnKind::SignedByte, word(alloc, 200)?)?.get());
    let trap = constant_value(trap(alloc)?.get());
    Ok([sum, letter, trap, constant_value(&Expr::Var(0))])
}

#[test]
fn operators_on_numbers_have_their_values(rt: HostRuntime) {
    // divisions that trap have none
    let found = [
        binary_value(BinKind::DivideSigned, 2147483648, 4294967295),
        binary_value(BinKind::RemainderUnsigned, 1, 0),
        binary_value(BinKind::DivideSigned, 4294967289, 2),
        binary_value(BinKind::ShiftRightSigned, 2147483648, 31),
        Some(unary_value(UnKind::SignedHalf, 98304)),
    ];
    assert!(rt;
        found
            == [
                None,
                None,
                Some(4294967293),
                Some(4294967295),
                Some(4294934528),
            ]
    );
    assert!(rt; values(rt.alloc()) == Ok([Some(2), Some(4294967240), None, None]));
}
