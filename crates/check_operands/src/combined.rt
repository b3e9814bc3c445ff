//! How operators take two values.

use c_types::Integer;
use icode_ops::BinKind;

/// How an operator takes two values, by their types.
#[derive(Clone, Copy)]
pub enum Combined {
    /// The words as they are; the answer has this integer type.
    Words(BinKind, Integer),
    /// A pointer and an integer, which is scaled by this size in bytes.
    ScaledRight(BinKind, u32),
    /// The sum of an integer, which is scaled by this size in bytes, and a pointer.
    ScaledLeft(u32),
    /// The difference of two pointers, divided by this size in bytes.
    Divided(u32),
}

/// Which type `? a : b` has.
#[derive(Clone, Copy)]
pub enum Joined {
    /// Void, as both are.
    Void,
    /// The common type of two integers.
    Common(Integer),
    /// The type of a.
    First,
    /// The type of b.
    Second,
}
