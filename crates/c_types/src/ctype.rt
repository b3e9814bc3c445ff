//! Types as data.

use sqlite_items::Items;

/// The integer types; `long` is `Int`.
#[derive(Clone, Copy, PartialEq, Eq)]
pub enum Integer {
    /// 8 bits, signed.
    Char,
    /// 8 bits.
    UnsignedChar,
    /// 16 bits, signed.
    Short,
    /// 16 bits.
    UnsignedShort,
    /// 32 bits, signed.
    Int,
    /// 32 bits.
    Unsigned,
}

/// What a type begins with.
#[derive(Clone, Copy, PartialEq, Eq)]
pub enum Base {
    /// No value.
    Void,
    /// An integer type.
    Integer(Integer),
}

/// A step from a type to one that is made of it.
#[cycle(types)]
#[derive(Drop)]
pub enum Layer {
    /// A pointer to it.
    Pointer,
    /// An array of so many of it.
    Array(u32),
    /// A function that returns it and takes arguments of these types.
    Function(Items<CType>),
    /// A function that returns it and takes any arguments.
    Unlisted,
    /// A specification whose value has it.
    Cspec,
    /// A variable of generated code that has it.
    Vspec,
}

/// A type: the layers over its base, the outermost last. So `int *x[3]` is the base int under a pointer, under an
/// array.
#[cycle(types)]
#[derive(Drop)]
pub struct CType {
    /// What it begins with.
    pub base: Base,
    /// What is made of the base, step by step.
    pub layers: Items<Layer>,
}
