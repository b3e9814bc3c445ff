//! The functions of the library, which have their names at file scope before all items of a text.

ghost use Rattle.std.specs.Prelude.{◌≡◌, [], ◌∷◌, IfOk};
ghost use Rattle.check_rules.specs.Starts as spec;
ghost use Rattle.check_types.specs.Shapes as shapes;

use c_type_refs::TypeRef;
use c_types::{Base, CType, Integer, Layer};
use check_types::{integer, over, void};
use sqlite_items::Items;
use std::alloc::{AllocError, Global};

/// A function of the library.
#[derive(Clone, Copy)]
pub enum LibraryFunction {
    /// `int getchar(void)`: the next byte of the input, or -1.
    Getchar,
    /// `int putchar(int)`: writes the argument modulo 256 as a byte.
    Putchar,
    /// `void putint(int)`: writes the argument as a decimal number.
    Putint,
    /// `void *malloc(unsigned)`: so many bytes of the heap.
    Malloc,
    /// `void exit(int)`: ends the run.
    Exit,
}

/// All functions of the library, in the order of their numbers.
pub const LIBRARY: [LibraryFunction; 5] = [
    LibraryFunction::Getchar,
    LibraryFunction::Putchar,
    LibraryFunction::Putint,
    LibraryFunction::Malloc,
    LibraryFunction::Exit,
];

impl LibraryFunction {
    /// Its number, from 0 to 4.
    pub fn number(self) -> u32
        ensures { result ≡ spec.number self }
    {
        match self {
            LibraryFunction::Getchar => 0,
            LibraryFunction::Putchar => 1,
            LibraryFunction::Putint => 2,
            LibraryFunction::Malloc => 3,
            LibraryFunction::Exit => 4,
        }
    }

    /// Its name.
    pub fn name(self) -> &'static [u8]
        ensures { result.now ≡ spec.name self }
    {
        match self {
            LibraryFunction::Getchar => b"getchar",
            LibraryFunction::Putchar => b"putchar",
            LibraryFunction::Putint => b"putint",
            LibraryFunction::Malloc => b"malloc",
            LibraryFunction::Exit => b"exit",
        }
    }

    /// The type of what it answers.
    ///
    /// # Errors
    /// Where memory is wanting.
    pub fn answer(self, alloc: Global) -> Result<TypeRef, AllocError>
        ensures { IfOk result (λ t. t ≡ spec.answer self) }
    {
        match self {
            LibraryFunction::Getchar | LibraryFunction::Putchar => {
                Ok(integer(alloc, Integer::Int))
            }
            LibraryFunction::Putint | LibraryFunction::Exit => Ok(void(alloc)),
            LibraryFunction::Malloc => over(Layer::Pointer, void(alloc)),
        }
    }

    /// The types of its parameters.
    ///
    /// # Errors
    /// Where memory is wanting.
    pub fn parameters(self, alloc: Global) -> Result<Items<CType>, AllocError>
        ensures { IfOk result (λ list. list ≡ spec.parameters self) }
    {
        match self {
            LibraryFunction::Getchar => Ok(Items::new(alloc)),
            LibraryFunction::Malloc => one(alloc, Integer::Unsigned),
            LibraryFunction::Putchar | LibraryFunction::Putint | LibraryFunction::Exit => {
                one(alloc, Integer::Int)
            }
        }
    }
}

// The list of one parameter of an integer type.
fn one(alloc: Global, kind: Integer) -> Result<Items<CType>, AllocError>
    ensures { IfOk result (λ list. list ≡ shapes.integer kind ∷ []) }
{
    let mut list = Items::new(alloc);
    list.push(CType {
        base: Base::Integer(kind),
        layers: Items::new(alloc),
    })?;
    Ok(list)
}
