//! The functions of the program: their numbers, and which prototypes have one.

use check_scopes::Scopes;
use sqlite_items::Items;
use typed_tree::Function;

/// A prototype of the text.
pub struct Prototype {
    /// The line of its declaration.
    pub line: u32,
    /// The name of its function.
    pub name: Items<u8>,
}

impl Drop for Prototype {
    fn drop(self) {
        let Prototype { line: _, name: _ } = self;
    }
}

/// What the walk knows of the functions of the program. After an error it is not to be used any more.
#[derive(Drop)]
pub struct Functions {
    /// The functions defined so far, with their numbers: one scope.
    pub defined: Scopes,
    /// Those that an earlier walk found.
    pub earlier: Scopes,
    /// The prototypes so far, in the order of the text.
    pub prototypes: Items<Prototype>,
    /// The functions that the walk has left.
    pub all: Items<Function>,
}
