//! Functions, ticks and whole programs.

use crate::expression::{Expr, Stmt};
use sqlite_items::{Boxed, Items};

/// A function of the text.
pub struct Function {
    /// Its name.
    pub name: Items<u8>,
    /// The line of its name.
    pub line: u32,
    /// How many parameters it has, at most 8.
    pub params: u32,
    /// The bytes of its frame objects.
    pub object: u32,
    /// How many nodes its body has.
    pub size: u32,
    /// Its body: a block, whose variables begin with the parameters.
    pub body: Boxed<Stmt>,
}

impl Drop for Function {
    fn drop(self) {
        let Function {
            name: _,
            line: _,
            params: _,
            object: _,
            size: _,
            body: _,
        } = self;
    }
}

/// What stands behind a backquote.
pub enum TickBody {
    /// An expression. Where it leaves no value, the specification is a statement.
    Expression(Boxed<Expr>),
    /// A block.
    Statement(Boxed<Stmt>),
}

impl Drop for TickBody {
    fn drop(self) {
        match self {
            TickBody::Expression(a) => drop(a),
            TickBody::Statement(a) => drop(a),
        }
    }
}

/// A tick of the text.
pub struct Tick {
    /// How many nodes its body has, a splice counting as one.
    pub size: u32,
    /// What it specifies.
    pub body: TickBody,
}

impl Drop for Tick {
    fn drop(self) {
        let Tick { size: _, body: _ } = self;
    }
}

/// The parts of a typed program, as the checker puts them together. The typed tree of an accepted text is sealed:
/// `wellformed::Typed`.
pub struct TypedParts {
    /// Its functions, in the order of their definitions; the first has the number 1.
    pub functions: Items<Function>,
    /// Its ticks, in the order of the text.
    pub ticks: Items<Tick>,
    /// The bytes of its globals, then of its strings, from the first address of the object space on.
    pub image: Items<u8>,
}

impl Drop for TypedParts {
    fn drop(self) {
        let TypedParts {
            functions: _,
            ticks: _,
            image: _,
        } = self;
    }
}
