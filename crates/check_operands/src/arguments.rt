//! The arguments of a call, and what it goes to.

ghost use Rattle.std.specs.Prelude.{◌≡◌, IfOk};
ghost use Rattle.check_operands.specs.Calls as spec;

use crate::operand::Value;
use c_type_refs::TypeRef;
use sqlite_items::{Boxed, Items};
use std::alloc::{AllocError, Global};
use typed_tree::Expr;

/// What the rules ask of an argument beside its node.
#[derive(Drop)]
pub struct Argument {
    /// Its type.
    pub ctype: TypeRef,
    /// Whether it is the literal 0.
    pub zero: bool,
}

/// The arguments of a call, in their order.
#[derive(Drop)]
pub struct Arguments {
    /// Their nodes.
    pub codes: Items<Expr>,
    /// Their types.
    pub types: Items<Argument>,
}

/// What a call goes to.
#[derive(Drop)]
pub enum Callee {
    /// The function of this number, by its plain name.
    Static(u32),
    /// The function whose number this node gives.
    Number(Boxed<Expr>),
}

impl Arguments {
    /// No arguments.
    pub fn new(alloc: Global) -> Arguments
        ensures { result ≡ spec.no_arguments }
    {
        Arguments {
            codes: Items::new(alloc),
            types: Items::new(alloc),
        }
    }

    /// These arguments and one more.
    pub fn with(self, v: Value) -> Result<Arguments, AllocError>
        ensures { IfOk result (λ list. list ≡ spec.with_argument self v) }
    {
        let Arguments {
            mut codes,
            mut types,
        } = self;
        let Value { code, ctype, zero } = v;
        codes.push(code.into_inner())?;
        types.push(Argument { ctype, zero })?;
        Ok(Arguments { codes, types })
    }
}
