//! Productions with a type name: what is checked as each is entered, and its node. Each function here only picks the
//! rule of its production, so that the walk has one function for all of a kind.

ghost use Rattle.check_expressions.specs.Named as spec;
ghost use Rattle.tick_tree.specs.Faults.{Checks};

use crate::entries::staging_entry;
use crate::staged::{cast_node, parameter_node};
use c_type_refs::TypeRef;
use check_operands::Operand;
use check_rules::Stage;
use std::alloc::Global;
use tick_tree::Deny;

/// A production of a type name alone.
#[derive(Clone, Copy)]
pub enum Naming {
    /// `sizeof(T)`.
    Size,
    /// `local(T)`.
    Local,
}

/// A production of a type name and an operand behind it.
#[derive(Clone, Copy)]
pub enum Typing {
    /// `(T) a`.
    Cast,
    /// `param(T, a)`.
    Parameter,
}

/// Enters a production of a type name.
pub fn naming_entry(line: u32, kind: Naming, stage: Stage) -> Result<(), Deny>
    ensures { Checks result (spec.naming_entry line kind stage) }
{
    match kind {
        Naming::Size => Ok(()),
        Naming::Local => staging_entry(line, stage),
    }
}

/// What a production of a type name is.
pub fn naming_node(alloc: Global, line: u32, kind: Naming, t: TypeRef) -> Result<Operand, Deny>
    ensures { Checks result (spec.naming_node line kind t) }
{
    match kind {
        Naming::Size => check_nodes::size(alloc, line, &t),
        Naming::Local => check_calls::local(alloc, line, t),
    }
}

/// Enters a production of a type name and an operand.
pub fn typing_entry(line: u32, kind: Typing, stage: Stage) -> Result<(), Deny>
    ensures { Checks result (spec.typing_entry line kind stage) }
{
    match kind {
        Typing::Cast => Ok(()),
        Typing::Parameter => staging_entry(line, stage),
    }
}

/// What a production of a type name and an operand is.
pub fn typing_node(
    alloc: Global,
    line: u32,
    kind: Typing,
    t: TypeRef,
    o: Operand,
) -> Result<Operand, Deny>
    ensures { Checks result (spec.typing_node line kind t o) }
{
    match kind {
        Typing::Cast => cast_node(alloc, line, t, o),
        Typing::Parameter => parameter_node(alloc, line, t, o),
    }
}
