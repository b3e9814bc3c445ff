//! Literals, and the size of a type.

ghost use Rattle.std.specs.Prelude.{◌≡◌, IfOk};
ghost use Rattle.tick_tree.specs.Faults.{Checks};
ghost use Rattle.check_operands.specs.Operands as spec;

use c_type_refs::{TypeRef, limited_size};
use c_types::{Integer, Layer};
use check_operands::{Operand, Place, made};
use check_types::{integer, over};
use sqlite_items::Boxed;
use std::alloc::{AllocError, Global};
use tick_tree::{Deny, FaultKind, refused};
use typed_tree::Expr;

fn number_kind(unsigned: bool) -> Integer
    ensures { result ≡ spec.number_kind unsigned }
{
    if unsigned {
        Integer::Unsigned
    } else {
        Integer::Int
    }
}

/// A number, with its value. The value 0 is the literal 0.
#[tactic(auto, unfolding(check_operands::specs::Operands::number))]
pub fn number(alloc: Global, n: u32, unsigned: bool) -> Result<Operand, AllocError>
    ensures { IfOk result (λ o. o ≡ spec.number n unsigned) }
{
    let code = Boxed::new(alloc, Expr::Const(n))?;
    Ok(Operand {
        place: Place::Value(code),
        ctype: integer(alloc, number_kind(unsigned)),
        zero: n == 0,
    })
}

/// A character literal, with its value as a word.
#[tactic(auto, unfolding(check_operands::specs::Operands::character))]
pub fn character(alloc: Global, n: u32) -> Result<Operand, AllocError>
    ensures { IfOk result (λ o. o ≡ spec.character n) }
{
    let code = Boxed::new(alloc, Expr::Const(n))?;
    Ok(made(code, integer(alloc, Integer::Int)))
}

/// A string, by its address: a value of type `char *`.
#[tactic(auto, unfolding(check_operands::specs::Operands::string))]
pub fn string(alloc: Global, address: u32) -> Result<Operand, AllocError>
    ensures { IfOk result (λ o. o ≡ spec.string address) }
{
    let t = over(Layer::Pointer, integer(alloc, Integer::Char))?;
    Ok(made(Boxed::new(alloc, Expr::Const(address))?, t))
}

/// `sizeof` of a type. Refused: BadOperand where the type is void or a function.
pub fn size(alloc: Global, line: u32, t: &TypeRef) -> Result<Operand, Deny>
    ensures { Checks result (spec.size line t.now) }
{
    match limited_size(t) {
        None => refused(FaultKind::BadOperand, line),
        Some(n) => {
            let code = Boxed::new(alloc, Expr::Const(n))?;
            Ok(made(code, integer(alloc, Integer::Unsigned)))
        }
    }
}
