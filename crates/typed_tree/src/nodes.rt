//! Nodes made of their parts. Each call's only error is want of memory.

ghost use Rattle.std.specs.Prelude.{◌≡◌, IfOk};

use crate::expression::{Answer, CaptureKind, Expr, Library, Stmt};
use icode_ops::{BinKind, UnKind};
use sqlite_items::{Boxed, Items};
use std::alloc::{AllocError, Global};
use word32::Width;

/// Sets a register variable.
pub fn set_variable(alloc: Global, i: u32, value: Boxed<Expr>) -> Result<Boxed<Expr>, AllocError>
    ensures { IfOk result (λ node. node ≡ Expr.SetVar i value) }
{
    Boxed::new(alloc, Expr::SetVar(i, value))
}

/// Sets a variable of generated code.
pub fn set_generated(alloc: Global, i: u32, value: Boxed<Expr>) -> Result<Boxed<Expr>, AllocError>
    ensures { IfOk result (λ node. node ≡ Expr.VSet i value) }
{
    Boxed::new(alloc, Expr::VSet(i, value))
}

/// The value at an address.
pub fn load(alloc: Global, width: Width, address: Boxed<Expr>) -> Result<Boxed<Expr>, AllocError>
    ensures { IfOk result (λ node. node ≡ Expr.Load width address) }
{
    Boxed::new(alloc, Expr::Load(width, address))
}

/// Stores a value at an address.
pub fn store(
    alloc: Global,
    width: Width,
    address: Boxed<Expr>,
    value: Boxed<Expr>,
) -> Result<Boxed<Expr>, AllocError>
    ensures { IfOk result (λ node. node ≡ Expr.Store width address value) }
{
    Boxed::new(alloc, Expr::Store(width, address, value))
}

/// Changes the value at an address by an operator.
pub fn modify(
    alloc: Global,
    width: Width,
    kind: BinKind,
    address: Boxed<Expr>,
    value: Boxed<Expr>,
) -> Result<Boxed<Expr>, AllocError>
    ensures { IfOk result (λ node. node ≡ Expr.Modify width kind address value) }
{
    Boxed::new(alloc, Expr::Modify(width, kind, address, value))
}

/// Adds a step to the value at an address.
pub fn post(
    alloc: Global,
    width: Width,
    step: u32,
    address: Boxed<Expr>,
) -> Result<Boxed<Expr>, AllocError>
    ensures { IfOk result (λ node. node ≡ Expr.Post width step address) }
{
    Boxed::new(alloc, Expr::Post(width, step, address))
}

/// An operator on two words.
pub fn binary(
    alloc: Global,
    kind: BinKind,
    a: Boxed<Expr>,
    b: Boxed<Expr>,
) -> Result<Boxed<Expr>, AllocError>
    ensures { IfOk result (λ node. node ≡ Expr.Bin kind a b) }
{
    Boxed::new(alloc, Expr::Bin(kind, a, b))
}

/// An operator on one word.
pub fn unary(alloc: Global, kind: UnKind, a: Boxed<Expr>) -> Result<Boxed<Expr>, AllocError>
    ensures { IfOk result (λ node. node ≡ Expr.Un kind a) }
{
    Boxed::new(alloc, Expr::Un(kind, a))
}

/// Whether neither is 0.
pub fn both(alloc: Global, a: Boxed<Expr>, b: Boxed<Expr>) -> Result<Boxed<Expr>, AllocError>
    ensures { IfOk result (λ node. node ≡ Expr.And a b) }
{
    Boxed::new(alloc, Expr::And(a, b))
}

/// Whether one of them is not 0.
pub fn either(alloc: Global, a: Boxed<Expr>, b: Boxed<Expr>) -> Result<Boxed<Expr>, AllocError>
    ensures { IfOk result (λ node. node ≡ Expr.Or a b) }
{
    Boxed::new(alloc, Expr::Or(a, b))
}

/// One of two expressions, by a test.
pub fn choice(
    alloc: Global,
    test: Boxed<Expr>,
    a: Boxed<Expr>,
    b: Boxed<Expr>,
) -> Result<Boxed<Expr>, AllocError>
    ensures { IfOk result (λ node. node ≡ Expr.Cond test a b) }
{
    Boxed::new(alloc, Expr::Cond(test, a, b))
}

/// The first for its effects, then the second.
pub fn comma(alloc: Global, a: Boxed<Expr>, b: Boxed<Expr>) -> Result<Boxed<Expr>, AllocError>
    ensures { IfOk result (λ node. node ≡ Expr.Comma a b) }
{
    Boxed::new(alloc, Expr::Comma(a, b))
}

/// An expression for its effects.
pub fn void(alloc: Global, a: Boxed<Expr>) -> Result<Boxed<Expr>, AllocError>
    ensures { IfOk result (λ node. node ≡ Expr.Void a) }
{
    Boxed::new(alloc, Expr::Void(a))
}

/// Calls the function whose number the operand gives.
pub fn call_number(
    alloc: Global,
    answer: Answer,
    function: Boxed<Expr>,
    arguments: Items<Expr>,
) -> Result<Boxed<Expr>, AllocError>
    ensures { IfOk result (λ node. node ≡ Expr.CallNumber answer function arguments) }
{
    Boxed::new(alloc, Expr::CallNumber(answer, function, arguments))
}

/// Calls a library function of one argument.
pub fn library(
    alloc: Global,
    function: Library,
    argument: Boxed<Expr>,
) -> Result<Boxed<Expr>, AllocError>
    ensures { IfOk result (λ node. node ≡ Expr.Lib function argument) }
{
    Boxed::new(alloc, Expr::Lib(function, argument))
}

/// A word that a tick captures.
pub fn capture(
    alloc: Global,
    kind: CaptureKind,
    value: Boxed<Expr>,
) -> Result<Boxed<Expr>, AllocError>
    ensures { IfOk result (λ node. node ≡ Expr.Capture kind value) }
{
    Boxed::new(alloc, Expr::Capture(kind, value))
}

/// Compiles a specification.
pub fn compile(alloc: Global, specification: Boxed<Expr>) -> Result<Boxed<Expr>, AllocError>
    ensures { IfOk result (λ node. node ≡ Expr.Compile specification) }
{
    Boxed::new(alloc, Expr::Compile(specification))
}

/// Makes a parameter of generated code.
pub fn parameter(alloc: Global, index: Boxed<Expr>) -> Result<Boxed<Expr>, AllocError>
    ensures { IfOk result (λ node. node ≡ Expr.ParamOf index) }
{
    Boxed::new(alloc, Expr::ParamOf(index))
}

/// `if` without `else`.
pub fn if_then(
    alloc: Global,
    test: Boxed<Expr>,
    body: Boxed<Stmt>,
) -> Result<Boxed<Stmt>, AllocError>
    ensures { IfOk result (λ node. node ≡ Stmt.If test body) }
{
    Boxed::new(alloc, Stmt::If(test, body))
}

/// `if` with `else`.
pub fn if_else(
    alloc: Global,
    test: Boxed<Expr>,
    a: Boxed<Stmt>,
    b: Boxed<Stmt>,
) -> Result<Boxed<Stmt>, AllocError>
    ensures { IfOk result (λ node. node ≡ Stmt.IfElse test a b) }
{
    Boxed::new(alloc, Stmt::IfElse(test, a, b))
}

/// `while`
pub fn while_loop(
    alloc: Global,
    test: Boxed<Expr>,
    body: Boxed<Stmt>,
) -> Result<Boxed<Stmt>, AllocError>
    ensures { IfOk result (λ node. node ≡ Stmt.While test body) }
{
    Boxed::new(alloc, Stmt::While(test, body))
}

/// `do`
pub fn do_loop(
    alloc: Global,
    body: Boxed<Stmt>,
    test: Boxed<Expr>,
) -> Result<Boxed<Stmt>, AllocError>
    ensures { IfOk result (λ node. node ≡ Stmt.Do body test) }
{
    Boxed::new(alloc, Stmt::Do(body, test))
}

/// `for` without a step.
pub fn for_loop(
    alloc: Global,
    test: Boxed<Expr>,
    body: Boxed<Stmt>,
) -> Result<Boxed<Stmt>, AllocError>
    ensures { IfOk result (λ node. node ≡ Stmt.For test body) }
{
    Boxed::new(alloc, Stmt::For(test, body))
}

/// `for` with a step.
pub fn for_step(
    alloc: Global,
    test: Boxed<Expr>,
    step: Boxed<Expr>,
    body: Boxed<Stmt>,
) -> Result<Boxed<Stmt>, AllocError>
    ensures { IfOk result (λ node. node ≡ Stmt.ForStep test step body) }
{
    Boxed::new(alloc, Stmt::ForStep(test, step, body))
}
