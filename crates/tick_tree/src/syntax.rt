//! The syntax tree: what the grammar reads from the tokens of a text.
//!
//! A node keeps all of its tokens but those that its variant names: the tokens can be written out from it, up to
//! the spelling of numbers, characters and strings. A `line` is that of the node's token: the operator, the `(` of
//! a call or a cast, the `[` of an index, the name, or the first word of a statement, a declaration or a parameter.
//! Lists are vectors, so the depth of a tree is bounded by the nesting of its text, and not by its length.

use crate::base::{Base, BinaryOp, ModifyOp, Prefix, StepOp, UnaryOp};
use crate::name::Name;
use sqlite_items::{Boxed, Items};

/// An expression. Where a `u32` stands first, it is the line of the node's token.
#[cycle(tree)]
pub enum Expr {
    /// A name, with its bytes.
    Name(u32, Name),
    /// A number, with its value and whether it is unsigned.
    Number(u32, bool),
    /// A character literal, with its value as a word: the byte's value as a signed char.
    Character(u32),
    /// One or more strings that stand together, with their joined bytes, without a zero byte at the end.
    String(Items<u8>),
    /// An expression in parentheses.
    Paren(Boxed<Expr>),
    /// `compile(e, T)`, with the line of `compile`.
    Compile(u32, Boxed<Expr>, Boxed<Typename>),
    /// `local(T)`, with the line of `local`.
    Local(u32, Boxed<Typename>),
    /// `param(T, e)`, with the line of `param`.
    Param(u32, Boxed<Typename>, Boxed<Expr>),
    /// `a[b]`, with the line of `[`.
    Index(u32, Boxed<(Expr, Expr)>),
    /// `f(a, b)`, with the line of `(`.
    Call(u32, Boxed<Expr>, Items<Expr>),
    /// `a++` and `a--`.
    Step(u32, StepOp, Boxed<Expr>),
    /// An operator before its operand.
    Unary(u32, UnaryOp, Boxed<Expr>),
    /// A backquote before an expression.
    Tick(u32, Boxed<Expr>),
    /// A backquote before a block, with the block's items.
    TickBlock(u32, Items<Stmt>),
    /// `(T) e`, with the line of `(`.
    Cast(u32, Boxed<Typename>, Boxed<Expr>),
    /// `sizeof(T)`, with the line of `sizeof`.
    Sizeof(u32, Boxed<Typename>),
    /// An operator between two operands.
    Binary(u32, BinaryOp, Boxed<(Expr, Expr)>),
    /// `a ? b : c`, with the line of `?`.
    Choice(u32, Boxed<Expr>, Boxed<Expr>, Boxed<Expr>),
    /// `a = b`.
    Assign(u32, Boxed<(Expr, Expr)>),
    /// `a += b` and its like.
    Modify(u32, ModifyOp, Boxed<(Expr, Expr)>),
    /// `a, b`.
    Comma(u32, Boxed<(Expr, Expr)>),
}

impl Drop for Expr {
    #[cycle(tree)]
    fn drop(self) {
        match self {
            Expr::Name(_, name) => drop(name),
            Expr::Number(_, _) => (),
            Expr::Character(_) => (),
            Expr::String(bytes) => drop(bytes),
            Expr::Paren(inner) => drop(inner),
            Expr::Compile(_, code, ty) => {
                drop(code);
                drop(ty);
            }
            Expr::Local(_, ty) => drop(ty),
            Expr::Param(_, ty, number) => {
                drop(ty);
                drop(number);
            }
            Expr::Index(_, pair) => drop(pair),
            Expr::Call(_, callee, arguments) => {
                drop(callee);
                drop(arguments);
            }
            Expr::Step(_, _, operand) => drop(operand),
            Expr::Unary(_, _, operand) => drop(operand),
            Expr::Tick(_, operand) => drop(operand),
            Expr::TickBlock(_, items) => drop(items),
            Expr::Cast(_, ty, operand) => {
                drop(ty);
                drop(operand);
            }
            Expr::Sizeof(_, ty) => drop(ty),
            Expr::Binary(_, _, pair) => drop(pair),
            Expr::Choice(_, test, first, second) => {
                drop(test);
                drop(first);
                drop(second);
            }
            Expr::Assign(_, pair) => drop(pair),
            Expr::Modify(_, _, pair) => drop(pair),
            Expr::Comma(_, pair) => drop(pair),
        }
    }
}

/// An expression that may be left out.
#[cycle(tree)]
pub enum OptionalExpr {
    /// Nothing stands there.
    Absent,
    /// An expression stands there.
    Present(Expr),
}

impl Drop for OptionalExpr {
    #[cycle(tree)]
    fn drop(self) {
        match self {
            OptionalExpr::Absent => (),
            OptionalExpr::Present(a) => drop(a),
        }
    }
}

/// A base and a declarator without a name.
#[cycle(tree)]
pub struct Typename {
    /// The words of the base.
    pub base: Base,
    /// A declarator whose innermost part is `Core::Absent`.
    pub declarator: Declarator,
}

impl Drop for Typename {
    #[cycle(tree)]
    fn drop(self) {
        let Typename {
            base: _,
            declarator: _,
        } = self;
    }
}

/// What makes a type of a base, and mostly names it.
#[cycle(tree)]
pub struct Declarator {
    /// What stands before the name, from left to right.
    pub prefixes: Items<Prefix>,
    /// The name, or an inner declarator.
    pub core: Core,
    /// What stands behind the name, from left to right.
    pub suffixes: Items<Suffix>,
}

impl Drop for Declarator {
    #[cycle(tree)]
    fn drop(self) {
        let Declarator {
            prefixes,
            core,
            suffixes,
        } = self;
        drop(prefixes);
        drop(core);
        drop(suffixes);
    }
}

/// The inner part of a declarator.
#[cycle(tree)]
pub enum Core {
    /// Nothing: the declarator is that of a type name or of a parameter without a name.
    Absent,
    /// The declared name, with its line and its bytes.
    Name(u32, Name),
    /// A declarator in parentheses.
    Paren(Boxed<Declarator>),
}

impl Drop for Core {
    #[cycle(tree)]
    fn drop(self) {
        match self {
            Core::Absent => (),
            Core::Name(_, b) => drop(b),
            Core::Paren(a) => drop(a),
        }
    }
}

/// What stands behind the name of a declarator.
#[cycle(tree)]
pub enum Suffix {
    /// `[ ]`, with its length.
    Array(OptionalExpr),
    /// `()`
    Unlisted,
    /// `(void)`
    Nothing,
    /// `( )` with one parameter or more.
    Listed(Items<Parameter>),
}

impl Drop for Suffix {
    #[cycle(tree)]
    fn drop(self) {
        match self {
            Suffix::Array(a) => drop(a),
            Suffix::Unlisted => (),
            Suffix::Nothing => (),
            Suffix::Listed(a) => drop(a),
        }
    }
}

/// A parameter of a list.
#[cycle(tree)]
pub struct Parameter {
    /// The line of its first word.
    pub line: u32,
    /// The words of its base.
    pub base: Base,
    /// Its declarator, with a name or without.
    pub declarator: Declarator,
}

impl Drop for Parameter {
    #[cycle(tree)]
    fn drop(self) {
        let Parameter {
            line: _,
            base: _,
            declarator: _,
        } = self;
    }
}

/// What a declared name begins with.
#[cycle(tree)]
pub enum Initializer {
    /// There is none.
    Absent,
    /// `= e`
    Value(Expr),
    /// `= { a, b }`, and whether a comma stands before the closing brace.
    List(Items<Expr>, bool),
}

impl Drop for Initializer {
    #[cycle(tree)]
    fn drop(self) {
        match self {
            Initializer::Absent => (),
            Initializer::Value(a) => drop(a),
            Initializer::List(a, _) => drop(a),
        }
    }
}

/// A declarator with its initializer.
#[cycle(tree)]
pub struct Init {
    /// The declarator, with a name.
    pub declarator: Declarator,
    /// Its initializer.
    pub value: Initializer,
}

impl Drop for Init {
    #[cycle(tree)]
    fn drop(self) {
        let Init {
            declarator: _,
            value: _,
        } = self;
    }
}

/// A declaration of variables or prototypes.
#[cycle(tree)]
#[derive(Drop)]
pub struct Declaration {
    /// The line of its first word.
    pub line: u32,
    /// The words of its base.
    pub base: Base,
    /// What it declares, from left to right. In a block it is at least one.
    pub inits: Items<Init>,
}

/// A statement, or a declaration as an item of a block. Where a `u32` stands first, it is the line of its first word.
#[cycle(tree)]
pub enum Stmt {
    /// A `;` alone.
    Empty,
    /// An expression, for its effects.
    Expr(Expr),
    /// A block, with its items.
    Block(Items<Stmt>),
    /// A declaration: an item of a block, or the first part of a `for`.
    Local(Declaration),
    /// `if` without `else`.
    If(u32, Expr, Boxed<Stmt>),
    /// `if` with `else`.
    IfElse(u32, Expr, Boxed<Stmt>, Boxed<Stmt>),
    /// `while`
    While(u32, Expr, Boxed<Stmt>),
    /// `do`, with its body and its test.
    Do(u32, Boxed<Stmt>, Expr),
    /// `for`: its first part, which is `Local`, `Expr` or `Empty`, its test, its step and its body.
    For(u32, Boxed<Stmt>, OptionalExpr, OptionalExpr, Boxed<Stmt>),
    /// `switch`, with its value and its block's items.
    Switch(u32, Expr, Items<Stmt>),
    /// `case e:`
    Case(u32, Expr),
    /// `default:`
    Default(u32),
    /// `break;`
    Break(u32),
    /// `continue;`
    Continue(u32),
    /// `return`, with its value.
    Return(u32, OptionalExpr),
}

impl Drop for Stmt {
    #[cycle(tree)]
    fn drop(self) {
        match self {
            Stmt::Empty => (),
            Stmt::Expr(value) => drop(value),
            Stmt::Block(items) => drop(items),
            Stmt::Local(declaration) => drop(declaration),
            Stmt::If(_, test, first) => {
                drop(test);
                drop(first);
            }
            Stmt::IfElse(_, test, first, second) => {
                drop(test);
                drop(first);
                drop(second);
            }
            Stmt::While(_, test, body) => {
                drop(test);
                drop(body);
            }
            Stmt::Do(_, body, test) => {
                drop(body);
                drop(test);
            }
            Stmt::For(_, first, test, step, body) => {
                drop(first);
                drop(test);
                drop(step);
                drop(body);
            }
            Stmt::Switch(_, value, items) => {
                drop(value);
                drop(items);
            }
            Stmt::Case(_, value) => drop(value),
            Stmt::Default(_) => (),
            Stmt::Break(_) => (),
            Stmt::Continue(_) => (),
            Stmt::Return(_, value) => drop(value),
        }
    }
}

/// An item of a program.
pub enum External {
    /// A function, with the line of its first word, its base, its declarator and its block's items.
    Function(u32, Base, Declarator, Items<Stmt>),
    /// A declaration, which may declare nothing.
    Declaration(Declaration),
}

impl Drop for External {
    fn drop(self) {
        match self {
            External::Function(_, _, c, d) => {
                drop(c);
                drop(d);
            }
            External::Declaration(a) => drop(a),
        }
    }
}
