//! The typed nodes of expressions, statements and programs.
//!
//! Each node stands for one unit of size. Types, names and lines are gone: what is left is what runs. Numbers of
//! variables, captures and functions say which one is meant. The nodes are this project's own rule; the docs list them
//! with the builder ops that they become.

use icode_ops::{BinKind, UnKind};
use sqlite_items::{Boxed, Items};
use word32::Width;

/// Whether an expression leaves a value.
#[derive(Clone, Copy, PartialEq, Eq)]
pub enum Answer {
    /// It leaves one word.
    Value,
    /// It leaves nothing: its type is void.
    Void,
}

/// A library function of one argument.
#[derive(Clone, Copy)]
pub enum Library {
    /// `int putchar(int)`: writes the argument modulo 256 as a byte, and answers that byte.
    Putchar,
    /// `void putint(int)`: writes the argument as a signed decimal number.
    Putint,
    /// `void exit(int)`: ends the run with the argument modulo 256.
    Exit,
    /// `void *malloc(unsigned)`: so many bytes of the heap, or 0 where they are not there.
    Malloc,
}

/// What a tick captures as it is evaluated.
#[derive(Clone, Copy, PartialEq, Eq)]
pub enum CaptureKind {
    /// `$e`: the value of an expression.
    Dollar,
    /// The address of a frame object of the function round the tick.
    Address,
    /// The number of a specification: of an expression that leaves this, `Void` standing for a statement.
    Splice(Answer),
    /// The number of a variable of generated code.
    Variable,
}

/// A word that a tick captured and that its code has as a constant.
#[derive(Clone, Copy)]
pub enum CapturedWord {
    /// The value of a `$e`.
    Dollar,
    /// The address of a frame object of the function round the tick.
    Address,
}

/// An expression.
#[cycle(expressions)]
pub enum Expr {
    /// A word: a number, the address of a global or of a string, or a function's number.
    Const(u32),
    /// In a tick: the captured word of this number.
    Captured(CapturedWord, u32),
    /// The value of a register variable.
    Var(u32),
    /// Sets a register variable, and leaves the value.
    SetVar(u32, Boxed<Expr>),
    /// Adds a step to a register variable that holds a value of this width, and leaves the old value.
    PostVar(u32, Width, u32),
    /// In a tick: the value of the variable of generated code that this capture names.
    VGet(u32),
    /// In a tick: sets that variable, and leaves the value.
    VSet(u32, Boxed<Expr>),
    /// In a tick: adds a step to that variable, and leaves the old value.
    VPost(u32, u32),
    /// The address of the frame object at this offset, in bytes.
    Frame(u32),
    /// The value at an address.
    Load(Width, Boxed<Expr>),
    /// Stores a value at an address, and leaves the value.
    Store(Width, Boxed<Expr>, Boxed<Expr>),
    /// Changes the value at an address by an operator and a second operand, and leaves the new value.
    Modify(Width, BinKind, Boxed<Expr>, Boxed<Expr>),
    /// Adds a step to the value at an address, and leaves the old value.
    Post(Width, u32, Boxed<Expr>),
    /// An operator on two words.
    Bin(BinKind, Boxed<Expr>, Boxed<Expr>),
    /// An operator on one word, conversion to a narrow type among them.
    Un(UnKind, Boxed<Expr>),
    /// 1 where neither is 0, else 0; the second is evaluated only where the first isn't 0.
    And(Boxed<Expr>, Boxed<Expr>),
    /// 0 where both are 0, else 1; the second is evaluated only where the first is 0.
    Or(Boxed<Expr>, Boxed<Expr>),
    /// The second where the first isn't 0, else the third.
    Cond(Boxed<Expr>, Boxed<Expr>, Boxed<Expr>),
    /// The first for its effects, then the second.
    Comma(Boxed<Expr>, Boxed<Expr>),
    /// An expression for its effects.
    Void(Boxed<Expr>),
    /// Calls the static function of this number, counted from 1.
    Call(Answer, u32, Items<Expr>),
    /// Calls the function whose number the first operand gives.
    CallNumber(Answer, Boxed<Expr>, Items<Expr>),
    /// `int getchar(void)`: the next byte of the input, or -1 at its end.
    Getchar,
    /// Calls a library function of one argument.
    Lib(Library, Boxed<Expr>),
    /// Makes a specification of the tick of this number, counted from 0, with its captures: `Capture` nodes in text
    /// order.
    Tick(u32, Items<Expr>),
    /// A word that a tick captures.
    Capture(CaptureKind, Boxed<Expr>),
    /// In a tick: the specification that this capture names stands here.
    Splice(Answer, u32),
    /// Compiles the specification of this number to a function, and leaves the function's number.
    Compile(Boxed<Expr>),
    /// Makes a variable of generated code, and leaves its number.
    Local,
    /// Makes a parameter of generated code, of this index, and leaves its number.
    ParamOf(Boxed<Expr>),
}

// (derived, each crate that drops one would prove it once more)
impl Drop for Expr {
    #[cycle(expressions)]
    fn drop(self) {
        match self {
            Expr::Const(_) => (),
            Expr::Captured(_, _) => (),
            Expr::Var(_) => (),
            Expr::SetVar(_, value) => drop(value),
            Expr::PostVar(_, _, _) => (),
            Expr::VGet(_) => (),
            Expr::VSet(_, value) => drop(value),
            Expr::VPost(_, _) => (),
            Expr::Frame(_) => (),
            Expr::Load(_, address) => drop(address),
            Expr::Store(_, address, value) => {
                drop(address);
                drop(value);
            }
            Expr::Modify(_, _, address, value) => {
                drop(address);
                drop(value);
            }
            Expr::Post(_, _, address) => drop(address),
            Expr::Bin(_, a, b) => {
                drop(a);
                drop(b);
            }
            Expr::Un(_, a) => drop(a),
            Expr::And(a, b) => {
                drop(a);
                drop(b);
            }
            Expr::Or(a, b) => {
                drop(a);
                drop(b);
            }
            Expr::Cond(test, a, b) => {
                drop(test);
                drop(a);
                drop(b);
            }
            Expr::Comma(a, b) => {
                drop(a);
                drop(b);
            }
            Expr::Void(a) => drop(a),
            Expr::Call(_, _, arguments) => drop(arguments),
            Expr::CallNumber(_, function, arguments) => {
                drop(function);
                drop(arguments);
            }
            Expr::Getchar => (),
            Expr::Lib(_, argument) => drop(argument),
            Expr::Tick(_, captures) => drop(captures),
            Expr::Capture(_, value) => drop(value),
            Expr::Splice(_, _) => (),
            Expr::Compile(specification) => drop(specification),
            Expr::Local => (),
            Expr::ParamOf(index) => drop(index),
        }
    }
}

/// A statement.
#[cycle(statements)]
pub enum Stmt {
    /// An expression, for its effects.
    Eval(Boxed<Expr>),
    /// A block: the nodes of its variables, then its items.
    Block(Items<Stmt>, Items<Stmt>),
    /// A register variable of a block, set to 0.
    Variable(u32),
    /// A frame object of a block, at this offset in bytes, of so many words, set to 0.
    Object(u32, u32),
    /// A parameter in the register variable of its own number, converted to its width.
    Parameter(u32, Width),
    /// A parameter of this number and width in the frame object at this offset in bytes.
    ParameterObject(u32, Width, u32),
    /// `if` without `else`.
    If(Boxed<Expr>, Boxed<Stmt>),
    /// `if` with `else`.
    IfElse(Boxed<Expr>, Boxed<Stmt>, Boxed<Stmt>),
    /// `while`
    While(Boxed<Expr>, Boxed<Stmt>),
    /// `do`, with its body and its test.
    Do(Boxed<Stmt>, Boxed<Expr>),
    /// `for` without a step: its test and its body. What stands first is an item before it.
    For(Boxed<Expr>, Boxed<Stmt>),
    /// `for`: its test, its step and its body.
    ForStep(Boxed<Expr>, Boxed<Expr>, Boxed<Stmt>),
    /// `switch`: its value, and the variables and items of its block, which is a node of its own.
    Switch(Boxed<Expr>, Items<Stmt>, Items<Stmt>),
    /// `case` with its value: an item of a switch's block.
    Case(u32),
    /// `default`: an item of a switch's block.
    Default,
    /// Leaves the innermost loop or switch.
    Break,
    /// Goes on with the next turn of the innermost loop.
    Continue,
    /// `return` without a value: the answer is 0.
    Return,
    /// `return` with its value.
    ReturnValue(Boxed<Expr>),
}

impl Drop for Stmt {
    #[cycle(statements)]
    fn drop(self) {
        match self {
            Stmt::Eval(e) => drop(e),
            Stmt::Block(variables, items) => {
                drop(variables);
                drop(items);
            }
            Stmt::Variable(_) => (),
            Stmt::Object(_, _) => (),
            Stmt::Parameter(_, _) => (),
            Stmt::ParameterObject(_, _, _) => (),
            Stmt::If(test, body) => {
                drop(test);
                drop(body);
            }
            Stmt::IfElse(test, a, b) => {
                drop(test);
                drop(a);
                drop(b);
            }
            Stmt::While(test, body) => {
                drop(test);
                drop(body);
            }
            Stmt::Do(body, test) => {
                drop(body);
                drop(test);
            }
            Stmt::For(test, body) => {
                drop(test);
                drop(body);
            }
            Stmt::ForStep(test, step, body) => {
                drop(test);
                drop(step);
                drop(body);
            }
            Stmt::Switch(value, variables, items) => {
                drop(value);
                drop(variables);
                drop(items);
            }
            Stmt::Case(_) => (),
            Stmt::Default => (),
            Stmt::Break => (),
            Stmt::Continue => (),
            Stmt::Return => (),
            Stmt::ReturnValue(e) => drop(e),
        }
    }
}
