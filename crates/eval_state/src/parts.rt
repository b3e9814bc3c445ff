//! What is done now, and what is pending.

ghost use Rattle.std.specs.Prelude.{◌≡◌, None};
ghost use Rattle.meaning_state.specs.Shared.{access_trap};

use host_edge::Ending;
use icode_ops::{BinKind, UnKind};
use sqlite_items::Items;
use typed_tree::{Answer, Expr, Library, Stmt};
use word32::Width;

/// How a statement was left.
#[derive(Clone, Copy)]
pub enum Flow {
    /// By its end.
    Normal,
    /// By a break.
    Broke,
    /// By a continue.
    Continued,
}

/// What is done now.
#[derive(Clone, Copy)]
pub enum Now<'a> {
    /// An expression is evaluated.
    Eval(&'a Expr),
    /// A statement runs.
    Exec(&'a Stmt),
    /// Items run, one after another.
    Run(&'a [Stmt]),
    /// A value is there.
    Value(u32),
    /// A statement was left.
    Left(Flow),
    /// The function was left with a value.
    Returned(u32),
    /// The run ended.
    Ended(Ending),
    /// No unit was left.
    Stopped,
}

/// What arguments, or the words of captures, are for.
#[derive(Clone, Copy)]
pub enum Target<'a> {
    /// A call of the function of this number, which the tree names.
    Direct(Answer, u32),
    /// A call of the function whose number was evaluated.
    Numbered(Answer, u32),
    /// A specification of the tick of this number, with these captures.
    Specified(u32, &'a [Expr]),
}

/// A place in the object space: an access of this width at this address doesn't trap.
#[derive(Clone, Copy)]
pub struct Place {
    /// The address.
    pub at: u32,
    /// The width.
    pub width: Width,
    pub ghost fits: { access_trap at width ≡ None },
}

/// Work within an expression, which waits for the value of a part.
#[derive(Drop)]
pub enum ExpressionFrame<'a> {
    /// Sets a register variable.
    SetVar(u32),
    /// Sets the variable of generated code that a capture names.
    SetGenerated(u32),
    /// Loads from an address.
    Load(Width),
    /// The address of a store.
    StoreAddress(Width, &'a Expr),
    /// The value of a store at an address.
    StoreValue(Width, u32),
    /// The address of a change.
    ModifyAddress(Width, BinKind, &'a Expr),
    /// The second operand of a change at a place, and the old value.
    ModifyValue(Place, BinKind, u32),
    /// Adds a step to the value at an address.
    Post(Width, u32),
    /// The first operand.
    First(BinKind, &'a Expr),
    /// The second operand.
    Second(BinKind, u32),
    /// The operand of an operator on one word.
    Un(UnKind),
    /// The first of an `&&`.
    And(&'a Expr),
    /// The first of an `||`.
    Or(&'a Expr),
    /// The second of either.
    Truth,
    /// The test of a `?:`.
    Cond(&'a Expr, &'a Expr),
    /// Spends a unit.
    Spend,
    /// The first of a comma.
    Comma(&'a Expr),
    /// Drops the value of an expression.
    Void,
    /// The argument of a library call.
    Lib(Library),
    /// Compiles a specification.
    Compile,
    /// Makes a parameter of generated code.
    ParamOf,
    /// The function's number is evaluated.
    Function(Answer, &'a [Expr]),
    /// An argument or a capture is evaluated; those that follow, and the values of those before.
    Argument(Target<'a>, &'a [Expr], Items<u32>),
}

/// Work within a statement, which waits for the value of an expression.
#[derive(Clone, Copy)]
pub enum StatementFrame<'a> {
    /// Drops the value of a statement that is an expression.
    Drop,
    /// The test of an `if`.
    If(&'a Stmt),
    /// The test of an `if` with `else`.
    IfElse(&'a Stmt, &'a Stmt),
    /// The test of a loop that has so many turns after this one, with its step, if it has one, and its body.
    Test(u64, &'a Expr, Option<&'a Expr>, &'a Stmt),
    /// The step of such a loop.
    Step(u64, &'a Expr, &'a Expr, &'a Stmt),
    /// The test of a `do` that has so many turns after this one.
    RoundTest(u64, &'a Stmt, &'a Expr),
    /// The test of such a `do` behind a turn that a continue ended, whose unit is spent.
    ContinuedTest(u64, &'a Stmt, &'a Expr),
    /// The value of a switch, with its variables and items.
    Switch(&'a [Stmt], &'a [Stmt]),
    /// Returns a value.
    Return,
}

/// Work that waits for the end of a statement.
#[derive(Clone, Copy)]
pub enum EndFrame<'a> {
    /// The items that follow.
    Rest(&'a [Stmt]),
    /// The body of a loop.
    Turn(u64, &'a Expr, Option<&'a Expr>, &'a Stmt),
    /// The body of a `do`.
    Round(u64, &'a Stmt, &'a Expr),
    /// The variables of a switch on a value, and its items.
    Chosen(u32, &'a [Stmt]),
    /// The items of a switch.
    SwitchEnd,
}

/// Work that is pending within a body.
#[derive(Drop)]
pub enum Frame<'a> {
    /// Within an expression.
    Expression(ExpressionFrame<'a>),
    /// Within a statement, on a value.
    Statement(StatementFrame<'a>),
    /// On the end of a statement.
    End(EndFrame<'a>),
}

/// What was taken off, which no longer waits.
#[derive(Drop)]
pub enum Popped<'a> {
    /// Work within a body.
    Inside(Frame<'a>),
    /// A call: the caller's body is active again.
    Called(Answer),
    /// A specification that was spliced in: the code round it is active again.
    Spliced(Answer),
}
