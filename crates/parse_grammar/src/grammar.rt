//! How a production reads what stands one level deeper.

ghost use Rattle.std.specs.Prelude.{ℕ, ◌<◌};
ghost use Rattle.parse_grammar.specs.Input.{Reads};
ghost use Rattle.parse_grammar.specs.Declarators as declarators;
ghost use Rattle.parse_grammar.specs.Expressions as expressions;
ghost use Rattle.parse_grammar.specs.Statements as statements;
ghost use Rattle.parse_grammar.specs.Nests.{Nests};

use crate::stop::Stop;
use crate::tokens::Tokens;
use std::alloc::Global;
use tick_tree::{Declarator, Expr, StepOp, Stmt};

/// An expression that may stand one level deeper.
#[derive(Clone, Copy)]
pub enum Part {
    /// With commas.
    Whole,
    /// Without a comma outside brackets.
    Assign,
    /// Without a comma or an assignment outside brackets.
    Cond,
    /// The operand of an operator.
    Unary,
}

/// Whether a declarator has a name.
#[derive(Clone, Copy)]
pub enum Mode {
    /// It has one: it declares.
    Named,
    /// It may have one: it is a parameter's.
    Either,
    /// It has none: it is that of a type name.
    Nameless,
}

/// An operator behind its operand.
#[derive(Clone, Copy)]
pub enum Postfix {
    /// `[`
    Index,
    /// `(`
    Call,
    /// `++` or `--`
    Step(StepOp),
}

/// What a production reads one level deeper, and where it makes trees.
pub trait Deeper {
    /// It reads with room for fewer levels than these.
    ghost limit: { Self → ℕ };

    /// That it reads what the grammar says.
    ghost nests: { Self → Type 0 };

    /// Where trees are made.
    fn alloc(&self) -> Global;

    /// An expression one level deeper.
    fn inner(&self, tokens: &mut Tokens<'_>, room: usize, part: Part) -> Result<Expr, Stop>
        requires nests { nests self.now }
        requires room { room < limit self.now }
        ensures { Reads (expressions.at part (statements.room_of room) tokens.old) result tokens.new };

    /// An item of a block, or a statement, one level deeper.
    fn inner_stmt(&self, tokens: &mut Tokens<'_>, room: usize) -> Result<Stmt, Stop>
        requires nests { nests self.now }
        requires room { room < limit self.now }
        ensures { Reads (statements.stmt (statements.room_of room) tokens.old) result tokens.new };

    /// A declarator one level deeper.
    fn inner_declarator(
        &self,
        tokens: &mut Tokens<'_>,
        room: usize,
        mode: Mode,
    ) -> Result<Declarator, Stop>
        requires nests { nests self.now }
        requires room { room < limit self.now }
        ensures { Reads (declarators.declarator mode (statements.room_of room) tokens.old) result tokens.new };
}

/// The allocator, and the functions that read what stands deeper.
#[derive(Drop)]
pub struct Grammar<F, S, D> {
    /// Where trees are made.
    pub alloc: Global,
    /// The functions are called with room for fewer levels than these.
    pub limit: usize,
    /// Reads a part of an expression.
    pub expr: F,
    /// Reads an item of a block.
    pub stmt: S,
    /// Reads a declarator.
    pub declarator: D,
}

impl<
    F: Fn(Global, &mut Tokens<'_>, usize, Part) -> Result<Expr, Stop>,
    S: Fn(Global, &mut Tokens<'_>, usize) -> Result<Stmt, Stop>,
    D: Fn(Global, &mut Tokens<'_>, usize, Mode) -> Result<Declarator, Stop>,
> Deeper for Grammar<F, S, D> {
    ghost limit = { λ g. g.limit };

    ghost nests = { λ g. Nests g.limit (F.pre g.expr) (F.post g.expr) (S.pre g.stmt) (S.post g.stmt)
        (D.pre g.declarator) (D.post g.declarator) };

    fn alloc(&self) -> Global {
        self.alloc
    }

    fn inner(&self, tokens: &mut Tokens<'_>, room: usize, part: Part) -> Result<Expr, Stop> {
        (self.expr)(self.alloc, tokens, room, part)
    }

    fn inner_stmt(&self, tokens: &mut Tokens<'_>, room: usize) -> Result<Stmt, Stop> {
        (self.stmt)(self.alloc, tokens, room)
    }

    fn inner_declarator(
        &self,
        tokens: &mut Tokens<'_>,
        room: usize,
        mode: Mode,
    ) -> Result<Declarator, Stop> {
        (self.declarator)(self.alloc, tokens, room, mode)
    }
}
