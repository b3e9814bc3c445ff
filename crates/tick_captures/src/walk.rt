//! A walk over the body of a tick, each node before its parts.

ghost use Rattle.std.specs.Prelude.{◌≡◌, OnOk, [], map};
ghost use Rattle.tick_captures.specs.Captures.{Names, Nothing, names, names_in, names_of};
ghost use Rattle.tick_captures.specs.Found.{after, behind, first, one};

use crate::capture::Capture;
use crate::kinds::kind_of;
use sqlite_items::Items;
use std::alloc::{AllocError, Global};
use typed_tree::{CaptureKind, Expr, Stmt, TickBody};

/// What was found so far.
#[derive(Drop)]
pub struct Found {
    /// How many nodes stand before.
    pub nodes: u32,
    /// The captures that they name.
    pub captures: Items<Capture>,
}

impl Found {
    /// Nothing so far.
    pub fn new(alloc: Global) -> Found
        ensures { result ≡ record { nodes = 0; captures = [] } }
    {
        Found {
            nodes: 0,
            captures: Items::new(alloc),
        }
    }

    // A node more, which names nothing.
    fn nothing(&mut self) -> Result<(), AllocError>
        ensures { OnOk result (self.new ≡ one Nothing self.old) }
    {
        match self.nodes.checked_add(1) {
            None => Err(AllocError),
            Some(nodes) => {
                self.nodes = nodes;
                Ok(())
            }
        }
    }

    // A node more, which names a capture.
    fn name(&mut self, kind: CaptureKind, number: u32) -> Result<(), AllocError>
        ensures { OnOk result (self.new ≡ one (Names kind number) self.old) }
    {
        if self.captures.len() == number as usize {
            self.captures.push(Capture {
                kind,
                node: self.nodes,
            })?;
        }
        self.nothing()
    }

    // The node that an expression is itself, before its parts.
    #[tactic(auto, using(crate::proofs::Laws::expressions))]
    fn node(&mut self, e: &Expr) -> Result<(), AllocError>
        ensures { OnOk result (self.new ≡ one (first (names e.now)) self.old) }
    {
        match e {
            Expr::Captured(word, i) => self.name(kind_of(*word), *i),
            Expr::VGet(i) | Expr::VSet(i, _) => self.name(CaptureKind::Variable, *i),
            Expr::VPost(i, _) => self.name(CaptureKind::Variable, *i),
            Expr::Splice(answer, i) => self.name(CaptureKind::Splice(*answer), *i),
            Expr::Const(_) | Expr::Var(_) | Expr::SetVar(_, _) => self.nothing(),
            Expr::PostVar(_, _, _) | Expr::Frame(_) | Expr::Load(_, _) => self.nothing(),
            Expr::Store(_, _, _) | Expr::Modify(_, _, _, _) => self.nothing(),
            Expr::Post(_, _, _) | Expr::Bin(_, _, _) | Expr::Un(_, _) => self.nothing(),
            Expr::And(_, _) | Expr::Or(_, _) | Expr::Cond(_, _, _) => self.nothing(),
            Expr::Comma(_, _) | Expr::Void(_) | Expr::Call(_, _, _) => self.nothing(),
            Expr::CallNumber(_, _, _) | Expr::Getchar | Expr::Lib(_, _) => self.nothing(),
            Expr::Tick(_, _) | Expr::Capture(_, _) | Expr::Compile(_) => self.nothing(),
            Expr::Local | Expr::ParamOf(_) => self.nothing(),
        }
    }

    // The nodes of an expression.
    #[cycle(expression)]
    #[tactic(auto, using(crate::proofs::Laws::expressions))]
    fn expression(&mut self, e: &Expr) -> Result<(), AllocError>
        ensures { OnOk result (self.new ≡ after (names e.now) self.old) }
    {
        self.node(e)?;
        match e {
            Expr::Const(_)
            | Expr::Captured(_, _)
            | Expr::Var(_)
            | Expr::PostVar(_, _, _)
            | Expr::VGet(_)
            | Expr::VPost(_, _)
            | Expr::Frame(_)
            | Expr::Getchar
            | Expr::Splice(_, _)
            | Expr::Local => Ok(()),
            Expr::SetVar(_, a)
            | Expr::VSet(_, a)
            | Expr::Load(_, a)
            | Expr::Post(_, _, a)
            | Expr::Un(_, a)
            | Expr::Void(a)
            | Expr::Lib(_, a)
            | Expr::Capture(_, a)
            | Expr::Compile(a)
            | Expr::ParamOf(a) => self.expression(a.get()),
            Expr::Store(_, a, b)
            | Expr::Modify(_, _, a, b)
            | Expr::Bin(_, a, b)
            | Expr::And(a, b)
            | Expr::Or(a, b)
            | Expr::Comma(a, b) => {
                self.expression(a.get())?;
                self.expression(b.get())
            }
            Expr::Cond(c, a, b) => {
                self.expression(c.get())?;
                self.expression(a.get())?;
                self.expression(b.get())
            }
            Expr::Call(_, _, list) | Expr::Tick(_, list) => self.expressions(list.as_slice()),
            Expr::CallNumber(_, a, list) => {
                self.expression(a.get())?;
                self.expressions(list.as_slice())
            }
        }
    }

    // The nodes of expressions, one after another.
    #[cycle(expression)]
    #[tactic(auto, using(crate::proofs::Laws::one_more))]
    fn expressions(&mut self, list: &[Expr]) -> Result<(), AllocError>
        ensures { OnOk result (self.new ≡ behind (map names list.now) self.old) }
    {
        for e in list {
            self.expression(e)?;
        }
        Ok(())
    }

    // The nodes of a statement.
    #[cycle(statement)]
    #[tactic(auto, using(crate::proofs::Laws::statements))]
    fn statement(&mut self, s: &Stmt) -> Result<(), AllocError>
        ensures { OnOk result (self.new ≡ after (names_of s.now) self.old) }
    {
        self.nothing()?;
        match s {
            Stmt::Variable(_) | Stmt::Object(_, _) | Stmt::Parameter(_, _) => Ok(()),
            Stmt::ParameterObject(_, _, _) | Stmt::Case(_) | Stmt::Default => Ok(()),
            Stmt::Break | Stmt::Continue | Stmt::Return => Ok(()),
            Stmt::Eval(e) | Stmt::ReturnValue(e) => self.expression(e.get()),
            Stmt::Block(variables, items) => {
                self.statements(variables.as_slice())?;
                self.statements(items.as_slice())
            }
            Stmt::If(test, a) | Stmt::While(test, a) | Stmt::For(test, a) => {
                self.expression(test.get())?;
                self.statement(a.get())
            }
            Stmt::IfElse(test, a, b) => {
                self.expression(test.get())?;
                self.statement(a.get())?;
                self.statement(b.get())
            }
            Stmt::Do(a, test) => {
                self.statement(a.get())?;
                self.expression(test.get())
            }
            Stmt::ForStep(test, step, a) => {
                self.expression(test.get())?;
                self.expression(step.get())?;
                self.statement(a.get())
            }
            Stmt::Switch(value, variables, items) => {
                self.expression(value.get())?;
                self.nothing()?;
                self.statements(variables.as_slice())?;
                self.statements(items.as_slice())
            }
        }
    }

    // The nodes of statements, one after another.
    #[cycle(statement)]
    #[tactic(auto, using(crate::proofs::Laws::one_statement_more))]
    fn statements(&mut self, list: &[Stmt]) -> Result<(), AllocError>
        ensures { OnOk result (self.new ≡ behind (map names_of list.now) self.old) }
    {
        for s in list {
            self.statement(s)?;
        }
        Ok(())
    }

    /// The nodes of the body of a tick.
    pub fn body(&mut self, body: &TickBody) -> Result<(), AllocError>
        ensures { OnOk result (self.new ≡ after (names_in body.now) self.old) }
    {
        match body {
            TickBody::Expression(e) => self.expression(e.get()),
            TickBody::Statement(s) => self.statement(s.get()),
        }
    }
}
