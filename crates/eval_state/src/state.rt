//! The state of a run from within.

use crate::parts::Frame;
use sqlite_items::Items;
use std::alloc::Global;
use std::marker::Model;
use typed_tree::{Answer, Function};
use wellformed::Typed;

/// A variable of generated code that was set.
#[derive(Clone, Copy)]
pub struct Setting {
    /// Its key.
    pub key: u32,
    /// Its value.
    pub value: u32,
}

/// The variables of generated code that a function has, by their keys: those that were set, and its arguments.
pub struct Generated {
    /// What its call was passed.
    pub arguments: Items<u32>,
    /// Those that were set, a key each.
    pub values: Items<Setting>,
}

// (derived, each crate that drops one would prove it once more)
impl Drop for Generated {
    fn drop(self) {
        let Generated {
            arguments: _,
            values: _,
        } = self;
    }
}

/// The active body.
pub struct Body {
    /// Its register variables by their numbers; those that follow are 0.
    pub variables: Items<u32>,
    /// What its call was passed.
    pub arguments: Items<u32>,
    /// The variables of generated code that its function has.
    pub generated: Generated,
    /// The bytes of its frame objects.
    pub object: u32,
    /// The number of the specification whose code runs; 0 in a function of the text.
    pub row: u32,
}

// (derived, each crate that drops one would prove it once more)
impl Drop for Body {
    fn drop(self) {
        let Body {
            variables: _,
            arguments: _,
            generated: _,
            object: _,
            row: _,
        } = self;
    }
}

impl Body {
    // Keeps the lists of a body that was left, as many as its call took: of a compiled function one, since its
    // arguments stand in two lists and its variables were given none. Where memory is wanting they are dropped.
    pub(crate) fn keep_lists(self, spare: &mut Items<Items<u32>>) {
        let Body {
            variables,
            arguments,
            generated,
            object: _,
            row,
        } = self;
        drop(generated);
        drop(spare.push(arguments));
        if row == 0 {
            drop(spare.push(variables));
        }
    }
}

/// What is kept of a capture.
#[derive(Clone, Copy)]
pub enum Kept {
    /// A word.
    Word(u32),
    /// The key of a variable of generated code.
    Key(u32),
    /// The number of a specification.
    Number(u32),
}

/// What a specification is.
#[derive(Clone, Copy)]
pub enum RowKind {
    /// Of a tick of an expression.
    Expression,
    /// Of a tick of a statement.
    Statement,
    /// A variable of generated code.
    Local,
    /// A parameter of generated code, of this index.
    Param(u32),
}

/// A specification.
pub struct Row {
    /// What it is.
    pub kind: RowKind,
    /// The number of its tick.
    pub tick: u32,
    /// Its captures.
    pub kept: Items<Kept>,
    /// Its nodes, with those that are spliced in.
    pub size: u32,
    /// The parameters of its code.
    pub parameters: u32,
}

// (derived, each crate that drops one would prove it once more)
impl Drop for Row {
    fn drop(self) {
        let Row {
            kind: _,
            tick: _,
            kept: _,
            size: _,
            parameters: _,
        } = self;
    }
}

/// A compiled function.
#[derive(Clone, Copy)]
pub struct Compiled {
    /// The number of the specification that it was compiled from.
    pub row: u32,
    /// How many different local variables its code names.
    pub locals: u64,
    /// The first word of its body in the arena.
    pub first: u32,
    /// The words that it is charged.
    pub words: u32,
}

/// An event.
#[derive(Clone, Copy)]
pub enum Event {
    /// A byte was put out.
    Out(u8),
    /// The input was asked for a byte and answered this word.
    In(u32),
    /// The function of the first number was compiled from the specification of the second.
    Made(u32, u32),
    /// The compiled function of this number was entered.
    Entered(u32),
}

/// What is pending, on a value or on the end of a body.
#[derive(Drop)]
pub enum Entry<'a> {
    /// Within a body.
    Inside(Frame<'a>),
    /// A call that is charged so much; the caller's body.
    Called(Answer, u32, Body),
    /// A specification that is spliced in; the variables, the bytes of frame objects and the specification round it.
    Spliced(Answer, Items<u32>, u32, u32),
}

/// The parts of the state.
#[derive(Drop)]
pub struct Parts<'a> {
    /// Where memory comes from.
    pub alloc: Global,
    /// The program.
    pub typed: &'a Typed,
    /// Its function `main`.
    pub main: &'a Function,
    /// How many turns a loop has after its first.
    pub turns: u64,
    /// How many calls more may be active.
    pub depth: u64,
    /// The units that are left.
    pub units: u64,
    /// What is pending, the innermost last.
    pub entries: Items<Entry<'a>>,
    /// The active body.
    pub body: Body,
    /// What happened.
    pub events: Items<Event>,
    /// The input that is left.
    pub input: &'a [u8],
    /// The words of the object space.
    pub objects: Vec<u32>,
    /// The next address of the heap.
    pub heap: u32,
    /// The bytes that the active calls are charged.
    pub used: u32,
    /// The bytes of the frame objects of the active calls.
    pub frames: u32,
    /// The specifications, the first of which has the number 1.
    pub rows: Items<Row>,
    /// The bytes of their closures.
    pub closures: u32,
    /// The functions that were compiled, whose numbers follow those of the text's.
    pub compiled: Items<Compiled>,
    /// The words of the arena that they are charged.
    pub arena: u32,
}

/// A run from within, which contracts see by its parts.
pub struct Machine<'a> {
    /// Its parts.
    pub parts: Parts<'a>,
    // Lists of calls that are over, whose memory serves the next ones.
    pub(crate) spare: Items<Items<u32>>,
}

impl<'a> Drop for Machine<'a> {
    fn drop(self) {
        let Machine { parts: _, spare: _ } = self;
    }
}

impl<'a> Model for Machine<'a> {
    ghost use Rattle.eval_state.specs.declared.state.Parts.{Parts};
    ghost use Rattle.eval_state.specs.contracts.state.Parts as inner;
    ghost use denote.Signature.{static_lft};

    ghost Value = { Parts };

    ghost coded = { (inner.the_row static_lft).coded };

    ghost use Rattle.eval_state.specs.Sound.{IsSound};

    ghost view = { λ m. m.parts };

    ghost invariant = { λ m. IsSound m.parts };
}
