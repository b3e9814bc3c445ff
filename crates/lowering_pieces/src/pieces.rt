//! The pieces of the nodes so far, and the numbers for the next node.

ghost use Rattle.std.specs.Prelude.{◌≡◌, ◌+◌, ◌++◌, ◌∷◌, [], IfOk, OnOk};
ghost use Rattle.lowering_pieces.specs.Steps.{library_pieces, op, put};
ghost use Rattle.tick_lower_spec.specs.Lower.{narrowing, dropping, dropping_call, keeping, kept, step_ops, joins};
ghost use Rattle.tick_lower_spec.specs.TickPieces.{plain, own};

use icode_ir::BuildOp;
use icode_ops::{BinKind, RunKind, SysKind, UnKind};
use sqlite_items::Items;
use std::alloc::{AllocError, Global};
use tick_lower_spec::Piece;
use typed_tree::{Answer, Library};
use word32::Width;

/// The pieces of the nodes so far. A node's labels and its own variables are numbered behind those of the nodes before
/// it. No number is over the greatest word: a tree of so many nodes is in no memory.
#[derive(Drop)]
pub struct Pieces {
    /// Where the list takes its memory.
    pub alloc: Global,
    /// The pieces, in their order.
    pub list: Items<Piece>,
    /// The label that the next node's are numbered from.
    pub label: u32,
    /// The variable that the next node's own are numbered from.
    pub variable: u32,
}

/// Where a break and a continue go: the labels of what is round a statement.
#[derive(Clone, Copy)]
pub struct Exits {
    /// Behind the loop or the switch.
    pub on_break: u32,
    /// To the next turn of the loop.
    pub on_continue: u32,
}

/// Where two ways part and meet.
#[derive(Clone, Copy)]
pub struct Join {
    /// The label of the second way.
    pub other: u32,
    /// The label at which both meet.
    pub end: u32,
}

/// The labels of a loop with a place of its own for `continue`.
#[derive(Clone, Copy)]
pub struct Turn {
    /// Behind the loop.
    pub end: u32,
    /// Where a turn begins.
    pub start: u32,
    /// Where a `continue` goes.
    pub next: u32,
}

/// A switch whose value is known.
#[derive(Clone, Copy)]
pub struct Selector {
    /// The label behind the switch.
    pub end: u32,
    /// The variable with the value.
    pub value: u32,
}

impl Turn {
    /// Where a break and a continue of the loop go.
    pub fn exits(self) -> Exits
        ensures { result ≡ record { on_break = self.end; on_continue = self.next } }
    {
        Exits {
            on_break: self.end,
            on_continue: self.next,
        }
    }
}

// The number behind so many more.
fn behind(number: u32, more: u32) -> Result<u32, AllocError>
    ensures { IfOk result (λ n. n ≡ number + more) }
{
    match number.checked_add(more) {
        Some(next) => Ok(next),
        None => Err(AllocError),
    }
}

impl Pieces {
    /// An op more. The only error is want of memory.
    pub fn op(&mut self, op: BuildOp) -> Result<(), AllocError>
        ensures { OnOk result (self.new ≡ put (Piece.Plain op ∷ []) self.old) }
    {
        self.list.push(Piece::Plain(op))
    }

    /// A piece more. The only error is want of memory.
    pub fn push(&mut self, piece: Piece) -> Result<(), AllocError>
        ensures { OnOk result (self.new ≡ put (piece ∷ []) self.old) }
    {
        match piece {
            Piece::Plain(op) => self.op(op),
            Piece::Captured(_) | Piece::GetKey(_) | Piece::SetKey(_) => self.list.push(piece),
            Piece::Splice(_) | Piece::Nothing => self.list.push(piece),
        }
    }

    /// More ops, in their order. The only error is want of memory.
    #[tactic(auto, using(crate::proofs::Lists::one_op_more))]
    pub fn ops(&mut self, ops: &[BuildOp]) -> Result<(), AllocError>
        ensures { OnOk result (self.new ≡ put (plain ops.now) self.old) }
    {
        for op in ops {
            self.op(*op)?;
        }
        Ok(())
    }

    /// No pieces, with the numbers that come next here: for nodes whose pieces stand apart at first.
    pub fn apart(&self) -> Pieces
        ensures { result ≡ record self.now { list = [] } }
    {
        Pieces {
            alloc: self.alloc,
            list: Items::new(self.alloc),
            label: self.label,
            variable: self.variable,
        }
    }

    /// Puts pieces that stood apart behind those that are here. The only error is want of memory.
    pub fn append(&mut self, more: Pieces) -> Result<(), AllocError>
        ensures { OnOk result (self.new ≡ record self.old {
          list = self.old.list ++ more.list;
          label = more.label;
          variable = more.variable;
        }) }
    {
        self.label = more.label;
        self.variable = more.variable;
        self.list.append(more.list)
    }

    /// A label of a node's own. The only error is want of memory.
    pub fn take_label(&mut self) -> Result<u32, AllocError>
        ensures label { IfOk result (λ l. l ≡ self.old.label) }
        ensures next { OnOk result (self.new ≡ record self.old { label = self.old.label + 1 }) }
    {
        let label = self.label;
        self.label = behind(label, 1)?;
        Ok(label)
    }

    /// A variable of a node's own. The only error is want of memory.
    pub fn take_variable(&mut self) -> Result<u32, AllocError>
        ensures variable { IfOk result (λ t. t ≡ self.old.variable) }
        ensures next { OnOk result (self.new ≡ record self.old { variable = self.old.variable + 1 }) }
    {
        let variable = self.variable;
        self.variable = behind(variable, 1)?;
        Ok(variable)
    }

    /// The labels where two ways part and meet. The only error is want of memory.
    pub fn take_join(&mut self) -> Result<Join, AllocError>
        ensures join { IfOk result (λ j. j ≡ record { other = self.old.label; end = self.old.label + 1 }) }
        ensures next { OnOk result (self.new ≡ record self.old { label = self.old.label + 2 }) }
    {
        let other = self.label;
        let end = behind(other, 1)?;
        self.label = behind(other, 2)?;
        Ok(Join { other, end })
    }

    /// The labels of a loop. The only error is want of memory.
    pub fn take_turn(&mut self) -> Result<Turn, AllocError>
        ensures turn { IfOk result (λ t. t ≡ record {
          end = self.old.label;
          start = self.old.label + 1;
          next = self.old.label + 2;
        }) }
        ensures next { OnOk result (self.new ≡ record self.old { label = self.old.label + 3 }) }
    {
        let end = self.label;
        let start = behind(end, 1)?;
        let next = behind(end, 2)?;
        self.label = behind(end, 3)?;
        Ok(Turn { end, start, next })
    }

    /// A conversion to a width; a word is none. The only error is want of memory.
    pub fn narrowing(&mut self, width: Width) -> Result<(), AllocError>
        ensures { OnOk result (self.new ≡ put (plain (narrowing width)) self.old) }
    {
        match width {
            Width::SignedByte => self.op(BuildOp::Un {
                kind: UnKind::SignedByte,
            }),
            Width::Byte => self.op(BuildOp::Un { kind: UnKind::Byte }),
            Width::SignedHalf => self.op(BuildOp::Un {
                kind: UnKind::SignedHalf,
            }),
            Width::Half => self.op(BuildOp::Un { kind: UnKind::Half }),
            Width::Word => Ok(()),
        }
    }

    /// Takes away what is left, if anything is. The only error is want of memory.
    pub fn dropping(&mut self, left: bool) -> Result<(), AllocError>
        ensures { OnOk result (self.new ≡ put (plain (dropping left)) self.old) }
    {
        if left { self.op(BuildOp::Drop) } else { Ok(()) }
    }

    /// The piece of a node that takes away what is left, or adds nothing. The only error is want of memory.
    pub fn own_dropping(&mut self, left: bool) -> Result<(), AllocError>
        ensures { OnOk result (self.new ≡ put (own (dropping left)) self.old) }
    {
        if left {
            self.op(BuildOp::Drop)
        } else {
            self.push(Piece::Nothing)
        }
    }

    /// Takes away what a call of a void function leaves. The only error is want of memory.
    pub fn dropping_call(&mut self, answer: Answer) -> Result<(), AllocError>
        ensures { OnOk result (self.new ≡ put (plain (dropping_call answer)) self.old) }
    {
        match answer {
            Answer::Value => Ok(()),
            Answer::Void => self.op(BuildOp::Drop),
        }
    }

    /// The value goes to a variable, where there is one. The only error is want of memory.
    pub fn keeping(&mut self, left: bool, variable: u32) -> Result<(), AllocError>
        ensures { OnOk result (self.new ≡ put (plain (keeping left variable)) self.old) }
    {
        if left {
            self.ops(&[BuildOp::SetVariable { variable }, BuildOp::Drop])
        } else {
            Ok(())
        }
    }

    /// The value comes back from its variable, where there is one. The only error is want of memory.
    pub fn kept(&mut self, left: bool, variable: u32) -> Result<(), AllocError>
        ensures { OnOk result (self.new ≡ put (plain (kept left variable)) self.old) }
    {
        if left {
            self.op(BuildOp::GetVariable { variable })
        } else {
            Ok(())
        }
    }

    /// The rest of a step that leaves the old value. The only error is want of memory.
    #[tactic(auto, using(crate::proofs::Puts::stepped))]
    pub fn step(&mut self, step: u32, width: Width) -> Result<(), AllocError>
        ensures { OnOk result (self.new ≡ put (plain (step_ops step width)) self.old) }
    {
        self.ops(&[
            BuildOp::Const { word: step },
            BuildOp::Bin { kind: BinKind::Add },
        ])?;
        self.narrowing(width)
    }

    /// The ends of the two ways of `&&` and `||`, which give the value `first` or `second` in a variable. The only
    /// error is want of memory.
    pub fn joins(
        &mut self,
        first: u32,
        second: u32,
        join: Join,
        value: u32,
    ) -> Result<(), AllocError>
        ensures { OnOk result (self.new ≡ put (plain (joins first second join.other join.end value)) self.old) }
    {
        let Join { other, end } = join;
        self.ops(&[
            BuildOp::Const { word: first },
            BuildOp::SetVariable { variable: value },
            BuildOp::Drop,
            BuildOp::Jump { label: end },
            BuildOp::Label { label: other },
            BuildOp::Const { word: second },
            BuildOp::SetVariable { variable: value },
            BuildOp::Drop,
            BuildOp::Label { label: end },
            BuildOp::GetVariable { variable: value },
        ])
    }

    /// The place where two ways meet, behind which the value is in a variable, where there is one. The only error is
    /// want of memory.
    pub fn met(&mut self, left: bool, end: u32, value: u32) -> Result<(), AllocError>
        ensures { OnOk result (self.new ≡ put (plain (kept left value)) (op (BuildOp.Label end) self.old)) }
    {
        self.op(BuildOp::Label { label: end })?;
        self.kept(left, value)
    }

    /// The number 0, and an op that takes it. The only error is want of memory.
    pub fn on_zero(&mut self, last: BuildOp) -> Result<(), AllocError>
        ensures { OnOk result (self.new ≡ put (plain (BuildOp.Const 0 ∷ last ∷ [])) self.old) }
    {
        self.ops(&[BuildOp::Const { word: 0 }, last])
    }

    /// A jump to one label, and behind it the place of another. The only error is want of memory.
    pub fn turn(&mut self, to: u32, here: u32) -> Result<(), AllocError>
        ensures { OnOk result (
            self.new ≡ put (Piece.Plain (BuildOp.Jump to) ∷ Piece.Plain (BuildOp.Label here) ∷ []) self.old) }
    {
        self.ops(&[BuildOp::Jump { label: to }, BuildOp::Label { label: here }])
    }

    /// What a library function does with its argument. The only error is want of memory.
    pub fn library(&mut self, function: Library) -> Result<(), AllocError>
        ensures { OnOk result (self.new ≡ put (library_pieces function) self.old) }
    {
        match function {
            Library::Putchar => self.op(BuildOp::Sys {
                kind: SysKind::PutByte,
            }),
            Library::Putint => self.ops(&[
                BuildOp::Sys {
                    kind: SysKind::PutInteger,
                },
                BuildOp::Drop,
            ]),
            Library::Exit => self.ops(&[
                BuildOp::Sys {
                    kind: SysKind::Exit,
                },
                BuildOp::Drop,
            ]),
            Library::Malloc => self.op(BuildOp::Run {
                routine: RunKind::Malloc,
            }),
        }
    }
}
