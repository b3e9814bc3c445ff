//! The code of an op and its arguments.

ghost use Rattle.std.specs.Prelude.{◌≡◌};
ghost use Rattle.icode_ir.specs.Codes.{code_of, first_of, second_of};

use crate::build_op::BuildOp;
use crate::width;

/// The code of an op.
pub fn code(op: BuildOp) -> u32
    ensures { result ≡ code_of op }
{
    match op {
        BuildOp::Const { .. } => 1,
        BuildOp::Bin { .. } => 2,
        BuildOp::Un { .. } => 3,
        BuildOp::Enter { .. } => 4,
        BuildOp::Leave => 5,
        BuildOp::GetVariable { .. } => 6,
        BuildOp::SetVariable { .. } => 7,
        BuildOp::Drop => 8,
        BuildOp::Pick { .. } => 9,
        BuildOp::Nip => 10,
        BuildOp::Load { .. } => 11,
        BuildOp::Store { .. } => 12,
        BuildOp::Label { .. } => 13,
        BuildOp::Jump { .. } => 14,
        BuildOp::BranchZero { .. } => 15,
        BuildOp::BranchNonzero { .. } => 16,
        BuildOp::Call { .. } => 17,
        BuildOp::CallNumber { .. } => 18,
        BuildOp::Return => 19,
        BuildOp::ReturnZero => 20,
        BuildOp::GetSpec { .. } => 21,
        BuildOp::SetSpec { .. } => 22,
        BuildOp::Sys { .. } => 23,
        BuildOp::Run { .. } => 24,
        BuildOp::FrameAddress { .. } => 25,
        BuildOp::Clear { .. } => 26,
        BuildOp::New { .. } => 27,
        BuildOp::Put { .. } => 28,
        BuildOp::Parameter { .. } => 29,
    }
}

/// The first argument of an op, or 0 where it has none.
pub fn first_argument(op: BuildOp) -> u32
    ensures { result ≡ first_of op }
{
    match op {
        BuildOp::Const { word } => word,
        BuildOp::Bin { kind } => kind.number(),
        BuildOp::Un { kind } => kind.number(),
        BuildOp::Enter { variables, .. } => variables,
        BuildOp::GetVariable { variable } => variable,
        BuildOp::SetVariable { variable } => variable,
        BuildOp::Pick { depth } => depth,
        BuildOp::Load { width } => width::number(width),
        BuildOp::Store { width } => width::number(width),
        BuildOp::Label { label } => label,
        BuildOp::Jump { label } => label,
        BuildOp::BranchZero { label } => label,
        BuildOp::BranchNonzero { label } => label,
        BuildOp::Call { address, .. } => address.get(),
        BuildOp::CallNumber { count } => count.get(),
        BuildOp::GetSpec { key } => key,
        BuildOp::SetSpec { key } => key,
        BuildOp::Sys { kind } => kind.number(),
        BuildOp::Run { routine } => routine.number(),
        BuildOp::FrameAddress { offset } => offset,
        BuildOp::Clear { offset, .. } => offset,
        BuildOp::New { address, .. } => address,
        BuildOp::Put { index } => index.get(),
        BuildOp::Parameter { index } => index.get(),
        _ => 0,
    }
}

/// The second argument of an op, or 0 where it has none. The count of captures of a New is a third one.
pub fn second_argument(op: BuildOp) -> u32
    ensures { result ≡ second_of op }
{
    match op {
        BuildOp::Enter { labels, .. } => labels,
        BuildOp::Call { count, .. } => count.get(),
        BuildOp::Clear { words, .. } => words,
        BuildOp::New { kind, .. } => kind.number(),
        _ => 0,
    }
}
