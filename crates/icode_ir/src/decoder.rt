//! The op of a code and its arguments.

ghost use Rattle.std.specs.Prelude.{◌≡◌, ◌&&◌, nat_eq, nat_le};
ghost use Rattle.limits.specs.declared.program.TheConstants.{MOST_ARGUMENTS};
ghost use Rattle.icode_ops.specs.declared.kind.RunKind.TheVariants.{Malloc};
ghost use Rattle.icode_ir.specs.Decoded.{op_of, bin_kind, un_kind, sys_kind, made, only, is_call_address};

use crate::build_op::BuildOp;
use crate::width;
use icode_ops::{ArgumentCount, BinKind, CallAddress, RunKind, SysKind, UnKind};

/// The builder op of a code and two arguments, or None where code that runs may ask for no such op: the code is none of
/// 1 to 24, an argument is outside its table, or the routine isn't the first one. An argument that the op doesn't have
/// is not looked at.
pub fn op(code: u32, first: u32, second: u32) -> Option<BuildOp>
    ensures { result ≡ op_of code first second }
{
    match code {
        1 => Some(BuildOp::Const { word: first }),
        2 => bin(first),
        3 => un(first),
        4 => Some(BuildOp::Enter {
            variables: first,
            labels: second,
        }),
        5 => Some(BuildOp::Leave),
        6 => Some(BuildOp::GetVariable { variable: first }),
        7 => Some(BuildOp::SetVariable { variable: first }),
        8 => Some(BuildOp::Drop),
        9 => Some(BuildOp::Pick { depth: first }),
        10 => Some(BuildOp::Nip),
        11 => Some(BuildOp::Load {
            width: width::from_number(first)?,
        }),
        12 => Some(BuildOp::Store {
            width: width::from_number(first)?,
        }),
        13 => Some(BuildOp::Label { label: first }),
        14 => Some(BuildOp::Jump { label: first }),
        15 => Some(BuildOp::BranchZero { label: first }),
        16 => Some(BuildOp::BranchNonzero { label: first }),
        17 => call(first, second),
        18 => call_number(first),
        19 => Some(BuildOp::Return),
        20 => Some(BuildOp::ReturnZero),
        21 => Some(BuildOp::GetSpec { key: first }),
        22 => Some(BuildOp::SetSpec { key: first }),
        23 => sys(first),
        24 => run(first),
        _ => None,
    }
}

// An operator of two operands.
fn bin(number: u32) -> Option<BuildOp>
    ensures { result ≡ made BuildOp.Bin (bin_kind number) }
{
    match BinKind::from_number(number) {
        Some(kind) => Some(BuildOp::Bin { kind }),
        None => None,
    }
}

// An operator of one operand.
fn un(number: u32) -> Option<BuildOp>
    ensures { result ≡ made BuildOp.Un (un_kind number) }
{
    match UnKind::from_number(number) {
        Some(kind) => Some(BuildOp::Un { kind }),
        None => None,
    }
}

// A call of an address with so many arguments.
fn call(address: u32, count: u32) -> Option<BuildOp>
    ensures { result ≡ only (is_call_address address && nat_le count MOST_ARGUMENTS) (BuildOp.Call address count) }
{
    match (CallAddress::new(address), ArgumentCount::new(count)) {
        (Some(address), Some(count)) => Some(BuildOp::Call { address, count }),
        _ => None,
    }
}

// A call of a function by its number, with so many arguments.
fn call_number(count: u32) -> Option<BuildOp>
    ensures { result ≡ only (nat_le count MOST_ARGUMENTS) (BuildOp.CallNumber count) }
{
    match ArgumentCount::new(count) {
        Some(count) => Some(BuildOp::CallNumber { count }),
        None => None,
    }
}

// A service that compiled code may ask for.
fn sys(number: u32) -> Option<BuildOp>
    ensures { result ≡ made BuildOp.Sys (sys_kind number) }
{
    match SysKind::from_number(number) {
        Some(kind) => Some(BuildOp::Sys { kind }),
        None => None,
    }
}

// The routine that compiled code may call.
fn run(number: u32) -> Option<BuildOp>
    ensures { result ≡ only (nat_eq number 1) (BuildOp.Run Malloc) }
{
    if number == 1 {
        Some(BuildOp::Run {
            routine: RunKind::Malloc,
        })
    } else {
        None
    }
}
