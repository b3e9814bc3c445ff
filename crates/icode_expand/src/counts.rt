//! How many words the template of an op has, counted without making it.

ghost use Rattle.std.specs.Prelude.{◌≡◌, ℕ, ◌+◌, ◌*◌, ◌<◌, ◌≤◌, length, None};
ghost use Rattle.limits.specs.declared.ops.TheConstants.{MOST_SLOTS};
ghost use Rattle.limits.specs.declared.program.TheConstants.{MOST_ARGUMENTS};
ghost use Rattle.word32.specs.declared.map.TheConstants.{STACK_BYTES};
ghost use Rattle.icode_ops.specs.Finished.{InRange, IsFinished};
ghost use Rattle.icode_ops.specs.Flow.{defined};
ghost use Rattle.icode_templates.specs.Layout.{laid, parameter_spot, slot};
ghost use Rattle.icode_templates.specs.Templates as code;
ghost use Rattle.icode_templates.specs.Templates.{template};
ghost use Rattle.icode_templates.specs.Expansion.{nowhere, templates};

use icode_ops::{BinKind, Op, UnKind};
use icode_templates::Layout;
use limits::run::STACK_OF_A_CALL;

// The offsets from `$sp` below which a load or store of a slot is one instruction, in bytes: those of 16 bits with a
// sign, after the MIPS R2000 architecture manual.
const NEAR: u32 = 32_768;

// How many instructions bring a value to a slot at an offset from `$sp`, or from there.
#[tactic(auto, using(crate::proofs::Counted::loaded, crate::proofs::Counted::stored))]
fn slot_words(offset: u32) -> u32
    ensures load { (t : ℕ) → result ≡ length (code.load_code t (slot offset)) }
    ensures store { result ≡ length (code.out_code (slot offset)) }
    ensures most { result ≤ 3 }
{
    if offset < NEAR { 1 } else { 3 }
}

// How many instructions bring the value of a virtual register to where it stands, or from there.
fn move_words(layout: &Layout, register: u32) -> u32
    requires { register < MOST_SLOTS }
    ensures load { (t : ℕ) → result ≡ length (code.load_code t
        ((laid layout.now.places.now layout.now.frame layout.now.objects).spot register)) }
    ensures store { result ≡ length (code.out_code
        ((laid layout.now.places.now layout.now.frame layout.now.objects).spot register)) }
    ensures most { result ≤ 3 }
{
    let place = match layout.places.get(register as usize) {
        Some(place) => *place as u32,
        None => 12,
    };
    if place < 12 {
        1
    } else {
        slot_words(STACK_OF_A_CALL + 4 * register)
    }
}

// How many instructions bring the value of a virtual register from where it stands, and wait for it.
fn in_words(layout: &Layout, register: u32) -> u32
    requires { register < MOST_SLOTS }
    ensures count { result ≡ length (code.in_code
        ((laid layout.now.places.now layout.now.frame layout.now.objects).spot register)) }
    ensures most { result ≤ 4 }
{
    let place = match layout.places.get(register as usize) {
        Some(place) => *place as u32,
        None => 12,
    };
    if place < 12 {
        1
    } else {
        slot_words(STACK_OF_A_CALL + 4 * register) + 1
    }
}

// How many instructions bring two values from where they stand, and wait for them.
fn in_two_words(layout: &Layout, left: u32, right: u32) -> u32
    requires left { left < MOST_SLOTS }
    requires right { right < MOST_SLOTS }
    ensures count { result ≡ length (code.in_two_code
        ((laid layout.now.places.now layout.now.frame layout.now.objects).spot left)
        ((laid layout.now.places.now layout.now.frame layout.now.objects).spot right)) }
    ensures most { result ≤ 7 }
{
    move_words(layout, left) + in_words(layout, right)
}

// How many instructions an operator on two values has.
fn bin_words(kind: BinKind) -> u32
    ensures { result ≡ length (code.bin_core kind) }
{
    match kind {
        BinKind::Multiply
        | BinKind::DivideSigned
        | BinKind::DivideUnsigned
        | BinKind::RemainderSigned
        | BinKind::RemainderUnsigned
        | BinKind::Equal
        | BinKind::NotEqual
        | BinKind::LessOrEqualSigned
        | BinKind::LessOrEqualUnsigned
        | BinKind::GreaterOrEqualSigned
        | BinKind::GreaterOrEqualUnsigned => 2,
        _ => 1,
    }
}

// How many instructions an operator on one value has.
fn un_words(kind: UnKind) -> u32
    ensures { result ≡ length (code.un_core kind) }
{
    match kind {
        UnKind::SignedByte | UnKind::SignedHalf => 2,
        _ => 1,
    }
}

// How many instructions a copy of a parameter to a virtual register has.
fn parameter_words(layout: &Layout, to: u32, index: u32) -> u32
    requires to { to < MOST_SLOTS }
    requires index { index < MOST_ARGUMENTS }
    requires frame { layout.now.frame ≤ STACK_BYTES }
    ensures count { result ≡
        length (code.in_code (parameter_spot
        (laid layout.now.places.now layout.now.frame layout.now.objects) index))
        + length (code.out_code ((laid layout.now.places.now layout.now.frame layout.now.objects).spot to)) }
    ensures most { result ≤ 7 }
{
    slot_words(layout.frame + 4 * index) + 1 + move_words(layout, to)
}

// How many words the template of an op has that defines no register.
fn effect_words(op: Op, layout: &Layout) -> u32
    requires registers { InRange MOST_SLOTS op }
    requires effect { defined op ≡ None }
    ensures count { result ≡
        length (template (laid layout.now.places.now layout.now.frame layout.now.objects) nowhere op) }
    ensures most { result ≤ 16 }
{
    match op {
        Op::CheckDivision { left, right } => in_two_words(layout, left, right) + 9,
        Op::CheckZero { divisor } => in_words(layout, divisor) + 3,
        Op::Store { address, value, .. } => in_two_words(layout, address, value) + 6,
        Op::Clear { .. } => 10,
        Op::Label { .. } => 0,
        Op::Jump { .. } => 2,
        Op::BranchZero { test, .. } => in_words(layout, test) + 4,
        Op::BranchNonzero { test, .. } => in_words(layout, test) + 4,
        Op::Argument { from, .. } => in_words(layout, from) + 1,
        Op::Call { .. } => 2,
        Op::CallNumber { function, .. } => in_words(layout, function) + 12,
        Op::Return { from } => in_words(layout, from) + 3,
        Op::ReturnZero => 3,
        Op::Put { from, .. } => in_words(layout, from) + 4,
        _ => unreachable!(),
    }
}

/// How many words the template of an op has.
pub(crate) fn op_words(op: Op, layout: &Layout) -> u32
    requires registers { InRange MOST_SLOTS op }
    requires frame { layout.now.frame ≤ STACK_BYTES }
    ensures count { result ≡
        length (template (laid layout.now.places.now layout.now.frame layout.now.objects) nowhere op) }
    ensures most { result ≤ 16 }
{
    match op {
        Op::Const { to, .. } => 2 + move_words(layout, to),
        Op::Move { to, from } => in_words(layout, from) + move_words(layout, to),
        Op::Bin {
            kind,
            to,
            left,
            right,
        } => in_two_words(layout, left, right) + bin_words(kind) + move_words(layout, to),
        Op::Un { kind, to, from } => {
            in_words(layout, from) + un_words(kind) + move_words(layout, to)
        }
        Op::FrameAddress { to, .. } => 3 + move_words(layout, to),
        Op::Load { to, address, .. } => in_words(layout, address) + 7 + move_words(layout, to),
        Op::GetParameter { to, index } => parameter_words(layout, to, index.get()),
        Op::Result { to } => 1 + move_words(layout, to),
        Op::Sys { to, from, .. } => in_words(layout, from) + 4 + move_words(layout, to),
        Op::Run { to, from, .. } => in_words(layout, from) + 4 + move_words(layout, to),
        Op::New { to, .. } => 8 + move_words(layout, to),
        _ => effect_words(op, layout),
    }
}

/// How many words the templates of ops have.
pub(crate) fn ops_words(ops: &[Op], layout: &Layout) -> usize
    requires finished { (n : ℕ) × IsFinished ops.now n }
    requires frame { layout.now.frame ≤ STACK_BYTES }
    ensures count { result ≡
        length (templates (laid layout.now.places.now layout.now.frame layout.now.objects) nowhere ops.now) }
    ensures most { result ≤ 16 * length ops.now }
{
    let mut count = 0;
    for op in ops {
        count += op_words(*op, layout) as usize;
    }
    count
}
