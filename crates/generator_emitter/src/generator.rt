//! The words of the function of a tick, piece by piece.

ghost use Rattle.std.specs.Prelude.{◌≡◌, ◌+◌, ◌*◌, ◌++◌, ◌<◌, ◌^◌, ◌≤◌, IfOk, OnOk, length};
ghost use Rattle.limits.specs.declared.ops.TheConstants.{MOST_CAPTURES};
ghost use Rattle.icode_templates.specs.Templates.{upper, lower};
ghost use Rattle.icode_templates.specs.Words.{words as words_of};
ghost use Rattle.routine_spec.specs.Written.{HasWords};
ghost use Rattle.routine_spec.specs.Generator as spec;
ghost use Rattle.icode_ir.specs.Codes.{first_of, second_of};
ghost use Rattle.icode_ir.specs.Sound.{Each};

use icode_ir::{BuildOp, code, first_argument, second_argument};
use icode_ops::CaptureIndex;
use icode_templates::Snippet;
use mips_assembly::{addiu, addu, jr, lui, lw, nop, ori, sll, sw};
use mips_encoder::{Instr, LinkPair, Register};
use sqlite_items::Items;
use std::alloc::{AllocError, Global};
use tick_lower_spec::Piece;
use word32::map;

const AT: Register = Register::AT;

const V0: Register = Register::V0;

const A0: Register = Register::A0;

const A1: Register = Register::A1;

const A2: Register = Register::A2;

const ZERO: Register = Register::ZERO;

// The closure's address.
const T4: Register = Register::T4;

// The top of the emit stack.
const T7: Register = Register::T7;

// -4 and -8 as 16 bits.
const LAST_WORD: u32 = 65532;

const LAST_BUT_ONE: u32 = 65528;

// `$ra` and `$t4` to the emit stack.
fn enter(s: &mut Snippet)
    requires { length s.old ≤ 20 }
    ensures { s.new ≡ s.old ++ words_of spec.enter_code }
{
    s.push(sw(Register::RA, 0, T7));
    s.push(sw(T4, 4, T7));
    s.push(addiu(T7, T7, 8));
}

// `$ra` from there, and back.
fn leave(s: &mut Snippet)
    requires { length s.old ≤ 20 }
    ensures { s.new ≡ s.old ++ words_of spec.leave_code }
{
    s.push(lw(Register::RA, LAST_BUT_ONE, T7));
    s.push(addiu(T7, T7, LAST_BUT_ONE));
    s.push(jr(Register::RA));
    s.push(nop());
}

// The op of a code is issued.
fn emit(s: &mut Snippet, code: u32)
    requires room { length s.old ≤ 30 }
    requires code { code < 65536 }
    ensures words { s.new ≡ s.old ++ words_of (spec.emit_code code) }
    ensures len { length s.new ≡ length s.old + 3 }
{
    s.push(ori(A0, ZERO, code));
    s.push(ori(V0, ZERO, 65));
    s.push(Instr::Syscall);
}

// An op is issued, with its arguments.
#[tactic(auto, using(icode_templates::proofs::Appended::words_append))]
fn issue(s: &mut Snippet, op: &BuildOp)
    requires { length s.old ≤ 20 }
    ensures words { s.new ≡ s.old ++ words_of (spec.op_code op.now) }
    ensures first { first_of op.now < 2 ^ 32 }
    ensures second { second_of op.now < 2 ^ 32 }
{
    let first = first_argument(*op);
    let second = second_argument(*op);
    s.constant(A1, first);
    s.constant(A2, second);
    emit(s, code(*op));
}

// The captured word of a number to register t.
fn captured(s: &mut Snippet, t: Register, capture: CaptureIndex)
    requires { length s.old ≤ 20 }
    ensures words { s.new ≡ s.old ++ words_of (spec.captured_code t capture) }
    ensures len { length s.new ≡ length s.old + 3 }
{
    let offset = 16 + 4 * capture.get();
    s.push(lui(AT, (offset + 32768) / 65536));
    s.push(addu(AT, AT, T4));
    s.push(lw(t, offset % 65536, AT));
}

// The number of a specification in register t becomes the address of its closure.
fn closure(s: &mut Snippet, t: Register)
    requires { length s.old ≤ 23 }
    ensures words { s.new ≡ s.old ++ words_of (spec.closure_code t) }
    ensures len { length s.new ≡ length s.old + 6 }
{
    s.push(nop());
    s.push(sll(t, t, 2));
    s.push(lui(AT, map::SPEC_ROWS / 65536));
    s.push(addu(t, t, AT));
    s.push(lw(t, LAST_WORD, t));
    s.push(nop());
}

// The constant of a captured word.
#[tactic(auto, using(icode_templates::proofs::Appended::words_append))]
fn word(s: &mut Snippet, capture: CaptureIndex)
    requires { length s.old ≤ 20 }
    ensures { s.new ≡ s.old ++ words_of (spec.captured_code 5 capture ++ spec.emit_code 1) }
{
    captured(s, A1, capture);
    emit(s, 1);
}

// The key of a captured variable.
#[tactic(auto, using(icode_templates::proofs::Appended::words_append))]
fn key(s: &mut Snippet, capture: CaptureIndex)
    requires { length s.old ≤ 20 }
    ensures words { s.new ≡ s.old ++ words_of (spec.key_code capture) }
    ensures len { length s.new ≡ length s.old + 10 }
{
    captured(s, A1, capture);
    closure(s, A1);
    s.push(lw(A1, 0, A1));
}

// The op of a code on a captured variable.
#[tactic(auto, using(icode_templates::proofs::Appended::words_append))]
fn variable(s: &mut Snippet, capture: CaptureIndex, code: u32)
    requires room { length s.old ≤ 20 }
    requires code { code < 65536 }
    ensures { s.new ≡ s.old ++ words_of (spec.key_code capture ++ spec.emit_code code) }
{
    key(s, capture);
    emit(s, code);
}

// The function of a captured specification is called.
#[tactic(auto, using(icode_templates::proofs::Appended::words_append))]
fn splice(s: &mut Snippet, capture: CaptureIndex)
    requires { length s.old ≤ 20 }
    ensures { s.new ≡ s.old ++ words_of (spec.splice_code capture) }
{
    captured(s, T4, capture);
    closure(s, T4);
    s.push(lw(Register::T9, 0, T4));
    s.push(nop());
    s.push(Instr::JumpAndLinkRegister(LinkPair::new(31, 25)));
    s.push(nop());
    s.push(lw(T4, LAST_WORD, T7));
    s.push(nop());
}

// The words of a piece.
fn piece(s: &mut Snippet, piece: &Piece)
    requires { length s.old ≤ 20 }
    ensures words { s.new ≡ s.old ++ words_of (spec.piece_code piece.now) }
    ensures fits { HasWords piece.now }
{
    match piece {
        Piece::Plain(op) => issue(s, op),
        Piece::Captured(capture) => word(s, *capture),
        Piece::GetKey(capture) => variable(s, *capture, 21),
        Piece::SetKey(capture) => variable(s, *capture, 22),
        Piece::Splice(capture) => splice(s, *capture),
        Piece::Nothing => s.push(nop()),
    }
}

// The words of a stretch at the end.
fn put(alloc: Global, found: &mut Items<u32>, s: &Snippet) -> Result<(), AllocError>
    ensures { OnOk result (found.new ≡ found.old ++ s.now) }
{
    let more = Items::from_slice(alloc, s.words())?;
    found.append(more)
}

// Those of a piece.
fn put_piece(alloc: Global, found: &mut Items<u32>, p: &Piece) -> Result<(), AllocError>
    ensures words { OnOk result (found.new ≡ found.old ++ words_of (spec.piece_code p.now)) }
    ensures fits { OnOk result (HasWords p.now) }
{
    let mut s = Snippet::new();
    piece(&mut s, p);
    put(alloc, found, &s)
}

// Those of pieces, one after another.
#[tactic(auto, using(crate::proofs::Pieces::one_more, crate::proofs::Pieces::one_fits))]
fn put_pieces(alloc: Global, found: &mut Items<u32>, pieces: &[Piece]) -> Result<(), AllocError>
    ensures words { OnOk result (found.new ≡ found.old ++ words_of (spec.pieces_code pieces.now)) }
    ensures fits { OnOk result (Each HasWords pieces.now) }
{
    for p in pieces {
        put_piece(alloc, found, p)?;
    }
    Ok(())
}

/// The words of the function of a tick with these pieces, each argument of an op being a word. Fails for want of memory
/// alone.
#[tactic(auto, using(crate::proofs::Pieces::whole))]
pub fn words(alloc: Global, pieces: &[Piece]) -> Result<Items<u32>, AllocError>
    ensures words { IfOk result (λ found. found ≡ words_of (spec.generator_code pieces.now)) }
    ensures fits { OnOk result (Each HasWords pieces.now) }
{
    let mut found = Items::new(alloc);
    let mut s = Snippet::new();
    enter(&mut s);
    put(alloc, &mut found, &s)?;
    put_pieces(alloc, &mut found, pieces)?;
    s.clear();
    leave(&mut s);
    put(alloc, &mut found, &s)?;
    Ok(found)
}
