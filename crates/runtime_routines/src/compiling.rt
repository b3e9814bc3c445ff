//! The routine that compiles a specification.

ghost use Rattle.std.specs.Prelude.{◌≡◌, ◌+◌, ◌++◌, ◌≤◌, length};
ghost use Rattle.routine_spec.specs.Compile as routine;
ghost use Rattle.icode_templates.specs.Words.{words};

use crate::numbers::{
    A0, A1, A2, A3, ARENA_CELL, ARENA_LIMIT, AT, BAD_SPEC, COUNT_CELL, FUNCTION_CELL, GP, LAST,
    LOCAL_KIND, TABLE_LIMIT, V0, ZERO,
};
use icode_templates::Snippet;
use mips_assembly::{addiu, addu, beq, bne, jr, lui, lw, ori, sll, sltiu, sltu, srl, sw, trap};
use mips_encoder::{Instr, LinkPair, Register};
use word32::map::{ARENA, ARENA_BYTES, EMIT_STACK, SPEC_ROWS};

// The closure's address.
const T4: Register = Register::T4;

// The charge.
const T5: Register = Register::T5;

// The top of the emit stack.
const T7: Register = Register::T7;

// The function that generates the tick's code.
const T9: Register = Register::T9;

// -4 and -8 as 16 bits.
const LAST_WORD: u32 = 65532;

const LAST_BUT_ONE: u32 = 65528;

// Whether the number is live.
fn live_test(s: &mut Snippet)
    requires { length s.old ≤ 24 }
    ensures words { s.new ≡ s.old ++ words (routine.live_code ++ routine.live_test) }
    ensures len { length s.new ≡ length s.old + 5 }
{
    s.push(lw(A1, COUNT_CELL, GP));
    s.push(addiu(A2, A0, LAST));
    s.push(sltu(A2, A2, A1));
    s.push(beq(A2, ZERO, 57));
    s.push(sll(T4, A0, 2));
}

// Its closure.
fn find(s: &mut Snippet)
    requires { length s.old ≤ 29 }
    ensures words { s.new ≡ s.old ++ words routine.kind_code }
    ensures len { length s.new ≡ length s.old + 7 }
{
    s.push(lui(AT, SPEC_ROWS / 65536));
    s.push(addu(T4, T4, AT));
    s.push(lw(T4, LAST_WORD, T4));
    s.push(lw(A3, FUNCTION_CELL, GP));
    s.push(lw(A1, 4, T4));
    s.push(lw(A2, 8, T4));
    s.push(sltiu(A1, A1, LOCAL_KIND));
}

// Whether it is a tick's, and the function table has a row more.
fn table_test(s: &mut Snippet)
    requires { length s.old ≤ 36 }
    ensures words { s.new ≡ s.old ++ words (routine.kind_test ++ routine.table_test) }
    ensures len { length s.new ≡ length s.old + 4 }
{
    s.push(beq(A1, ZERO, 48));
    s.push(srl(A1, A3, 16));
    s.push(bne(A1, ZERO, 47));
    s.push(sll(A1, A2, 9));
}

// The arena.
fn arena_tests(s: &mut Snippet)
    requires { length s.old ≤ 31 }
    ensures words { s.new ≡ s.old ++ words (routine.charge_code ++ routine.arena_test) }
    ensures len { length s.new ≡ length s.old + 9 }
{
    s.push(sll(A2, A2, 8));
    s.push(addu(A1, A1, A2));
    s.push(lw(A2, ARENA_CELL, GP));
    s.push(addiu(A1, A1, 256));
    s.push(addu(A2, A2, A1));
    s.push(lui(AT, (ARENA + ARENA_BYTES) / 65536));
    s.push(sltu(AT, AT, A2));
    s.push(bne(AT, ZERO, 39));
    s.push(lui(T7, EMIT_STACK / 65536));
}

// The function is begun.
fn begin(s: &mut Snippet)
    requires { length s.old ≤ 25 }
    ensures words { s.new ≡ s.old ++ words routine.begin_code }
    ensures len { length s.new ≡ length s.old + 6 }
{
    s.push(sw(Register::RA, 0, T7));
    s.push(sw(A1, 4, T7));
    s.push(lw(A0, 12, T4));
    s.push(lw(T9, 0, T4));
    s.push(ori(V0, ZERO, 64));
    s.push(Instr::Syscall);
}

// Its ops are issued.
fn generate(s: &mut Snippet)
    requires { length s.old ≤ 31 }
    ensures { s.new ≡ s.old ++ words (routine.generate_code ++ (routine.kind_again_code
        ++ (routine.value_test ++ routine.return_code))) }
{
    s.push(Instr::JumpAndLinkRegister(LinkPair::new(31, 25)));
    s.push(addiu(T7, T7, 8));
    s.push(lw(A1, 4, T4));
    s.push(lw(T5, LAST_WORD, T7));
    s.push(ori(AT, ZERO, 1));
    s.push(bne(A1, AT, 3));
    s.push(ori(V0, ZERO, 65));
    s.push(ori(A0, ZERO, 19));
    s.push(Instr::Syscall);
}

/// The tests, and then the function is begun and its ops are issued: 40 words.
#[tactic(auto, using(icode_templates::proofs::Appended::words_append))]
pub fn first_part(s: &mut Snippet)
    requires { length s.old ≤ 0 }
    ensures { s.new ≡ s.old ++ words (routine.tests_code ++ routine.build_code) }
{
    live_test(s);
    find(s);
    table_test(s);
    arena_tests(s);
    begin(s);
    generate(s);
}

// The function is finished, and its words are flushed.
fn finish(s: &mut Snippet)
    requires { length s.old ≤ 31 }
    ensures words { s.new ≡ s.old ++ words (routine.finish_code ++ routine.flush_code) }
    ensures len { length s.new ≡ length s.old + 9 }
{
    s.push(lw(A0, ARENA_CELL, GP));
    s.push(srl(A1, T5, 2));
    s.push(srl(A2, T5, 4));
    s.push(addiu(A2, A2, 112));
    s.push(ori(V0, ZERO, 66));
    s.push(Instr::Syscall);
    s.push(addu(A1, V0, ZERO));
    s.push(ori(V0, ZERO, 67));
    s.push(Instr::Syscall);
}

// It is published.
fn publish(s: &mut Snippet)
    requires { length s.old ≤ 28 }
    ensures words { s.new ≡ s.old ++ words routine.publish_code }
    ensures len { length s.new ≡ length s.old + 7 }
{
    s.push(addu(A1, A0, ZERO));
    s.push(addu(T5, T5, A0));
    s.push(sw(T5, ARENA_CELL, GP));
    s.push(lw(A0, FUNCTION_CELL, GP));
    s.push(lw(A2, 12, T4));
    s.push(ori(V0, ZERO, 68));
    s.push(Instr::Syscall);
}

// The cells move on, and back to the caller.
fn answer(s: &mut Snippet)
    requires { length s.old ≤ 35 }
    ensures words { s.new ≡ s.old ++ words (routine.answer_code ++ routine.back_code) }
    ensures len { length s.new ≡ length s.old + 5 }
{
    s.push(lw(Register::RA, LAST_BUT_ONE, T7));
    s.push(addiu(A1, A0, 1));
    s.push(sw(A1, FUNCTION_CELL, GP));
    s.push(jr(Register::RA));
    s.push(addu(V0, A0, ZERO));
}

// The traps, to which the tests go.
fn traps(s: &mut Snippet)
    requires { length s.old ≤ 37 }
    ensures { s.new ≡ s.old ++ words routine.traps_code }
{
    s.push(trap(BAD_SPEC));
    s.push(trap(TABLE_LIMIT));
    s.push(trap(ARENA_LIMIT));
}

/// The function is finished and published, and the traps of the tests: 24 words.
#[tactic(auto, using(icode_templates::proofs::Appended::words_append))]
pub fn second_part(s: &mut Snippet)
    requires { length s.old ≤ 16 }
    ensures { s.new ≡ s.old ++ words (routine.make_code ++ routine.traps_code) }
{
    finish(s);
    publish(s);
    answer(s);
    traps(s);
}
