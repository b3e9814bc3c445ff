//! The routines of `malloc`, and of closures.

ghost use Rattle.std.specs.Prelude.{◌≡◌, ◌+◌, ◌++◌, ◌∷◌, ◌<◌, ◌≤◌, length};
ghost use Rattle.icode_templates.specs.Words.{words};
ghost use Rattle.icode_templates_proof.specs.Malloc.{malloc_code, measure_code, pass_code, return_code, take_code};
ghost use Rattle.icode_templates_proof.specs.Routines as routine;
ghost use Rattle.routine_spec.specs.Blocks.{tested_code, trap_codes};

use crate::numbers::{
    A0, A1, A2, A3, AT, BAD_PARAMETER, BAD_SPEC, COUNT_CELL, GP, HEAP_CELL, LAST, LOCAL_KIND,
    NEWEST_CELL, NEXT_CELL, PARAMETER_KIND, PARAMETERS_CELL, SIZE_CELL, SPEC_LIMIT, TOO_LARGE, V0,
    V1, ZERO,
};
use icode_templates::Snippet;
use limits::program::{MOST_ARGUMENTS, SIZE_LIMIT};
use limits::run::CLOSURE_HEAD_BYTES;
use mips_assembly::{
    addiu, addu, beq, bne, jr, lui, lw, nop, ori, sll, sltiu, sltu, srl, subu, sw, trap,
};
use mips_encoder::{Instr, Register};
use word32::map::{FRAMES, SPEC_ROWS};

// Back to the caller.
fn back(s: &mut Snippet)
    requires { length s.old ≤ 38 }
    ensures words { s.new ≡ s.old ++ words return_code }
    ensures len { length s.new ≡ length s.old + 2 }
{
    s.push(jr(Register::RA));
    s.push(nop());
}

// The next place of the heap, and whether the rest of it is too small.
fn measure(s: &mut Snippet)
    requires { length s.old ≤ 25 }
    ensures words { s.new ≡ s.old ++ words (measure_code ++ pass_code) }
    ensures len { length s.new ≡ length s.old + 7 }
{
    s.push(lw(V1, HEAP_CELL, GP));
    s.push(lui(V0, FRAMES / 65536));
    s.push(subu(V0, V0, V1));
    s.push(sltu(AT, V0, A0));
    s.push(addu(V0, ZERO, ZERO));
    s.push(bne(AT, ZERO, 7));
    s.push(nop());
}

// It is the answer, and moves on.
fn take(s: &mut Snippet)
    requires { length s.old ≤ 32 }
    ensures words { s.new ≡ s.old ++ words take_code }
    ensures len { length s.new ≡ length s.old + 6 }
{
    s.push(addu(V0, V1, ZERO));
    s.push(addiu(A0, A0, 7));
    s.push(srl(A0, A0, 3));
    s.push(sll(A0, A0, 3));
    s.push(addu(A0, A0, V1));
    s.push(sw(A0, HEAP_CELL, GP));
}

/// The routine of `malloc`.
#[tactic(auto, using(icode_templates::proofs::Appended::words_append))]
pub fn malloc(s: &mut Snippet)
    requires { length s.old ≤ 25 }
    ensures { s.new ≡ s.old ++ words malloc_code }
{
    measure(s);
    take(s);
    back(s);
}

// The run ends by a trap unless the branch, which passes it, is taken.
fn trap_behind(s: &mut Snippet, branch: Instr, code: u32)
    requires room { length s.old ≤ 37 }
    requires code { code < 1048576 }
    ensures words { s.new ≡ s.old ++ words (trap_codes branch code) }
    ensures len { length s.new ≡ length s.old + 3 }
{
    s.push(branch);
    s.push(nop());
    s.push(trap(code));
}

// The next closure's place, and whether there is room for it.
fn room(s: &mut Snippet)
    requires { length s.old ≤ 34 }
    ensures words { s.new ≡ s.old ++ words routine.room_code }
    ensures len { length s.new ≡ length s.old + 6 }
{
    s.push(lw(V0, NEXT_CELL, GP));
    s.push(sll(A2, A2, 2));
    s.push(addiu(A2, A2, CLOSURE_HEAD_BYTES));
    s.push(addu(A2, A2, V0));
    s.push(lui(AT, SPEC_ROWS / 65536));
    s.push(sltu(AT, AT, A2));
}

// The first four words of the closure.
fn head(s: &mut Snippet)
    requires { length s.old ≤ 26 }
    ensures words { s.new ≡ s.old ++ words routine.head_code }
    ensures len { length s.new ≡ length s.old + 4 }
{
    s.push(sw(A0, 0, V0));
    s.push(sw(A1, 4, V0));
    s.push(sw(V1, 8, V0));
    s.push(sw(A3, 12, V0));
}

// Its row.
fn row(s: &mut Snippet)
    requires { length s.old ≤ 30 }
    ensures words { s.new ≡ s.old ++ words (routine.row_code ++ routine.store_row_code) }
    ensures len { length s.new ≡ length s.old + 5 }
{
    s.push(lw(V1, COUNT_CELL, GP));
    s.push(lui(AT, SPEC_ROWS / 65536));
    s.push(sll(A0, V1, 2));
    s.push(addu(AT, AT, A0));
    s.push(sw(V0, 0, AT));
}

// The cells.
fn count(s: &mut Snippet)
    requires { length s.old ≤ 35 }
    ensures words { s.new ≡ s.old ++ words routine.count_code }
    ensures len { length s.new ≡ length s.old + 5 }
{
    s.push(addiu(V1, V1, 1));
    s.push(sw(V1, COUNT_CELL, GP));
    s.push(sw(A2, NEXT_CELL, GP));
    s.push(sw(V0, NEWEST_CELL, GP));
    s.push(addu(V0, V1, ZERO));
}

// All of these.
#[tactic(auto, using(icode_templates::proofs::Appended::words_append))]
fn write(s: &mut Snippet)
    requires { length s.old ≤ 26 }
    ensures words { s.new ≡ s.old ++ words routine.write_code }
    ensures len { length s.new ≡ length s.old + 14 }
{
    head(s);
    row(s);
    count(s);
}

// A closure more, where there is room.
#[tactic(auto, using(icode_templates::proofs::Appended::words_append))]
fn append(s: &mut Snippet)
    requires { length s.old ≤ 15 }
    ensures words { s.new ≡ s.old ++ words routine.append_code }
    ensures len { length s.new ≡ length s.old + 25 }
{
    room(s);
    trap_behind(s, beq(AT, ZERO, 2), SPEC_LIMIT);
    write(s);
    back(s);
}

/// The routine that makes the closure of a tick.
#[tactic(auto, using(icode_templates::proofs::Appended::words_append))]
pub fn new(s: &mut Snippet)
    requires { length s.old ≤ 5 }
    ensures { s.new ≡ s.old ++ words routine.new_code }
{
    s.push(lw(V1, SIZE_CELL, GP));
    s.push(lw(A3, PARAMETERS_CELL, GP));
    s.push(ori(AT, ZERO, SIZE_LIMIT));
    s.push(sltu(AT, AT, V1));
    trap_behind(s, beq(AT, ZERO, 2), TOO_LARGE);
    append(s);
}

/// That of a local variable of generated code.
#[tactic(auto, using(icode_templates::proofs::Appended::words_append))]
pub fn local(s: &mut Snippet)
    requires { length s.old ≤ 5 }
    ensures { s.new ≡ s.old ++ words routine.local_code }
{
    s.push(lw(A0, COUNT_CELL, GP));
    s.push(ori(A1, ZERO, LOCAL_KIND));
    s.push(addiu(A0, A0, 8));
    s.push(addu(V1, ZERO, ZERO));
    s.push(addu(A3, ZERO, ZERO));
    s.push(addu(A2, ZERO, ZERO));
    append(s);
}

/// That of a parameter.
#[tactic(auto, using(icode_templates::proofs::Appended::words_append))]
pub fn parameter(s: &mut Snippet)
    requires { length s.old ≤ 5 }
    ensures { s.new ≡ s.old ++ words routine.parameter_code }
{
    s.push(sltiu(AT, A0, MOST_ARGUMENTS));
    trap_behind(s, bne(AT, ZERO, 2), BAD_PARAMETER);
    s.push(ori(A1, ZERO, PARAMETER_KIND));
    s.push(addiu(A3, A0, 1));
    s.push(addu(V1, ZERO, ZERO));
    s.push(addu(A2, ZERO, ZERO));
    append(s);
}

/// That which begins to add sizes up.
#[tactic(auto, using(icode_templates::proofs::Appended::words_append))]
pub fn begin(s: &mut Snippet)
    requires { length s.old ≤ 35 }
    ensures { s.new ≡ s.old ++ words routine.begin_code }
{
    s.push(sw(A0, SIZE_CELL, GP));
    s.push(sw(ZERO, PARAMETERS_CELL, GP));
    s.push(addu(V0, ZERO, ZERO));
    back(s);
}

// The size so far, with that of the closure whose address is in $v0, and whether this has more parameters.
fn add_size(s: &mut Snippet)
    requires { length s.old ≤ 26 }
    ensures words { s.new ≡ s.old ++ words (routine.load_sizes_code ++ routine.add_size_code) }
    ensures len { length s.new ≡ length s.old + 7 }
{
    s.push(lw(A1, 8, V0));
    s.push(lw(A3, 12, V0));
    s.push(lw(A2, SIZE_CELL, GP));
    s.push(lw(V1, PARAMETERS_CELL, GP));
    s.push(addu(A1, A1, A2));
    s.push(sw(A1, SIZE_CELL, GP));
    s.push(sltu(AT, V1, A3));
}

// The parameters so far are those, where they are more.
fn raise(s: &mut Snippet)
    requires { length s.old ≤ 33 }
    ensures words { s.new ≡ s.old ++ words (routine.raise_code ++ routine.store_parameters_code) }
    ensures len { length s.new ≡ length s.old + 5 }
{
    s.push(beq(AT, ZERO, 2));
    s.push(nop());
    s.push(addu(V1, A3, ZERO));
    s.push(sw(V1, PARAMETERS_CELL, GP));
    s.push(addu(V0, ZERO, ZERO));
}

// Both.
#[tactic(auto, using(icode_templates::proofs::Appended::words_append))]
fn add(s: &mut Snippet)
    requires { length s.old ≤ 26 }
    ensures words { s.new ≡ s.old ++ words routine.add_code }
    ensures len { length s.new ≡ length s.old + 14 }
{
    add_size(s);
    raise(s);
    back(s);
}

// The closure of a live number, and its kind.
fn find(s: &mut Snippet)
    requires { length s.old ≤ 30 }
    ensures words { s.new ≡ s.old ++ words (routine.find_code ++ (routine.load_row_code ++ routine.load_kind_code)) }
    ensures len { length s.new ≡ length s.old + 7 }
{
    s.push(sll(V0, V0, 2));
    s.push(lui(AT, SPEC_ROWS / 65536));
    s.push(addu(V0, V0, AT));
    s.push(lw(V0, 0, V0));
    s.push(nop());
    s.push(lw(V1, 4, V0));
    s.push(nop());
}

/// That which checks a captured number, where this instruction makes the kind in `$v1` 0 if it is the one that is
/// named.
#[tactic(auto, using(icode_templates::proofs::Appended::words_append))]
pub fn check(s: &mut Snippet, test: Instr)
    requires { length s.old ≤ 5 }
    ensures { s.new ≡ s.old ++ words (tested_code test) }
{
    s.push(lw(V1, COUNT_CELL, GP));
    s.push(addiu(V0, A0, LAST));
    s.push(sltu(AT, V0, V1));
    trap_behind(s, bne(AT, ZERO, 2), BAD_SPEC);
    find(s);
    s.push(test);
    trap_behind(s, beq(V1, ZERO, 2), BAD_SPEC);
    add(s);
}
