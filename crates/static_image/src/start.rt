//! The words of the start.

ghost use Rattle.std.specs.Prelude.{◌≡◌, ◌+◌, ◌++◌, ◌<◌, ◌≤◌, length};
ghost use Rattle.icode_expand.specs.Labels.{spliced};
ghost use Rattle.icode_templates.specs.Words.{words};
ghost use Rattle.limits.specs.declared.program.TheConstants.{MOST_FUNCTIONS};
ghost use Rattle.static_image.specs.Layout as layout;
ghost use Rattle.word32.specs.declared.map.TheConstants.{SEGMENT_BYTES};

use icode_templates::Snippet;
use mips_assembly::{addu, jal, lui, nop, ori, sw};
use mips_encoder::{Instr, Register, encode};
use word32::map::{ARENA, CLOSURES, FRAMES, GLOBAL_POINTER, HEAP, STACK_TOP};

const T8: Register = Register::T8;

const GP: Register = Register::GP;

/// The service that ends a run.
const EXIT: u32 = 10;

// A cell, which stands so many bytes below $gp, takes a word.
#[tactic(auto, using(crate::proofs::Appended::more))]
fn set_cell(code: &mut Snippet, below: u32, word: u32)
    requires room { length code.old ≤ 37 }
    requires below { 0 < below × below ≤ 65536 }
    ensures words { code.new ≡ code.old ++ words (layout.set_cell below word) }
    ensures len { length code.new ≡ length code.old + 3 }
{
    code.constant(T8, word);
    code.push(sw(T8, 65536 - below, GP));
}

// The pointers and the cells.
#[tactic(auto, using(crate::proofs::Appended::more))]
fn set_up(code: &mut Snippet, functions: u32)
    requires room { length code.old ≤ 25 }
    requires functions { functions ≤ MOST_FUNCTIONS }
    ensures words { code.new ≡ code.old ++ words (layout.set_up functions) }
    ensures len { length code.new ≡ length code.old + 15 }
{
    code.push(lui(Register::SP, STACK_TOP / 65536));
    code.push(lui(GP, GLOBAL_POINTER / 65536));
    code.push(lui(Register::FP, FRAMES / 65536));
    set_cell(code, 4, HEAP);
    set_cell(code, 8, CLOSURES);
    set_cell(code, 16, functions + 1);
    set_cell(code, 20, ARENA);
}

// The service that ends the run takes main's answer.
fn exit_with_answer(code: &mut Snippet)
    requires room { length code.old ≤ 37 }
    ensures words { code.new ≡ code.old ++ words layout.exit_with_answer }
    ensures len { length code.new ≡ length code.old + 3 }
{
    code.push(addu(Register::A0, Register::V0, Register::ZERO));
    code.push(ori(Register::V0, Register::ZERO, EXIT));
    code.push(Instr::Syscall);
}

// Words are written from a place on.
fn write_words(out: &mut [u32], from: usize, words: &[u32])
    requires { from + length words.now ≤ length out.old }
    ensures { out.new ≡ spliced out.old from words.now }
{
    let end = from + words.len();
    out[from..end].copy_from_slice(words);
}

/// Writes the block of the start, which has 64 words: the start, and no more than `nop` behind it. `main` is the
/// address of main's first word, in bytes, and `functions` how many static functions the image has.
pub fn write_start(out: &mut [u32], main: u32, functions: u32)
    requires room { length out.old ≡ 64 }
    requires main { main < SEGMENT_BYTES }
    requires functions { functions ≤ MOST_FUNCTIONS }
    ensures { out.new ≡ layout.start_block main functions }
{
    let mut code = Snippet::new();
    set_up(&mut code, functions);
    code.push(jal(main));
    code.push(nop());
    exit_with_answer(&mut code);
    out.fill(encode(nop()));
    write_words(out, 0, code.words());
}
