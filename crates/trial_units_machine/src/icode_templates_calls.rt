//! Each public call once. The words are those of GNU as, which keeps the code of a BREAK higher up.

ghost use Rattle.std.specs.Prelude.{◌≡◌, []};

use icode_ops::{BinKind, Op};
use icode_templates::{Layout, Snippet};
use mips_assembly::{
    addiu, addu, and, andi, beq, bne, div, divu, j, jal, jalr_of_t8, jr, lui, lw, mfhi, mflo, mult,
    nop, nor, or, ori, sll, sllv, slt, sltiu, sltu, sra, srav, srl, srlv, subu, sw, trap, xor,
    xori,
};
use mips_encoder::{Instr, Register, encode};

const T8: Register = Register::T8;

const T9: Register = Register::T9;

const ZERO: Register = Register::ZERO;

// How many of the instructions have the word beside them.
fn count_so(rows: &[(Instr, u32)]) -> u32 {
    let mut count = 0u32;
    for (instruction, word) in rows {
        if encode(*instruction) == *word {
            count = count.saturating_add(1);
        }
    }
    count
}

#[test]
fn arithmetic_has_the_words_of_a_second_assembler(rt: HostRuntime) {
    let rows = [
        (addu(T8, Register::V0, ZERO), 0x0040_c021),
        (subu(Register::SP, T8, Register::AT), 0x0301_e823),
        (and(T8, T8, T9), 0x0319_c024),
        (or(T8, T8, T9), 0x0319_c025),
        (xor(T8, T8, T9), 0x0319_c026),
        (nor(T8, T8, ZERO), 0x0300_c027),
        (slt(T8, T9, T8), 0x0338_c02a),
        (sltu(T9, T8, Register::FP), 0x031e_c82b),
        (mult(T8, T9), 0x0319_0018),
        (div(T8, T9), 0x0319_001a),
        (divu(T8, T9), 0x0319_001b),
        (mflo(T8), 0x0000_c012),
        (mfhi(T8), 0x0000_c010),
    ];
    assert!(rt; count_so(&rows) == 13);
}

#[test]
fn immediates_and_shifts_have_the_words_of_a_second_assembler(rt: HostRuntime) {
    let rows = [
        (addiu(T9, T9, 65535), 0x2739_ffff),
        (sltiu(T8, T8, 1), 0x2f18_0001),
        (andi(T8, T8, 65535), 0x3318_ffff),
        (ori(Register::AT, Register::AT, 1024), 0x3421_0400),
        (xori(T9, T9, 16), 0x3b39_0010),
        (lui(T9, 32512), 0x3c19_7f00),
        (sll(T8, T8, 3), 0x0018_c0c0),
        (srl(T9, T8, 24), 0x0018_ce02),
        (sra(T8, T8, 16), 0x0018_c403),
        (sllv(T8, T8, T9), 0x0338_c004),
        (srlv(T8, T8, T9), 0x0338_c006),
        (srav(T8, T8, T9), 0x0338_c007),
    ];
    assert!(rt; count_so(&rows) == 12);
}

#[test]
fn memory_and_jumps_have_the_words_of_a_second_assembler(rt: HostRuntime) {
    let rows = [
        (lw(T9, 65504, Register::GP), 0x8f99_ffe0),
        (sw(T8, 20, T9), 0xaf38_0014),
        (beq(T9, ZERO, 2), 0x1320_0002),
        (bne(T8, T9, 65533), 0x1719_fffd),
        (j(0x0040_0060), 0x0810_0018),
        (jal(0x0040_0100), 0x0c10_0040),
        (jr(Register::RA), 0x03e0_0008),
        (jalr_of_t8(), 0x0300_f809),
        (trap(20), 0x0000_050d),
        (nop(), 0),
    ];
    assert!(rt; count_so(&rows) == 10);
}

const SUM: Op = Op::Bin {
    kind: BinKind::Add,
    to: 2,
    left: 0,
    right: 1,
};

// Whether the sum of a register and a slot has its words, and the constant and the trap behind it theirs.
fn is_sum(code: &mut Snippet) -> bool
    requires { code.old ≡ [] }
{
    let layout = Layout {
        places: &[12, 0, 12],
        frame: 1024,
        objects: 0,
    };
    code.add_op(SUM, &layout, 0);
    // lw $24,128($29); addu $25,$16,$0; addu $24,$24,$25; sw $24,136($29)
    let is_sum = code.words() == [0x8fb8_0080, 0x0200_c821, 0x0319_c021, 0xafb8_0088].as_slice();
    code.clear();
    code.constant(T8, 0x1234_5678);
    code.trap_unless_zero(T9, 21);
    code.push(nop());
    is_sum && code.len() == 6
}

#[test]
fn a_sum_of_a_register_and_a_slot_has_its_words(rt: HostRuntime) {
    let mut code = Snippet::new();
    assert!(rt; is_sum(&mut code));
}
