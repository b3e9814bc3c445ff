//! Words and instructions from the architecture manual and from a second assembler.

use mips_encoder::{
    BreakCode, Immediate, ImmediateOp, Instr, JumpOp, JumpTarget, LinkPair, LinkSource, Register,
    ShiftAmount, decode, encode,
};

/// Reads a word that the table has, and gives the word of what was read.
fn again(word: u32) -> Option<u32> {
    Some(encode(decode(word)?))
}

// Whether it is `addiu $sp, $sp, -8`.
fn is_stack_pointer_down_by_eight(instruction: Instr) -> bool {
    match instruction {
        Instr::ImmediateArithmetic(op, to, from, bits) => {
            matches!(op, ImmediateOp::Addiu)
                && [to.number(), from.number(), bits.bits()] == [29, 29, 65528]
        }
        _ => false,
    }
}

// The word of a jump to the address, or 0.
fn jump_to(address: u32) -> u32 {
    match JumpTarget::at(address) {
        Some(target) => encode(Instr::Jump(JumpOp::J, target)),
        None => 0,
    }
}

#[test]
fn instructions_are_decoded_and_encoded(rt: HostRuntime) {
    let words = [
        Some(encode(Instr::Break(BreakCode::new(7)))),
        Some(jump_to(0x0400_0000)),
        again(0x0109_f809),
        again(0x0100_f809),
    ];
    let wanted = [
        Some(0x0000_01cd),
        Some(0x0900_0000),
        None,
        Some(0x0100_f809),
    ];
    let is_so = match decode(0x27bd_fff8) {
        Some(found) => is_stack_pointer_down_by_eight(found),
        None => false,
    };
    assert!(rt; words == wanted && is_so);
}

#[test]
fn words_and_operands_outside_their_fields_are_none(rt: HostRuntime) {
    // JR with bits in the shift amount, SYSCALL with a code, JALR with equal registers, BGEZAL of register 31.
    let are_none = [
        decode(0x03e0_0048).is_none(),
        decode(0x0000_004c).is_none(),
        decode(0x0100_4009).is_none(),
        decode(0x07f1_0001).is_none(),
        Register::checked(32).is_none(),
        ShiftAmount::checked(32).is_none(),
        BreakCode::checked(1_048_576).is_none(),
        Immediate::checked(65_536).is_none(),
        JumpTarget::at(0x1000_0000).is_none(),
        JumpTarget::at(6).is_none(),
        LinkPair::checked(Register::RA, Register::RA).is_none(),
        LinkSource::checked(Register::RA).is_none(),
        Register::checked(31) == Some(Register::RA),
    ];
    assert!(rt; are_none == [true; 13]);
}
