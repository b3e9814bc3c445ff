//! Words by hand, with their nearest wrong neighbours.

use asm_words::{Number, Operation, Pairs, is_name, number_of, operation_of, register_of};
use mips_encoder::{Immediate, Register};
use std::alloc::Global;

#[test]
fn registers_have_numbers_and_names(rt: HostRuntime) {
    let numbers = [
        register_of(b"$31").map(Register::number),
        register_of(b"$t8").map(Register::number),
        register_of(b"$08").map(Register::number),
        register_of(b"$32").map(Register::number),
        register_of(b"$zero").map(Register::number),
        number_of(b"0xfF").and_then(Number::unsigned),
        NEGATIVE.unsigned(),
        NEGATIVE.signed_half().map(Immediate::bits),
    ];
    assert!(rt;
        numbers
            == [
                Some(31),
                Some(24),
                None,
                None,
                None,
                Some(255),
                None,
                Some(65528),
            ]
    );
}

const NEGATIVE: Number = Number {
    negative: true,
    magnitude: Some(8),
};

#[test]
fn numbers_have_signs_and_bases(rt: HostRuntime) {
    let found = [
        number_of(b"-008"),
        number_of(b"-0x1"),
        number_of(b"+1"),
        number_of(b"0x"),
    ];
    assert!(rt; found == [Some(NEGATIVE), None, None, None]);
}

// Whether the digits are pushed as their bytes.
fn are_pushed(alloc: Global) -> bool {
    let mut out = Vec::new(alloc);
    let pushed = matches!(Pairs::of(b"0aFf"), Some(pairs) if pairs.push_to(&mut out).is_ok());
    pushed && out.as_slice() == [10, 255].as_slice()
}

#[test]
fn operations_and_names_are_told_from_others(rt: HostRuntime) {
    let are_so = [
        matches!(operation_of(b"nop"), Some(Operation::NoOperation)),
        matches!(operation_of(b"jalr"), Some(Operation::JumpAndLinkRegister)),
        operation_of(b"JALR").is_none(),
        Operation::Break.name() == "break",
        // names begin with a letter
        is_name(b"_loop2"),
        !is_name(b"2loop"),
        !is_name(b"a.b"),
        !is_name(b""),
        // pairs are bytes
        Pairs::of(b"0aF").is_none(),
        Pairs::of(b"").is_none(),
        are_pushed(rt.alloc()),
    ];
    assert!(rt; are_so == [true; 11]);
}
