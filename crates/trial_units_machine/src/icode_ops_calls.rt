//! Each public call once.

use icode_ops::{
    ArgumentCount, ArgumentIndex, BinKind, CallAddress, CaptureIndex, ClosureKind, Op, RunKind,
    SysKind, UnKind,
};

// The number of what is there, or 99.
macro_rules! number {
    ($found:expr, $number:ident) => {
        match $found {
            Some(it) => it.$number(),
            None => 99,
        }
    };
}

#[test]
fn numbers_and_kinds_are_taken(rt: HostRuntime) {
    let taken = [
        number!(ArgumentCount::new(8), get),
        number!(ArgumentIndex::new(7), get),
        number!(CaptureIndex::new(32_767), get),
        number!(CallAddress::new(0x0fff_fffc), get),
        number!(BinKind::from_number(23), number),
        number!(UnKind::from_number(7), number),
        number!(SysKind::from_number(12), number),
        number!(RunKind::from_number(8), number),
        number!(ClosureKind::from_number(2), number),
    ];
    assert!(rt; taken == [8, 7, 32_767, 0x0fff_fffc, 23, 7, 12, 8, 2]);
}

const SUM: Op = Op::Bin {
    kind: BinKind::Add,
    to: 2,
    left: 0,
    right: 1,
};

const JUMP: Op = Op::Jump { label: 5 };

const LABEL: Op = Op::Label { label: 5 };

#[test]
fn a_sum_defines_one_register_and_uses_two(rt: HostRuntime) {
    let named = [
        SUM.defined(),
        SUM.first_use(),
        SUM.second_use(),
        JUMP.goes_to(),
        LABEL.label(),
    ];
    let fall = [SUM.falls(), Op::ReturnZero.falls()];
    assert!(rt; named == [Some(2), Some(0), Some(1), Some(5), Some(5)] && fall == [true, false]);
}
