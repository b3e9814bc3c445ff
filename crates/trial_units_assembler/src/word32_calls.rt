//! Each call once, on values worked out by hand.

use word32::{
    DivFault, Width, access_laws, be_read, be_write, div_s, div_u, is_aligned, loaded_part, map,
    sext8, sext16, stored_part,
};

#[test]
fn divides_toward_zero(rt: HostRuntime) {
    let found = [
        div_s(7, 0xffff_fffe),
        div_s(0xffff_fff9, 2),
        div_s(0x8000_0000, 0xffff_ffff),
        div_s(1, 0),
        div_u(0xffff_fff9, 2),
        div_u(1, 0),
    ];
    assert!(rt;
        found
            == [
                Ok((0xffff_fffd, 1)),
                Ok((0xffff_fffd, 0xffff_ffff)),
                Err(DivFault::Overflow),
                Err(DivFault::Zero),
                Ok((0x7fff_fffc, 1)),
                Err(DivFault::Zero),
            ]
    );
}

#[test]
fn moves_parts_of_a_word_and_widens_with_the_sign(rt: HostRuntime) {
    let at = map::OBJECTS + 2;
    let mut bytes = [9, 0, 0, 0, 0, 9];
    be_write(&mut bytes, 1, 0x1234_5678);
    let found = [
        loaded_part(0x1234_f678, at, Width::SignedHalf),
        loaded_part(0x1234_f678, at, Width::Byte),
        stored_part(0x1234_5678, at, Width::SignedByte, 0xffff_ffab),
        sext8(0x1234_5680),
        sext8(0x1234_567f),
        sext16(0x1234_8000),
        be_read(&bytes, 2),
    ];
    let wanted = [
        0xffff_f678,
        0xf6,
        0x1234_ab78,
        0xffff_ff80,
        0x7f,
        0xffff_8000,
        0x3456_7809,
    ];
    let are_aligned = [is_aligned(at, Width::Half), is_aligned(at, Width::Word)];
    assert!(rt;
        found == wanted && bytes == [9, 0x12, 0x34, 0x56, 0x78, 9] && are_aligned == [true, false]
    );
    access_laws();
}
