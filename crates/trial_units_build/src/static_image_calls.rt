//! The words of the start, worked out by hand from the instruction table.

use static_image::write_start;
use word32::map::FUNCTIONS;

const START: [u32; 20] = [
    0x3c1d_8000,
    0x3c1c_2051,
    0x3c1e_10c0,
    0x3c18_1040,
    0x3718_0000,
    0xaf98_fffc,
    0x3c18_2000,
    0x3718_0000,
    0xaf98_fff8,
    0x3c18_0000,
    0x3718_0002,
    0xaf98_fff0,
    0x3c18_0400,
    0x3718_0000,
    0xaf98_ffec,
    0x0c10_0400,
    0x0000_0000,
    0x0040_2021,
    0x3402_000a,
    0x0000_000c,
];

#[test]
fn the_start_has_its_block(rt: HostRuntime) {
    let mut out = [1; 64];
    write_start(&mut out, FUNCTIONS, 1);
    assert!(rt; out[..20] == START[..]);
    assert!(rt; [out[20], out[63]] == [0, 0]);
}
