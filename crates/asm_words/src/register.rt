//! Registers.

ghost use Rattle.std.specs.Prelude.{◌≡◌, ◌<◌, ◌≤◌, length, map, IfSome};
ghost use Rattle.asm_words.specs.Registers as spec;

use mips_encoder::Register;

// The numbers of the registers.
const NUMBERS: [&[u8]; 32] = [
    b"0", b"1", b"2", b"3", b"4", b"5", b"6", b"7", b"8", b"9", b"10", b"11", b"12", b"13", b"14",
    b"15", b"16", b"17", b"18", b"19", b"20", b"21", b"22", b"23", b"24", b"25", b"26", b"27",
    b"28", b"29", b"30", b"31",
];

// Their usual names. Register 0 has its number alone.
const USUAL_NAMES: [&[u8]; 32] = [
    b"0", b"at", b"v0", b"v1", b"a0", b"a1", b"a2", b"a3", b"t0", b"t1", b"t2", b"t3", b"t4",
    b"t5", b"t6", b"t7", b"s0", b"s1", b"s2", b"s3", b"s4", b"s5", b"s6", b"s7", b"t8", b"t9",
    b"k0", b"k1", b"gp", b"sp", b"fp", b"ra",
];

// The place of a name in a table.
fn place(names: &[&[u8]], name: &[u8]) -> Option<u32>
    requires { length names.now ≤ 32 }
    ensures value { result ≡ spec.place_from 0 (map (λ k. k.now) names.now) name.now }
    ensures within { IfSome result (λ i. i < length names.now) }
{
    let mut at = 0;
    for entry in names {
        if *entry == name {
            return Some(at);
        }
        at += 1;
    }
    None
}

/// The register that a word names: `$` and its number, from 0 to 31 without a leading zero, or `$` and its usual name.
/// None exactly where the word is neither.
#[tactic(auto, unfolding(crate::specs::Registers::register_of))]
pub fn register_of(word: &[u8]) -> Option<Register>
    ensures { result ≡ spec.register_of word.now }
{
    let [b'$', name @ ..] = word else {
        return None;
    };
    match place(&NUMBERS, name) {
        Some(number) => Some(Register::new(number)),
        None => match place(&USUAL_NAMES, name) {
            Some(number) => Some(Register::new(number)),
            None => None,
        },
    }
}
