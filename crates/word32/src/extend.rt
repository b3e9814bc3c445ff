//! Narrow numbers, widened with their sign.

ghost use Rattle.std.specs.Prelude.{◌≡◌, ◌+◌, ◌*◌, ◌/◌, ◌%◌, ◌-◌, ◌<◌};
ghost use Rattle.word32.specs.Words as words;

/// The low byte of a word, widened with its sign: bit 7 fills the bits above it.
#[inline(always)]
pub fn sext8(w: u32) -> u32
    ensures { result ≡ words.sext8 w }
{
    let byte = w % 256;
    byte.wrapping_sub(byte / 128 * 256)
}

/// The low two bytes of a word, widened with their sign: bit 15 fills the bits above it.
#[inline(always)]
pub fn sext16(w: u32) -> u32
    ensures { result ≡ words.sext16 w }
{
    let half = w % 65536;
    half.wrapping_sub(half / 32768 * 65536)
}
