//! Words among bytes, the most significant byte first.

ghost use Rattle.std.specs.Prelude.{◌≡◌, ℕ, ◌+◌, ◌*◌, ◌/◌, ◌%◌, ◌-◌, ◌<◌, ◌≤◌, ◌⊎◌, length, slice_index};
ghost use Rattle.word32.specs.Bytes as spec;

use byteorder::{BigEndian, ByteOrder};

/// The word in the four bytes from `at` on, the most significant first.
#[inline]
pub fn be_read(bytes: &[u8], at: usize) -> u32
    requires { at + 4 ≤ length bytes.now }
    ensures { result ≡ spec.word_in bytes.now at }
{
    BigEndian::read_u32(&bytes[at..])
}

/// Writes a word into the four bytes from `at` on, the most significant first. The other bytes stay as they are.
#[inline]
pub fn be_write(bytes: &mut [u8], at: usize, w: u32)
    requires { at + 4 ≤ length bytes.old }
    ensures written { bytes.new ≡ spec.with_word bytes.old at w }
    ensures word { spec.word_in bytes.new at ≡ w }
    ensures others { (k : ℕ) → (k < at) ⊎ (at + 4 ≤ k) → slice_index bytes.new k ≡ slice_index bytes.old k }
{
    BigEndian::write_u32(&mut bytes[at..at + 4], w);
}
