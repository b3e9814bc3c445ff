//! Loads and stores within the word that holds them.

ghost use Rattle.std.specs.Prelude.{◌≡◌, ℕ, ◌+◌, ◌*◌, ◌/◌, ◌%◌, ◌-◌, ◌<◌, ◌^◌};
ghost use Rattle.word32.specs.Parts as parts;
ghost use Rattle.word32.specs.Laws as laws;

use crate::extend::{sext8, sext16};
use crate::width::Width;

/// Whether an access at this address stands on a multiple of its size.
#[inline(always)]
pub fn is_aligned(at: u32, width: Width) -> bool
    ensures { result ≡ parts.is_aligned at width }
{
    match width {
        Width::SignedByte | Width::Byte => true,
        Width::SignedHalf | Width::Half => at % 2 == 0,
        Width::Word => at % 4 == 0,
    }
}

#[inline(always)]
#[tactic(auto, unfolding(crate::specs::Parts::byte_of))]
fn byte_of(word: u32, at: u32) -> u32
    ensures value { result ≡ parts.byte_of word at }
    ensures range { result < 256 }
{
    (word >> (24 - 8 * (at % 4))) % 256
}

#[inline(always)]
#[tactic(auto, unfolding(crate::specs::Parts::half_of))]
fn half_of(word: u32, at: u32) -> u32
    ensures value { result ≡ parts.half_of word at }
    ensures range { result < 65536 }
{
    if at % 4 / 2 == 0 {
        word / 65536
    } else {
        word % 65536
    }
}

#[inline(always)]
fn with_byte(word: u32, at: u32, w: u32) -> u32
    ensures { result ≡ parts.with_byte word at w }
{
    let shift = 24 - 8 * (at % 4);
    word - ((word >> shift) % 256 << shift) + (w % 256 << shift)
}

#[inline(always)]
#[tactic(auto, unfolding(crate::specs::Parts::with_half))]
fn with_half(word: u32, at: u32, w: u32) -> u32
    ensures { result ≡ parts.with_half word at w }
{
    if at % 4 / 2 == 0 {
        w % 65536 * 65536 + word % 65536
    } else {
        word / 65536 * 65536 + w % 65536
    }
}

/// What an aligned access at this address loads, `word` being the word of memory that holds it. A signed width is
/// widened with its sign, the others with zeros.
#[inline(always)]
pub fn loaded_part(word: u32, at: u32, width: Width) -> u32
    ensures { result ≡ parts.loaded_part word at width }
{
    match width {
        Width::SignedByte => sext8(byte_of(word, at)),
        Width::Byte => byte_of(word, at),
        Width::SignedHalf => sext16(half_of(word, at)),
        Width::Half => half_of(word, at),
        Width::Word => word,
    }
}

/// The word of memory that holds an aligned access at this address, after the access stored w in it; `word` is what
/// it was before. A signed width stores as the unsigned one of its size.
#[inline(always)]
pub fn stored_part(word: u32, at: u32, width: Width, w: u32) -> u32
    ensures { result ≡ parts.stored_part word at width w }
{
    match width {
        Width::SignedByte | Width::Byte => with_byte(word, at, w),
        Width::SignedHalf | Width::Half => with_half(word, at, w),
        Width::Word => w,
    }
}

/// The laws of loads and stores: `loaded_part` and `stored_part`, at a space of words, are loads and stores of
/// big-endian bytes by address. It does nothing; its contract is the statement.
pub fn access_laws()
    ensures loads { laws.LoadsBytes }
    ensures stores { laws.StoresBytes }
    ensures others { laws.KeepsOtherBytes }
{}
