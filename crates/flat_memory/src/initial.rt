//! What the regions hold at first.

ghost use Rattle.std.specs.Prelude.{◌≡◌, ◌+◌, ◌*◌, ◌/◌, ◌%◌, ◌-◌, ℕ, ◌<◌, ◌≤◌, length, slice_index, vec_capacity, IfOk};
ghost use Rattle.std.specs.Prelude.{Ok, Err};
ghost use Rattle.word32.specs.Bytes.{word_in};
ghost use Rattle.word32.specs.declared.map.TheConstants.{GLOBAL_BYTES, OBJECT_BYTES};

use std::alloc::{AllocError, Global};
use word32::{be_read, map};

/// So many words that are 0.
pub fn zero_words(alloc: Global, count: usize) -> Result<Vec<u32>, AllocError>
    ensures length { IfOk result (λ v. length v.items ≡ count) }
    ensures zero { IfOk result (λ v. (i : ℕ) → slice_index v.items i ≡ 0) }
{
    vec![in alloc; 0; count]
}

/// Makes all words 0. It takes no memory.
pub fn clear(words: &mut Vec<u32>)
    ensures length { length words.new.items ≡ length words.old.items }
    ensures zero { (i : ℕ) → slice_index words.new.items i ≡ 0 }
{
    let count = words.len();
    words.clear();
    let _ = words.resize(count, 0);
}

/// Makes room for so many words in the place of those that stand there, which stay until then.
///
/// # Errors
/// Where memory is wanting; there is as much room as before then.
pub fn make_room(words: &mut Vec<u32>, count: usize) -> Result<(), AllocError>
    ensures items { words.new.items ≡ words.old.items }
    ensures room { IfOk result (λ _. count ≤ vec_capacity words.new) }
{
    if count <= words.len() {
        return Ok(());
    }
    words.reserve(count - words.len())
}

/// Puts other words in the place of those that stand there. There is room for them, so it takes no memory.
pub fn replace(words: &mut Vec<u32>, others: &[u32])
    requires { length others.now ≤ vec_capacity words.old }
    ensures { words.new.items ≡ others.now }
{
    words.clear();
    let _ = words.extend_from_slice(others);
}

/// A byte, and 0 behind the last.
fn byte_or_zero(bytes: &[u8], i: usize) -> u8
    ensures { result ≡ slice_index bytes.now i }
{
    if i < bytes.len() { bytes[i] } else { 0 }
}

/// The word in the four bytes from a place on, the most significant first; bytes behind the last are 0.
fn word_at(bytes: &[u8], at: usize) -> u32
    requires { at < length bytes.now }
    ensures { result ≡ word_in bytes.now at }
{
    if bytes.len() - at >= 4 {
        return be_read(bytes, at);
    }
    let padded = [
        byte_or_zero(bytes, at),
        byte_or_zero(bytes, at + 1),
        byte_or_zero(bytes, at + 2),
        byte_or_zero(bytes, at + 3),
    ];
    be_read(&padded, 0)
}

/// Writes the bytes into words, the most significant byte of each first.
fn fill(words: &mut [u32], bytes: &[u8])
    requires room { length bytes.now ≤ 4 * length words.old }
    requires zero { (i : ℕ) → slice_index words.old i ≡ 0 }
    ensures { (i : ℕ) → slice_index words.new i ≡ word_in bytes.now (4 * i) }
{
    let count = bytes.len().div_ceil(4);
    for i in 0..count {
        words[i] = word_at(bytes, 4 * i);
    }
}

/// Makes the words those of objects that begin with these bytes; all else is 0. It takes no memory.
pub fn refill(words: &mut Vec<u32>, bytes: &[u8])
    requires room { length bytes.now ≤ 4 * length words.old.items }
    ensures length { length words.new.items ≡ length words.old.items }
    ensures words { (i : ℕ) → slice_index words.new.items i ≡ word_in bytes.now (4 * i) }
{
    clear(words);
    fill(words, bytes);
}

/// The words of the objects, which begin with these bytes; all else is 0.
pub fn object_words(alloc: Global, bytes: &[u8]) -> Result<Vec<u32>, AllocError>
    requires { length bytes.now ≤ GLOBAL_BYTES }
    ensures length { IfOk result (λ v. length v.items ≡ OBJECT_BYTES / 4) }
    ensures words { IfOk result (λ v. (i : ℕ) → slice_index v.items i ≡ word_in bytes.now (4 * i)) }
{
    let mut words = zero_words(alloc, (map::OBJECT_BYTES / 4) as usize)?;
    fill(&mut words, bytes);
    Ok(words)
}
