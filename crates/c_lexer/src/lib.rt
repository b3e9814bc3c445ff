//! Cuts a text into tokens.
#![tactic(auto)]

ghost use Rattle.std.specs.Prelude.{◌≡◌, ◌≢◌, ◌<◌, slice_index, length};

mod classes;
mod pieces;
mod walk;

pub use walk::tokens;

// The byte at a place, or 0 behind the end.
fn byte_at(text: &[u8], at: usize) -> u8
    ensures value { result ≡ slice_index text.now at }
    ensures within { result ≢ 0 → at < length text.now }
{
    if at < text.len() { text[at] } else { 0 }
}
