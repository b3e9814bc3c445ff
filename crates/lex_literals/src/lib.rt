//! Numbers, character literals and strings.
#![tactic(auto)]

ghost use Rattle.std.specs.Prelude.{◌≡◌, ◌≢◌, ◌<◌, slice_index, length};

mod characters;
mod closings;
mod numbers;

pub use characters::{Character, character_at, character_value};
pub use closings::{Closing, append_string, closing_of};
pub use numbers::{Numeral, numeral_at};

// The byte at a place, or 0 behind the end.
fn byte_at(text: &[u8], at: usize) -> u8
    ensures value { result ≡ slice_index text.now at }
    ensures within { result ≢ 0 → at < length text.now }
{
    if at < text.len() { text[at] } else { 0 }
}
