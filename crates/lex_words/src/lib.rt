//! The words and signs of the language.
#![tactic(auto)]

ghost use Rattle.std.specs.Prelude.{◌≡◌, slice_index};

mod keywords;
mod signs;

pub use keywords::{Keyword, keyword_of};
pub use signs::{Sign, sign_at};

// The byte at a place, or 0 behind the end.
fn byte_at(text: &[u8], at: usize) -> u8
    ensures { result ≡ slice_index text.now at }
{
    if at < text.len() { text[at] } else { 0 }
}
