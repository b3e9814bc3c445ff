//! Where literals end, and the bytes of strings.

ghost use Rattle.std.specs.Prelude.{◌≡◌, ◌++◌, ◌^◌, ◌<◌, ◌≤◌, length, OnOk};
ghost use Rattle.lex_literals.specs.Literals as spec;

use crate::characters::character_at;
use std::alloc::AllocError;

/// How a literal ends.
#[derive(Clone, Copy, PartialEq, Eq)]
pub enum Closing {
    /// At its closing quote: after so many bytes behind the opening quote, the closing one with them, and so many
    /// characters.
    Closed(usize, usize),
    /// Not on its line.
    Open,
    /// At a `\` that begins no escape, behind so many characters.
    Wrong(usize),
}

/// How the literal ends whose text behind its opening quote this is.
#[tactic(auto, unfolding(crate::specs::Literals::closing_of))]
pub fn closing_of(quote: u8, text: &[u8]) -> Closing
    requires { length text.now < 2 ^ 62 }
    ensures value { result ≡ spec.closing_of quote text.now }
    ensures within { spec.Ends (length text.now) result }
{
    let mut at = 0;
    let mut chars = 0;
    while at < text.len() {
        let b = text[at];
        if b == quote {
            return Closing::Closed(at + 1, chars);
        }
        if b == b'\n' {
            return Closing::Open;
        }
        match character_at(&text[at..]) {
            Some(c) => at += c.len,
            None => return Closing::Wrong(chars),
        }
        chars += 1;
    }
    Closing::Open
}

/// Appends the bytes for which a string stands, without a closing zero byte; `text` is what follows its opening quote.
/// After an error some of them may stand there.
#[tactic(auto, unfolding(crate::specs::Literals::string_bytes))]
pub fn append_string(text: &[u8], bytes: &mut Vec<u8>) -> Result<(), AllocError>
    ensures ok { OnOk result (bytes.new.items ≡ bytes.old.items ++ spec.string_bytes text.now) }
{
    let mut at = 0;
    while at < text.len() {
        if text[at] == b'"' {
            return Ok(());
        }
        let Some(c) = character_at(&text[at..]) else {
            return Ok(());
        };
        bytes.push(c.value)?;
        at += c.len;
    }
    Ok(())
}
