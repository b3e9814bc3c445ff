//! The lines of a text.

ghost use Rattle.std.specs.Prelude.{◌≡◌, ◌+◌, ◌<◌, ◌≤◌, ◌==◌, not, length, ◌∷◌};
ghost use Rattle.std.specs.List.{prefix_len};
ghost use Rattle.asm_passes.specs.Cut as spec;

// How many bytes stand before the first line feed, or in all.
fn line_len(text: &[u8]) -> usize
    ensures value { result ≡ prefix_len (λ b. not (b == 10)) text.now }
    ensures within { result ≤ length text.now }
{
    let mut len = 0;
    for b in text {
        if *b == b'\n' {
            return len;
        }
        len += 1;
    }
    len
}

/// The first line of a text that is not empty, without its line feed, and the text behind it.
pub fn first_line<'a>(text: &'a [u8]) -> (&'a [u8], &'a [u8])
    requires { 0 < length text.now }
    ensures lines { spec.lines text.now ≡ result.0.now ∷ spec.lines result.1.now }
    ensures shorter { length result.0.now + length result.1.now ≤ length text.now }
    ensures left { length result.1.now < length text.now }
{
    let end = line_len(text);
    if end < text.len() {
        (&text[..end], &text[end + 1..])
    } else {
        (text, &text[end..])
    }
}
