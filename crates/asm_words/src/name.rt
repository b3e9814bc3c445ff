//! Names of labels.

ghost use Rattle.std.specs.Prelude.{◌≡◌};
ghost use Rattle.std.specs.List.{list_all};
ghost use Rattle.asm_words.specs.Names as spec;

fn begins_name(b: u8) -> bool
    ensures { result ≡ spec.begins_name b }
{
    b.is_ascii_alphabetic() || b == b'_'
}

fn continues_name(b: u8) -> bool
    ensures { result ≡ spec.continues_name b }
{
    b.is_ascii_alphanumeric() || b == b'_'
}

fn all_continue(word: &[u8]) -> bool
    ensures { result ≡ list_all spec.continues_name word.now }
{
    for b in word {
        if !continues_name(*b) {
            return false;
        }
    }
    true
}

/// Whether a word is the name of a label: a letter or `_`, then letters, digits and `_`.
#[tactic(auto, unfolding(crate::specs::Names::is_name))]
pub fn is_name(word: &[u8]) -> bool
    ensures { result ≡ spec.is_name word.now }
{
    match word {
        [first, ..] => begins_name(*first) && all_continue(word),
        [] => false,
    }
}
