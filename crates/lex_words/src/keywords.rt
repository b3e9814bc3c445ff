//! The keywords.

ghost use Rattle.std.specs.Prelude.{◌≡◌, slice_index};
ghost use Rattle.lex_words.specs.Words as spec;

use crate::byte_at;

/// A word that is no name.
#[derive(Clone, Copy, Debug, PartialEq, Eq)]
pub enum Keyword {
    /// `void`
    Void,
    /// `char`
    Char,
    /// `short`
    Short,
    /// `int`
    Int,
    /// `long`
    Long,
    /// `signed`
    Signed,
    /// `unsigned`
    Unsigned,
    /// `if`
    If,
    /// `else`
    Else,
    /// `while`
    While,
    /// `do`
    Do,
    /// `for`
    For,
    /// `switch`
    Switch,
    /// `case`
    Case,
    /// `default`
    Default,
    /// `break`
    Break,
    /// `continue`
    Continue,
    /// `return`
    Return,
    /// `sizeof`
    Sizeof,
    /// `cspec`
    Cspec,
    /// `vspec`
    Vspec,
    /// `compile`
    Compile,
    /// `local`
    Local,
    /// `param`
    Param,
}

impl Keyword {
    /// How the keyword is spelt.
    pub fn spelling(self) -> &'static [u8]
        ensures { result.now ≡ spec.keyword_spelling self }
    {
        match self {
            Keyword::Void => b"void",
            Keyword::Char => b"char",
            Keyword::Short => b"short",
            Keyword::Int => b"int",
            Keyword::Long => b"long",
            Keyword::Signed => b"signed",
            Keyword::Unsigned => b"unsigned",
            Keyword::If => b"if",
            Keyword::Else => b"else",
            Keyword::While => b"while",
            Keyword::Do => b"do",
            Keyword::For => b"for",
            Keyword::Switch => b"switch",
            Keyword::Case => b"case",
            Keyword::Default => b"default",
            Keyword::Break => b"break",
            Keyword::Continue => b"continue",
            Keyword::Return => b"return",
            Keyword::Sizeof => b"sizeof",
            Keyword::Cspec => b"cspec",
            Keyword::Vspec => b"vspec",
            Keyword::Compile => b"compile",
            Keyword::Local => b"local",
            Keyword::Param => b"param",
        }
    }
}

// The one of these keywords that a word is.
#[inline(always)]
fn among(keywords: &[Keyword], word: &[u8]) -> Option<Keyword>
    ensures { result ≡ spec.spelt keywords.now word.now }
{
    for keyword in keywords {
        if word == keyword.spelling() {
            return Some(*keyword);
        }
    }
    None
}

/// The keyword that a word is, and none for every other text.
#[tactic(auto, unfolding(crate::specs::Words::keyword_of))]
#[inline(always)]
pub fn keyword_of(word: &[u8]) -> Option<Keyword>
    ensures { result ≡ spec.keyword_of word.now }
{
    match byte_at(word, 0) {
        b'v' => among(&[Keyword::Void, Keyword::Vspec], word),
        b'c' => among(
            &[
                Keyword::Char,
                Keyword::Case,
                Keyword::Continue,
                Keyword::Cspec,
                Keyword::Compile,
            ],
            word,
        ),
        b's' => among(
            &[
                Keyword::Short,
                Keyword::Signed,
                Keyword::Switch,
                Keyword::Sizeof,
            ],
            word,
        ),
        b'i' => among(&[Keyword::Int, Keyword::If], word),
        b'l' => among(&[Keyword::Long, Keyword::Local], word),
        b'u' => among(&[Keyword::Unsigned], word),
        b'e' => among(&[Keyword::Else], word),
        b'w' => among(&[Keyword::While], word),
        b'd' => among(&[Keyword::Do, Keyword::Default], word),
        b'f' => among(&[Keyword::For], word),
        b'b' => among(&[Keyword::Break], word),
        b'r' => among(&[Keyword::Return], word),
        b'p' => among(&[Keyword::Param], word),
        _ => None,
    }
}
