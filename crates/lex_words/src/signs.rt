//! The signs.

ghost use Rattle.std.specs.Prelude.{◌≡◌, ◌<◌, ◌≤◌, IfSome, [], ◌∷◌, ◌==◌, if◌then◌else◌, Some, None, length, take};
ghost use Rattle.std.specs.Prelude.{slice_index};
ghost use Rattle.std.specs.List.{count_by};
ghost use Rattle.lex_words.specs.Words as spec;

use crate::byte_at;

/// An operator or a punctuation mark.
#[derive(Clone, Copy, Debug, PartialEq, Eq)]
pub enum Sign {
    /// `{`
    BraceOpen,
    /// `}`
    BraceClose,
    /// `(`
    ParenOpen,
    /// `)`
    ParenClose,
    /// `[`
    BracketOpen,
    /// `]`
    BracketClose,
    /// `;`
    Semicolon,
    /// `,`
    Comma,
    /// `?`
    Question,
    /// `:`
    Colon,
    /// `~`
    Tilde,
    /// `!`
    Not,
    /// `+`
    Plus,
    /// `-`
    Minus,
    /// `*`
    Star,
    /// `/`
    Slash,
    /// `%`
    Percent,
    /// `&`
    And,
    /// `|`
    Or,
    /// `^`
    Caret,
    /// `<`
    Less,
    /// `>`
    Greater,
    /// `=`
    Assign,
    /// `==`
    Equal,
    /// `!=`
    NotEqual,
    /// `<=`
    LessEqual,
    /// `>=`
    GreaterEqual,
    /// `<<`
    ShiftLeft,
    /// `>>`
    ShiftRight,
    /// `&&`
    AndAnd,
    /// `||`
    OrOr,
    /// `++`
    PlusPlus,
    /// `--`
    MinusMinus,
    /// `+=`
    PlusAssign,
    /// `-=`
    MinusAssign,
    /// `*=`
    StarAssign,
    /// `/=`
    SlashAssign,
    /// `%=`
    PercentAssign,
    /// `&=`
    AndAssign,
    /// `|=`
    OrAssign,
    /// `^=`
    CaretAssign,
    /// `<<=`
    ShiftLeftAssign,
    /// `>>=`
    ShiftRightAssign,
    /// `$`
    Dollar,
    /// `.`
    Dot,
    /// `->`
    Arrow,
    /// the backquote
    Backquote,
}

impl Sign {
    /// How the sign is spelt: one to three bytes.
    pub fn spelling(self) -> &'static [u8]
        ensures value { result.now ≡ spec.spelling self }
        ensures some { 0 < length result.now }
    {
        match self {
            Sign::BraceOpen => b"{",
            Sign::BraceClose => b"}",
            Sign::ParenOpen => b"(",
            Sign::ParenClose => b")",
            Sign::BracketOpen => b"[",
            Sign::BracketClose => b"]",
            Sign::Semicolon => b";",
            Sign::Comma => b",",
            Sign::Question => b"?",
            Sign::Colon => b":",
            Sign::Tilde => b"~",
            Sign::Not => b"!",
            Sign::Plus => b"+",
            Sign::Minus => b"-",
            Sign::Star => b"*",
            Sign::Slash => b"/",
            Sign::Percent => b"%",
            Sign::And => b"&",
            Sign::Or => b"|",
            Sign::Caret => b"^",
            Sign::Less => b"<",
            Sign::Greater => b">",
            Sign::Assign => b"=",
            Sign::Equal => b"==",
            Sign::NotEqual => b"!=",
            Sign::LessEqual => b"<=",
            Sign::GreaterEqual => b">=",
            Sign::ShiftLeft => b"<<",
            Sign::ShiftRight => b">>",
            Sign::AndAnd => b"&&",
            Sign::OrOr => b"||",
            Sign::PlusPlus => b"++",
            Sign::MinusMinus => b"--",
            Sign::PlusAssign => b"+=",
            Sign::MinusAssign => b"-=",
            Sign::StarAssign => b"*=",
            Sign::SlashAssign => b"/=",
            Sign::PercentAssign => b"%=",
            Sign::AndAssign => b"&=",
            Sign::OrAssign => b"|=",
            Sign::CaretAssign => b"^=",
            Sign::ShiftLeftAssign => b"<<=",
            Sign::ShiftRightAssign => b">>=",
            Sign::Dollar => b"$",
            Sign::Dot => b".",
            Sign::Arrow => b"->",
            Sign::Backquote => b"`",
        }
    }
}

// The sign of one byte.
fn of_one(a: u8) -> Option<Sign>
    ensures { result ≡ spec.first spec.of_one (a ∷ []) }
{
    let found = match a {
        b'{' => Sign::BraceOpen,
        b'}' => Sign::BraceClose,
        b'(' => Sign::ParenOpen,
        b')' => Sign::ParenClose,
        b'[' => Sign::BracketOpen,
        b']' => Sign::BracketClose,
        b';' => Sign::Semicolon,
        b',' => Sign::Comma,
        b'?' => Sign::Question,
        b':' => Sign::Colon,
        b'~' => Sign::Tilde,
        b'!' => Sign::Not,
        b'+' => Sign::Plus,
        b'-' => Sign::Minus,
        b'*' => Sign::Star,
        b'/' => Sign::Slash,
        b'%' => Sign::Percent,
        b'&' => Sign::And,
        b'|' => Sign::Or,
        b'^' => Sign::Caret,
        b'<' => Sign::Less,
        b'>' => Sign::Greater,
        b'=' => Sign::Assign,
        b'$' => Sign::Dollar,
        b'.' => Sign::Dot,
        b'`' => Sign::Backquote,
        _ => return None,
    };
    Some(found)
}

// A sign whose second byte is the first once more, or `=`.
fn doubled(a: u8, b: u8, twice: Sign, assign: Sign) -> Option<Sign>
    ensures { result ≡ (if b == a then Some twice else (if b == 61 then Some assign else None)) }
{
    if b == a {
        Some(twice)
    } else {
        with_assign(b, assign)
    }
}

// A sign whose second byte is `=`.
fn with_assign(b: u8, assign: Sign) -> Option<Sign>
    ensures { result ≡ (if b == 61 then Some assign else None) }
{
    if b == b'=' { Some(assign) } else { None }
}

// The sign of two bytes.
fn of_two(a: u8, b: u8) -> Option<Sign>
    ensures { result ≡ spec.first spec.of_two (a ∷ b ∷ []) }
{
    match a {
        b'=' => with_assign(b, Sign::Equal),
        b'!' => with_assign(b, Sign::NotEqual),
        b'<' => doubled(a, b, Sign::ShiftLeft, Sign::LessEqual),
        b'>' => doubled(a, b, Sign::ShiftRight, Sign::GreaterEqual),
        b'&' => doubled(a, b, Sign::AndAnd, Sign::AndAssign),
        b'|' => doubled(a, b, Sign::OrOr, Sign::OrAssign),
        b'+' => doubled(a, b, Sign::PlusPlus, Sign::PlusAssign),
        b'-' if b == b'>' => Some(Sign::Arrow),
        b'-' => doubled(a, b, Sign::MinusMinus, Sign::MinusAssign),
        b'*' => with_assign(b, Sign::StarAssign),
        b'/' => with_assign(b, Sign::SlashAssign),
        b'%' => with_assign(b, Sign::PercentAssign),
        b'^' => with_assign(b, Sign::CaretAssign),
        _ => None,
    }
}

// The sign of three bytes.
fn of_three(a: u8, b: u8, c: u8) -> Option<Sign>
    ensures { result ≡ spec.first spec.of_three (a ∷ b ∷ c ∷ []) }
{
    if a != b || c != b'=' {
        return None;
    }
    match a {
        b'<' => Some(Sign::ShiftLeftAssign),
        b'>' => Some(Sign::ShiftRightAssign),
        _ => None,
    }
}

// The longest sign that begins a text, whose first byte is `a`.
#[tactic(auto, unfolding(crate::specs::Words::sign_at))]
fn of_several(text: &[u8], a: u8) -> Option<Sign>
    requires { a ≡ slice_index text.now 0 }
    ensures { result ≡ spec.sign_at text.now }
{
    let b = byte_at(text, 1);
    if b != b'=' && b != b'>' && b != a {
        return of_one(a);
    }
    if let Some(sign) = of_three(a, b, byte_at(text, 2)) {
        return Some(sign);
    }
    if let Some(sign) = of_two(a, b) {
        return Some(sign);
    }
    of_one(a)
}

// The longest sign that begins a text. Some bytes begin only the sign that they are.
#[inline(always)]
fn longest(text: &[u8]) -> Option<Sign>
    ensures { result ≡ spec.sign_at text.now }
{
    let a = byte_at(text, 0);
    match a {
        b'{' => Some(Sign::BraceOpen),
        b'}' => Some(Sign::BraceClose),
        b'(' => Some(Sign::ParenOpen),
        b')' => Some(Sign::ParenClose),
        b'[' => Some(Sign::BracketOpen),
        b']' => Some(Sign::BracketClose),
        b';' => Some(Sign::Semicolon),
        b',' => Some(Sign::Comma),
        b'?' => Some(Sign::Question),
        b':' => Some(Sign::Colon),
        b'~' => Some(Sign::Tilde),
        b'$' => Some(Sign::Dollar),
        b'.' => Some(Sign::Dot),
        b'`' => Some(Sign::Backquote),
        _ => of_several(text, a),
    }
}

/// The longest sign that begins a text, and none where no sign does.
#[tactic(auto, using(crate::proofs::Within::found_within))]
#[inline(always)]
pub fn sign_at(text: &[u8]) -> Option<Sign>
    ensures value { result ≡ spec.sign_at text.now }
    ensures within { IfSome result (λ s. length (spec.spelling s) ≤ length text.now) }
    ensures flat { IfSome result (λ s. count_by (λ b. b == 10) (take (length (spec.spelling s)) text.now) ≡ 0) }
{
    longest(text)
}
