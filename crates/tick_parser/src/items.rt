//! Tokens with their kinds and values.

ghost use Rattle.std.specs.Prelude.{◌≡◌, drop, IfOk, false};
ghost use Rattle.lex_literals.specs.Literals.{numeral_at};
ghost use Rattle.parse_spelling.specs.Items as spec;

use lex_literals::{character_value, numeral_at};
use lex_words::{Keyword, Sign, keyword_of, sign_at};
use parse_grammar::{BaseWord, Bytes, Item, Kind, Mark, Word};
use std::alloc::{AllocError, Global};
use tick_tree::{BinaryOp, ModifyOp, StepOp, Token, TokenKind, UnaryOp};

fn keyword_kind(keyword: Keyword) -> Kind
    ensures { result ≡ spec.keyword_kind keyword }
{
    match keyword {
        Keyword::Void => Kind::Base(BaseWord::Void),
        Keyword::Char => Kind::Base(BaseWord::Char),
        Keyword::Short => Kind::Base(BaseWord::Short),
        Keyword::Int => Kind::Base(BaseWord::Int),
        Keyword::Long => Kind::Base(BaseWord::Long),
        Keyword::Signed => Kind::Base(BaseWord::Signed),
        Keyword::Unsigned => Kind::Base(BaseWord::Unsigned),
        Keyword::If => Kind::Word(Word::If),
        Keyword::While => Kind::Word(Word::While),
        Keyword::Do => Kind::Word(Word::Do),
        Keyword::For => Kind::Word(Word::For),
        Keyword::Switch => Kind::Word(Word::Switch),
        Keyword::Case => Kind::Word(Word::Case),
        Keyword::Default => Kind::Word(Word::Default),
        Keyword::Break => Kind::Word(Word::Break),
        Keyword::Continue => Kind::Word(Word::Continue),
        Keyword::Return => Kind::Word(Word::Return),
        Keyword::Else => Kind::Mark(Mark::Else),
        Keyword::Sizeof => Kind::Sizeof,
        Keyword::Cspec => Kind::Cspec,
        Keyword::Vspec => Kind::Vspec,
        Keyword::Compile => Kind::Compile,
        Keyword::Local => Kind::Local,
        Keyword::Param => Kind::Param,
    }
}

fn sign_kind(sign: Sign) -> Kind
    ensures { result ≡ spec.sign_kind sign }
{
    match sign {
        Sign::BraceOpen => Kind::Mark(Mark::BraceOpen),
        Sign::BraceClose => Kind::Mark(Mark::BraceClose),
        Sign::ParenOpen => Kind::Mark(Mark::ParenOpen),
        Sign::ParenClose => Kind::Mark(Mark::ParenClose),
        Sign::BracketOpen => Kind::Mark(Mark::BracketOpen),
        Sign::BracketClose => Kind::Mark(Mark::BracketClose),
        Sign::Semicolon => Kind::Mark(Mark::Semicolon),
        Sign::Comma => Kind::Mark(Mark::Comma),
        Sign::Question => Kind::Mark(Mark::Question),
        Sign::Colon => Kind::Mark(Mark::Colon),
        Sign::Assign => Kind::Mark(Mark::Assign),
        Sign::Dot => Kind::Mark(Mark::Dot),
        Sign::Arrow => Kind::Mark(Mark::Arrow),
        Sign::Tilde => Kind::Unary(UnaryOp::Complement),
        Sign::Not => Kind::Unary(UnaryOp::Not),
        Sign::Dollar => Kind::Unary(UnaryOp::Dollar),
        Sign::Plus => Kind::Operator(BinaryOp::Add),
        Sign::Minus => Kind::Operator(BinaryOp::Sub),
        Sign::Star => Kind::Operator(BinaryOp::Mul),
        Sign::Slash => Kind::Operator(BinaryOp::Div),
        Sign::Percent => Kind::Operator(BinaryOp::Rem),
        Sign::And => Kind::Operator(BinaryOp::BitAnd),
        Sign::Or => Kind::Operator(BinaryOp::BitOr),
        Sign::Caret => Kind::Operator(BinaryOp::BitXor),
        Sign::Less => Kind::Operator(BinaryOp::Less),
        Sign::Greater => Kind::Operator(BinaryOp::Greater),
        Sign::Equal => Kind::Operator(BinaryOp::Equal),
        Sign::NotEqual => Kind::Operator(BinaryOp::NotEqual),
        Sign::LessEqual => Kind::Operator(BinaryOp::AtMost),
        Sign::GreaterEqual => Kind::Operator(BinaryOp::AtLeast),
        Sign::ShiftLeft => Kind::Operator(BinaryOp::ShiftLeft),
        Sign::ShiftRight => Kind::Operator(BinaryOp::ShiftRight),
        Sign::AndAnd => Kind::Operator(BinaryOp::And),
        Sign::OrOr => Kind::Operator(BinaryOp::Or),
        Sign::PlusPlus => Kind::Step(StepOp::Increment),
        Sign::MinusMinus => Kind::Step(StepOp::Decrement),
        Sign::PlusAssign => Kind::Modify(ModifyOp::Add),
        Sign::MinusAssign => Kind::Modify(ModifyOp::Sub),
        Sign::StarAssign => Kind::Modify(ModifyOp::Mul),
        Sign::SlashAssign => Kind::Modify(ModifyOp::Div),
        Sign::PercentAssign => Kind::Modify(ModifyOp::Rem),
        Sign::AndAssign => Kind::Modify(ModifyOp::BitAnd),
        Sign::OrAssign => Kind::Modify(ModifyOp::BitOr),
        Sign::CaretAssign => Kind::Modify(ModifyOp::BitXor),
        Sign::ShiftLeftAssign => Kind::Modify(ModifyOp::ShiftLeft),
        Sign::ShiftRightAssign => Kind::Modify(ModifyOp::ShiftRight),
        Sign::Backquote => Kind::Backquote,
    }
}

// The bytes behind the first one, if there is one.
fn behind_first(bytes: &[u8]) -> &[u8]
    ensures { result.now ≡ drop 1 bytes.now }
{
    match bytes {
        [] => &[],
        [_, rest @ ..] => rest,
    }
}

// The bytes of a token, as far as the text has them.
fn bytes_of<'a>(text: &'a [u8], token: &Token) -> &'a [u8]
    ensures { result.now ≡ spec.bytes_of text.now token.now }
{
    let rest = &text[(token.at as usize).min(text.len())..];
    &rest[..(token.len as usize).min(rest.len())]
}

// What is read of a token that is no number.
fn plain_item<'a>(kind: Kind, line: u32, value: u32, text: &'a [u8]) -> Item<'a>
    ensures { result ≡ record { kind = kind; line = line; value = value; unsigned = false; text = text.now } }
{
    Item {
        kind,
        line,
        value,
        unsigned: false,
        text: Bytes::new(text),
    }
}

// The value of a number, and whether it is unsigned. It stands alone, so that other tokens make no room for a numeral.
#[inline(never)]
fn number_of(bytes: &[u8]) -> (u32, bool)
    ensures value { result.0 ≡ spec.fitting (numeral_at bytes.now).value }
    ensures unsigned { result.1 ≡ (numeral_at bytes.now).unsigned }
{
    let numeral = numeral_at(bytes);
    (numeral.value.unwrap_or(0), numeral.unsigned)
}

#[tactic(auto, unfolding(parse_spelling::specs::Items::item_of))]
fn item_of<'a>(text: &'a [u8], token: &Token) -> Item<'a>
    ensures { result ≡ spec.item_of text.now token.now }
{
    let bytes = bytes_of(text, token);
    let line = token.line;
    match token.kind {
        TokenKind::Name => plain_item(Kind::Name, line, 0, bytes),
        TokenKind::Keyword => plain_item(
            keyword_of(bytes).map_or(Kind::End, keyword_kind),
            line,
            0,
            &[],
        ),
        TokenKind::Number => {
            let (value, unsigned) = number_of(bytes);
            Item {
                kind: Kind::Number,
                line,
                value,
                unsigned,
                text: Bytes::new(&[]),
            }
        }
        TokenKind::Character => plain_item(
            Kind::Character,
            line,
            character_value(behind_first(bytes)),
            &[],
        ),
        TokenKind::String => plain_item(Kind::String, line, 0, behind_first(bytes)),
        TokenKind::Sign => plain_item(sign_at(bytes).map_or(Kind::End, sign_kind), line, 0, &[]),
    }
}

/// What the grammar reads of each token of a text.
pub fn items_of<'a>(
    alloc: Global,
    text: &'a [u8],
    tokens: &[Token],
) -> Result<Vec<Item<'a>>, AllocError>
    ensures { IfOk result (λ found. found.items ≡ spec.items_of text.now tokens.now) }
{
    let mut found = Vec::with_capacity(alloc, tokens.len())?;
    for token in tokens {
        found.push(item_of(text, token))?;
    }
    Ok(found)
}
