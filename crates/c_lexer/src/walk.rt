//! The walk over a text.

ghost use Rattle.std.specs.Prelude.{◌≡◌, ◌+◌, ◌-◌, ◌<◌, ◌≤◌, ◌==◌, length, take, drop, IfOk, IfSome, IfNone};
ghost use Rattle.std.specs.List.{count_by};
ghost use Rattle.tick_tree.specs.Faults.{Answers};
ghost use Rattle.c_lexer.specs.Lex as spec;
ghost use Rattle.c_lexer.specs.declared.classes.Class.TheVariants as class;
ghost use Rattle.c_lexer.specs.declared.pieces.Piece.TheVariants.{Taken};
ghost use Rattle.limits.specs.declared.text.TheConstants.{LONGEST_TEXT};

use crate::classes::{Class, is_in};
use crate::pieces::{Piece, piece_of};
use limits::text::MAX_TOKENS;
use std::alloc::Global;
use tick_tree::{Deny, Fault, FaultKind, Token, TokenKind};

/// A place in a text.
#[derive(Drop)]
struct Walk<'a> {
    text: &'a [u8],
    at: usize,
    line: u32,
    ghost small: { length text.now ≤ LONGEST_TEXT },
    ghost within: { at ≤ length text.now },
    ghost lined: { line ≡ spec.line_at text.now at },
}

impl<'a> Walk<'a> {
    fn new(text: &'a [u8]) -> Walk<'a>
        requires { length text.now ≤ LONGEST_TEXT }
        ensures text { result.text.now ≡ text.now }
        ensures at { result.at ≡ 0 }
    {
        Walk {
            text,
            at: 0,
            line: 1,
        }
    }

    // What stands here, unless the text ends.
    fn piece(&self) -> Option<Piece>
        ensures here { IfSome result (λ p. p ≡ spec.piece (drop self.now.at self.now.text.now)) }
        ensures within { IfSome result (spec.Within (length self.now.text.now - self.now.at)) }
        ensures flat { IfSome result (spec.Flat (drop self.now.at self.now.text.now)) }
        ensures some { IfSome result (λ p. self.now.at < length self.now.text.now) }
        ensures none { IfNone result (self.now.at ≡ length self.now.text.now) }
    {
        if self.at == self.text.len() {
            return None;
        }
        Some(piece_of(&self.text[self.at..]))
    }

    // The token of this kind and length here.
    fn token(&self, kind: TokenKind, len: usize) -> Token
        requires { len ≤ length self.now.text.now }
        ensures { result ≡ spec.token_at self.now.text.now kind self.now.at len }
    {
        Token {
            kind,
            at: self.at as u32,
            len: len as u32,
            line: self.line,
        }
    }

    // The fault of this kind here.
    fn fault(&self, kind: FaultKind) -> Fault
        ensures { result ≡ spec.fault_at self.now.text.now kind self.now.at }
    {
        Fault {
            kind,
            line: self.line,
            token: 0,
        }
    }

    // Goes behind the blanks that stand here.
    fn blanks(&mut self)
        ensures text { self.new.text.now ≡ self.old.text.now }
        ensures at { self.new.at ≡ spec.past class.Blank self.old.text.now self.old.at }
    {
        let text = self.text;
        let mut at = self.at;
        let mut line = self.line;
        while at < text.len() {
            let b = text[at];
            if b != b' ' {
                if !is_in(Class::Blank, b) {
                    break;
                }
                if b == b'\n' {
                    line += 1;
                }
            }
            at += 1;
        }
        self.at = at;
        self.line = line;
    }

    // Goes on by `n` bytes, none of which is a line feed.
    #[tactic(auto, using(crate::proofs::Lines::flat_goes))]
    fn skip(&mut self, n: usize)
        requires within { self.old.at + n ≤ length self.old.text.now }
        requires flat { count_by (λ b. b == 10) (take n (drop self.old.at self.old.text.now)) ≡ 0 }
        ensures text { self.new.text.now ≡ self.old.text.now }
        ensures at { self.new.at ≡ self.old.at + n }
    {
        self.at += n;
    }

    // Goes on by `n` bytes.
    fn pass(&mut self, n: usize)
        requires { self.old.at + n ≤ length self.old.text.now }
        ensures text { self.new.text.now ≡ self.old.text.now }
        ensures at { self.new.at ≡ self.old.at + n }
    {
        let text = self.text;
        let end = self.at + n;
        let mut line = self.line;
        for at in self.at..end {
            if text[at] == b'\n' {
                line += 1;
            }
        }
        self.line = line;
        self.at = end;
    }

    // Goes behind the token of this kind and length that stands here.
    fn take(&mut self, kind: TokenKind, n: usize)
        requires within { self.old.at + n ≤ length self.old.text.now }
        requires flat { spec.Flat (drop self.old.at self.old.text.now) (Taken kind n) }
        ensures text { self.new.text.now ≡ self.old.text.now }
        ensures at { self.new.at ≡ self.old.at + n }
    {
        match kind {
            TokenKind::Name | TokenKind::Keyword | TokenKind::Sign => self.skip(n),
            _ => self.pass(n),
        }
    }
}

/// The tokens of a text of at most 1,048,576 bytes, in text order, or its first fault: a byte that begins nothing, a
/// comment or literal that isn't closed, a wrong escape, a number over 4,294,967,295, or one token over [`MAX_TOKENS`].
/// The fault has the line on which its piece begins.
pub fn tokens(alloc: Global, text: &[u8]) -> Result<Vec<Token>, Deny>
    requires { length text.now ≤ LONGEST_TEXT }
    ensures exact { Answers (λ v. v.items) result (spec.tokens text.now) }
    ensures few { IfOk result (λ v. length v.items ≤ MAX_TOKENS) }
{
    let mut found = Vec::with_capacity(alloc, text.len().min(MAX_TOKENS))?;
    let mut walk = Walk::new(text);
    walk.blanks();
    while let Some(piece) = walk.piece() {
        match piece {
            Piece::Gap(n) => walk.pass(n),
            Piece::Taken(kind, n) => {
                if found.len() >= MAX_TOKENS {
                    return Err(Deny::Refused(walk.fault(FaultKind::TooManyTokens)));
                }
                found.push(walk.token(kind, n))?;
                walk.take(kind, n);
                walk.blanks();
            }
            Piece::Bad(kind) => return Err(Deny::Refused(walk.fault(kind))),
        }
    }
    Ok(found)
}
