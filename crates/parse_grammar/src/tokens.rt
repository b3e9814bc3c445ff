//! A cursor over the tokens.

ghost use Rattle.std.specs.Prelude.{◌≡◌, length};
ghost use Rattle.parse_grammar.specs.Input as spec;
ghost use Rattle.parse_grammar.specs.Input.{Reads};

use crate::item::Item;
use crate::kind::{Kind, Mark, Word};
use crate::stop::Stop;
use std::marker::Model;

/// What is left of the tokens, which contracts see as their list.
#[derive(Drop)]
pub struct Tokens<'a> {
    rest: &'a [Item<'a>],
}

impl<'a> Model for Tokens<'a> {
    ghost use Rattle.std.specs.Prelude.{List};
    ghost use Rattle.parse_grammar.specs.declared.item.Item.{Item};

    ghost Value = { List Item };

    ghost view = { λ t. t.rest.now };
}

impl<'a> Tokens<'a> {
    /// A cursor at the first token.
    pub fn new(rest: &'a [Item<'a>]) -> Tokens<'a>
        ensures { result ≡ rest.now }
    {
        Tokens { rest }
    }

    /// The kind of the next token, or the end.
    #[tactic(auto, unfolding(crate::specs::Input::kind))]
    pub fn peek(&self) -> Kind
        ensures { result ≡ spec.kind self.now }
    {
        match self.rest {
            [] => Kind::End,
            [first, ..] => first.kind,
        }
    }

    /// The kind of the token after the next one, or the end.
    #[tactic(auto, unfolding(crate::specs::Input::kind, crate::specs::Input::next))]
    pub fn peek_second(&self) -> Kind
        ensures { result ≡ spec.kind (spec.next self.now) }
    {
        match self.rest {
            [_, second, ..] => second.kind,
            _ => Kind::End,
        }
    }

    /// The line of the next token; 0 at the end.
    #[tactic(auto, unfolding(crate::specs::Input::line))]
    pub fn line(&self) -> u32
        ensures { result ≡ spec.line self.now }
    {
        match self.rest {
            [] => 0,
            [first, ..] => first.line,
        }
    }

    /// The value of the next token, a number or a character; 0 at the end.
    #[tactic(auto, unfolding(crate::specs::Input::value))]
    pub fn value(&self) -> u32
        ensures { result ≡ spec.value self.now }
    {
        match self.rest {
            [] => 0,
            [first, ..] => first.value,
        }
    }

    /// Whether the next token is a number of an unsigned type.
    #[tactic(auto, unfolding(crate::specs::Input::unsigned))]
    pub fn unsigned(&self) -> bool
        ensures { result ≡ spec.unsigned self.now }
    {
        match self.rest {
            [] => false,
            [first, ..] => first.unsigned,
        }
    }

    /// The bytes of the next token, a name or a string; none at the end.
    #[tactic(auto, unfolding(crate::specs::Input::text))]
    pub fn text(&self) -> &'a [u8]
        ensures { result.now ≡ spec.text self.now }
    {
        match self.rest {
            [] => &[],
            [first, ..] => first.text.get(),
        }
    }

    /// How many tokens are left.
    ///
    /// A loop over the items of a list takes at most as many turns, and asks in each whether the list ends. It is no
    /// `while`, since what an item's parser promises isn't that it takes a token, but what the grammar's definition
    /// reads; and `specs/Steps` bounds the turns in the same way.
    pub fn left(&self) -> usize
        ensures { result ≡ length self.now }
    {
        self.rest.len()
    }

    /// Goes behind the next token.
    #[tactic(auto, unfolding(crate::specs::Input::next))]
    pub fn take(&mut self)
        ensures { self.new ≡ spec.next self.old }
    {
        if let [_, rest @ ..] = self.rest {
            self.rest = rest;
        }
    }

    /// Whether the next token is this mark.
    pub fn sees(&self, mark: Mark) -> bool
        ensures { result ≡ spec.sees mark self.now }
    {
        is_mark(mark, self.peek())
    }

    /// Whether the token after the next one is this mark.
    pub fn second_is(&self, mark: Mark) -> bool
        ensures { result ≡ spec.sees mark (spec.next self.now) }
    {
        is_mark(mark, self.peek_second())
    }

    /// Another cursor at the same place.
    pub fn copy(&self) -> Tokens<'a>
        ensures { result ≡ self.now }
    {
        Tokens { rest: self.rest }
    }

    /// Takes the next token, if it is this mark.
    pub fn eat(&mut self, mark: Mark) -> bool
        ensures found { result ≡ spec.sees mark self.old }
        ensures after { self.new ≡ spec.after mark self.old }
    {
        let found = self.sees(mark);
        if found {
            self.take();
        }
        found
    }

    /// Takes this mark.
    pub fn expect(&mut self, mark: Mark) -> Result<(), Stop>
        ensures { Reads (spec.expect mark self.old) result self.new }
    {
        if self.sees(mark) {
            self.take();
            Ok(())
        } else {
            Err(self.refuse())
        }
    }

    /// Takes this word of a statement.
    pub fn expect_word(&mut self, word: Word) -> Result<(), Stop>
        ensures { Reads (spec.expect_word word self.old) result self.new }
    {
        if is_word(word, self.peek()) {
            self.take();
            Ok(())
        } else {
            Err(self.refuse())
        }
    }

    /// No production takes the next token.
    pub fn refuse(&self) -> Stop
        ensures { result ≡ Stop.Syntax (length self.now) }
    {
        Stop::Syntax(self.left())
    }

    /// The next token nests too deep.
    pub fn too_deep(&self) -> Stop
        ensures { result ≡ Stop.TooDeep (length self.now) }
    {
        Stop::TooDeep(self.left())
    }
}

#[tactic(auto, unfolding(crate::specs::Input::is_mark, crate::specs::Input::same_mark))]
fn is_mark(mark: Mark, kind: Kind) -> bool
    ensures { result ≡ spec.is_mark mark kind }
{
    match kind {
        Kind::Mark(found) => found == mark,
        _ => false,
    }
}

#[tactic(auto, unfolding(crate::specs::Input::is_word, crate::specs::Input::same_word))]
fn is_word(word: Word, kind: Kind) -> bool
    ensures { result ≡ spec.is_word word kind }
{
    match kind {
        Kind::Word(found) => found == word,
        _ => false,
    }
}
