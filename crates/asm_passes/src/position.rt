//! Positions of lines.

ghost use Rattle.std.specs.Prelude.{◌≡◌, ◌≤◌};
ghost use Rattle.asm_passes.specs.Positions as spec;
ghost use Rattle.limits.specs.declared.text.TheConstants.{LONGEST_TEXT};

use asm_lines::{Line, Statement};

/// What stands before a line.
#[derive(Clone, Copy)]
pub struct Position {
    /// The number of the line, counted from 1.
    pub line: u32,
    /// How many words the lines before it give.
    pub words: u32,
    /// How many functions stand before it.
    pub functions: u32,
    /// Whether an `.entry` stands before it.
    pub entered: bool,
}

fn is_entry(statement: &Statement<'_>) -> bool
    ensures { result ≡ spec.is_entry statement.now }
{
    matches!(statement, Statement::Entry(_))
}

fn is_function(statement: &Statement<'_>) -> bool
    ensures { result ≡ spec.is_function statement.now }
{
    matches!(statement, Statement::Function(_, _))
}

fn is_word(statement: &Statement<'_>) -> bool
    ensures { result ≡ spec.is_word statement.now }
{
    matches!(statement, Statement::Word(_) | Statement::Instruction(_))
}

impl Position {
    /// The position of the first line.
    pub fn start() -> Position
        ensures { result ≡ spec.start }
    {
        Position {
            line: 1,
            words: 0,
            functions: 0,
            entered: false,
        }
    }

    /// What a line at this position says: nothing where it has another form or is a second `.entry`.
    pub fn counted<'a>(self, line: Option<Line<'a>>) -> Option<Line<'a>>
        ensures { result ≡ spec.counted self line.entry }
    {
        let line = line?;
        if self.entered && is_entry(&line.statement) {
            None
        } else {
            Some(line)
        }
    }

    // The position behind a statement.
    fn behind_statement(self, statement: &Statement<'_>) -> Position
        requires line { self.line ≤ LONGEST_TEXT }
        requires words { self.words ≤ LONGEST_TEXT }
        requires functions { self.functions ≤ LONGEST_TEXT }
        ensures { result ≡ spec.behind_by self statement.now }
    {
        Position {
            line: self.line + 1,
            words: if is_word(statement) {
                self.words + 1
            } else {
                self.words
            },
            functions: if is_function(statement) {
                self.functions + 1
            } else {
                self.functions
            },
            entered: is_entry(statement) || self.entered,
        }
    }

    /// The position behind a line.
    pub fn behind(self, line: &Option<Line<'_>>) -> Position
        requires line { self.line ≤ LONGEST_TEXT }
        requires words { self.words ≤ LONGEST_TEXT }
        requires functions { self.functions ≤ LONGEST_TEXT }
        ensures { result ≡ spec.behind self line.now }
    {
        match line {
            Some(line) => self.behind_statement(&line.statement),
            None => Position {
                line: self.line + 1,
                ..self
            },
        }
    }
}
