//! Labels.

ghost use Rattle.std.specs.Prelude.{◌≡◌, ◌≤◌, ◌*◌, ◌+◌, ◌++◌, ◌∷◌, [], OnOk, slice_get};
ghost use Rattle.asm_passes.specs.Labels as spec;
ghost use Rattle.limits.specs.declared.text.TheConstants.{LONGEST_TEXT};

use crate::position::Position;
use asm_lines::{Line, Word};
use name_numbers::Names;
use std::alloc::{AllocError, Global};
use std::marker::Model;
use word32::map::TEXT;

/// Where a label stands: the number of its line, and how many words stand before it.
#[derive(Clone, Copy)]
pub struct Label {
    line: u32,
    words: u32,
}

impl Model for Label {
    ghost use Rattle.std.specs.Prelude.{ℕ, ◌≤◌};
    ghost use Rattle.asm_passes.specs.LabelPlace.{LabelPlace};
    ghost use Rattle.limits.specs.declared.text.TheConstants.{LONGEST_TEXT};

    ghost Value = { LabelPlace };

    ghost view = { λ l. record { line = l.line; words = l.words } };

    ghost invariant = { λ l. l.words ≤ LONGEST_TEXT };

    ghost inverse = { λ v. record { line = v.line; words = v.words } };
}

impl Label {
    /// The label of a line.
    pub fn at(position: Position) -> Label
        requires { position.words ≤ LONGEST_TEXT }
        ensures { result ≡ spec.label_at position }
    {
        Label {
            line: position.line,
            words: position.words,
        }
    }

    /// The number of its line, counted from 1.
    pub fn line(self) -> u32
        ensures { result ≡ self.line }
    {
        self.line
    }

    /// How many words stand before it.
    pub fn words(self) -> u32
        ensures value { result ≡ self.words }
        ensures small { result ≤ LONGEST_TEXT }
    {
        self.words
    }

    /// Its address.
    pub fn address(self) -> u32
        ensures { result ≡ spec.address self }
    {
        TEXT + 4 * self.words
    }
}

// The label of a number.
fn place_of(places: &[Label], number: usize) -> Option<Label>
    ensures { result ≡ slice_get places.now number }
{
    match places.get(number) {
        None => None,
        Some(place) => Some(*place),
    }
}

/// The labels of a text, each with its first place.
pub struct Labels {
    alloc: Global,
    names: Names,
    // by the numbers of their names
    places: Vec<Label>,
}

impl Drop for Labels {
    fn drop(self) {
        let Labels {
            alloc: _,
            names: _,
            places: _,
        } = self;
    }
}

impl Model for Labels {
    ghost use Rattle.std.specs.Prelude.{◌≡◌, length};
    ghost use Rattle.std.specs.List.{zip};
    ghost use Rattle.asm_passes.specs.Labels as spec;

    ghost Value = { spec.Names };

    ghost view = { λ s. zip s.names s.places.items };

    ghost invariant = { λ s. length s.names ≡ length s.places.items };
}

impl Labels {
    /// No labels.
    pub fn new(alloc: Global) -> Labels
        ensures { result ≡ [] }
    {
        Labels {
            alloc,
            names: Names::new(alloc),
            places: Vec::new(alloc),
        }
    }

    /// The label with a name.
    pub fn find(&self, name: &[u8]) -> Option<Label>
        ensures { result ≡ spec.find self.now name.now }
    {
        match self.names.find(name) {
            Some(number) => place_of(self.places.as_slice(), number),
            None => None,
        }
    }

    /// Adds a label, unless its name is there.
    pub fn note(&mut self, name: &[u8], label: Label) -> Result<(), AllocError>
        ensures { OnOk result (spec.find self.new ≡ spec.find (self.old ++ (name.now, label) ∷ [])) }
    {
        match self.names.find(name) {
            Some(_) => Ok(()),
            None => {
                self.places.reserve(1)?;
                self.names.add(self.alloc, name)?;
                self.places.push_reserved(label);
                Ok(())
            }
        }
    }

    /// Adds the label of a line at a position, unless its name is there.
    pub fn note_line(&mut self, at: Position, line: &Option<Line<'_>>) -> Result<(), AllocError>
        requires { at.words ≤ LONGEST_TEXT }
        ensures { OnOk result (spec.find self.new ≡ spec.find (self.old ++ spec.label_in at line.now)) }
    {
        let Some(line) = line else {
            return Ok(());
        };
        let Some(name) = &line.label else {
            return Ok(());
        };
        self.note(name.bytes(), Label::at(at))
    }
}
