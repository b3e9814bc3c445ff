//! The second pass: what the lines of a text give to an image.

ghost use Rattle.std.specs.Prelude.{◌≡◌, ◌<◌, ◌≤◌, length, IfOk, OnOk};
ghost use Rattle.asm_passes.specs.Collected as spec;
ghost use Rattle.asm_passes.specs.Parts as parts;
ghost use Rattle.asm_passes.specs.Positions.{words};
ghost use Rattle.asm_passes.specs.Values.{known_by};
ghost use Rattle.limits.specs.declared.text.TheConstants.{LONGEST_TEXT};

use crate::cut::first_line;
use crate::fault::{AsmDeny, AsmFault, AsmFaultKind};
use crate::item::Item;
use crate::position::Position;
use crate::survey::{Survey, surveyed};
use asm_lines::line_of;
use image_file::FunctionEntry;
use std::alloc::{AllocError, Global};

/// What the lines of a text gave so far.
#[derive(Drop)]
pub struct Parts {
    /// The address that the program is entered at, where a line gave one.
    pub entry: Option<u32>,
    /// The words of the text.
    pub text: Vec<u32>,
    /// The bytes of data.
    pub bytes: Vec<u8>,
    /// The functions.
    pub functions: Vec<FunctionEntry>,
}

impl Parts {
    fn new(alloc: Global) -> Parts
        ensures { parts.parts_of result ≡ parts.none }
    {
        Parts {
            entry: None,
            text: Vec::new(alloc),
            bytes: Vec::new(alloc),
            functions: Vec::new(alloc),
        }
    }

    // Adds what a line gives.
    fn add(&mut self, item: Item<'_>) -> Result<(), AllocError>
        ensures { OnOk result (parts.parts_of self.new ≡ parts.with (parts.parts_of self.old) item.entry) }
    {
        match item {
            Item::Nothing => {}
            Item::Entry(address) => {
                if self.entry.is_none() {
                    self.entry = Some(address);
                }
            }
            Item::Function(function) => self.functions.push(function)?,
            Item::Data(pairs) => pairs.push_to(&mut self.bytes)?,
            Item::Word(word) => self.text.push(word)?,
        }
        Ok(())
    }
}

// What all lines of a text give, or the first fault of a line.
fn gather(alloc: Global, text: &[u8], survey: &Survey) -> Result<Parts, AsmDeny>
    requires small { length text.now ≤ LONGEST_TEXT }
    requires words { survey.now.words ≡ words (spec.placed_lines text.now) }
    ensures gives { parts.Gives (parts.gathered parts.none
        (spec.collected (known_by survey.now.labels survey.now.words) (spec.placed_lines text.now))) result }
    ensures sound { IfOk result (λ p. parts.AreSound survey.now.words (parts.parts_of p)) }
{
    let mut parts = Parts::new(alloc);
    let mut at = Position::start();
    let mut rest = text;
    while !rest.is_empty() {
        let (line, more) = first_line(rest);
        let line = at.counted(line_of(alloc, line)?);
        let next = at.behind(&line);
        match survey.given(at, line) {
            Ok(item) => parts.add(item)?,
            Err(kind) => {
                return Err(AsmDeny::Refused(AsmFault {
                    kind,
                    line: at.line,
                }));
            }
        }
        at = next;
        rest = more;
    }
    Ok(parts)
}

/// What all lines of a text give. The text has at most 1,048,576 bytes; this is a condition. It is read twice: once for
/// its labels and its words, and once for what its lines give.
///
/// # Errors
/// `Refused` where a line of the text has a fault, with that of the first line that has one; and where no line gives a
/// word, with `BadLine` in line 1. `NoMemory` where memory was not found.
pub fn gathered(alloc: Global, text: &[u8]) -> Result<Parts, AsmDeny>
    requires { length text.now ≤ LONGEST_TEXT }
    ensures gives { parts.Gives (parts.gathered_in (spec.placed_lines text.now)) result }
    ensures some { IfOk result (λ p. 0 < length p.text.items) }
    ensures small { IfOk result (λ p. length p.text.items ≤ LONGEST_TEXT) }
    ensures sound { IfOk result (λ p. parts.AreSound (length p.text.items) (parts.parts_of p)) }
{
    let survey = surveyed(alloc, text)?;
    if survey.words == 0 {
        return Err(AsmDeny::Refused(AsmFault {
            kind: AsmFaultKind::BadLine,
            line: 1,
        }));
    }
    gather(alloc, text, &survey)
}
