//! The first pass: the labels and the words of a text.

ghost use Rattle.std.specs.Prelude.{◌≡◌, ◌≤◌, ◌++◌, length, IfOk, OnOk};
ghost use Rattle.asm_lines.specs.Lines.{line_of};
ghost use Rattle.asm_passes.specs.Collected as spec;
ghost use Rattle.asm_passes.specs.Labels.{find, label_in};
ghost use Rattle.asm_passes.specs.Positions.{behind, counted};
ghost use Rattle.asm_passes.specs.Values.{known_by};
ghost use Rattle.limits.specs.declared.text.TheConstants.{LONGEST_TEXT};

use crate::cut::first_line;
use crate::label::Labels;
use crate::position::Position;
use asm_lines::line_of;
use std::alloc::{AllocError, Global};

/// What all lines of a text say together.
#[derive(Drop)]
pub(crate) struct Survey {
    /// The labels.
    pub(crate) labels: Labels,
    /// How many words the text has.
    pub(crate) words: u32,
    ghost small: { words ≤ LONGEST_TEXT },
}

// Adds the label of a line at a position, unless its name is there. The position behind the line.
fn noted(
    alloc: Global,
    labels: &mut Labels,
    at: Position,
    line: &[u8],
) -> Result<Position, AllocError>
    requires line { at.line ≤ LONGEST_TEXT }
    requires words { at.words ≤ LONGEST_TEXT }
    requires functions { at.functions ≤ LONGEST_TEXT }
    ensures next { IfOk result (λ next. next ≡ behind at (counted at (line_of line.now))) }
    ensures label { OnOk result (
        find labels.new ≡ find (labels.old ++ label_in at (counted at (line_of line.now)))) }
{
    let line = at.counted(line_of(alloc, line)?);
    labels.note_line(at, &line)?;
    Ok(at.behind(&line))
}

/// The labels and the words of a text.
///
/// # Errors
/// Where memory is wanting.
pub(crate) fn surveyed(alloc: Global, text: &[u8]) -> Result<Survey, AllocError>
    requires { length text.now ≤ LONGEST_TEXT }
    ensures { IfOk result (λ s. known_by s.labels s.words ≡ spec.known (spec.placed_lines text.now)) }
{
    let mut labels = Labels::new(alloc);
    let mut at = Position::start();
    let mut rest = text;
    while !rest.is_empty() {
        let (line, more) = first_line(rest);
        at = noted(alloc, &mut labels, at, line)?;
        rest = more;
    }
    Ok(Survey {
        labels,
        words: at.words,
    })
}
