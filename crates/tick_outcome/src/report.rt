//! What is said of an outcome on standard error.
ghost use Rattle.std.specs.Prelude.{◌≡◌, ◌≤◌, ◌+◌, ◌++◌, length};
ghost use Rattle.tick_outcome.specs.Outcomes.{line_of, image_fault_name};

use crate::Outcome;
use asm_print::Line;
use image_file::ImageFault;

// Adds a name, for which there is room.
fn push_name(line: &mut Line, name: &str)
    requires room { length line.old ≤ 128 }
    requires name { length name.now ≤ 32 }
    ensures pushed { line.new ≡ line.old ++ name.now }
    ensures len { length line.new ≡ length line.old + length name.now }
{
    line.push(name.as_bytes());
}

// The name of a rule of the image format.
fn image_fault_name(fault: ImageFault) -> &'static str
    ensures name { result.now ≡ image_fault_name fault }
    ensures short { length result.now ≤ 8 }
{
    match fault {
        ImageFault::Short => "Short",
        ImageFault::Magic => "Magic",
        ImageFault::Version => "Version",
        ImageFault::Counts => "Counts",
        ImageFault::Entry => "Entry",
        ImageFault::Trailing => "Trailing",
    }
}

/// The line of an outcome on standard error, with its line feed; empty where nothing is said.
pub fn line_of(outcome: &Outcome) -> Line
    ensures { result ≡ line_of outcome.now }
{
    let mut line = Line::new();
    match outcome {
        Outcome::Done(_) => {}
        Outcome::BadWords(place) => {
            line.push(b"tick: bad words at ");
            line.push_number(*place);
            line.push(b"\n");
        }
        Outcome::Refused(fault) => {
            line.push(b"tick: line ");
            line.push_number(u64::from(fault.line));
            line.push(b": ");
            line.push_number(u64::from(fault.kind.number()));
            line.push(b" ");
            push_name(&mut line, fault.kind.name());
            line.push(b"\n");
        }
        Outcome::AsmRefused(fault) => {
            line.push(b"tick: line ");
            line.push_number(u64::from(fault.line));
            line.push(b": asm ");
            line.push_number(u64::from(fault.kind.number()));
            line.push(b" ");
            push_name(&mut line, fault.kind.name());
            line.push(b"\n");
        }
        Outcome::LoadFault => line.push(b"tick: cannot load\n"),
        Outcome::TooLong => line.push(b"tick: too long\n"),
        Outcome::BadImage(fault) => {
            line.push(b"tick: image ");
            line.push_number(u64::from(fault.number()));
            line.push(b" ");
            push_name(&mut line, image_fault_name(*fault));
            line.push(b"\n");
        }
        Outcome::Trap(kind) => {
            line.push(b"tick: trap ");
            push_name(&mut line, kind.name());
            line.push(b"\n");
        }
        Outcome::MachineFault(kind, at) => {
            line.push(b"tick: machine ");
            push_name(&mut line, kind.name());
            line.push(b" at ");
            line.push_word(*at);
            line.push(b"\n");
        }
        Outcome::OutOfSteps(steps) => {
            line.push(b"tick: out of ");
            line.push_number(*steps);
            line.push(b" steps\n");
        }
        Outcome::WriteFault => line.push(b"tick: write fault\n"),
        Outcome::ReadFault => line.push(b"tick: read fault\n"),
        Outcome::SaveFault => line.push(b"tick: save fault\n"),
    }
    line
}
