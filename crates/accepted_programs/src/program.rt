//! The function main of a program, and what the backend asks of one.

ghost use Rattle.std.specs.Prelude.{◌≡◌, Some, true};
ghost use Rattle.std.specs.Option.{option_map};
ghost use Rattle.accepted_programs.specs.Mains as spec;
ghost use Rattle.accepted_programs.specs.Laws.{ProgramsMeetBackend};

use tick_captures_proof::captures_are_few;
use tree_words::{read_body, read_function};
use typed_tree::{Function, Tick};
use wellformed::Typed;
use wf_ready::functions_are_ready_in;

// Reads each number in functions.
fn read_functions(functions: &[Function])
    ensures { spec.functions_have_words functions.now ≡ true }
{
    for function in functions {
        read_function(function);
    }
}

// Reads each number in ticks.
fn read_ticks(ticks: &[Tick])
    ensures { spec.ticks_have_words ticks.now ≡ true }
{
    for tick in ticks {
        read_body(&tick.body);
    }
}

// Globals and strings are of bytes: their type says so.
fn read_bytes(image: &[u8])
    ensures { spec.are_bytes image.now ≡ true }
{
    let _length = image.len();
}

// The number of main, counted from 1.
fn main_number(functions: &[Function]) -> Option<usize>
    ensures { result ≡ option_map (λ main. main.number) (spec.main_from 1 functions.now) }
{
    for (at, function) in functions.iter().enumerate() {
        if function.name.as_slice() == b"main".as_slice() {
            return Some(at + 1);
        }
    }
    None
}

/// The number of a program's function main, counted from 1: each accepted program has one.
pub fn main_of(program: &Typed) -> usize
    ensures main { Some result ≡ option_map (λ main. main.number) (spec.main_in program.now) }
    ensures words { spec.IsOfWords program.now }
{
    program.keeps_law();
    read_functions(program.functions());
    read_ticks(program.ticks());
    read_bytes(program.image());
    main_number(program.functions()).unwrap_or(0)
}

/// The backend makes the image of each program, since the laws on accepted texts hold of it.
pub fn programs_meet_backend()
    ensures { ProgramsMeetBackend }
{
    functions_are_ready_in();
    captures_are_few();
}
