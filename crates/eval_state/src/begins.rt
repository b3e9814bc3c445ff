//! How a run begins.

ghost use Rattle.std.specs.Prelude.{◌≡◌, ◌↔◌, [], false, IfOk, IsFalse, Some};
ghost use Rattle.std.specs.Option.{option_copied};
ghost use Rattle.typed_tree.specs.View.{stmt_view};
ghost use Rattle.staged_meaning.specs.Program.{Program};
ghost use Rattle.staged_meaning.specs.Source.{main_of, program_view};
ghost use Rattle.eval_state.specs.Begins.{first_run};
ghost use Rattle.eval_state.specs.Run.{run_of};

use crate::state::{Body, Generated, Machine, Parts};
use flat_memory::object_words;
use limits::run::{STACK_OF_A_CALL, STACK_OF_A_NODE};
use sqlite_items::Items;
use std::alloc::{AllocError, Global};
use typed_tree::{Function, Stmt};
use wellformed::Typed;
use word32::map;

// The function named main, which an accepted text has.
fn main_of(functions: &[Function]) -> Option<&Function>
    ensures { option_copied result ≡ main_of functions.now }
{
    for f in functions {
        if f.name.as_slice() == b"main".as_slice() {
            return Some(f);
        }
    }
    None
}

impl<'a> Machine<'a> {
    /// The run as the body of main is entered, before the unit of its call, on an input that no fault follows. It takes
    /// the memory of the object space.
    ///
    /// # Errors
    /// Where memory is wanting.
    pub fn new(
        alloc: Global,
        typed: &'a Typed,
        input: &'a [u8],
        units: u64,
    ) -> Result<Machine<'a>, AllocError>
        ensures { IfOk result (λ m. (p : Program) → program_view typed.entry.now ≡ Some p
            → run_of m ≡ first_run p (record { bytes = input.entry.now; failing = false }) units) }
    {
        typed.keeps_law();
        let main = match main_of(typed.functions()) {
            // no accepted text is without one
            None => return Err(AllocError),
            Some(main) => main,
        };
        let objects = object_words(alloc, typed.image())?;
        let body = Body {
            variables: Items::new(alloc),
            arguments: Items::new(alloc),
            generated: Generated {
                arguments: Items::new(alloc),
                values: Items::new(alloc),
            },
            object: main.object,
            row: 0,
        };
        let parts = Parts {
            alloc,
            typed,
            main,
            turns: units,
            depth: units,
            units,
            entries: Items::new(alloc),
            body,
            events: Items::new(alloc),
            input,
            objects,
            heap: map::HEAP,
            used: STACK_OF_A_CALL + STACK_OF_A_NODE * main.size,
            frames: main.object,
            rows: Items::new(alloc),
            closures: 0,
            compiled: Items::new(alloc),
            arena: 0,
        };
        Ok(Machine {
            parts,
            spare: Items::new(alloc),
        })
    }

    /// The body of main.
    pub fn main(&self) -> &'a Stmt
        ensures { stmt_view result.now ≡ (run_of self.now).program.main.body }
    {
        let main = self.parts.main;
        main.body.get()
    }

    /// Whether something is pending.
    pub fn is_pending(&self) -> bool
        ensures { IsFalse result ↔ ((run_of self.now).state.frames ≡ []) }
    {
        !self.parts.entries.is_empty()
    }
}
