//! The routine that compiles a specification, as a list of instructions, and what it does on the machine. There is no
//! code to run here: each function's contract is a law.
#![tactic(auto)]

ghost use Rattle.compile_routine.specs.Below.{FunctionsAreTold};
ghost use Rattle.compile_routine.specs.Bodies.{BodiesGive, BodiesGrow, PlacesAreSums};
ghost use Rattle.compile_routine.specs.Laws.{CompileIsAnswered, CompileTraps};
ghost use Rattle.compile_routine.specs.Made.{CodeGrows, FunctionsAreMade, WordsAreThere};
ghost use Rattle.compile_routine.specs.Ops.{CompileOpTraps, OpsMakeFunctions, OpsTellFunctions};
ghost use Rattle.compile_routine.specs.Places.{PlacesAreThere};

/// A number that is not that of a tick's specification ends the run as BadSpec, and else the function's number as
/// TableLimit, and else its charge as ArenaLimit, in 6 to 26 instructions.
pub fn compile_limits_trap()
    ensures { CompileTraps }
{}

/// The specification with the number in `$a0` is compiled: a function is begun, gets exactly the ops of the
/// specification and of its return, and is finished, flushed and published by the services that are told, in this
/// order. Its number is the answer, the cells move on by one function and by its charge, and all else is as it was.
pub fn specifications_are_compiled()
    ensures { CompileIsAnswered }
{}

/// So the machine itself makes the function, whichever places its registers are given: where no other one is begun, the
/// builder takes its ops, and they are as few as the charge allows. Its words fit the charge, it is published, and what
/// it was built of is noted.
pub fn functions_are_made()
    ensures { FunctionsAreMade }
{}

/// Where the routine and the functions of the ticks stand below the arena, so does the machine before each
/// instruction, and it tells that the function was made, of what it was built, and nothing else.
pub fn functions_are_told()
    ensures { FunctionsAreTold }
{}

/// There is a place for a body exactly where the meaning has no trap, and then the body is within the arena.
pub fn places_are_there()
    ensures { PlacesAreThere }
{}

/// Words that fit a range of the arena can be executed there behind a compile, and no other word of the arena has changed.
pub fn words_are_there()
    ensures { WordsAreThere }
{}

/// Outside of the range of a compile all is fetched as before, and a range that has no word in common with it is free
/// where it was. Where none of the range could be executed, a compile keeps all code.
pub fn code_grows()
    ensures { CodeGrows }
{}

/// Where bodies hold ranges of the arena, a place that first fit finds is a free range, apart from those of all bodies,
/// and behind a compile they hold all that can be executed.
pub fn bodies_grow()
    ensures { BodiesGrow }
{}

/// Behind a body that is given back, with none of its range to be executed, the bodies that are left hold all that can
/// be.
pub fn bodies_give()
    ensures { BodiesGive }
{}

/// Where no body was given back, first fit is the place behind all that was charged, and that is so behind each compile.
pub fn places_are_sums()
    ensures { PlacesAreSums }
{}

/// Where the routine ends the run, the op that compiles does, in 4 to 7 instructions more.
pub fn compile_limits_end()
    ensures { CompileOpTraps }
{}

/// The op that compiles makes the function and puts its number to any spot, in 6 to 11 instructions more than the
/// routine.
pub fn ops_make_functions()
    ensures { OpsMakeFunctions }
{}

/// Where the functions of the ticks stand below the arena, so does the machine before each instruction of the op, and
/// it tells that the function was made, and nothing else.
pub fn ops_tell_functions()
    ensures { OpsTellFunctions }
{}
