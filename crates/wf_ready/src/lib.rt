//! A function of an accepted text is one that the lowering takes. This is a law on definitions; there is no code to run
//! here.
#![tactic(auto)]

ghost use Rattle.wf_ready.specs.Laws.{FunctionsAreReady, FunctionsAreReadyIn, CallsAreCounted, FramesAreWithin};
ghost use Rattle.wf_ready.specs.Laws.{TicksAreCaptured, TicksAreReady};

/// That a function of an accepted text uses variables in their scope and values that are left, that its breaks,
/// continues and labels stand where they may, that it has at most 16,384 nodes, and that it numbers its variables below
/// their count, and that it names no capture: so it is ready for the lowering.
pub fn functions_are_ready()
    ensures { FunctionsAreReady }
{}

/// That such a function is ready among the functions of its program: its calls are counted, its ticks capture what the
/// program's ticks do, its parameters stand at its head and nowhere else, and its frame objects lie in its frame, which
/// is of whole words.
pub fn functions_are_ready_in()
    ensures { FunctionsAreReadyIn }
{}

/// That what stands behind a backquote is ready so too: it names captures of the kinds that its tick has, and has neither
/// parameters nor frame objects.
pub fn ticks_are_ready()
    ensures { TicksAreReady }
{}

/// That each static call in an accepted text's functions and ticks has as many arguments as its function has
/// parameters, and that no call has more than 8.
pub fn calls_are_counted()
    ensures { CallsAreCounted }
{}

/// That each frame object that a function of an accepted text names lies within the bytes of its frame, and that one
/// that it declares begins at a multiple of 4; and that these bytes are whole words.
pub fn frames_are_within()
    ensures { FramesAreWithin }
{}

/// That each tick in a function of an accepted text is given captures of the kinds that the tick of its number names, in
/// their order, and that a capture stands nowhere else.
pub fn ticks_are_captured()
    ensures { TicksAreCaptured }
{}
