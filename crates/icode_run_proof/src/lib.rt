//! The machine of instructions simulates the staged machine's whole run, in which specifications are made and compiled.
//! There is no code to run here: each function's contract is a law.
//!
//! The definitions: how far the specification of a tick has come in memory, what is told of a history, which functions
//! were compiled and where they stand, and the relation between a staged state and a tale, which is a world with what
//! was told on the way to it. The laws: the run pays for what its ops cost, and flushes no unwritten word.
#![tactic(auto)]

ghost use Rattle.icode_run_proof.specs.Laws.{ProgramIsSimulated, ProgramIsUnspoiled};

/// The second seam, for programs of any functions, with recursion, specifications and functions that are compiled: under
/// any legal places of their registers, a run of their words tells the history of the staged machine's run of their ops
/// and ends alike, and executes as many instructions as the ops cost.
pub fn program_is_simulated()
    ensures { ProgramIsSimulated }
{}

/// No flush of such a run meets an unwritten word of the arena.
pub fn program_is_unspoiled()
    ensures { ProgramIsUnspoiled }
{}
