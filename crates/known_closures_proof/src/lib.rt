//! What is known of the specifications of a run. There is no code to run here: each function's contract is a law.
#![tactic(auto)]

ghost use Rattle.known_closures_proof.specs.Laws.{CallsKeepRows, CompilesAreObeyed, EvaluationsKeepRows};
ghost use Rattle.known_closures_proof.specs.Laws.{ExecutionsKeepRows};
ghost use Rattle.known_closures_proof.specs.Laws.{KnownFunctionsAreFinished, KnownRowsAreMade};
ghost use Rattle.known_closures_proof.specs.Laws.{KnownSpecificationsAreIssued, KnownWordsAreWithin};
ghost use Rattle.known_closures_proof.specs.Laws.{KnownSpecificationsAreDear, KnownSpecificationsAreTaken};
ghost use Rattle.known_closures_proof.specs.Laws.{ProgramsAreMeant};
ghost use Rattle.known_closures_proof.specs.Laws.{KnownOnePassIsFew, KnownPreludesSetKeys, KnownRowsAreSmall};
ghost use Rattle.known_closures_proof.specs.Laws.{RowsAreKnown, RunsAreDear};
ghost use Rattle.known_closures_proof.specs.Functions.{CodeHasFunctions, CodeIsWhole, KnownRowsAreCode};
ghost use Rattle.known_closures_proof.specs.StateLaws.{RunsKeepRows, StepsKeepRows};

/// The program of a text, as it has a meaning, has the functions and the ticks of its typed tree.
pub fn programs_are_meant()
    ensures { ProgramsAreMeant }
{}

/// The evaluation of an expression keeps the rows of specifications known.
pub fn evaluations_keep_rows()
    ensures { EvaluationsKeepRows }
{}

/// What a statement does keeps them known.
pub fn executions_keep_rows()
    ensures { ExecutionsKeepRows }
{}

/// Calls by numbers keep them known.
pub fn calls_keep_rows()
    ensures { CallsKeepRows }
{}

/// The rows of specifications of a run are known, after every number of units.
pub fn rows_are_known()
    ensures { RowsAreKnown }
{}

/// A specification of known rows is made of the program's ticks, and each variable that it names has a key.
pub fn known_rows_are_made()
    ensures { KnownRowsAreMade }
{}

/// A builder that is begun takes the ops of each specification of a run, with the return of its value.
pub fn known_specifications_are_taken()
    ensures { KnownSpecificationsAreTaken }
{}

/// The machine, at the function of a tick, with a function just begun, issues exactly the ops of the specification of a
/// run that it is called for.
pub fn known_specifications_are_issued()
    ensures { KnownSpecificationsAreIssued }
{}

/// What comes of them is not refused by the service that finishes functions, with the words and the frame that are
/// charged.
pub fn known_functions_are_finished()
    ensures { KnownFunctionsAreFinished }
{}

/// And its words are no more than are charged.
pub fn known_words_are_within()
    ensures { KnownWordsAreWithin }
{}

/// The services obey each call of a compile of a specification of a run.
pub fn compiles_are_obeyed()
    ensures { CompilesAreObeyed }
{}

/// The functions of the ticks of a specification of a run take an instruction for each node at least, and 105 at most.
pub fn known_specifications_are_dear()
    ensures { KnownSpecificationsAreDear }
{}

/// And so it is in each run of an accepted text, after every number of units.
pub fn runs_are_dear()
    ensures { RunsAreDear }
{}

/// What a builder has of a specification of a run is little enough that its function can be made in one pass.
pub fn known_one_pass_is_few()
    ensures { KnownOnePassIsFew }
{}

/// And its prelude sets the variables that the specification names.
pub fn known_preludes_set_keys()
    ensures { KnownPreludesSetKeys }
{}

/// A specification of a run is within the limit of sizes.
pub fn known_rows_are_small()
    ensures { KnownRowsAreSmall }
{}

/// A step of the staged machine keeps the rows of specifications known.
pub fn steps_keep_rows()
    ensures { StepsKeepRows }
{}

/// They are known in each state of a run.
pub fn runs_keep_rows()
    ensures { RunsKeepRows }
{}

/// What code is made of has a function that the services take.
pub fn code_has_functions()
    ensures { CodeHasFunctions }
{}

/// And the pieces of its ticks are whole.
pub fn code_is_whole()
    ensures { CodeIsWhole }
{}

/// The specification of a row of a run is one that code is made of.
pub fn known_rows_are_code()
    ensures { KnownRowsAreCode }
{}
