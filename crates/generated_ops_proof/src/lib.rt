//! A builder takes the ops of each specification that it has room for, and one that is begun has room for all that the
//! limit of sizes lets exist. There is no code to run here: each function's contract is a law.
#![tactic(auto)]

ghost use Rattle.generated_ops_proof.specs.Laws.{BegunBuildersTakeAll, BuildersAreFinished, SpecificationsAreDear};
ghost use Rattle.generated_ops_proof.specs.Laws.{KeysAreMentioned, OnePassIsFew, PreludesSetKeys, SpecificationsAreFew};
ghost use Rattle.generated_ops_proof.specs.Laws.{SpecificationsAreIssuedToBegun, SpecificationsAreTaken};
ghost use Rattle.generated_ops_proof.specs.Laws.{SpecificationsWithRoomAreIssued, WordsAreWithin};

/// A builder that has room for the ops of a specification takes them all, one after the other.
pub fn specifications_are_taken()
    ensures { SpecificationsAreTaken }
{}

/// The machine, at the function of a tick, with a function begun that has room for the specification's ops, issues
/// exactly these, in order, and returns with all else as it was.
pub fn specifications_with_room_are_issued()
    ensures { SpecificationsWithRoomAreIssued }
{}

/// The ops of a specification add at most twelve ops, operands, bodies, variables, labels and registers a node, and of
/// ops two less.
pub fn specifications_are_few()
    ensures { SpecificationsAreFew }
{}

/// A builder that is begun takes the ops of each specification within the limit of sizes, and the return of its value.
pub fn begun_builders_take_all()
    ensures { BegunBuildersTakeAll }
{}

/// The machine, at the function of a tick, with a function just begun, issues exactly the ops of the specification of a
/// run that it is called for.
pub fn specifications_are_issued_to_begun()
    ensures { SpecificationsAreIssuedToBegun }
{}

/// What comes of these ops is not refused by the service that finishes functions, with the words and the frame that are
/// charged for the specification.
pub fn builders_are_finished()
    ensures { BuildersAreFinished }
{}

/// The words of what comes of them are no more than are charged for the specification.
pub fn words_are_within()
    ensures { WordsAreWithin }
{}

/// The functions of a specification's ticks take an instruction for each node at least, and 105 for each at most.
pub fn specifications_are_dear()
    ensures { SpecificationsAreDear }
{}

/// Each variable that a specification names is mentioned to the builder that takes its ops.
pub fn keys_are_mentioned()
    ensures { KeysAreMentioned }
{}

/// What a builder has of a specification is little enough that the function can be made in one pass within its charge.
pub fn one_pass_is_few()
    ensures { OnePassIsFew }
{}

/// What a builder has mentioned is what the specification names, each once, and its prelude sets the variables among
/// it.
pub fn preludes_set_keys()
    ensures { PreludesSetKeys }
{}
