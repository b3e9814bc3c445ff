//! What the ops that make specifications do on the machine, as laws over the routines of the run-time
//! library. Which closure in memory stands for which specification of the meaning, and that the routines and ops which
//! make specifications keep it. There is no code to run here: each function's contract is a law.
#![tactic(auto)]

ghost use Rattle.closures_proof.specs.OpLaws.{
  CapturedWordsArePut,
  CheckIsCalled,
  CheckOpTraps,
  ClosuresAreKept,
  LocalOpTraps,
  NewIsCalled,
  NewOpTraps,
  NewestIsMade,
  ParameterOpTraps,
  PutIsDone,
  SumsKeepClosures,
};
ghost use Rattle.closures_proof.specs.Below.{TicksStayBelow};
ghost use Rattle.closures_proof.specs.Laws.{
  ChecksAgree,
  LocalsStandFor,
  ParametersStandFor,
  RowsAreThere,
  SpecificationsAreKept,
  SpecificationsStayWithSums,
  SumsAreExact,
  TicksStandFor,
};
ghost use Rattle.closures_proof.specs.Ticks.{TicksAreMade, TicksAreMeant, TicksTrap};
ghost use Rattle.closures_proof.specs.Variables.{LocalsAreMade, ParametersAreMade};

/// The op that checks a captured number, which is live and of the kind that is named, adds its size and counts its
/// parameters, in 34 to 40 instructions.
pub fn checks_are_called()
    ensures { CheckIsCalled }
{}

/// With any other number it ends the run as BadSpec, in 10 to 23 instructions.
pub fn bad_numbers_end()
    ensures { CheckOpTraps }
{}

/// The op that makes the closure of a tick puts its number to any spot, in 39 to 41 instructions.
pub fn new_is_called()
    ensures { NewIsCalled }
{}

/// A size over its limit ends the run as SizeLimit, and else a closure that there is no room for as SpecLimit, in 14 to
/// 22 instructions.
pub fn tick_limits_end()
    ensures { NewOpTraps }
{}

/// The op that puts a captured word writes it into the newest closure, in 5 to 8 instructions.
pub fn put_is_done()
    ensures { PutIsDone }
{}

/// Where there is no room for its closure, the op that makes a variable of generated code ends the run as SpecLimit, in
/// 19 to 22 instructions.
pub fn local_limits_end()
    ensures { LocalOpTraps }
{}

/// An index over 7 ends the run as BadParam, and else a closure that there is no room for as SpecLimit, in 8 to 23
/// instructions.
pub fn parameter_limits_end()
    ensures { ParameterOpTraps }
{}

/// What keeps all spots keeps the closures.
pub fn closures_are_kept()
    ensures { ClosuresAreKept }
{}

/// The closures stand where sizes and parameters are added up.
pub fn sums_keep_closures()
    ensures { SumsKeepClosures }
{}

/// A closure that is made is the newest one, and stands behind all others.
pub fn newest_is_made()
    ensures { NewestIsMade }
{}

/// The newest closure has a place for each of its captured words; where one is put there, it has that word, and all
/// other closures and words stand as they stood.
pub fn captured_words_are_put()
    ensures { CapturedWordsArePut }
{}

/// A routine that checks a captured number ends the run exactly where the meaning does.
pub fn checks_agree()
    ensures { ChecksAgree }
{}

/// What the routines add up is the size and the parameters of the whole specification.
pub fn sums_are_exact()
    ensures { SumsAreExact }
{}

/// Rows and cells are as the routines ask for, where the specifications of the meaning stand in memory.
pub fn rows_are_there()
    ensures { RowsAreThere }
{}

/// The specifications stand on behind what keeps all spots.
pub fn specifications_are_kept()
    ensures { SpecificationsAreKept }
{}

/// They stand on where sizes and parameters are added up.
pub fn specifications_stay_with_sums()
    ensures { SpecificationsStayWithSums }
{}

/// The closure that the routine of a local variable writes stands for the meaning's new specification.
pub fn locals_stand_for()
    ensures { LocalsStandFor }
{}

/// So does that of a parameter.
pub fn parameters_stand_for()
    ensures { ParametersStandFor }
{}

/// So does that of a tick, which was made with what was added up, and then got its captured words one by one.
pub fn ticks_stand_for()
    ensures { TicksStandFor }
{}

/// All ops of a tick, run one behind another, make its specification as the meaning appends it, and put its number to
/// the spot of its register; besides they write the spots of their other results alone. They take 53 to 62
/// instructions, 34 to 40 for each captured number and 5 to 8 for each captured word.
pub fn ticks_are_made()
    ensures { TicksAreMade }
{}

/// Where they stand below the arena, so does the machine before each instruction, and nothing passes between the run
/// and the outside.
pub fn ticks_stay_below()
    ensures { TicksStayBelow }
{}

/// Where a captured number is refused, the size is over its limit or there is no room for the closure, they end the run
/// for the first of these, with nothing passed between the run and the outside.
pub fn ticks_trap()
    ensures { TicksTrap }
{}

/// These are the traps of the meaning, in its order, and what it appends otherwise.
pub fn ticks_are_meant()
    ensures { TicksAreMeant }
{}

/// The op that makes a variable of generated code makes its specification as the meaning appends it, and puts its
/// number to any spot, in 36 to 41 instructions.
pub fn locals_are_made()
    ensures { LocalsAreMade }
{}

/// So does that of a parameter, in 37 to 42.
pub fn parameters_are_made()
    ensures { ParametersAreMade }
{}
