//! What the instructions of each op do on the machine, under any places of its registers. There is no code to run here:
//! each function's contract is a law, on which the simulation of the staged machine stands.
//!
//! And the routines of the run-time library that ops call, as lists of instructions, the closures that they make, and
//! what each of them does on the machine.
#![tactic(auto)]

ghost use Rattle.icode_templates_proof.specs.Laws.{ConstantsAreWritten, ValuesAreCopied, OperatorsAreApplied};
ghost use Rattle.icode_templates_proof.specs.Laws.{NumbersArePutOut, BytesAreRead, EndsAreRead, FailuresEnd, ExitsEnd};
ghost use Rattle.icode_templates_proof.specs.Laws.{LoadsAreMade, LoadsTrap, StoresAreMade, StoresTrap};
ghost use Rattle.icode_templates_proof.specs.Laws.{OperatorsAreAppliedToOne, ZeroChecksPass, ZeroChecksTrap};
ghost use Rattle.icode_templates_proof.specs.Laws.{DivisionChecksPass, DivisionChecksTrap, BytesArePutOut};
ghost use Rattle.icode_templates_proof.specs.Laws.{ZeroGoes, OthersPass, OthersGo, ZeroPasses};
ghost use Rattle.icode_templates_proof.specs.MallocLaws.{MallocIsAnswered, MallocIsCalled};
ghost use Rattle.icode_templates_proof.specs.RoutineLaws.{
  BeginIsAnswered,
  BeginIsCalled,
  CheckIsAnswered,
  CheckTraps,
  ClosuresStand,
  LocalIsAnswered,
  LocalIsCalled,
  LocalTraps,
  NewIsAnswered,
  NewTraps,
  ParameterIsAnswered,
  ParameterIsCalled,
  ParameterTraps,
  RoutinesAreCalled,
  RoutinesEnd,
};

/// A constant is written to its spot, in 3 to 5 instructions.
pub fn constants_are_written()
    ensures { ConstantsAreWritten }
{}

/// A value is copied from one spot to another, in 2 to 7 instructions.
pub fn values_are_copied()
    ensures { ValuesAreCopied }
{}

/// An operator is applied to two spots, where it has no trap, in 4 to 12 instructions.
pub fn operators_are_applied()
    ensures { OperatorsAreApplied }
{}

/// And one of one word to a spot, in 3 to 9 instructions.
pub fn operators_are_applied_to_one()
    ensures { OperatorsAreAppliedToOne }
{}

/// The check of a divisor passes where it isn't 0, in 3 to 6 instructions.
pub fn zero_checks_pass()
    ensures { ZeroChecksPass }
{}

/// And else the run ends with its trap, in 4 to 7 instructions, with nothing more put out or read.
pub fn zero_checks_trap()
    ensures { ZeroChecksTrap }
{}

/// The check of a signed division passes where there is a quotient, in 7 to 14 instructions.
pub fn division_checks_pass()
    ensures { DivisionChecksPass }
{}

/// And else the run ends with its trap, by 0 or by a quotient that no word holds, in 5 to 15 instructions.
pub fn division_checks_trap()
    ensures { DivisionChecksTrap }
{}

/// A byte is put out and answered, in 6 to 11 instructions.
pub fn bytes_are_put_out()
    ensures { BytesArePutOut }
{}

/// A branch on 0 goes to its label where the value is 0, in 5 to 8 instructions.
pub fn zero_goes()
    ensures { ZeroGoes }
{}

/// And it passes on where the value is another one, in 3 to 6 instructions.
pub fn others_pass()
    ensures { OthersPass }
{}

/// A branch on other numbers goes to its label where the value isn't 0.
pub fn others_go()
    ensures { OthersGo }
{}

/// And it passes on where the value is 0.
pub fn zero_passes()
    ensures { ZeroPasses }
{}

/// A number is put out in decimal and answered, in 6 to 11 instructions.
pub fn numbers_are_put_out()
    ensures { NumbersArePutOut }
{}

/// A byte of the input is read and answered, in 6 to 11 instructions.
pub fn bytes_are_read()
    ensures { BytesAreRead }
{}

/// At the end of the input the answer is -1, in 6 to 11 instructions.
pub fn ends_are_read()
    ensures { EndsAreRead }
{}

/// An input that fails ends the run, within 4 to 7 instructions.
pub fn failures_end()
    ensures { FailuresEnd }
{}

/// An exit ends the run with the value's lowest byte, within 4 to 7 instructions.
pub fn exits_end()
    ensures { ExitsEnd }
{}

/// A part of an object is loaded to a spot, in 8 to 13 instructions.
pub fn loads_are_made()
    ensures { LoadsAreMade }
{}

/// A load from another address, or from an odd one, traps within 6 to 9 instructions.
pub fn loads_trap()
    ensures { LoadsTrap }
{}

/// A value is stored to a part of an object, in 7 to 12 instructions.
pub fn stores_are_made()
    ensures { StoresAreMade }
{}

/// A store to another address, or to an odd one, traps within 7 to 12 instructions.
pub fn stores_trap()
    ensures { StoresTrap }
{}

/// The routine of `malloc` answers what `malloc` answers, moves the heap's cell as `malloc` moves the heap, keeps all
/// spots and returns, in 9 to 15 instructions.
pub fn malloc_is_answered()
    ensures { MallocIsAnswered }
{}

/// An op that calls the routine puts its answer to any spot, in 15 to 26 instructions.
pub fn malloc_is_called()
    ensures { MallocIsCalled }
{}

/// The routine that begins a tick's specification sets the size so far to its argument and the parameters so far to 0,
/// in 5 instructions.
pub fn sizes_are_begun()
    ensures { BeginIsAnswered }
{}

/// The routine that checks a captured number, which is live and of the kind that is named, adds its size and counts its
/// parameters, in 28 or 29 instructions.
pub fn captured_numbers_are_checked()
    ensures { CheckIsAnswered }
{}

/// Any other number ends the run as BadSpec, in 6 to 16 instructions.
pub fn bad_numbers_trap()
    ensures { CheckTraps }
{}

/// The routine that makes the specification of a tick writes the first four words of its closure, its row and the
/// cells, and answers its number, in 30 instructions.
pub fn ticks_are_specified()
    ensures { NewIsAnswered }
{}

/// A size over its limit ends the run as SizeLimit, and else a closure that there is no room for as SpecLimit, in 7 to
/// 15 instructions.
pub fn tick_limits_trap()
    ensures { NewTraps }
{}

/// The routine that makes a variable of generated code writes its closure, its row and the cells, and answers its
/// number, in 30 instructions.
pub fn locals_are_specified()
    ensures { LocalIsAnswered }
{}

/// Where there is no room for its closure the run ends as SpecLimit, in 15 instructions.
pub fn local_limits_trap()
    ensures { LocalTraps }
{}

/// The routine that makes a parameter of generated code does so in 31 instructions.
pub fn parameters_are_specified()
    ensures { ParameterIsAnswered }
{}

/// An index over 7 ends the run as BadParam, and else a closure that there is no room for as SpecLimit, in 4 to 16
/// instructions.
pub fn parameter_limits_trap()
    ensures { ParameterTraps }
{}

/// Closures stand on where another one is made, which stands behind them, as its first four words were written and with
/// the words that come behind them as they are.
pub fn closures_stand()
    ensures { ClosuresStand }
{}

/// An op that calls a routine puts the routine's answer to any spot, in 6 to 11 instructions more.
pub fn routines_are_called()
    ensures { RoutinesAreCalled }
{}

/// Where a routine ends the run, so does the op that calls it, in 4 to 7 instructions more.
pub fn routines_end()
    ensures { RoutinesEnd }
{}

/// The op that begins a tick's specification does so in 11 to 16 instructions.
pub fn begin_is_called()
    ensures { BeginIsCalled }
{}

/// The op that makes a variable of generated code puts its number to any spot, in 36 to 41 instructions.
pub fn local_is_called()
    ensures { LocalIsCalled }
{}

/// The op that makes a parameter of generated code puts its number to any spot, in 37 to 42 instructions.
pub fn parameter_is_called()
    ensures { ParameterIsCalled }
{}
