//! Laws of the functions that generate the code of ticks.

ghost use Rattle.generator_laws.specs.Builds.{TicksAreBuilt, TicksAreTaken};
ghost use Rattle.generator_laws.specs.Laws.{DepthsAreSmall, SpecificationsAreGenerated, SpecificationsAreIssued};
ghost use Rattle.generator_laws.specs.Served.{CallsAreServed, RunsAreMade};
ghost use Rattle.generator_laws.specs.Told.{CallsAreTold, CallsAreToldBelow};

/// The function of a tick, run on a closure that stands for a specification, issues exactly the ops of that
/// specification, in order, by the service that builds an op, and leaves all else as it was.
pub fn specifications_are_generated()
    ensures { SpecificationsAreGenerated }
{}

/// A call that a service obeys does to the arena and to the function table what is said of it here, and has that
/// answer.
pub fn calls_are_served()
    ensures { CallsAreServed }
{}

/// A run that calls services, each of which obeys, is the machine's own run, and leaves what the services leave.
pub fn runs_are_made()
    ensures { RunsAreMade }
{}

/// But for functions that are entered, such a run tells that a function was made where one is published, with what was
/// finished at its address last, and nothing else.
pub fn calls_are_told()
    ensures { CallsAreTold }
{}

/// Where the machine stands below the arena before each instruction, so that no function of the arena is entered, that
/// is all that it tells.
pub fn calls_are_told_below()
    ensures { CallsAreToldBelow }
{}

/// The machine, at the function of a tick, with a function begun that takes its ops, issues exactly the ops of the
/// specification, in order, and returns with all else as it was.
pub fn specifications_are_issued()
    ensures { SpecificationsAreIssued }
{}

/// No more functions are entered at a time than a specification has nodes.
pub fn depths_are_small()
    ensures { DepthsAreSmall }
{}

/// The ops of a tick expression, as a builder gets them, build the list of ops whose run makes its specification, and
/// leave its number in place of its captured words.
pub fn ticks_are_built()
    ensures { TicksAreBuilt }
{}

/// A builder takes them, one behind the other, where it has room for what they build and for two operands more.
pub fn ticks_are_taken()
    ensures { TicksAreTaken }
{}
