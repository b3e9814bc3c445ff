//! Laws of runs.
ghost use Rattle.mips_model.specs.Laws.{EndsOnce, RunsGrow, TellsGrow, TellsItsRun, TellsPlainly};

/// A run that has ended stays as it is.
pub fn ends_once()
    ensures { EndsOnce }
{}

/// What is seen of a run only grows.
pub fn runs_grow()
    ensures { RunsGrow }
{}

/// What a run tells only grows.
pub fn tells_grow()
    ensures { TellsGrow }
{}

/// What passed in what a run tells is its history.
pub fn tells_its_run()
    ensures { TellsItsRun }
{}

/// Where a run makes and enters no function, it tells its history.
pub fn tells_plainly()
    ensures { TellsPlainly }
{}
