//! Laws of a whole call.
ghost use Rattle.source_commands.specs.Laws.{RunMeans, RunCompletes, ShowsRuns, MeanMeans, MeanCompletes};
ghost use Rattle.source_commands.specs.Laws.{CommandsComplete, SourcesComplete};
ghost use Rattle.source_commands.specs.Texts.{MeansAsItRuns};

/// What `run` answers is what the text means: where it answers Done, the meaning ends so, and its output was put out.
pub fn run_means()
    ensures { RunMeans }
{}

/// Where the meaning ends within what the instructions allow and nothing outside fails, `run` answers that ending.
pub fn run_completes()
    ensures { RunCompletes }
{}

/// What `run` and `exec` show is the definition's run of the image that they hand back, under linear scan's choices.
pub fn shows_runs()
    ensures { ShowsRuns }
{}

/// What `mean` answers and writes is what the text means on the whole input.
pub fn mean_means()
    ensures { MeanMeans }
{}

/// Where file and input are told and may be evaluated and nothing outside fails, `mean` answers as the meaning ends.
pub fn mean_completes()
    ensures { MeanCompletes }
{}

/// A command whose file isn't refused is done, where nothing outside fails.
pub fn commands_complete()
    ensures { CommandsComplete }
{}

/// `gen` is done, and has written the source, where nothing outside fails.
pub fn sources_complete()
    ensures { SourcesComplete }
{}

/// A program that runs is the one that its text is in the whole language: what is evaluated is what runs.
pub fn means_as_it_runs()
    ensures { MeansAsItRuns }
{}
