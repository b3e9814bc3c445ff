//! The law on accepted texts. These are laws on definitions; there is no code to run here.

ghost use Rattle.wf_programs.specs.Laws.{CheckedIsWellFormed};
ghost use Rattle.wf_programs.specs.Small.{TreesAreGood};

/// That the walk over each small tree keeps the invariant, and that what it makes stands right.
pub fn trees_are_good()
    ensures { TreesAreGood }
{}

/// That the typed tree of a text's tree stands right, as [`wellformed::Typed`] keeps it.
pub fn checked_is_well_formed()
    ensures { CheckedIsWellFormed }
{}
