//! What a walk found, where the next one would find the same.

ghost use Rattle.std.specs.Prelude.{◌≡◌};
ghost use Rattle.walk_again.specs.Laws as spec;

use check_rules::State;
use sqlite_items::Items;

fn is_marked(marks: &Items<bool>) -> bool
    ensures { result ≡ spec.is_marked marks.now }
{
    marks.as_slice().iter().any(|mark| *mark)
}

fn any_marked(done: &[Items<bool>]) -> bool
    ensures { result ≡ spec.any_marked done.now }
{
    done.iter().any(|marks| is_marked(marks))
}

/// Whether a walk marked no variable, and met no string and no prototype.
pub fn is_settled(state: &State) -> bool
    ensures { result ≡ spec.is_settled state.now }
{
    state.image.strings.as_slice().is_empty()
        && state.functions.prototypes.as_slice().is_empty()
        && !any_marked(state.frame.done.as_slice())
}
