//! The parameters of a function, as they are written.

ghost use Rattle.std.specs.Prelude.{◌≡◌, map};
ghost use Rattle.check_globals.specs.Functions.{given};
ghost use Rattle.check_globals.specs.Parameters as spec;

use tick_tree::{Core, Declarator, Parameter, Suffix};

#[tactic(auto, using(crate::proofs::Heads::suffixes))]
fn list(suffix: &Suffix) -> &[Parameter]
    ensures { map given result.now ≡ spec.list suffix.now }
{
    match suffix {
        Suffix::Array(_) | Suffix::Unlisted | Suffix::Nothing => &[],
        Suffix::Listed(list) => list.as_slice(),
    }
}

fn first_of(suffixes: &[Suffix]) -> &[Parameter]
    ensures { map given result.now ≡ spec.first_of (map spec.list suffixes.now) }
{
    match suffixes.first() {
        None => &[],
        Some(suffix) => list(suffix),
    }
}

/// The parameters of the function that a declarator declares: the list that stands first behind its name.
#[cycle(listed)]
#[tactic(auto, using(crate::proofs::Heads::by_core))]
pub fn parameters_of(d: &Declarator) -> &[Parameter]
    ensures { map given result.now ≡ spec.parameters_of d.now }
{
    inner(&d.core, first_of(d.suffixes.as_slice()))
}

#[cycle(listed)]
#[tactic(auto, using(crate::proofs::Heads::cores))]
fn inner<'a>(core: &'a Core, first: &'a [Parameter]) -> &'a [Parameter]
    ensures { map given result.now ≡ (spec.inner core.now).list (map given first.now) }
{
    match core {
        Core::Absent => &[],
        Core::Name(_, _) => first,
        Core::Paren(d) => parameters_of(d.get()),
    }
}
