//! The steps from a base to a declared type, as a declarator names them.

ghost use Rattle.std.specs.Prelude.{◌≡◌, IfOk};
ghost use Rattle.check_declarators.specs.Steps as spec;

use c_types::{CType, Layer};
use sqlite_items::Items;
use std::alloc::{AllocError, Global};
use tick_tree::Prefix;

/// What stands between the brackets of an array.
#[derive(Clone, Copy)]
pub enum Length {
    /// Nothing.
    Absent,
    /// A constant expression of this value.
    Constant(u32),
    /// An expression that is not constant.
    Computed,
    /// An expression that is void.
    Void,
    /// Nothing, and an initializer of so many elements. Whether that is too many is tested behind the initializer.
    Counted(u32),
}

/// A step from a type to one that is made of it.
#[derive(Drop)]
pub enum Step {
    /// A prefix.
    Prefix(Prefix),
    /// `[ ]`
    Array(Length),
    /// A parameter list, with the types of the parameters. `(void)` has none.
    Function(Items<CType>),
    /// `()`
    Unlisted,
}

/// What a type is declared for.
#[derive(Clone, Copy)]
pub enum Role {
    /// A type name: of a cast, of `sizeof`, `compile`, `local` or `param`.
    Typename,
    /// A declaration at file scope.
    FileScope,
    /// A declaration in a block.
    Local,
    /// A parameter.
    Parameter,
}

fn count_of(length: Length) -> u32
    ensures { result ≡ spec.count_of length }
{
    match length {
        Length::Constant(count) | Length::Counted(count) => count,
        Length::Absent | Length::Computed | Length::Void => 0,
    }
}

fn prefix_layer(prefix: Prefix) -> Layer
    ensures { result ≡ spec.prefix_layer prefix }
{
    match prefix {
        Prefix::Star => Layer::Pointer,
        Prefix::Cspec => Layer::Cspec,
        Prefix::Vspec => Layer::Vspec,
    }
}

// The layer that a step lays over a type.
pub(crate) fn layer_of(step: Step) -> Layer
    ensures { result ≡ spec.layer_of step }
{
    match step {
        Step::Prefix(prefix) => prefix_layer(prefix),
        Step::Array(length) => Layer::Array(count_of(length)),
        Step::Function(list) => Layer::Function(list),
        Step::Unlisted => Layer::Unlisted,
    }
}

/// The steps with these prefixes taken before them. The last step is taken first, so the first prefix goes to the end.
pub fn push_prefixes(steps: Items<Step>, prefixes: &[Prefix]) -> Result<Items<Step>, AllocError>
    ensures { IfOk result (λ all. all ≡ spec.prefixed prefixes.now steps) }
{
    let mut steps = steps;
    let mut at = prefixes.len();
    while at > 0 {
        at -= 1;
        steps.push(Step::Prefix(prefixes[at]))?;
    }
    Ok(steps)
}

// Whether the step taken last is an array without a length.
fn lacks_length(steps: &[Step]) -> bool
    ensures { result ≡ spec.lacks_length steps.now }
{
    matches!(steps.first(), Some(Step::Array(Length::Absent)))
}

/// The steps with this count for the outermost array, where that has no length: the count of its initializer's items.
pub fn fill_length(steps: Items<Step>, count: u32) -> Items<Step>
    ensures { result ≡ spec.filled count steps }
{
    let mut steps = steps;
    if lacks_length(steps.as_slice()) {
        steps.set(0, Step::Array(Length::Counted(count)));
    }
    steps
}
