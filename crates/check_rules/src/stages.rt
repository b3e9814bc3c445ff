//! What is asked of where an expression stands, and of whether a specification is left over there.

ghost use Rattle.std.specs.Prelude.{◌≡◌};
ghost use Rattle.check_rules.specs.Productions as spec;

use crate::state::Stage;
use c_type_refs::TypeRef;
use check_types::{is_cspec, is_vspec};

/// Whether an expression runs in generated code.
pub fn is_tick(stage: Stage) -> bool
    ensures { result ≡ spec.is_tick stage }
{
    match stage {
        Stage::Tick => true,
        Stage::Function | Stage::Dollar => false,
    }
}

/// Whether a type is that of a specification or of a variable of generated code.
pub fn is_specification(t: &TypeRef) -> bool
    ensures { result ≡ spec.is_specification t.now }
{
    is_cspec(t) || is_vspec(t)
}
