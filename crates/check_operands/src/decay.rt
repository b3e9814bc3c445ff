//! From the type of a place to that of its value.

ghost use Rattle.std.specs.Prelude.{◌≡◌, IfOk};
ghost use Rattle.std.specs.Option.{option_copied};
ghost use Rattle.check_declarators.specs.Making as spec;

use c_type_refs::TypeRef;
use c_types::Layer;
use std::alloc::AllocError;

fn is_array_layer(last: Option<&Layer>) -> bool
    ensures { result ≡ spec.is_array_layer (option_copied last.entry) }
{
    matches!(last, Some(Layer::Array(_)))
}

fn is_function_layer(last: Option<&Layer>) -> bool
    ensures { result ≡ spec.is_function_layer (option_copied last.entry) }
{
    matches!(last, Some(Layer::Function(_) | Layer::Unlisted))
}

/// The type of a value whose place has this type: an array becomes a pointer to its first element, and a function a
/// pointer to itself.
#[tactic(auto, unfolding(check_declarators::specs::Making::decayed))]
#[inline(never)]
pub fn decayed(t: TypeRef) -> Result<TypeRef, AllocError>
    ensures { IfOk result (λ c. c ≡ spec.decayed t) }
{
    if is_array_layer(t.outermost()) {
        t.under().with(Layer::Pointer)
    } else if is_function_layer(t.outermost()) {
        t.with(Layer::Pointer)
    } else {
        Ok(t)
    }
}
