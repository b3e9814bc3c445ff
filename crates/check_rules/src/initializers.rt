//! What initializers are asked, of a block and at file scope.

ghost use Rattle.std.specs.Prelude.{◌≡◌, is_some};
ghost use Rattle.check_declarators.specs.Making as making;
ghost use Rattle.check_forms.specs.Forms as forms;
ghost use Rattle.check_rules.specs.Initializers as spec;

use c_conversions::converts;
use c_type_refs::{TypeRef, limited_size};
use c_types::Layer;
use check_forms::string_of;
use check_operands::Value;
use check_types::is_void;
use tick_tree::{self as syntax, FaultKind};

/// Whether an expression is a string, also in parentheses.
pub fn is_string(e: &syntax::Expr) -> bool
    ensures { result ≡ is_some (forms.string_of e.now) }
{
    string_of(e).is_some()
}

/// Whether a type is an array.
pub fn is_array(t: &TypeRef) -> bool
    ensures { result ≡ spec.is_array t.now }
{
    matches!(t.layers().last(), Some(Layer::Array(_)))
}

/// The broken rule of the lower number.
pub fn lower(a: Option<FaultKind>, b: Option<FaultKind>) -> Option<FaultKind>
    ensures { result ≡ making.lower a b }
{
    match a {
        None => b,
        Some(x) => match b {
            None => Some(x),
            Some(y) => {
                if y.number() < x.number() {
                    Some(y)
                } else {
                    Some(x)
                }
            }
        },
    }
}

/// What a value breaks as an initializer of this type: VoidValue alone, or TypeMismatch.
pub fn value_breaks(v: &Value, t: &TypeRef) -> Option<FaultKind>
    ensures { result ≡ spec.value_breaks v.now t.now }
{
    if is_void(&v.ctype) {
        Some(FaultKind::VoidValue)
    } else if converts(&v.ctype, t, v.zero) {
        None
    } else {
        Some(FaultKind::TypeMismatch)
    }
}

/// Whether a type has some bytes, and at most `limits::program::MAX_SIZE`. An array whose length is counted may have
/// another size.
pub fn has_size(t: &TypeRef) -> bool
    ensures { result ≡ spec.has_size t.now }
{
    match limited_size(t) {
        None => false,
        Some(n) => n > 0,
    }
}
