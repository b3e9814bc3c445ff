//! Promotion, and which types of lists are the same.

ghost use Rattle.std.specs.Prelude.{◌≡◌};
ghost use Rattle.c_types.specs.Types as spec;

use crate::ctype::{Base, CType, Integer, Layer};

/// The type after promotion: a narrow integer becomes an int.
pub fn promoted(kind: Integer) -> Integer
    ensures { result ≡ spec.promoted kind }
{
    match kind {
        Integer::Unsigned => Integer::Unsigned,
        _ => Integer::Int,
    }
}

/// Whether two types of lists are the same.
#[cycle(same)]
#[tactic(auto, using(crate::proofs::SameLaws::by_parts))]
pub fn same_ctypes(a: &CType, b: &CType) -> bool
    ensures { result ≡ spec.same a.now b.now }
{
    a.base == b.base && same_layers(a.layers.as_slice(), b.layers.as_slice())
}

// Whether the layers are the same.
#[cycle(same)]
#[tactic(auto, using(crate::proofs::SameLaws::other_layers))]
fn same_layers(a: &[Layer], b: &[Layer]) -> bool
    ensures { result ≡ spec.same_layers a.now b.now }
{
    if a.len() != b.len() {
        return false;
    }
    for i in 0..a.len() {
        if !same_layer(&a[i], &b[i]) {
            return false;
        }
    }
    true
}

/// Whether two layers are the same.
#[cycle(same)]
#[tactic(auto, using(crate::proofs::SameLaws::by_layer))]
pub fn same_layer(a: &Layer, b: &Layer) -> bool
    ensures { result ≡ spec.same_layer a.now b.now }
{
    match a {
        Layer::Pointer => matches!(b, Layer::Pointer),
        Layer::Unlisted => matches!(b, Layer::Unlisted),
        Layer::Cspec => matches!(b, Layer::Cspec),
        Layer::Vspec => matches!(b, Layer::Vspec),
        Layer::Array(n) => match b {
            Layer::Array(m) => *n == *m,
            _ => false,
        },
        Layer::Function(list) => match b {
            Layer::Function(other) => same_lists(list.as_slice(), other.as_slice()),
            _ => false,
        },
    }
}

// Whether the types of two lists are the same.
#[cycle(same)]
#[tactic(auto, using(crate::proofs::SameLaws::other_lists))]
fn same_lists(a: &[CType], b: &[CType]) -> bool
    ensures { result ≡ spec.same_lists a.now b.now }
{
    if a.len() != b.len() {
        return false;
    }
    for i in 0..a.len() {
        if !same_ctypes(&a[i], &b[i]) {
            return false;
        }
    }
    true
}
