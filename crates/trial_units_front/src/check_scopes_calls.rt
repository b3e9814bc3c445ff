//! The scopes of names.

use c_type_refs::TypeRef;
use c_types::{Base, Integer};
use check_scopes::{Meaning, MeaningKind, Scopes};
use std::alloc::{AllocError, Global};

// An int of this kind and number.
fn int(alloc: Global, kind: MeaningKind, index: u32) -> Meaning {
    Meaning {
        kind,
        ctype: TypeRef::new(alloc, Base::Integer(Integer::Int)),
        index,
    }
}

// The number that the name has, or 0.
fn index_of(scopes: &Scopes, name: &[u8]) -> u32 {
    match scopes.find(name) {
        Some(found) => found.index,
        None => 0,
    }
}

// A name in two scopes: whether both are declared and the second scope is open; the numbers of x and y there, and that
// of x once it is closed.
fn hide_and_show(alloc: Global, scopes: &mut Scopes) -> ([bool; 4], [u32; 3]) {
    let outer = scopes.declare(b"x", int(alloc, MeaningKind::Global, 1));
    let opened = scopes.open();
    let inner = scopes.declare(b"x", int(alloc, MeaningKind::Variable, 2));
    let are_two = scopes.depth() == 2;
    let hidden = [index_of(scopes, b"x"), index_of(scopes, b"y")];
    scopes.close_to(1);
    (
        [outer.is_ok(), opened.is_ok(), inner.is_ok(), are_two],
        [hidden[0], hidden[1], index_of(scopes, b"x")],
    )
}

fn hidden(alloc: Global) -> Result<([bool; 4], [u32; 3]), AllocError> {
    let mut scopes = Scopes::new(alloc)?;
    let found = hide_and_show(alloc, &mut scopes);
    drop(scopes);
    Ok(found)
}

#[test]
fn inner_declaration_hides(rt: HostRuntime) {
    assert!(rt; hidden(rt.alloc()) == Ok(([true; 4], [2, 0, 1])));
}
