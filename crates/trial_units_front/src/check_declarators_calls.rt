//! Tests of the rules on declared types.

use c_conversions::same;
use c_type_refs::TypeRef;
use c_types::{Base, CType, Integer, Layer, same_ctypes};
use check_declarators::{Length, Role, Step, base_of, declared_type, fill_length, push_prefixes};
use check_operands::decayed;
use sqlite_items::Items;
use std::alloc::{AllocError, Global};
use tick_tree::{Base as Words, Deny, Fault, FaultKind, Prefix, Signedness};

const INT: Base = Base::Integer(Integer::Int);

// The type of x in `int *x[3]`.
fn array_of_pointers(alloc: Global) -> Result<CType, Deny> {
    let mut steps = Items::new(alloc);
    steps.push(Step::Array(Length::Absent))?;
    let steps = push_prefixes(fill_length(steps, 3), &[Prefix::Star])?;
    declared_type(alloc, Role::Local, 1, INT, steps)
}

// That type from its layers.
fn by_layers(alloc: Global) -> Result<CType, AllocError> {
    CType::new(alloc, INT)
        .with(Layer::Pointer)?
        .with(Layer::Array(3))
}

// Whether these types are the same, also when they are shared, and the first is no array as a value.
fn are_same(alloc: Global, made: CType, wanted: CType) -> Result<bool, AllocError> {
    let are_same = same_ctypes(&made, &wanted);
    let wanted = TypeRef::share(alloc, wanted)?;
    let place = TypeRef::share(alloc, made)?;
    let are_shared = same(&place, &wanted);
    let value = decayed(place)?;
    Ok(are_same && are_shared && !same(&value, &wanted))
}

fn is_array_of_pointers(alloc: Global) -> Result<bool, Deny> {
    let made = array_of_pointers(alloc)?;
    let wanted = by_layers(alloc)?;
    Ok(are_same(alloc, made, wanted)?)
}

// The type of x in `int x[0]()`, declared on line 7.
fn array_without_elements(alloc: Global) -> Result<CType, Deny> {
    let mut steps = Items::new(alloc);
    steps.push(Step::Array(Length::Constant(0)))?;
    steps.push(Step::Unlisted)?;
    declared_type(alloc, Role::FileScope, 7, INT, steps)
}

#[test]
fn types_are_declared_or_refused_by_their_lowest_fault(rt: HostRuntime) {
    let are_so = [
        matches!(is_array_of_pointers(rt.alloc()), Ok(true)),
        matches!(
            array_without_elements(rt.alloc()),
            Err(Deny::Refused(Fault {
                kind: FaultKind::TypeMismatch,
                line: 7,
                token: 0
            }))
        ),
    ];
    assert!(rt; are_so == [true; 2]);
    let bases = [
        base_of(Words::Short(Some(Signedness::Unsigned), true)),
        base_of(Words::Long(None, false)),
    ];
    assert!(rt; bases == [Base::Integer(Integer::UnsignedShort), INT]);
}
