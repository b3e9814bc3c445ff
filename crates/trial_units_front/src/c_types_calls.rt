//! Types and their layers.

use c_conversions::{common, converts, converts_to, same};
use c_type_refs::{TypeRef, copy, limited_size, pointed_size};
use c_types::{Base, CType, Integer, Layer, promoted};
use sqlite_items::Items;
use std::alloc::{AllocError, Global};

const LETTER: Base = Base::Integer(Integer::Char);

// The type with one more layer.
fn over(alloc: Global, t: &TypeRef, layer: Layer) -> Result<TypeRef, AllocError> {
    copy(alloc, t)?.with(layer)
}

// Whether what holds of a char, a pointer to one, three of these, and a pointer to anything is so.
fn are_small_types(letter: &TypeRef, pointer: &TypeRef, row: &TypeRef, any: &TypeRef) -> bool {
    let hold = [
        limited_size(row) == Some(12),
        same(row, row),
        converts(pointer, any, false),
        converts(letter, any, true),
        converts(letter, any, false),
        same(row, pointer),
        same(pointer, letter),
    ];
    hold == [true, true, true, true, false, false, false]
}

fn on_small_types(alloc: Global) -> Result<bool, AllocError> {
    let letter = TypeRef::new(alloc, LETTER);
    let any = TypeRef::new(alloc, Base::Void).with(Layer::Pointer)?;
    let pointer = over(alloc, &letter, Layer::Pointer)?;
    let row = over(alloc, &pointer, Layer::Array(3))?;
    Ok(are_small_types(&letter, &pointer, &row, &any))
}

// An array of pointers to arrays of char.
fn arrays(alloc: Global, inner: u32, outer: u32) -> Result<CType, AllocError> {
    CType::new(alloc, LETTER)
        .with(Layer::Array(inner))?
        .with(Layer::Pointer)?
        .with(Layer::Array(outer))
}

fn shared_arrays(alloc: Global, inner: u32, outer: u32) -> Result<TypeRef, AllocError> {
    TypeRef::share(alloc, arrays(alloc, inner, outer)?)
}

// Whether a type is that of so many such elements, and has these bytes.
fn is_row(
    alloc: Global,
    t: &TypeRef,
    element: &TypeRef,
    count: u32,
    bytes: u32,
) -> Result<[bool; 2], AllocError> {
    let row = over(alloc, element, Layer::Array(count))?;
    Ok([same(t, &row), limited_size(&row) == Some(bytes)])
}

// Whether what holds of 300 pointers to five chars, of 300 to six, and of one of the first is so.
fn are_shared(
    alloc: Global,
    t: &TypeRef,
    other: &TypeRef,
    element: &TypeRef,
) -> Result<bool, AllocError> {
    let rows = [
        is_row(alloc, t, element, 300, 1200)?,
        is_row(alloc, t, element, 301, 1204)?,
    ];
    let hold = [
        limited_size(t) == Some(1200),
        t.layers().len() == 3,
        limited_size(element) == Some(4),
        pointed_size(element) == Some(5),
        same(t, element),
        same(t, other),
    ];
    Ok(rows == [[true, true], [false, true]] && hold == [true, true, true, true, false, false])
}

fn on_shared_layers(alloc: Global) -> Result<bool, AllocError> {
    let t = shared_arrays(alloc, 5, 300)?;
    let other = shared_arrays(alloc, 6, 300)?;
    let element = copy(alloc, &t)?.under();
    let are_so = are_shared(alloc, &t, &other, &element)?;
    Ok(are_so && !converts(&element, &other.under(), false))
}

fn function(alloc: Global, parameters: Items<CType>) -> Result<CType, AllocError> {
    CType::new(alloc, Base::Void).with(Layer::Function(parameters))
}

// A function that takes such an array.
fn taking(alloc: Global, inner: u32, outer: u32) -> Result<CType, AllocError> {
    let mut list = Items::new(alloc);
    list.push(arrays(alloc, inner, outer)?)?;
    function(alloc, list)
}

// Whether the function has one parameter of three layers, and of these types the first alone converts to its type.
fn takes(function: &TypeRef, like: &TypeRef, unlike: &TypeRef) -> bool {
    let layers = function.layers();
    let parameters = layers.parameters();
    match parameters.get(0) {
        Some(first) => {
            let hold = [
                parameters.len() == 1,
                first.layers().len() == 3,
                converts_to(like, &first, false),
                converts_to(unlike, &first, false),
            ];
            hold == [true, true, true, false]
        }
        None => false,
    }
}

fn is_taken(alloc: Global) -> Result<bool, AllocError> {
    let function = TypeRef::share(alloc, taking(alloc, 5, 300)?)?;
    let like = shared_arrays(alloc, 5, 300)?;
    let unlike = shared_arrays(alloc, 5, 301)?;
    Ok(takes(&function, &like, &unlike))
}

// A function that takes a function that takes an array of so many, and an int.
fn nested(alloc: Global, count: u32) -> Result<TypeRef, AllocError> {
    let mut list = Items::new(alloc);
    list.push(taking(alloc, count, 2)?)?;
    list.push(CType::new(alloc, Base::Integer(Integer::Int)))?;
    TypeRef::share(alloc, function(alloc, list)?)
}

// Whether such functions, and pointers to them, are the same where they should be.
fn on_nested(alloc: Global) -> Result<bool, AllocError> {
    let t = nested(alloc, 70000)?;
    let like = nested(alloc, 70000)?;
    let unlike = nested(alloc, 4464)?;
    let pointer = over(alloc, &t, Layer::Pointer)?;
    let are_same = [same(&t, &like), same(&t, &unlike), same(&t, &pointer)];
    Ok(are_same == [true, false, false] && same(&pointer.under(), &like))
}

#[test]
fn rules_on_types(rt: HostRuntime) {
    let are_so = [
        on_small_types(rt.alloc()),
        on_shared_layers(rt.alloc()),
        is_taken(rt.alloc()),
        on_nested(rt.alloc()),
    ];
    assert!(rt; are_so == [Ok(true), Ok(true), Ok(true), Ok(true)]);
    let integers = [
        promoted(Integer::UnsignedShort),
        common(Integer::Char, Integer::Unsigned),
    ];
    assert!(rt; integers == [Integer::Int, Integer::Unsigned]);
}
