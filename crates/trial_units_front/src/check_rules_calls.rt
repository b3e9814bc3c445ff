//! The tables by hand.

use crate::nodes::word;
use c_type_refs::TypeRef;
use c_types::{Integer, Layer};
use check_names::{
    define, earlier_number, functions_again, no_functions, note_prototype, undefined,
};
use check_rules::{Frame, Functions, Home, Image, Labels, Ticks};
use check_types::integer;
use std::alloc::{AllocError, Global};
use typed_tree::{CaptureKind, Expr, TickBody};

fn begin(alloc: Global, frame: &mut Frame, int: &TypeRef) -> Result<(), AllocError> {
    frame.begin(alloc, integer(alloc, Integer::Int));
    frame.parameter(int)?;
    frame.variable(int)
}

// The numbers of the next variables in the first walk, and the bytes of objects in the second.
fn walk_twice(alloc: Global, frame: &mut Frame, int: &TypeRef) -> Result<[u32; 3], AllocError> {
    begin(alloc, frame, int)?;
    let numbers = [frame.number(), frame.inner_number()];
    frame.mark(1);
    frame.end(alloc)?;
    frame.again(alloc);
    begin(alloc, frame, int)?;
    Ok([numbers[0], numbers[1], frame.object])
}

// Whether variables that are marked are objects in the next walk.
fn marked_variables_are_objects(alloc: Global) -> bool {
    let int = integer(alloc, Integer::Int);
    let mut frame = Frame::new(alloc);
    let found = walk_twice(alloc, &mut frame, &int);
    let are_homes = frame.homes.as_slice() == [Home::Register, Home::Object(0)].as_slice();
    drop(frame);
    drop(int);
    found == Ok([2, 2, 4]) && are_homes
}

// The nodes of the block outside and of the one inside, and of both once the one inside has a variable and is left.
fn enter_and_leave(alloc: Global, frame: &mut Frame) -> [usize; 4] {
    let outer = frame.enter(alloc);
    let entered = [outer.len(), frame.nodes.len()];
    let added = frame.inner_variable();
    let inner = frame.leave(outer);
    let left = if added.is_ok() { inner.len() } else { 0 };
    [entered[0], entered[1], left, frame.nodes.len()]
}

// Those, behind a row of five bytes, and the bytes of objects.
fn nodes_of_blocks(alloc: Global, frame: &mut Frame) -> Result<([usize; 4], u32), AllocError> {
    let row = integer(alloc, Integer::Char).with(Layer::Array(5))?;
    frame.variable(&row)?;
    Ok((enter_and_leave(alloc, frame), frame.object))
}

fn blocks_have_their_own_nodes(alloc: Global) -> bool {
    let mut frame = Frame::new(alloc);
    let found = nodes_of_blocks(alloc, &mut frame);
    drop(frame);
    found == Ok(([1, 0, 1, 1], 8))
}

// The places of two strings and two globals, and that of a string in the next walk.
fn places(alloc: Global, image: &mut Image) -> Result<[u32; 5], AllocError> {
    let first = image.string(alloc, b"abcd")?;
    let second = image.string(alloc, b"")?;
    let globals = [image.global(5), image.global(4)];
    image.again(alloc);
    let third = image.string(alloc, b"")?;
    Ok([first, second, globals[0], globals[1], third])
}

fn strings_stand_at_multiples_of_four(alloc: Global) -> bool {
    let mut image = Image::new(alloc);
    let found = places(alloc, &mut image);
    drop(image);
    found == Ok([0x1000_0000, 0x1000_0008, 0, 8, 0x1000_000c])
}

// Which labels are taken: two cases, a default, that again, and a case again.
fn taken(labels: &mut Labels) -> [bool; 5] {
    [
        labels.case(1, 7).is_ok(),
        labels.case(1, 8).is_ok(),
        labels.default(1).is_ok(),
        labels.default(1).is_ok(),
        labels.case(1, 7).is_ok(),
    ]
}

fn labels_stand_once(alloc: Global) -> bool {
    let mut labels = Labels::new(alloc);
    let found = taken(&mut labels);
    drop(labels);
    found == [true, true, true, false, false]
}

// The line of the first prototype without a function, or 0.
fn undefined_line(functions: &Functions) -> u32 {
    match undefined(functions) {
        Some(prototype) => prototype.line,
        None => 0,
    }
}

// A function with a prototype is defined twice: whether each is taken, the line of what is undefined before and between
// that, and the number that an earlier walk has found.
fn define_twice(alloc: Global, functions: &mut Functions) -> ([bool; 3], [u32; 3]) {
    let noted = note_prototype(alloc, functions, 3, b"f");
    let before = undefined_line(functions);
    let defined = define(alloc, functions, 4, b"f");
    let between = undefined_line(functions);
    let again = define(alloc, functions, 5, b"f");
    (
        [noted.is_ok(), defined.is_ok(), again.is_ok()],
        [before, between, earlier_number(functions, b"f")],
    )
}

// The number of the function in the next walk.
fn number_again(alloc: Global, functions: Functions) -> Result<u32, AllocError> {
    let functions = functions_again(alloc, functions)?;
    let number = earlier_number(&functions, b"f");
    drop(functions);
    Ok(number)
}

fn functions_stand_once(alloc: Global) -> Result<bool, AllocError> {
    let mut functions = no_functions(alloc)?;
    let (are_taken, found) = define_twice(alloc, &mut functions);
    let number = number_again(alloc, functions)?;
    Ok(are_taken == [true, true, false] && found == [3, 0, 0] && number == 1)
}

fn capture_twice(alloc: Global, ticks: &mut Ticks) -> Result<[u32; 2], AllocError> {
    ticks.enter(alloc);
    let first = ticks.capture(alloc, CaptureKind::Dollar, word(alloc, 1)?)?;
    let second = ticks.capture(alloc, CaptureKind::Dollar, word(alloc, 1)?)?;
    Ok([first, second])
}

// Whether the tick that is left is the first.
fn leaves_the_first(alloc: Global, ticks: &mut Ticks) -> Result<bool, AllocError> {
    let node = ticks.leave(alloc, TickBody::Expression(word(alloc, 1)?))?;
    Ok(matches!(node.get(), Expr::Tick(0, _)))
}

// Whether ticks have the number of those before, and captures too.
fn ticks_are_numbered(alloc: Global) -> bool {
    let mut ticks = Ticks::new(alloc);
    let numbers = capture_twice(alloc, &mut ticks);
    let is_first = leaves_the_first(alloc, &mut ticks);
    let are_gone = ticks.captures.is_empty();
    drop(ticks);
    numbers == Ok([0, 1]) && is_first == Ok(true) && are_gone
}

#[test]
fn tables_keep_what_they_are_told(rt: HostRuntime) {
    let are_so = [
        marked_variables_are_objects(rt.alloc()),
        blocks_have_their_own_nodes(rt.alloc()),
        strings_stand_at_multiples_of_four(rt.alloc()),
        labels_stand_once(rt.alloc()),
        ticks_are_numbered(rt.alloc()),
    ];
    assert!(rt; are_so == [true; 5]);
    assert!(rt; functions_stand_once(rt.alloc()) == Ok(true));
}
