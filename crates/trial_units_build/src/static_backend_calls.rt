//! The image of a program of two functions that each return a number, worked out by hand: a frame of 128 bytes and 48
//! for each of two nodes, and 28 words for each function. Its globals are three bytes.

ghost use Rattle.std.specs.Prelude.{◌≡◌, IfOk, length};
ghost use Rattle.std.specs.List.{All};

use crate::returns::listed;
use image_file::{FunctionEntry, Image};
use sqlite_items::Items;
use static_backend::image;
use std::alloc::{AllocError, Global};
use typed_tree::{Expr, Function, Stmt};

// Two such functions.
fn two(alloc: Global) -> Result<Items<Function>, AllocError>
    ensures returns { IfOk result (λ made. All
        (λ f. (f.body ≡ Stmt.ReturnValue (Expr.Const 3)) × (f.params ≡ 0) × (f.object ≡ 0)) made) }
    ensures two { IfOk result (λ made. length made ≡ 2) }
{
    let mut functions = listed(alloc)?;
    functions.append(listed(alloc)?)?;
    Ok(functions)
}

// The bytes of its globals and strings.
const BYTES: [u8; 3] = [7, 0, 255];

// Their image, with the second as main.
#[tactic(auto, using(crate::proofs::ReturnLists::are_static, crate::proofs::ReturnLists::has_second))]
fn image_of_two(alloc: Global) -> Result<Image, AllocError> {
    let functions = two(alloc)?;
    image(alloc, functions.as_slice(), &[], BYTES.as_slice(), 2)
}

// Whether the start counts two functions and calls the second.
fn calls_the_second(text: &[u32]) -> bool {
    text.len() == 1080 && text[10] == 0x3718_0003 && text[15] == 0x0c10_041c
}

// Whether each function takes its frame, by `lui $at,0` and `ori $at,$at,224`, and goes to its own epilogue.
fn begin_so(text: &[u32]) -> bool {
    text.len() == 1080
        && text[1024] == 0x3c01_0000
        && text[1025] == 0x3421_00e0
        && text[1040] == 0x0810_0415
        && text[1052] == 0x3c01_0000
        && text[1053] == 0x3421_00e0
        && text[1068] == 0x0810_0431
}

const ROWS: [FunctionEntry; 2] = [
    FunctionEntry {
        address: 0x0040_1000,
        count: 0,
    },
    FunctionEntry {
        address: 0x0040_1070,
        count: 0,
    },
];

// Whether the image is so.
fn is_so(alloc: Global) -> Result<bool, AllocError> {
    let made = image_of_two(alloc)?;
    let text = made.text();
    let parts_are = made.functions() == ROWS.as_slice() && made.bytes() == BYTES.as_slice();
    Ok(calls_the_second(text) && begin_so(text) && parts_are)
}

#[test]
fn two_functions_have_an_image(rt: HostRuntime) {
    assert!(rt; is_so(rt.alloc()) == Ok(true));
}
