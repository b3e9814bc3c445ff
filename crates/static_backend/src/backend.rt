//! The image of a program.

ghost use Rattle.std.specs.Prelude.{◌≡◌, ◌≤◌, List, IfOk, length, map};
ghost use Rattle.static_image.specs.Served.{AreStatic};
ghost use Rattle.static_backend.specs.Scanned.{HasMain, IsScanned};
ghost use Rattle.tick_lower.specs.Sized.{AreSized};
ghost use Rattle.static_backend.specs.Ticks.{ticks_view};
ghost use Rattle.typed_tree.specs.declared.expression.CaptureKind.{CaptureKind};
ghost use Rattle.typed_tree.specs.View.{function_view};
ghost use Rattle.word32.specs.declared.map.TheConstants.{GLOBAL_BYTES};

use crate::functions::functions_code;
use crate::text::front_words;
use image_file::Image;
use static_image::images_keep_rules;
use std::alloc::{AllocError, Global};
use typed_tree::{Function, Tick};
use word32::map::START;

/// The image of a program of these functions and ticks, whose function main has a number, counted from 1, and no
/// parameters, and whose globals and strings are these bytes: the start, the run-time routines, the functions in their
/// order, each under the places that linear scan gives to its registers, and with a row, and the functions that
/// generate the code of the ticks.
///
/// # Errors
/// Where memory is wanting.
pub fn image(
    alloc: Global,
    functions: &[Function],
    ticks: &[Tick],
    bytes: &[u8],
    main: usize,
) -> Result<Image, AllocError>
    requires functions { (captures : List (List CaptureKind)) ×
        AreStatic (map function_view functions.now) captures (ticks_view ticks.now) }
    requires sized { AreSized ticks.now }
    requires bytes { length bytes.now ≤ GLOBAL_BYTES }
    requires main { HasMain main (map function_view functions.now) }
    ensures { IfOk result (λ made. IsScanned bytes.now (map function_view functions.now)
        (ticks_view ticks.now) main made) }
{
    let code = functions_code(alloc, functions, ticks)?;
    let row = code.rows[main - 1];
    let mut text = front_words(alloc, row.address, functions.len() as u32)?;
    text.extend_from_slice(&code.words)?;
    let mut data = Vec::new(alloc);
    data.extend_from_slice(bytes)?;
    images_keep_rules();
    Ok(Image::new(START, text, data, code.rows))
}
