//! Expressions without parts that change the state.

ghost use Rattle.std.specs.Prelude.{◌≡◌, IfOk};
ghost use Rattle.typed_tree.specs.Nodes as node;
ghost use Rattle.eval_state.specs.Run.{run_of};
ghost use Rattle.eval_state.specs.Views.{now_view};
ghost use Rattle.eval_simple.specs.Stepped.{IsBegun};

use crate::next::give;
use crate::operators::narrowed;
use eval_state::{Machine, Now};
use std::alloc::AllocError;
use word32::Width;

/// Adds a step to a register variable that holds a value of a width.
pub(crate) fn post_variable<'a>(
    m: &mut Machine<'a>,
    i: u32,
    width: Width,
    step: u32,
) -> Result<Now<'a>, AllocError>
    ensures { IfOk result (λ n. IsBegun (node.PostVar i width step) (now_view n) (run_of m.old) (run_of m.new)) }
{
    let old = m.variable(i);
    m.set_variable(i, narrowed(width, old.wrapping_add(step)))?;
    Ok(give(m, old))
}

/// Adds a step to a variable of generated code.
pub(crate) fn post_generated<'a>(
    m: &mut Machine<'a>,
    i: u32,
    step: u32,
) -> Result<Now<'a>, AllocError>
    ensures { IfOk result (λ n. IsBegun (node.VPost i step) (now_view n) (run_of m.old) (run_of m.new)) }
{
    let old = m.generated(i);
    m.set_generated(i, old.wrapping_add(step))?;
    Ok(give(m, old))
}

/// The address of a frame object.
///
/// # Errors
/// Where no word holds it: no checked tree names such an object.
pub(crate) fn object<'a>(m: &mut Machine<'a>, offset: u32) -> Result<Now<'a>, AllocError>
    ensures { IfOk result (λ n. IsBegun (node.Frame offset) (now_view n) (run_of m.old) (run_of m.new)) }
{
    let at = m.frame_address(offset)?;
    Ok(give(m, at))
}

/// The next byte of the input.
pub(crate) fn getchar<'a>(m: &mut Machine<'a>) -> Result<Now<'a>, AllocError>
    ensures { IfOk result (λ n. IsBegun node.Getchar (now_view n) (run_of m.old) (run_of m.new)) }
{
    let word = m.get_byte()?;
    Ok(give(m, word))
}
