//! The words of a program's functions, one behind another, in two passes: the first finds where each stands, and makes
//! the words of each that calls none behind it; the second makes those of the others.

ghost use Rattle.std.specs.Prelude.{◌≡◌, ℕ, true, false, ◌+◌, ◌*◌, ◌<◌, ◌≤◌, [], ◌∷◌, ◌++◌, IfOk, OnOk, List};
ghost use Rattle.std.specs.Prelude.{length, map, slice_index, slice_index_or};
ghost use Rattle.limits.specs.declared.ops.TheConstants.{OP_LIMIT as LABELS};
ghost use Rattle.staged_meaning.specs.Scope.{IsReadyIn};
ghost use Rattle.static_backend.specs.Scanned.{AreCode, AreWritten};
ghost use Rattle.static_backend.specs.Drafted.{Rewritten};
ghost use Rattle.static_backend.specs.Plans.{IsDraftOf, BeginAt, all_at, own_words};
ghost use Rattle.static_image.specs.Layout.{Placed, functions_of, generator_starts};
ghost use Rattle.static_image.specs.Served.{AreStatic};
ghost use Rattle.tick_lower.specs.Sized.{AreSized};
ghost use Rattle.static_backend.specs.Ticks.{ticks_view};
ghost use Rattle.typed_tree.specs.declared.expression.CaptureKind.{CaptureKind};
ghost use Rattle.typed_tree.specs.Nodes as node;
ghost use Rattle.typed_tree.specs.View.{function_view};
ghost use Rattle.word32.specs.declared.map.TheConstants.{ARENA};

use crate::code::{build_ops, charge};
use crate::generated::generated;
use crate::plan::{Draft, Plan, planned};
use crate::tables::Tables;
use crate::text::{write_words, zeros};
use icode_ops::CallAddress;
use image_file::FunctionEntry;
use limits::ops::OP_LIMIT;
use std::alloc::{AllocError, Global};
use tick_lower::Addresses;
use typed_tree::{Function, Tick};
use word32::map::FUNCTIONS;

/// The words of functions one behind another, and their rows.
#[derive(Drop)]
pub struct Code {
    /// The words, from the first address of functions on.
    pub words: Vec<u32>,
    /// The rows, in the same order.
    pub rows: Vec<FunctionEntry>,
}

// The words of the function of this index, counted from 0, where they weren't made in the first pass.
fn write_rest(
    alloc: Global,
    tables: &mut Tables,
    labels: &mut [u32],
    plan: &Plan,
    generators: &[CallAddress],
    ticks: &[Tick],
    index: usize,
    function: &Function,
    words: &mut Vec<u32>,
) -> Result<(), AllocError>
    requires labels { length labels.old ≡ LABELS }
    requires ready { (functions : List node.Function) × (captures : List (List CaptureKind)) ×
        IsReadyIn functions captures (function_view function.now) }
    requires started { index < length plan.now.starts.items }
    requires placed { index < length plan.now.places.items }
    requires counted { index < length plan.now.made.items }
    requires low { FUNCTIONS + 4 * length words.old.items ≤ ARENA }
    requires sized { AreSized ticks.now }
    requires room { (first : ℕ) × BeginAt (all_at plan.now generators.now (ticks_view ticks.now)) plan.now index
        (function_view function.now) words.old.items first }
    ensures { OnOk result ((first : ℕ) → BeginAt (all_at plan.now generators.now (ticks_view ticks.now)) plan.now index
        (function_view function.now) words.old.items first →
        Rewritten (slice_index_or plan.now.made.items index true) first
        (own_words (all_at plan.now generators.now (ticks_view ticks.now)) plan.now index (function_view function.now))
        words.old.items words.new.items) }
{
    if plan.made[index] {
        return Ok(());
    }
    let at = plan.starts[index].get();
    let places = &plan.places[index];
    let addresses = Addresses {
        starts: &plan.starts,
        generators,
        ticks,
    };
    build_ops(alloc, &mut tables.builder, &addresses, function)?;
    let frame = charge(function);
    let first = ((at - FUNCTIONS) / 4) as usize;
    let ops = tables.builder.ops();
    let out = words.slice_mut(first..);
    write_words(labels, ops, places, at, frame, function.object, out);
    Ok(())
}

// The second pass: the words that call functions behind or make specifications, and the rows.
fn finish_all(
    alloc: Global,
    tables: &mut Tables,
    labels: &mut [u32],
    functions: &[Function],
    generators: &[CallAddress],
    ticks: &[Tick],
    plan: &Plan,
    words: Vec<u32>,
) -> Result<Code, AllocError>
    requires labels { length labels.old ≡ LABELS }
    requires functions { (captures : List (List CaptureKind)) ×
        AreStatic (map function_view functions.now) captures (ticks_view ticks.now) }
    requires sized { AreSized ticks.now }
    requires generators { generators.now ≡
        generator_starts plan.now.starts.items plan.now.end (ticks_view ticks.now) }
    requires planned { (placed : List Placed) × (functions_of placed ≡ map function_view functions.now) ×
        IsDraftOf (ticks_view ticks.now) placed (record { plan = plan.now; words = words }) }
    ensures { IfOk result (λ code. AreWritten (map function_view functions.now) (ticks_view ticks.now)
        plan.now.starts.items code.words.items code.rows.items) }
{
    let mut code = Code {
        words,
        rows: Vec::new(alloc),
    };
    for (i, function) in functions.iter().enumerate() {
        write_rest(
            alloc,
            tables,
            labels,
            plan,
            generators,
            ticks,
            i,
            function,
            &mut code.words,
        )?;
        code.rows.push(FunctionEntry {
            address: plan.starts[i].get(),
            count: function.params,
        })?;
    }
    Ok(code)
}

/// The words of a program's functions, one behind another, those of the functions that generate the code of its ticks
/// behind them, and the rows of the program's functions.
///
/// # Errors
/// Where memory is wanting.
pub fn functions_code(
    alloc: Global,
    functions: &[Function],
    ticks: &[Tick],
) -> Result<Code, AllocError>
    requires functions { (captures : List (List CaptureKind)) ×
        AreStatic (map function_view functions.now) captures (ticks_view ticks.now) }
    requires sized { AreSized ticks.now }
    ensures { IfOk result (λ code. AreCode (map function_view functions.now) (ticks_view ticks.now)
        code.words.items code.rows.items) }
{
    let mut tables = Tables::new(alloc)?;
    let mut labels = zeros(alloc, OP_LIMIT)?;
    let Draft { plan, words } = planned(alloc, &mut tables, &mut labels, functions, ticks)?;
    let generated = generated(alloc, &plan.starts, plan.end, ticks)?;
    let mut code = finish_all(
        alloc,
        &mut tables,
        &mut labels,
        functions,
        &generated.starts,
        ticks,
        &plan,
        words,
    )?;
    code.words.extend_from_slice(&generated.words)?;
    Ok(code)
}
