//! The first pass over a program's functions: the places of their registers, where they stand, and the words of each
//! that calls none but itself and those in front of it. The words of another aren't made yet, but counted: an address
//! that isn't known yet changes neither places nor lengths.

ghost use Rattle.std.specs.Prelude.{◌≡◌, ℕ, false, ◌+◌, ◌*◌, ◌%◌, ◌≤◌, [], ◌∷◌, ◌++◌, IfOk, OnOk, List, length, map};
ghost use Rattle.icode_templates.specs.Expansion.{expanded};
ghost use Rattle.icode_ir.specs.Build.{empty};
ghost use Rattle.icode_ir.specs.Runs.{run_ops};
ghost use Rattle.icode_ir.specs.declared.builder.Phase.TheVariants.{Finished};
ghost use Rattle.icode_ops.specs.Finished.{IsFinished};
ghost use Rattle.limits.specs.declared.ops.TheConstants.{OP_LIMIT as LABELS};
ghost use Rattle.limits.specs.declared.program.TheConstants.{CHARGE_LIMIT};
ghost use Rattle.staged_meaning.specs.Scope.{IsReadyIn};
ghost use Rattle.static_backend.specs.Calls as calls;
ghost use Rattle.static_backend.specs.Scanned.{IsScan};
ghost use Rattle.static_backend.specs.Drafted.{IsPiece};
ghost use Rattle.static_backend.specs.Plans.{IsPlanOf, IsDraftOf};
ghost use Rattle.static_image.specs.Layout.{Placed, IsLegalChoice, functions_of, unknown};
ghost use Rattle.static_image.specs.Served.{IsStatic, AreStatic};
ghost use Rattle.tick_lower.specs.Sized.{AreSized};
ghost use Rattle.static_backend.specs.Ticks.{ticks_view};
ghost use Rattle.tick_lower.specs.Viewed.{addresses_view};
ghost use Rattle.tick_lower_spec.specs.Lower.{function_ops};
ghost use Rattle.typed_tree.specs.declared.expression.CaptureKind.{CaptureKind};
ghost use Rattle.typed_tree.specs.Nodes as node;
ghost use Rattle.typed_tree.specs.View.{function_view};
ghost use Rattle.word32.specs.declared.map.TheConstants.{ARENA, OBJECT_BYTES, STACK_BYTES};

use crate::code::{build_ops, calls_unknown, charge};
use crate::places::scanned_places;
use crate::tables::Tables;
use crate::text::add_words;
use icode_expand::expanded_length;
use icode_ops::{CallAddress, Op};
use std::alloc::{AllocError, Global};
use tick_lower::Addresses;
use typed_tree::{Function, Tick};
use word32::map::FUNCTIONS;

/// Where functions stand, the places of their registers, and which of them have their words.
pub struct Plan {
    /// The address of each, in their order.
    pub starts: Vec<CallAddress>,
    /// The places of each, in the same order.
    pub places: Vec<Vec<u8>>,
    /// Whether the words of each are made, in the same order.
    pub made: Vec<bool>,
    /// The address behind them.
    pub end: u32,
}

impl Drop for Plan {
    fn drop(self) {
        let Plan {
            starts: _,
            places: _,
            made: _,
            end: _,
        } = self;
    }
}

/// What the first pass makes.
#[derive(Drop)]
pub struct Draft {
    /// Where functions stand, and how.
    pub plan: Plan,
    /// The words of functions one behind another, with as much room for those that aren't made yet.
    pub words: Vec<u32>,
}

// The places of a function's registers, by linear scan of its ops where these addresses are known. The tables' builder
// then has these ops.
fn scanned(
    alloc: Global,
    tables: &mut Tables,
    addresses: &Addresses<'_>,
    function: &Function,
) -> Result<Vec<u8>, AllocError>
    requires { (functions : List node.Function) × (captures : List (List CaptureKind)) ×
        IsReadyIn functions captures (function_view function.now) }
    ensures built { OnOk result (tables.new.builder ≡ record {
      build = run_ops (function_ops (addresses_view addresses.now) (function_view function.now))
          (empty function.now.params);
      phase = Finished;
    }) }
    ensures scan { IfOk result (λ made.
        IsScan (record { function = function_view function.now; places = made.items })) }
    ensures legal { IfOk result (λ made.
        IsLegalChoice unknown (record { function = function_view function.now; places = made.items })) }
{
    build_ops(alloc, &mut tables.builder, addresses, function)?;
    let ops = tables.builder.ops();
    let registers = tables.builder.registers();
    let out = &mut tables.intervals;
    scanned_places(
        alloc,
        &mut tables.live,
        &mut tables.scanner,
        out,
        ops,
        registers,
    )
}

// Adds room for so many words.
fn add_room(words: &mut Vec<u32>, count: usize) -> Result<(), AllocError>
    requires { count ≤ CHARGE_LIMIT }
    ensures { OnOk result ((room : List ℕ) × (length room ≡ count) × (words.new.items ≡ words.old.items ++ room)) }
{
    let filled = words.len();
    words.resize(filled + count, 0)
}

// Adds the words of a function from an address on, or as much room, and says whether they are made: where its ops call
// none whose address isn't known yet.
fn draft_words(
    labels: &mut [u32],
    ops: &[Op],
    places: &[u8],
    at: u32,
    frame: u32,
    object: u32,
    words: &mut Vec<u32>,
) -> Result<bool, AllocError>
    requires labels { length labels.old ≡ LABELS }
    requires finished { (n : ℕ) × IsFinished ops.now n }
    requires low { at ≤ ARENA }
    requires frame { frame ≤ STACK_BYTES }
    requires object { object ≤ OBJECT_BYTES }
    requires few { length (expanded ops.now places.now at frame object false) ≤ CHARGE_LIMIT }
    ensures { IfOk result (λ made. IsPiece (calls.calls_unknown ops.now)
        (expanded ops.now places.now at frame object false) made words.old.items words.new.items) }
{
    if calls_unknown(ops) {
        let count = expanded_length(ops, places, frame, object, false);
        add_room(words, count)?;
        Ok(false)
    } else {
        add_words(labels, ops, places, at, frame, object, words)?;
        Ok(true)
    }
}

// One function more: where it stands, its places, and its words as far as they are known.
fn place(
    alloc: Global,
    tables: &mut Tables,
    labels: &mut [u32],
    function: &Function,
    ticks: &[Tick],
    draft: &mut Draft,
) -> Result<(), AllocError>
    requires labels { length labels.old ≡ LABELS }
    requires served { (functions : List node.Function) × (captures : List (List CaptureKind)) ×
        IsStatic functions captures (function_view function.now) }
    requires sized { AreSized ticks.now }
    requires aligned { draft.old.plan.end % 4 ≡ 0 }
    requires low { draft.old.plan.end ≤ ARENA }
    ensures { OnOk result ((before : List Placed) → IsDraftOf (ticks_view ticks.now) before draft.old →
        (places : List ℕ) × IsDraftOf (ticks_view ticks.now)
        (before ++ record { function = function_view function.now; places = places } ∷ []) draft.new) }
{
    let at = draft.plan.end;
    match CallAddress::new(at) {
        Some(start) => draft.plan.starts.push(start)?,
        None => unreachable!(),
    }
    let addresses = Addresses {
        starts: &draft.plan.starts,
        generators: &[],
        ticks,
    };
    let places = scanned(alloc, tables, &addresses, function)?;
    let frame = charge(function);
    let filled = draft.words.len();
    let ops = tables.builder.ops();
    let made = draft_words(
        labels,
        ops,
        &places,
        at,
        frame,
        function.object,
        &mut draft.words,
    )?;
    draft.plan.end = at + 4 * (draft.words.len() - filled) as u32;
    draft.plan.places.push(places)?;
    draft.plan.made.push(made)?;
    Ok(())
}

/// The places of all functions of a program, where they stand, and their words as far as they are known.
///
/// # Errors
/// Where memory is wanting.
pub fn planned(
    alloc: Global,
    tables: &mut Tables,
    labels: &mut [u32],
    functions: &[Function],
    ticks: &[Tick],
) -> Result<Draft, AllocError>
    requires labels { length labels.old ≡ LABELS }
    requires functions { (captures : List (List CaptureKind)) ×
        AreStatic (map function_view functions.now) captures (ticks_view ticks.now) }
    requires sized { AreSized ticks.now }
    ensures { IfOk result (λ draft.
        (placed : List Placed) × (functions_of placed ≡ map function_view functions.now)
        × IsDraftOf (ticks_view ticks.now) placed draft) }
{
    let plan = Plan {
        starts: Vec::new(alloc),
        places: Vec::new(alloc),
        made: Vec::new(alloc),
        end: FUNCTIONS,
    };
    let mut draft = Draft {
        plan,
        words: Vec::new(alloc),
    };
    for function in functions {
        place(alloc, tables, labels, function, ticks, &mut draft)?;
    }
    Ok(draft)
}
