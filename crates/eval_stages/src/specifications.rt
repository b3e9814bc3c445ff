//! Makes specifications, and compiles them.

ghost use Rattle.std.specs.Prelude.{◌≡◌, ◌+◌, ◌<◌, ◌≤◌, [], ◌∷◌, ◌++◌, length, map, min, slice_get, is_none, IfOk};
ghost use Rattle.std.specs.Prelude.{IsTrue, MatchOption, Some, None, OnOk};
ghost use Rattle.staged_meaning.specs.Expressions.{key_of};
ghost use Rattle.staged_meaning.specs.Specifications.{captures_trap, compile_number, fits, key_in, kind_of, kinds_of};
ghost use Rattle.staged_meaning.specs.Specifications.{specify, specify_parameter, specify_tick};
ghost use Rattle.meaning_state.specs.Rows.{arena_words, locals_of, numbered, parameters_of};
ghost use Rattle.staged_meaning.specs.Program.{is_expression, syntax_size, tick_size};
ghost use Rattle.staged_meaning.specs.Source.{tick_view};
ghost use Rattle.meaning_state.specs.Shared as shared;
ghost use Rattle.typed_tree.specs.View.{expr_view};
ghost use Rattle.eval_state.specs.KeptRows.{all_kept, kept_of, parameters_kept, size_kept};
ghost use Rattle.eval_state.specs.Kept.{kept_view, rows_view, syntax_at};
ghost use Rattle.eval_state.specs.Specified.{AreEarlier, IsCode, IsEarlier, IsMade, IsNext};
ghost use Rattle.typed_tree.specs.declared.expression.CaptureKind.TheVariants.{Variable as variable};
ghost use Rattle.eval_state.specs.Rest.{valued};
ghost use Rattle.std.specs.Option.{option_map};
ghost use Rattle.eval_state.specs.Numbered.{code_kind, kept_at, kind_in, number_kept, of_kind};
ghost use Rattle.eval_state.specs.Grown.{IsNew, is_code, specification_in, with_made, with_row};
ghost use Rattle.eval_stages.specs.Walked.{behind, noted_of};
ghost use Rattle.eval_state.specs.Less.{heft, held};
ghost use Rattle.eval_state.specs.Run.{here, leads, outcome, program_of, run_of, world};
ghost use Rattle.eval_state.specs.Views.{args_view, now_view};

use eval_state::{Compiled, Event, Kept, Machine, Now, Row, RowKind};
use host_edge::{Ending, TrapKind};
use limits::program::{MOST_ARGUMENTS, NODE_TOP, SIZE_LIMIT, WORDS_OF_A_BODY, WORDS_OF_A_NODE};
use limits::run::{CAPTURE_BYTES, CLOSURE_HEAD_BYTES};
use sqlite_items::{Items, at as find};
use std::alloc::{AllocError, Global};
use std::collections::BTreeSet;
use typed_tree::{Answer, CaptureKind, Expr, TickBody, has_value};
use word32::map::{ARENA_WORDS, CLOSURE_BYTES, FUNCTION_ROWS};

// The kind of a capture, which is a node of its own.
#[tactic(auto, using(typed_tree::proofs::Views::expressions))]
fn kind_of(e: &Expr) -> CaptureKind
    ensures { result ≡ kind_of (expr_view e.now) }
{
    match e {
        Expr::Capture(kind, _) => *kind,
        Expr::Const(_) | Expr::Captured(_, _) | Expr::Var(_) | Expr::SetVar(_, _) =>
            CaptureKind::Dollar,
        Expr::PostVar(_, _, _) | Expr::VGet(_) | Expr::VSet(_, _) | Expr::VPost(_, _) =>
            CaptureKind::Dollar,
        Expr::Frame(_) | Expr::Load(_, _) | Expr::Store(_, _, _) => CaptureKind::Dollar,
        Expr::Modify(_, _, _, _) | Expr::Post(_, _, _) | Expr::Bin(_, _, _) => CaptureKind::Dollar,
        Expr::Un(_, _) | Expr::And(_, _) | Expr::Or(_, _) | Expr::Cond(_, _, _) =>
            CaptureKind::Dollar,
        Expr::Comma(_, _) | Expr::Void(_) | Expr::Call(_, _, _) => CaptureKind::Dollar,
        Expr::CallNumber(_, _, _) | Expr::Getchar | Expr::Lib(_, _) => CaptureKind::Dollar,
        Expr::Tick(_, _) | Expr::Splice(_, _) | Expr::Compile(_) => CaptureKind::Dollar,
        Expr::Local | Expr::ParamOf(_) => CaptureKind::Dollar,
    }
}

// The words of the arena that a function of this size is charged.
fn arena_words(size: u32) -> u32
    requires { size ≤ SIZE_LIMIT }
    ensures { result ≡ arena_words size }
{
    WORDS_OF_A_NODE as u32 * size + WORDS_OF_A_BODY as u32
}

// Whether a word of a kind may name what it finds.
fn may_name(kind: CaptureKind, found: Option<RowKind>) -> bool
    ensures { result ≡ fits kind (option_map of_kind found) }
{
    match kind {
        CaptureKind::Dollar | CaptureKind::Address => true,
        CaptureKind::Splice(answer) => match found {
            Some(RowKind::Expression) => matches!(answer, Answer::Value),
            Some(RowKind::Statement) => matches!(answer, Answer::Void),
            Some(RowKind::Local | RowKind::Param(_)) | None => false,
        },
        CaptureKind::Variable => match found {
            Some(RowKind::Local | RowKind::Param(_)) => true,
            Some(RowKind::Expression | RowKind::Statement) | None => false,
        },
    }
}

// What the specification of a tick is.
#[tactic(auto, using(eval_state::proofs::Sizes::value_is))]
fn row_kind(body: &TickBody) -> RowKind
    ensures { result ≡ code_kind (is_expression (Some (tick_view body.now))) }
{
    match body {
        TickBody::Expression(e) => {
            if has_value(e.get()) {
                return RowKind::Expression;
            }
            RowKind::Statement
        }
        TickBody::Statement(_) => RowKind::Statement,
    }
}

// The number of the specification that a capture names.
pub(crate) fn spliced<'a>(m: &Machine<'a>, capture: u32) -> Option<u32>
    ensures { result ≡ number_kept (kept_at m.now capture) }
{
    match m.kept(capture) {
        Some(Kept::Number(number)) => Some(number),
        _ => None,
    }
}

// A specification more, whose closure has so many bytes.
fn add_row<'a>(m: &mut Machine<'a>, row: Row, bytes: u32) -> Result<(), AllocError>
    requires { IsNew m.old row × (CLOSURE_HEAD_BYTES ≤ bytes) × (m.old.closures + bytes ≤ CLOSURE_BYTES) }
    ensures { OnOk result (m.new ≡ with_row row bytes m.old) }
{
    m.parts.rows.push(row)?;
    m.parts.closures += bytes;
    Ok(())
}

// A specification more, whose closure has so many captures; its number.
fn specify<'a>(m: &mut Machine<'a>, row: Row, captures: usize) -> Result<Now<'a>, AllocError>
    requires { IsNew m.old row }
    ensures same { IfOk result (λ n. outcome (now_view n) (run_of m.new)
        ≡ leads (run_of m.old) (valued (specify (specification_in m.old row) captures
        (world (run_of m.old))))) }
    ensures units { IfOk result (λ n. (run_of m.new).state.units ≤ (run_of m.old).state.units) }
    ensures less { IfOk result (λ n. (run_of m.new).state.units ≡ (run_of m.old).state.units
        → heft (now_view n) (run_of m.new) ≤ held (run_of m.old)) }
{
    let most = (CLOSURE_BYTES / CAPTURE_BYTES) as usize;
    if most < captures {
        return Ok(Now::Ended(Ending::Trap(TrapKind::SpecLimit)));
    }
    let bytes = CLOSURE_HEAD_BYTES + CAPTURE_BYTES * captures as u32;
    if CLOSURE_BYTES.saturating_sub(m.parts.closures) < bytes {
        return Ok(Now::Ended(Ending::Trap(TrapKind::SpecLimit)));
    }
    add_row(m, row, bytes)?;
    let number = m.parts.rows.len() as u32;
    Ok(m.spend(Now::Value(number)))
}

/// Makes a variable of generated code.
pub fn specify_local<'a>(m: &mut Machine<'a>) -> Result<Now<'a>, AllocError>
    ensures same { IfOk result (λ n. outcome (now_view n) (run_of m.new)
        ≡ leads (run_of m.old) (valued (specify shared.Local 0 (world (run_of m.old))))) }
    ensures units { IfOk result (λ n. (run_of m.new).state.units ≤ (run_of m.old).state.units) }
    ensures less { IfOk result (λ n. (run_of m.new).state.units ≡ (run_of m.old).state.units
        → heft (now_view n) (run_of m.new) ≤ held (run_of m.old)) }
{
    let kept = Items::new(m.parts.alloc);
    specify(
        m,
        Row {
            kind: RowKind::Local,
            tick: 0,
            kept,
            size: 0,
            parameters: 0,
        },
        0,
    )
}

/// Makes a parameter of generated code, of this index.
pub fn specify_parameter<'a>(m: &mut Machine<'a>, index: u32) -> Result<Now<'a>, AllocError>
    ensures same { IfOk result (λ n. outcome (now_view n) (run_of m.new)
        ≡ leads (run_of m.old) (valued (specify_parameter index (world (run_of m.old))))) }
    ensures units { IfOk result (λ n. (run_of m.new).state.units ≤ (run_of m.old).state.units) }
    ensures less { IfOk result (λ n. (run_of m.new).state.units ≡ (run_of m.old).state.units
        → heft (now_view n) (run_of m.new) ≤ held (run_of m.old)) }
{
    if MOST_ARGUMENTS <= index {
        return Ok(Now::Ended(Ending::Trap(TrapKind::BadParam)));
    }
    let kept = Items::new(m.parts.alloc);
    specify(
        m,
        Row {
            kind: RowKind::Param(index),
            tick: 0,
            kept,
            size: 0,
            parameters: index + 1,
        },
        0,
    )
}

// What the specification of the tick of a number is.
#[tactic(auto, using(eval_state::proofs::Sizes::tick_named))]
fn tick_kind<'a>(m: &Machine<'a>, tick: u32) -> RowKind
    ensures { result ≡ code_kind (is_expression (slice_get (program_of m.now).ticks tick)) }
{
    match find(m.parts.typed.ticks(), tick as usize) {
        None => RowKind::Statement,
        Some(tick) => row_kind(&tick.body),
    }
}

// The nodes of the tick of a number.
fn tick_size<'a>(m: &Machine<'a>, tick: u32) -> u32
    ensures size { result ≡ tick_size (slice_get (program_of m.now).ticks tick) }
    ensures small { result ≤ SIZE_LIMIT }
{
    m.parts.typed.keeps_law();
    match find(m.parts.typed.ticks(), tick as usize) {
        None => 0,
        Some(tick) => tick.size,
    }
}

// The nodes of the code of a specification.
pub(crate) fn size_of_row<'a>(m: &Machine<'a>, number: u32) -> u32
    ensures size { IsCode (numbered number (rows_view m.now.rows))
        → result ≡ syntax_size (program_of m.now) (syntax_at (rows_view m.now.rows) number) }
    ensures small { result ≤ SIZE_LIMIT }
{
    m.keeps_law();
    match m.row(number) {
        None => 0,
        Some(row) => row.size,
    }
}

// The parameters of the code of a specification.
pub(crate) fn parameters_of_row<'a>(m: &Machine<'a>, number: u32) -> u32
    ensures { IsCode (numbered number (rows_view m.now.rows))
        → result ≡ parameters_of (syntax_at (rows_view m.now.rows) number) }
{
    m.keeps_law();
    match m.row(number) {
        None => 0,
        Some(row) => row.parameters,
    }
}

// The nodes that are spliced in by what is kept of a capture.
fn size_kept<'a>(m: &Machine<'a>, kept: Kept) -> u32
    requires { IsEarlier (rows_view m.now.rows) (length (rows_view m.now.rows)) kept }
    ensures size { result ≡ size_kept (program_of m.now) (rows_view m.now.rows) (kept_view kept ∷ []) }
    ensures small { result ≤ SIZE_LIMIT }
{
    match kept {
        Kept::Number(number) => size_of_row(m, number),
        Kept::Word(_) | Kept::Key(_) => 0,
    }
}

// The parameters of what it names.
fn parameters_kept<'a>(m: &Machine<'a>, kept: Kept) -> u32
    requires { IsEarlier (rows_view m.now.rows) (length (rows_view m.now.rows)) kept }
    ensures { result ≡ parameters_kept (rows_view m.now.rows) (kept_view kept ∷ []) }
{
    match kept {
        Kept::Number(number) => parameters_of_row(m, number),
        Kept::Key(key) if key < MOST_ARGUMENTS => key + 1,
        Kept::Key(_) | Kept::Word(_) => 0,
    }
}

// The nodes of a tick with these captures; a size over the limit may be any other over it.
fn size_with<'a>(m: &Machine<'a>, tick: u32, kept: &[Kept]) -> u32
    requires { AreEarlier (rows_view m.now.rows) (length (rows_view m.now.rows)) kept.now }
    ensures { result ≡ min (tick_size (slice_get (program_of m.now).ticks tick)
        + size_kept (program_of m.now) (rows_view m.now.rows) (map kept_view kept.now)) NODE_TOP }
{
    let mut size = tick_size(m, tick);
    for k in kept {
        size = (size + size_kept(m, *k)).min(NODE_TOP);
    }
    size
}

// The parameters of what these captures name.
fn parameters_with<'a>(m: &Machine<'a>, kept: &[Kept]) -> u32
    requires { AreEarlier (rows_view m.now.rows) (length (rows_view m.now.rows)) kept.now }
    ensures { result ≡ parameters_kept (rows_view m.now.rows) (map kept_view kept.now) }
{
    let mut parameters = 0;
    for k in kept {
        parameters = parameters.max(parameters_kept(m, *k));
    }
    parameters
}

// How many different local variables the code of a specification names. What is kept of its captures, and of those
// of what is spliced in, is walked from the last to the first. The code counts at least a node for each of its
// captures, so the walk is no longer than its size.
fn locals_of<'a>(m: &Machine<'a>, number: u32) -> Result<u64, AllocError>
    requires { IsCode (numbered number (rows_view m.now.rows)) }
    ensures { IfOk result (λ n. n ≡ locals_of (syntax_at (rows_view m.now.rows) number)) }
{
    let mut pending = Items::new(m.parts.alloc);
    pending.push(Kept::Number(number))?;
    let mut seen = BTreeSet::new(m.parts.alloc);
    while let Some(kept) = pending.pop() {
        walk(m, kept, &mut pending, &mut seen)?;
    }
    Ok(seen.len() as u64)
}

// What is kept of a capture is walked: the key of a local variable is noted, and what is kept of the captures of a
// specification is pending too.
fn walk<'a>(
    m: &Machine<'a>,
    kept: Kept,
    pending: &mut Items<Kept>,
    seen: &mut BTreeSet<u32, Global>,
) -> Result<(), AllocError>
    ensures rest { OnOk result (pending.new ≡ pending.old ++ behind kept m.now.rows) }
    ensures keys { OnOk result (seen.new.keys ≡ noted_of kept seen.old.keys) }
{
    match kept {
        Kept::Word(_) => Ok(()),
        Kept::Key(key) => {
            if key < MOST_ARGUMENTS {
                return Ok(());
            }
            match seen.insert(key) {
                Ok(_) => Ok(()),
                Err(_) => Err(AllocError),
            }
        }
        Kept::Number(number) => match m.row(number) {
            None => Ok(()),
            Some(row) => pending.append(Items::from_slice(m.parts.alloc, row.kept.as_slice())?),
        },
    }
}

// What the specification of a number is.
fn kind_at<'a>(m: &Machine<'a>, number: u32) -> Option<RowKind>
    ensures { result ≡ kind_in (numbered number m.now.rows) }
{
    match m.row(number) {
        None => None,
        Some(row) => Some(row.kind),
    }
}

// Whether a captured word is of its kind.
#[tactic(auto, using(eval_state::proofs::Named::fits_named))]
fn fits<'a>(m: &Machine<'a>, kind: CaptureKind, word: u32) -> bool
    ensures { result ≡ fits kind (numbered word (rows_view m.now.rows)) }
{
    m.keeps_law();
    may_name(kind, kind_at(m, word))
}

// Whether each captured word is of its kind.
#[tactic(auto, using(eval_state::proofs::Named::no_trap_left))]
fn all_fit<'a>(m: &Machine<'a>, list: &[Expr], words: &[u32]) -> bool
    ensures { result ≡ is_none (captures_trap (rows_view m.now.rows) (kinds_of (args_view list.now)) words.now) }
{
    for i in 0..list.len().min(words.len()) {
        if !fits(m, kind_of(&list[i]), words[i]) {
            return false;
        }
    }
    true
}

// What is kept of a captured word, which is of its kind.
#[tactic(auto, using(eval_state::proofs::Named::earlier_splice))]
fn kept_of<'a>(m: &Machine<'a>, kind: CaptureKind, word: u32) -> Kept
    requires { IsTrue (fits kind (numbered word (rows_view m.now.rows))) }
    ensures kept { kept_view result ≡ kept_of kind word (numbered word (rows_view m.now.rows)) }
    ensures earlier { IsEarlier (rows_view m.now.rows) (length (rows_view m.now.rows)) result }
{
    match kind {
        CaptureKind::Dollar | CaptureKind::Address => Kept::Word(word),
        CaptureKind::Splice(_) => Kept::Number(word),
        CaptureKind::Variable => Kept::Key(key_of(m, word)),
    }
}

// The key of the variable of generated code that a number names.
#[tactic(auto, using(eval_state::proofs::Named::key_named, eval_state::proofs::Named::few_rows))]
fn key_of<'a>(m: &Machine<'a>, number: u32) -> u32
    requires { IsTrue (fits variable (numbered number (rows_view m.now.rows))) }
    ensures { result ≡ key_in number (numbered number (rows_view m.now.rows)) }
{
    m.keeps_law();
    match kind_at(m, number) {
        Some(RowKind::Param(index)) => index,
        Some(RowKind::Local | RowKind::Expression | RowKind::Statement) | None => MOST_ARGUMENTS - 1
            + number,
    }
}

// What is kept of the words of captures.
fn keep<'a>(m: &Machine<'a>, list: &[Expr], words: &[u32]) -> Result<Items<Kept>, AllocError>
    requires { captures_trap (rows_view m.now.rows) (kinds_of (args_view list.now)) words.now ≡ None }
    ensures kept { IfOk result (λ kept. map kept_view kept
        ≡ all_kept (rows_view m.now.rows) (kinds_of (args_view list.now)) words.now) }
    ensures earlier { IfOk result
        (λ kept. AreEarlier (rows_view m.now.rows) (length (rows_view m.now.rows)) kept) }
{
    let mut kept = Items::new(m.parts.alloc);
    for i in 0..list.len().min(words.len()) {
        kept.push(kept_of(m, kind_of(&list[i]), words[i]))?;
    }
    Ok(kept)
}

/// Makes a specification of a tick, whose captures have these words.
pub fn specify_tick<'a>(
    m: &mut Machine<'a>,
    tick: u32,
    list: &'a [Expr],
    words: Items<u32>,
) -> Result<Now<'a>, AllocError>
    ensures same { IfOk result (λ n. outcome (now_view n) (run_of m.new)
        ≡ leads (run_of m.old) (valued (specify_tick (here (run_of m.old)).program tick
        (kinds_of (args_view list.entry.now)) words (world (run_of m.old))))) }
    ensures units { IfOk result (λ n. (run_of m.new).state.units ≤ (run_of m.old).state.units) }
    ensures less { IfOk result (λ n. (run_of m.new).state.units ≡ (run_of m.old).state.units
        → heft (now_view n) (run_of m.new) ≤ held (run_of m.old)) }
{
    if !all_fit(m, list, words.as_slice()) {
        return Ok(Now::Ended(Ending::Trap(TrapKind::BadSpec)));
    }
    let kept = keep(m, list, words.as_slice())?;
    let size = size_with(m, tick, kept.as_slice());
    if SIZE_LIMIT < size {
        return Ok(Now::Ended(Ending::Trap(TrapKind::SizeLimit)));
    }
    let parameters = parameters_with(m, kept.as_slice());
    let kind = tick_kind(m, tick);
    specify(
        m,
        Row {
            kind,
            tick,
            kept,
            size,
            parameters,
        },
        words.len(),
    )
}

/// Compiles the specification of a number: the units of its size are spent behind the checks and before the
/// function is there, and then the node's own.
pub fn compile<'a>(m: &mut Machine<'a>, number: u32) -> Result<Now<'a>, AllocError>
    ensures same { IfOk result (λ n. outcome (now_view n) (run_of m.new)
        ≡ leads (run_of m.old) (valued (compile_number (here (run_of m.old)).program number
        (world (run_of m.old))))) }
    ensures units { IfOk result (λ n. (run_of m.new).state.units ≤ (run_of m.old).state.units) }
    ensures less { IfOk result (λ n. (run_of m.new).state.units ≡ (run_of m.old).state.units
        → heft (now_view n) (run_of m.new) ≤ held (run_of m.old)) }
{
    if !is_code(m, number) {
        return Ok(Now::Ended(Ending::Trap(TrapKind::BadSpec)));
    }
    let size = size_of_row(m, number);
    let function = match next_function(m) {
        None => return Ok(Now::Ended(Ending::Trap(TrapKind::TableLimit))),
        Some(function) => function,
    };
    let words = arena_words(size);
    let first = m.parts.arena;
    if ARENA_WORDS.saturating_sub(first) < words {
        return Ok(Now::Ended(Ending::Trap(TrapKind::ArenaLimit)));
    }
    if !m.spend_many(u64::from(size)) {
        return Ok(Now::Stopped);
    }
    let locals = locals_of(m, number)?;
    add_compiled(
        m,
        function,
        Compiled {
            row: number,
            locals,
            first,
            words,
        },
    )?;
    Ok(m.spend(Now::Value(function)))
}

// Whether a number is one of a specification of a tick.
#[tactic(auto, using(crate::proofs::Compiles::value_is_code, crate::proofs::Compiles::void_is_code))]
fn is_code<'a>(m: &Machine<'a>, number: u32) -> bool
    ensures { result ≡ is_code (numbered number (rows_view m.now.rows)) }
{
    if fits(m, CaptureKind::Splice(Answer::Value), number) {
        return true;
    }
    fits(m, CaptureKind::Splice(Answer::Void), number)
}

// The number of the next function; none, where the table has no row for it.
fn next_function<'a>(m: &Machine<'a>) -> Option<u32>
    ensures { MatchOption result
        (FUNCTION_ROWS ≤ length m.now.typed.now.functions + length m.now.compiled + 1)
        (λ f. (f ≡ length m.now.typed.now.functions + length m.now.compiled + 1) × (f < FUNCTION_ROWS)) }
{
    let last = (FUNCTION_ROWS - 1) as usize;
    let before = m
        .parts
        .typed
        .functions()
        .len()
        .saturating_add(m.parts.compiled.len());
    if last <= before {
        return None;
    }
    Some(before as u32 + 1)
}

// A compiled function more, of this number, and the event of it.
fn add_compiled<'a>(m: &mut Machine<'a>, function: u32, made: Compiled) -> Result<(), AllocError>
    requires { IsMade (rows_view m.old.rows) made × IsNext made m.old.arena }
    ensures { OnOk result (m.new ≡ with_made function made m.old) }
{
    m.parts.events.push(Event::Made(function, made.row))?;
    m.parts.compiled.push(made)?;
    m.parts.arena += made.words;
    Ok(())
}
