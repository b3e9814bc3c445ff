//! Calls, and specifications that are spliced in.

ghost use Rattle.std.specs.Prelude.{◌≡◌, ◌≢◌, ℕ, ◌+◌, ◌^◌, ◌<◌, ◌≤◌, length, slice_get, is_none, Some, None};
ghost use Rattle.std.specs.Prelude.{IfOk, OnOk};
ghost use Rattle.std.specs.Option.{option_map};
ghost use Rattle.meaning_state.specs.Rows.{numbered};
ghost use Rattle.typed_tree.specs.View.{function_view};
ghost use Rattle.staged_meaning.specs.Size.{charge_of, size_of};
ghost use Rattle.staged_meaning.specs.Program.{Static, call_trap, callee_at, parameters};
ghost use Rattle.eval_state.specs.Kept.{rows_view, syntax_at};
ghost use Rattle.eval_state.specs.Specified.{IsCode};
ghost use Rattle.eval_state.specs.Sound.{IsKnown, calls};
ghost use Rattle.eval_state.specs.Late.{with_entry};
ghost use Rattle.eval_state.specs.declared.state.Entry.TheVariants as entry;
ghost use Rattle.eval_state.specs.Grown.{code_body, tick_of, with_called, with_event, with_spliced};
ghost use Rattle.typed_tree.specs.Nodes as node;
ghost use Rattle.staged_meaning.specs.Meaning.{eval};
ghost use Rattle.eval_state.specs.Pending as pending;
ghost use Rattle.eval_state.specs.Rest.{targeted, ticked, valued};
ghost use Rattle.eval_state.specs.Less.{heft, held};
ghost use Rattle.eval_state.specs.Burden.{capture_weight, weight_of_tick};
ghost use Rattle.eval_state.specs.Run.{here, leads, outcome, program_of, run_of, world};
ghost use Rattle.eval_state.specs.Views.{now_view};

use crate::specifications::{parameters_of_row, size_of_row, spliced};
use eval_state::{Body, Entry, Event, Generated, Machine, Now, charge_of};
use host_edge::{Ending, TrapKind};
use limits::program::SIZE_LIMIT;
use sqlite_items::{Items, at as find};
use std::alloc::AllocError;
use std::mem;
use typed_tree::{Answer, Function, TickBody};
use word32::map::STACK_BYTES;

/// Calls the function of a number by number, where it is live and has as many parameters as there are arguments.
pub fn call_number<'a>(
    m: &mut Machine<'a>,
    answer: Answer,
    number: u32,
    arguments: Items<u32>,
) -> Result<Now<'a>, AllocError>
    ensures same { IfOk result (λ n. outcome (now_view n) (run_of m.new)
        ≡ leads (run_of m.old) (valued (targeted (here (run_of m.old)) (pending.Numbered answer number)
        arguments (world (run_of m.old))))) }
    ensures units { IfOk result (λ n. (run_of m.new).state.units ≤ (run_of m.old).state.units) }
    ensures less { IfOk result (λ n. (run_of m.new).state.units ≡ (run_of m.old).state.units
        → heft (now_view n) (run_of m.new) ≤ held (run_of m.old)) }
{
    if !takes(m, number, arguments.len()) {
        return Ok(Now::Ended(Ending::Trap(TrapKind::BadCall)));
    }
    call(m, answer, number, arguments)
}

// Whether a number is one of a live function that takes so many arguments.
#[tactic(auto, using(eval_state::proofs::Codes::takes_none, eval_state::proofs::Codes::takes_some))]
fn takes<'a>(m: &Machine<'a>, number: u32, arguments: usize) -> bool
    ensures { result ≡ is_none (call_trap (callee_at (program_of m.now)
        (world (run_of m.now)).shared.bodies number) arguments) }
{
    match parameters_of(m, number) {
        None => false,
        Some(parameters) => parameters == arguments,
    }
}

// How many parameters the live function of a number has.
fn parameters_of<'a>(m: &Machine<'a>, number: u32) -> Option<usize>
    ensures { result ≡ option_map parameters (callee_at (program_of m.now)
        (world (run_of m.now)).shared.bodies number) }
{
    m.keeps_law();
    if number == 0 {
        return None;
    }
    let i = (number - 1) as usize;
    let functions = m.parts.typed.functions();
    match find(functions, i) {
        Some(function) => {
            let parameters = function.params as usize;
            Some(parameters)
        }
        None => match m.parts.compiled.get(i - functions.len()) {
            None => None,
            Some(made) => Some(parameters_of_row(m, made.row) as usize),
        },
    }
}

/// Calls the function of a number.
pub fn call<'a>(
    m: &mut Machine<'a>,
    answer: Answer,
    number: u32,
    arguments: Items<u32>,
) -> Result<Now<'a>, AllocError>
    ensures same { IfOk result (λ n. outcome (now_view n) (run_of m.new)
        ≡ leads (run_of m.old) (valued (targeted (here (run_of m.old)) (pending.Direct answer number)
        arguments (world (run_of m.old))))) }
    ensures units { IfOk result (λ n. (run_of m.new).state.units ≤ (run_of m.old).state.units) }
    ensures less { IfOk result (λ n. (run_of m.new).state.units ≡ (run_of m.old).state.units
        → heft (now_view n) (run_of m.new) ≤ held (run_of m.old)) }
{
    if m.parts.depth == 0 {
        return Ok(Now::Stopped);
    }
    if number == 0 {
        return Ok(Now::Ended(Ending::Trap(TrapKind::BadCall)));
    }
    let typed = m.parts.typed;
    match find(typed.functions(), (number - 1) as usize) {
        None => call_compiled(m, answer, number, arguments),
        Some(function) => {
            typed.keeps_law();
            call_function(m, answer, function, arguments)
        }
    }
}

// Calls a function of the text. Its variables of generated code are those of its caller, though its code names
// none.
fn call_function<'a>(
    m: &mut Machine<'a>,
    answer: Answer,
    function: &'a Function,
    arguments: Items<u32>,
) -> Result<Now<'a>, AllocError>
    requires { (m.old.depth ≢ 0) × (function.now.size ≡ size_of (function_view function.now))
        × (function.now.size ≤ SIZE_LIMIT) }
    ensures same { IfOk result (λ n. (f : ℕ)
        → callee_at (program_of m.old) (world (run_of m.old)).shared.bodies f
        ≡ Some (Static (function_view function.entry.now))
        → outcome (now_view n) (run_of m.new)
        ≡ leads (run_of m.old) (valued (targeted (here (run_of m.old)) (pending.Direct answer f)
        arguments (world (run_of m.old))))) }
    ensures units { IfOk result (λ n. (run_of m.new).state.units ≤ (run_of m.old).state.units) }
    ensures less { IfOk result (λ n. (run_of m.new).state.units ≡ (run_of m.old).state.units
        → heft (now_view n) (run_of m.new) ≤ held (run_of m.old)) }
{
    m.keeps_law();
    let charge = charge_of(function.size);
    if let Some(kind) = m.limit(charge, function.object) {
        return Ok(Now::Ended(Ending::Trap(kind)));
    }
    let caller = m.enter_body(function, arguments)?;
    suspend(m, answer, charge, caller)?;
    Ok(m.spend(Now::Exec(function.body.get())))
}

// Calls a compiled function: the event of its entry stands before the limits, and a unit for each local variable of
// its code is spent behind that of the call.
fn call_compiled<'a>(
    m: &mut Machine<'a>,
    answer: Answer,
    number: u32,
    arguments: Items<u32>,
) -> Result<Now<'a>, AllocError>
    requires { (m.old.depth ≢ 0) × (length m.old.typed.now.functions < number) }
    ensures same { IfOk result (λ n. outcome (now_view n) (run_of m.new)
        ≡ leads (run_of m.old) (valued (targeted (here (run_of m.old)) (pending.Direct answer number)
        arguments (world (run_of m.old))))) }
    ensures units { IfOk result (λ n. (run_of m.new).state.units ≤ (run_of m.old).state.units) }
    ensures less { IfOk result (λ n. (run_of m.new).state.units ≡ (run_of m.old).state.units
        → heft (now_view n) (run_of m.new) ≤ held (run_of m.old)) }
{
    m.keeps_law();
    let i = (number - 1) as usize - m.parts.typed.functions().len();
    let made = match m.parts.compiled.get(i) {
        None => return Ok(Now::Ended(Ending::Trap(TrapKind::BadCall))),
        Some(made) => *made,
    };
    happens(m, Event::Entered(number))?;
    let charge = charge_of(size_of_row(m, made.row));
    if let Some(kind) = m.limit(charge, 0) {
        return Ok(Now::Ended(Ending::Trap(kind)));
    }
    enter_code(m, answer, charge, made.row, arguments)?;
    if !m.spend_many(1) {
        return Ok(Now::Stopped);
    }
    if !m.spend_many(made.locals) {
        return Ok(Now::Stopped);
    }
    Ok(begin_tick(m))
}

// An event more, which names no specification.
fn happens<'a>(m: &mut Machine<'a>, event: Event) -> Result<(), AllocError>
    requires { IsKnown 0 event }
    ensures { OnOk result (m.new ≡ with_event event m.old) }
{
    m.parts.events.push(event)
}

// The body of generated code that was passed these arguments is entered under a call of a charge, which meets no limit;
// the caller's body waits.
fn enter_code<'a>(
    m: &mut Machine<'a>,
    answer: Answer,
    charge: u32,
    row: u32,
    arguments: Items<u32>,
) -> Result<(), AllocError>
    requires { (m.old.depth ≢ 0) × (row ≤ length m.old.rows) × (m.old.used + charge ≤ STACK_BYTES) }
    ensures { OnOk result (m.new ≡ with_called answer charge (code_body row arguments) m.old) }
{
    let passed = Items::from_slice(m.parts.alloc, arguments.as_slice())?;
    let body = Body {
        variables: Items::new(m.parts.alloc),
        arguments: passed,
        generated: Generated {
            arguments,
            values: Items::new(m.parts.alloc),
        },
        object: 0,
        row,
    };
    let caller = mem::replace(&mut m.parts.body, body);
    m.parts.used += charge;
    m.parts.depth -= 1;
    suspend(m, answer, charge, caller)
}

// A caller's body waits for the end of a call of a charge.
fn suspend<'a>(
    m: &mut Machine<'a>,
    answer: Answer,
    charge: u32,
    caller: Body,
) -> Result<(), AllocError>
    requires { (caller.row ≤ length m.old.rows) × (m.old.depth + calls m.old.entries + 1 < 2 ^ 64) }
    ensures { OnOk result (m.new ≡ with_entry (entry.Called answer charge caller) m.old) }
{
    m.parts.entries.push(Entry::Called(answer, charge, caller))
}

// Begins the tick of the specification whose code is active.
fn begin_tick<'a>(m: &Machine<'a>) -> Now<'a>
    requires { IsCode (numbered m.now.body.row (rows_view m.now.rows)) }
    ensures same { outcome (now_view result) (run_of m.now)
        ≡ leads (run_of m.now) (ticked (here (run_of m.now))
        (slice_get (program_of m.now).ticks (tick_of (syntax_at (rows_view m.now.rows) m.now.body.row)))
        (world (run_of m.now))) }
    ensures less { heft (now_view result) (run_of m.now)
        ≤ weight_of_tick (capture_weight (run_of m.now).program.ticks (run_of m.now).state.body.captures)
        (slice_get (program_of m.now).ticks (tick_of (syntax_at (rows_view m.now.rows) m.now.body.row)))
        + held (run_of m.now) }
{
    m.keeps_law();
    let tick = match m.row(m.parts.body.row) {
        None => return Now::Value(0),
        Some(row) => row.tick,
    };
    let typed = m.parts.typed;
    match find(typed.ticks(), tick as usize) {
        None => Now::Value(0),
        Some(tick) => match &tick.body {
            TickBody::Expression(e) => Now::Eval(e.get()),
            TickBody::Statement(s) => Now::Exec(s.get()),
        },
    }
}

/// The specification that a capture names stands here: its code is active, with variables of its own and no frame
/// object. Of a capture that names none, 0 is left.
pub fn splice<'a>(m: &mut Machine<'a>, answer: Answer, capture: u32) -> Result<Now<'a>, AllocError>
    ensures same { IfOk result (λ n. outcome (now_view n) (run_of m.new)
        ≡ leads (run_of m.old) (valued (eval (here (run_of m.old)) (node.Splice answer capture)
        (world (run_of m.old))))) }
    ensures units { IfOk result (λ n. (run_of m.new).state.units ≤ (run_of m.old).state.units) }
    ensures less { IfOk result (λ n. (run_of m.new).state.units ≡ (run_of m.old).state.units
        → heft (now_view n) (run_of m.new)
        < heft (pending.Eval (node.Splice answer capture)) (run_of m.old)) }
{
    m.keeps_law();
    let number = match spliced(m, capture) {
        None => return Ok(Now::Value(0)),
        Some(number) => number,
    };
    begin_splice(m, answer, number)?;
    Ok(begin_tick(m))
}

// The code of a specification is active; what was active waits.
fn begin_splice<'a>(m: &mut Machine<'a>, answer: Answer, number: u32) -> Result<(), AllocError>
    requires { number ≤ length m.old.rows }
    ensures { OnOk result (m.new ≡ with_spliced answer number m.old) }
{
    let empty = Items::new(m.parts.alloc);
    let variables = mem::replace(&mut m.parts.body.variables, empty);
    let object = m.parts.body.object;
    let row = m.parts.body.row;
    m.parts.body.object = 0;
    m.parts.body.row = number;
    m.parts
        .entries
        .push(Entry::Spliced(answer, variables, object, row))
}
