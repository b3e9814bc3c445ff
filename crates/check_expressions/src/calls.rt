//! Calls and their arguments.

ghost use Rattle.std.specs.Prelude.{◌≡◌, IfOk};
ghost use Rattle.tick_tree.specs.Faults.{Checks};
ghost use Rattle.check_forms.specs.Forms as forms;
ghost use Rattle.check_operands.specs.Calls as calls;
ghost use Rattle.check_rules.specs.Productions as spec;
ghost use Rattle.check_rules.specs.ExpressionRules as rules;

use c_type_refs::TypeRef;
use check_forms::name_of;
use check_operands::{Arguments, Operand, value_of};
use check_rules::{Stage, State, is_specification, is_tick};
use check_types::{inner, is_function, is_pointer};
use std::alloc::{AllocError, Global};
use tick_tree::{Deny, Expr, Fault, FaultKind, refused};

/// The library function that is called where the callee is its plain name, also in parentheses: its number and its
/// type.
pub fn library_of(
    alloc: Global,
    state: &State,
    callee: &Expr,
) -> Result<Option<(u32, TypeRef)>, AllocError>
    ensures { IfOk result (λ found. found ≡ rules.library_of (forms.name_of callee.now) state.now) }
{
    match name_of(callee) {
        None => Ok(None),
        Some(name) => state.library(alloc, name.as_slice()),
    }
}

/// One argument more.
#[tactic(auto, unfolding(check_rules::specs::Productions::argument))]
pub fn argument(alloc: Global, list: Arguments, o: Operand) -> Result<Arguments, AllocError>
    ensures { IfOk result (λ all. all ≡ spec.argument list o) }
{
    let v = value_of(alloc, o)?;
    list.with(v)
}

fn called_type(t: TypeRef) -> TypeRef
    ensures { result ≡ spec.called_type t }
{
    if is_pointer(&t) { inner(t) } else { t }
}

fn answers_specification(alloc: Global, t: &TypeRef) -> Result<bool, AllocError>
    ensures { IfOk result (λ answers. answers ≡ spec.answers_specification t.now) }
{
    let called = called_type(c_type_refs::copy(alloc, t)?);
    if !is_function(&called) {
        return Ok(false);
    }
    Ok(is_specification(&inner(called)))
}

fn lower_at(line: u32, fault: Fault) -> Fault
    ensures { result ≡ spec.lower_at line fault }
{
    if fault.kind.number() > 23 {
        Fault {
            kind: FaultKind::StageInTick,
            line,
            token: 0,
        }
    } else {
        fault
    }
}

/// A call of what is no library function, as `check_calls::call`; StageInTick where it answers a specification in a
/// tick.
#[tactic(auto, unfolding(check_rules::specs::Productions::call_node))]
pub fn call_node(
    alloc: Global,
    line: u32,
    stage: Stage,
    o: Operand,
    list: Arguments,
) -> Result<Operand, Deny>
    ensures { Checks result (spec.call_node line stage o list) }
{
    if is_tick(stage) && answers_specification(alloc, &o.ctype)? {
        left_call(alloc, line, o, list)
    } else {
        check_calls::call(alloc, line, o, list)
    }
}

fn left_call(alloc: Global, line: u32, o: Operand, list: Arguments) -> Result<Operand, Deny>
    ensures { Checks result (spec.left_of line (calls.call line o list)) }
{
    match check_calls::call(alloc, line, o, list) {
        Ok(_) => refused(FaultKind::StageInTick, line),
        Err(Deny::Refused(fault)) => Err(Deny::Refused(lower_at(line, fault))),
        Err(Deny::NoMemory) => Err(Deny::NoMemory),
    }
}
