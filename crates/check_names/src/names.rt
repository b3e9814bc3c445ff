//! What a name is where it stands.

ghost use Rattle.std.specs.Prelude.{◌≡◌, IfOk, OnOk, Ok, slice_get};
ghost use Rattle.check_operands.specs.Operands as nodes;
ghost use Rattle.check_rules.specs.Ticks as ticks;
ghost use Rattle.check_rules.specs.Names as spec;
ghost use Rattle.check_rules.specs.Walks.{Reads};

use c_type_refs::TypeRef;
use check_operands::{Operand, Place, made};
use check_rules::{Home, Stage, State, operand, place_by};
use check_scopes::MeaningKind;
use check_types::{inner, is_cspec, is_void, is_vspec};
use sqlite_items::Boxed;
use std::alloc::{AllocError, Global};
use tick_tree::{Deny, FaultKind, refused};
use typed_tree::{Answer, CaptureKind, CapturedWord, Expr};

fn address_by(alloc: Global, home: Home) -> Result<Boxed<Expr>, AllocError>
    ensures { IfOk result (λ e. e ≡ spec.address_by home) }
{
    match home {
        Home::Register => Boxed::new(alloc, Expr::Frame(0)),
        Home::Object(at) => Boxed::new(alloc, Expr::Frame(at)),
    }
}

fn home_by(home: Option<Home>) -> Home
    ensures { result ≡ spec.home_by home }
{
    match home {
        None => Home::Register,
        Some(home) => home,
    }
}

fn answer_of(t: &TypeRef) -> Answer
    ensures { result ≡ spec.answer_of t.now }
{
    if is_void(t) {
        Answer::Void
    } else {
        Answer::Value
    }
}

// What stands at this place.
fn word_of(alloc: Global, place: Place, t: &TypeRef) -> Result<Boxed<Expr>, AllocError>
    ensures { IfOk result (λ e. e ≡ nodes.effect (spec.operand place t.now)) }
{
    check_operands::effect(alloc, operand(place, c_type_refs::copy(alloc, t)?))
}

fn capture(
    alloc: Global,
    state: &mut State,
    kind: CaptureKind,
    code: Boxed<Expr>,
) -> Result<u32, AllocError>
    ensures place { IfOk result (λ n. n ≡ ticks.place state.old.ticks) }
    ensures after { OnOk result (state.new ≡ spec.captured kind code state.old) }
{
    state.ticks.capture(alloc, kind, code)
}

fn splice(
    alloc: Global,
    state: &mut State,
    t: TypeRef,
    code: Boxed<Expr>,
) -> Result<Operand, AllocError>
    ensures { spec.Gives result state.new (spec.splice t code state.old) }
{
    let t = inner(t);
    let answer = answer_of(&t);
    let n = capture(alloc, state, CaptureKind::Splice(answer), code)?;
    let node = Boxed::new(alloc, Expr::Splice(answer, n))?;
    Ok(made(node, t))
}

fn generated(
    alloc: Global,
    state: &mut State,
    t: TypeRef,
    code: Boxed<Expr>,
) -> Result<Operand, AllocError>
    ensures { spec.Gives result state.new (spec.generated t code state.old) }
{
    let n = capture(alloc, state, CaptureKind::Variable, code)?;
    Ok(operand(Place::Generated(n), inner(t)))
}

fn outer_object(
    alloc: Global,
    state: &mut State,
    n: u32,
    home: Home,
    t: TypeRef,
) -> Result<Operand, AllocError>
    ensures { spec.Gives result state.new (spec.outer_object n home t state.old) }
{
    state.frame.mark(n);
    let address = address_by(alloc, home)?;
    let i = capture(alloc, state, CaptureKind::Address, address)?;
    let address = Boxed::new(alloc, Expr::Captured(CapturedWord::Address, i))?;
    Ok(operand(Place::Memory(address), t))
}

fn outer_variable(
    alloc: Global,
    state: &mut State,
    n: u32,
    home: Home,
    t: TypeRef,
) -> Result<Operand, AllocError>
    ensures { spec.Gives result state.new (spec.outer_variable n home t state.old) }
{
    if is_cspec(&t) {
        let place = place_by(alloc, n, home)?;
        let code = word_of(alloc, place, &t)?;
        splice(alloc, state, t, code)
    } else if is_vspec(&t) {
        let place = place_by(alloc, n, home)?;
        let code = word_of(alloc, place, &t)?;
        generated(alloc, state, t, code)
    } else {
        outer_object(alloc, state, n, home, t)
    }
}

fn outer_global(
    alloc: Global,
    state: &mut State,
    address: u32,
    t: TypeRef,
) -> Result<Operand, AllocError>
    ensures { spec.Gives result state.new (spec.outer_global address t state.old) }
{
    let place = Place::Memory(Boxed::new(alloc, Expr::Const(address))?);
    if is_cspec(&t) {
        let code = word_of(alloc, place, &t)?;
        splice(alloc, state, t, code)
    } else if is_vspec(&t) {
        let code = word_of(alloc, place, &t)?;
        generated(alloc, state, t, code)
    } else {
        Ok(operand(place, t))
    }
}

fn in_tick(alloc: Global, state: &mut State, n: u32, t: TypeRef) -> Result<Operand, Deny>
    ensures { Reads (spec.in_tick n t (slice_get state.old.frame.homes n) state.old) result state.new }
{
    match home(state, n) {
        None => {
            let first = state.frame.number();
            Ok(operand(Place::Register(n.saturating_sub(first)), t))
        }
        Some(home) => Ok(outer_variable(alloc, state, n, home, t)?),
    }
}

fn home(state: &State, n: u32) -> Option<Home>
    ensures { result ≡ slice_get state.now.frame.homes n }
{
    match state.frame.homes.get(n as usize) {
        None => None,
        Some(home) => Some(*home),
    }
}

fn under_dollar(
    alloc: Global,
    state: &State,
    line: u32,
    n: u32,
    t: TypeRef,
) -> Result<Operand, Deny>
    ensures { Reads (spec.under_dollar line n t (slice_get state.now.frame.homes n) state.now) result state.now }
{
    match home(state, n) {
        None => refused(FaultKind::Undeclared, line),
        Some(home) => {
            let place = place_by(alloc, n, home)?;
            Ok(operand(place, t))
        }
    }
}

#[inline(always)]
fn in_function(alloc: Global, state: &State, n: u32, t: TypeRef) -> Result<Operand, AllocError>
    ensures { IfOk result
        (λ o. spec.in_function n t (slice_get state.now.frame.homes n) state.now ≡ Ok (o, state.now)) }
{
    let place = place_by(alloc, n, home_by(home(state, n)))?;
    Ok(operand(place, t))
}

fn variable(
    alloc: Global,
    state: &mut State,
    line: u32,
    stage: Stage,
    n: u32,
    t: TypeRef,
) -> Result<Operand, Deny>
    ensures { Reads (spec.variable line stage n t state.old) result state.new }
{
    match stage {
        Stage::Function => Ok(in_function(alloc, state, n, t)?),
        Stage::Tick => in_tick(alloc, state, n, t),
        Stage::Dollar => under_dollar(alloc, state, line, n, t),
    }
}

fn named_parameter(
    alloc: Global,
    state: &mut State,
    stage: Stage,
    n: u32,
    t: TypeRef,
) -> Result<Operand, Deny>
    ensures { Reads (spec.parameter stage n t state.old) result state.new }
{
    match stage {
        Stage::Function | Stage::Dollar => Ok(in_function(alloc, state, n, t)?),
        Stage::Tick => {
            let home = home_by(home(state, n));
            Ok(outer_variable(alloc, state, n, home, t)?)
        }
    }
}

fn global(
    alloc: Global,
    state: &mut State,
    stage: Stage,
    address: u32,
    t: TypeRef,
) -> Result<Operand, AllocError>
    ensures { spec.Gives result state.new (spec.global stage address t state.old) }
{
    match stage {
        Stage::Function | Stage::Dollar => {
            let address = Boxed::new(alloc, Expr::Const(address))?;
            Ok(operand(Place::Memory(address), t))
        }
        Stage::Tick => outer_global(alloc, state, address, t),
    }
}

fn meant(
    alloc: Global,
    state: &mut State,
    line: u32,
    stage: Stage,
    kind: MeaningKind,
    index: u32,
    ctype: TypeRef,
) -> Result<Operand, Deny>
    ensures { Reads (spec.meant line stage kind index ctype state.old) result state.new }
{
    match kind {
        MeaningKind::Variable => variable(alloc, state, line, stage, index, ctype),
        MeaningKind::Parameter => named_parameter(alloc, state, stage, index, ctype),
        MeaningKind::Global => Ok(global(alloc, state, stage, index, ctype)?),
        MeaningKind::Function => Ok(operand(Place::Function(index), ctype)),
        MeaningKind::Library => refused(FaultKind::BadOperand, line),
    }
}

/// What a name is where it stands. Refused: Undeclared where no open scope has it, or where it is a variable of the
/// tick under `$`; BadOperand where it is a library function.
#[tactic(auto, unfolding(check_rules::specs::Names::named))]
pub fn named(
    alloc: Global,
    state: &mut State,
    line: u32,
    stage: Stage,
    name: &[u8],
) -> Result<Operand, Deny>
    ensures { Reads (spec.named line stage name.now state.old) result state.new }
{
    match state.scopes.find(name) {
        None => refused(FaultKind::Undeclared, line),
        Some(m) => {
            let kind = m.kind;
            let index = m.index;
            let ctype = c_type_refs::copy(alloc, &m.ctype)?;
            meant(alloc, state, line, stage, kind, index, ctype)
        }
    }
}
