//! Operators, assignments and addresses.

ghost use Rattle.std.specs.Prelude.{◌≡◌, IfOk};
ghost use Rattle.tick_tree.specs.Faults.{Checks};
ghost use Rattle.check_rules.specs.Names.{Gives};
ghost use Rattle.check_rules.specs.Walks.{Reads};
ghost use Rattle.check_rules.specs.Productions as spec;

use c_types::Layer;
use check_operands::{Operand, Place, Value, made, settled, value_of, values};
use check_rules::{Stage, State, is_specification, is_tick};
use check_types::over;
use icode_ops::UnKind;
use sqlite_items::Boxed;
use std::alloc::{AllocError, Global};
use tick_tree::{BinaryOp, Deny, FaultKind, ModifyOp, StepOp, UnaryOp, refused};
use typed_tree::{CaptureKind, CapturedWord, Expr};

#[tactic(auto, unfolding(check_rules::specs::Productions::left))]
fn left(line: u32, stage: Stage, o: Operand) -> Result<Operand, Deny>
    ensures { Checks result (spec.left line stage o) }
{
    if is_tick(stage) && is_specification(&o.ctype) {
        return refused(FaultKind::StageInTick, line);
    }
    Ok(o)
}

/// An operator between two operands, as `check_nodes::binary`.
#[tactic(auto, unfolding(check_rules::specs::Productions::binary_node))]
pub fn binary_node(
    alloc: Global,
    line: u32,
    op: BinaryOp,
    a: Operand,
    b: Operand,
) -> Result<Operand, Deny>
    ensures { Checks result (spec.binary_node line op a b) }
{
    let p = values(alloc, a, b)?;
    check_nodes::binary(alloc, line, op, p.0, p.1)
}

/// `a[b]`, as `check_nodes::index`; StageInTick where it is a specification in a tick.
#[tactic(auto, unfolding(check_rules::specs::Productions::index_node))]
pub fn index_node(
    alloc: Global,
    line: u32,
    stage: Stage,
    a: Operand,
    b: Operand,
) -> Result<Operand, Deny>
    ensures { Checks result (spec.index_node line stage a b) }
{
    let p = values(alloc, a, b)?;
    let o = check_nodes::index(alloc, line, p.0, p.1)?;
    left(line, stage, o)
}

/// `a = b`, as `check_nodes::assign`.
#[tactic(auto, unfolding(check_rules::specs::Productions::assign_node))]
pub fn assign_node(alloc: Global, line: u32, a: Operand, b: Operand) -> Result<Operand, Deny>
    ensures { Checks result (spec.assign_node line a b) }
{
    let o = settled(alloc, a)?;
    let v = value_of(alloc, b)?;
    check_nodes::assign(alloc, line, o, v)
}

/// `a op= b`, as `check_nodes::modify`.
#[tactic(auto, unfolding(check_rules::specs::Productions::modify_node))]
pub fn modify_node(
    alloc: Global,
    line: u32,
    op: ModifyOp,
    a: Operand,
    b: Operand,
) -> Result<Operand, Deny>
    ensures { Checks result (spec.modify_node line op a b) }
{
    let o = settled(alloc, a)?;
    let v = value_of(alloc, b)?;
    check_nodes::modify(alloc, line, op, o, v)
}

/// `a, b`
#[tactic(auto, unfolding(check_rules::specs::Productions::comma_node))]
pub fn comma_node(alloc: Global, a: Operand, b: Operand) -> Result<Operand, AllocError>
    ensures { IfOk result (λ o. o ≡ spec.comma_node a b) }
{
    let p = values(alloc, a, b)?;
    check_nodes::comma(alloc, p.0, p.1)
}

/// `c ? a : b`, as `check_nodes::choice`.
#[tactic(auto, unfolding(check_rules::specs::Productions::choice_node))]
pub fn choice_node(
    alloc: Global,
    line: u32,
    c: Operand,
    a: Operand,
    b: Operand,
) -> Result<Operand, Deny>
    ensures { Checks result (spec.choice_node line c a b) }
{
    let test = value_of(alloc, c)?;
    let p = values(alloc, a, b)?;
    check_nodes::choice(alloc, line, test, p.0, p.1)
}

/// `o++` and `o--`, as `check_nodes::post`.
#[tactic(auto, unfolding(check_rules::specs::Productions::post_node))]
pub fn post_node(alloc: Global, line: u32, op: StepOp, o: Operand) -> Result<Operand, Deny>
    ensures { Checks result (spec.post_node line op o) }
{
    let o = settled(alloc, o)?;
    check_nodes::post(alloc, line, op, o)
}

#[tactic(auto, unfolding(check_rules::specs::Productions::step_node))]
fn step_node(alloc: Global, line: u32, op: StepOp, o: Operand) -> Result<Operand, Deny>
    ensures { Checks result (spec.step_node line op o) }
{
    let o = settled(alloc, o)?;
    check_nodes::stepped(alloc, line, op, o)
}

#[tactic(auto, unfolding(check_rules::specs::Productions::star_node))]
fn star_node(alloc: Global, line: u32, stage: Stage, o: Operand) -> Result<Operand, Deny>
    ensures { Checks result (spec.star_node line stage o) }
{
    let v = value_of(alloc, o)?;
    let place = check_nodes::dereferenced(line, v)?;
    left(line, stage, place)
}

fn address_by(alloc: Global, state: &mut State, line: u32, o: Operand) -> Result<Operand, Deny>
    ensures { Reads (spec.address_by line o.ctype o.place state.old) result state.new }
{
    let Operand { place, ctype, .. } = o;
    match place {
        Place::Register(i) => {
            state.frame.mark(i);
            let t = over(Layer::Pointer, ctype)?;
            Ok(made(Boxed::new(alloc, Expr::Frame(0))?, t))
        }
        Place::Memory(address) => Ok(made(address, over(Layer::Pointer, ctype)?)),
        Place::Generated(_) => refused(FaultKind::AddressOfRegister, line),
        Place::Value(_) | Place::Function(_) => refused(FaultKind::NotPlace, line),
    }
}

/// `&o`: in a function a variable that is no frame object yet becomes one in the next walk. Refused as
/// `check_nodes::address`.
#[tactic(auto, unfolding(check_rules::specs::Productions::address_node))]
fn address_node(
    alloc: Global,
    state: &mut State,
    line: u32,
    stage: Stage,
    o: Operand,
) -> Result<Operand, Deny>
    ensures { Reads (spec.address_node line stage o state.old) result state.new }
{
    match stage {
        Stage::Function | Stage::Dollar => address_by(alloc, state, line, o),
        Stage::Tick => check_nodes::address(line, o),
    }
}

/// `$o`, as `check_calls::dollar`: the value is captured as the tick is evaluated.
#[tactic(auto, unfolding(check_rules::specs::Productions::dollar_node))]
fn dollar_node(alloc: Global, state: &mut State, line: u32, o: Operand) -> Result<Operand, Deny>
    ensures { Reads (spec.dollar_node line o state.old) result state.new }
{
    let v = value_of(alloc, o)?;
    let v = check_calls::dollar(alloc, line, v)?;
    Ok(captured(alloc, state, v)?)
}

fn captured(alloc: Global, state: &mut State, v: Value) -> Result<Operand, AllocError>
    ensures { Gives result state.new (spec.dollar_by v state.old) }
{
    let Value { code, ctype, .. } = v;
    let i = state.ticks.capture(alloc, CaptureKind::Dollar, code)?;
    let node = Boxed::new(alloc, Expr::Captured(CapturedWord::Dollar, i))?;
    Ok(made(node, ctype))
}

fn signed_node(alloc: Global, line: u32, op: UnaryOp, o: Operand) -> Result<Operand, Deny>
    ensures { Checks result (spec.signed_node line op o) }
{
    let v = value_of(alloc, o)?;
    match op {
        UnaryOp::Minus => check_nodes::on_integer(alloc, line, UnKind::Negate, v),
        UnaryOp::Complement => check_nodes::on_integer(alloc, line, UnKind::Complement, v),
        UnaryOp::Not => check_nodes::negated(alloc, line, v),
        _ => check_nodes::plus(alloc, line, v),
    }
}

/// An operator before its operand, with the stage that it stands in.
pub fn unary_node(
    alloc: Global,
    state: &mut State,
    line: u32,
    op: UnaryOp,
    stage: Stage,
    o: Operand,
) -> Result<Operand, Deny>
    ensures { Reads (spec.unary_node line op stage o state.old) result state.new }
{
    match op {
        UnaryOp::Plus | UnaryOp::Minus | UnaryOp::Complement | UnaryOp::Not => {
            signed_node(alloc, line, op, o)
        }
        UnaryOp::Star => star_node(alloc, line, stage, o),
        UnaryOp::Address => address_node(alloc, state, line, stage, o),
        UnaryOp::Dollar => dollar_node(alloc, state, line, o),
        UnaryOp::Increment => step_node(alloc, line, StepOp::Increment, o),
        UnaryOp::Decrement => step_node(alloc, line, StepOp::Decrement, o),
    }
}
