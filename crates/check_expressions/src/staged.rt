//! Ticks, `compile`, `param` and casts.

ghost use Rattle.std.specs.Prelude.{◌≡◌};
ghost use Rattle.tick_tree.specs.Faults.{Checks};
ghost use Rattle.check_rules.specs.Names.{Gives};
ghost use Rattle.check_rules.specs.Productions as spec;
ghost use Rattle.check_rules.specs.ExpressionRules as rules;

use c_type_refs::TypeRef;
use c_types::Layer;
use check_calls::specification;
use check_operands::{Operand, Value, made, value_of};
use check_rules::{Around, Stage, State};
use check_types::{over, void};
use sqlite_items::Boxed;
use std::alloc::{AllocError, Global};
use tick_tree::Deny;
use typed_tree::{Stmt, TickBody};

/// `compile(o, T)`, as `check_calls::compile`.
#[tactic(auto, unfolding(check_rules::specs::Productions::compile_node))]
pub fn compile_node(alloc: Global, line: u32, t: TypeRef, o: Operand) -> Result<Operand, Deny>
    ensures { Checks result (spec.compile_node line t o) }
{
    let v = value_of(alloc, o)?;
    check_calls::compile(alloc, line, t, v)
}

/// `(T) o`, as `check_nodes::cast`.
#[tactic(auto, unfolding(check_rules::specs::Productions::cast_node))]
pub fn cast_node(alloc: Global, line: u32, t: TypeRef, o: Operand) -> Result<Operand, Deny>
    ensures { Checks result (spec.cast_node line t o) }
{
    let v = value_of(alloc, o)?;
    check_nodes::cast(alloc, line, t, v)
}

/// `param(T, o)`, as `check_calls::parameter`.
#[tactic(auto, unfolding(check_rules::specs::Productions::parameter_node))]
pub fn parameter_node(alloc: Global, line: u32, t: TypeRef, o: Operand) -> Result<Operand, Deny>
    ensures { Checks result (spec.parameter_node line t o) }
{
    let v = value_of(alloc, o)?;
    check_calls::parameter(alloc, line, t, v)
}

/// What stands round the items of a tick's block: no loop and no switch of the tick.
pub fn tick_around() -> Around
    ensures { result ≡ rules.tick_around }
{
    Around {
        stage: Stage::Tick,
        in_loop: false,
        in_switch: false,
        is_direct: false,
    }
}

/// Enters a tick.
pub fn tick_entered(alloc: Global, state: &mut State)
    ensures { state.new ≡ spec.tick_entered state.old }
{
    state.ticks.enter(alloc);
    state.frame.inner = 0;
}

fn tick_left(
    alloc: Global,
    state: &mut State,
    body: TickBody,
    t: TypeRef,
) -> Result<Operand, AllocError>
    ensures { Gives result state.new (spec.tick_left body t state.old) }
{
    let node = state.ticks.leave(alloc, body)?;
    Ok(made(node, t))
}

/// Leaves a tick of an expression: a specification of its promoted type.
#[tactic(auto, unfolding(check_rules::specs::Productions::tick_expression))]
pub fn tick_expression(alloc: Global, state: &mut State, o: Operand) -> Result<Operand, AllocError>
    ensures { Gives result state.new (spec.tick_expression o state.old) }
{
    let Value { code, ctype, .. } = value_of(alloc, o)?;
    let t = specification(alloc, ctype)?;
    tick_left(alloc, state, TickBody::Expression(code), t)
}

/// Leaves a tick of a block.
pub fn tick_block(
    alloc: Global,
    state: &mut State,
    block: Boxed<Stmt>,
) -> Result<Operand, AllocError>
    ensures { Gives result state.new (spec.tick_block block state.old) }
{
    let t = over(Layer::Cspec, void(alloc))?;
    tick_left(alloc, state, TickBody::Statement(block), t)
}
