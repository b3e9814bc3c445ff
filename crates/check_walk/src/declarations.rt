//! The walk over declarations in a block.

// What is owned is dropped by hand before an error goes on. Over a `?` its drop would be written out at each exit,
// variant by variant (CONTRIBUTING.md, "How to keep proofs cheap", 3). The order of the drops means nothing.

ghost use Rattle.std.specs.Prelude.{◌≡◌, None, map};
ghost use Rattle.check_rules.specs.Walks.{Reads};
ghost use Rattle.check_rules.specs.Walk as spec;

use crate::expressions::expression;
use crate::types::declarator;
use c_type_refs::TypeRef;
use check_declarators::base_of;
use check_operands::Operand;
use check_rules::{Stage, State, has_size, is_array, is_string};
use check_statements::{
    appended, declare, declared_in, element, entered, from_list, from_value, inner_of, with_start,
};
use sqlite_items::Items;
use std::alloc::Global;
use tick_tree::{Base, Declarator, Deny, Expr, FaultKind, Init, Initializer};
use typed_tree::Stmt;

// Walks the values of a list, and says which rule they break as elements of this type.
#[cycle(walk)]
fn elements(
    alloc: Global,
    state: &mut State,
    stage: Stage,
    t: &TypeRef,
    list: &[Expr],
) -> Result<Option<FaultKind>, Deny>
    ensures { Reads (spec.elements (map spec.node list.now) t.now None stage state.old) result state.new }
{
    let mut broken = None;
    for e in list {
        let o = expression(alloc, state, stage, e)?;
        broken = element(alloc, o, t, broken)?;
    }
    Ok(broken)
}

#[cycle(walk)]
fn begin_list(
    alloc: Global,
    state: &mut State,
    stage: Stage,
    line: u32,
    place: Operand,
    list: &[Expr],
) -> Result<Items<Stmt>, Deny>
    ensures { Reads (spec.begin_list line stage place (map spec.node list.now) state.old) result state.new }
{
    let is_row = is_array(&place.ctype);
    let is_sized = has_size(&place.ctype);
    let t = inner_of(place);
    let broken = elements(alloc, state, stage, &t, list)?;
    from_list(line, is_row, is_sized, broken)
}

// Walks the initializer of a variable, and gives the nodes with which the variable begins.
#[cycle(walk)]
#[tactic(auto, using(check_laws::proofs::Equations::initializers, check_laws::proofs::Written::forms_of))]
fn begin(
    alloc: Global,
    state: &mut State,
    stage: Stage,
    line: u32,
    place: Operand,
    value: &Initializer,
) -> Result<Items<Stmt>, Deny>
    ensures { Reads (spec.begin line stage place (spec.initializer value.now) state.old) result state.new }
{
    match value {
        Initializer::Absent => {
            drop(place);
            Ok(Items::new(alloc))
        }
        Initializer::Value(e) => match expression(alloc, state, stage, e) {
            Ok(o) => from_value(alloc, line, place, is_string(e), o),
            Err(why) => {
                drop(place);
                Err(why)
            }
        },
        Initializer::List(list, _) => {
            begin_list(alloc, state, stage, line, place, list.as_slice())
        }
    }
}

// Walks one declarator: its type, its name, its initializer.
#[cycle(walk)]
#[tactic(auto, using(check_laws::proofs::Equations::types, check_laws::proofs::Written::forms_of))]
fn declared_local(
    alloc: Global,
    state: &mut State,
    stage: Stage,
    line: u32,
    base: Base,
    init: &Init,
) -> Result<Items<Stmt>, Deny>
    ensures { Reads (spec.declare_one line base stage (spec.init init.now) state.old) result state.new }
{
    let d = &init.declarator;
    entered(stage, line, d)?;
    let steps = declarator(alloc, state, stage, d)?;
    let steps = with_start(steps, &init.value);
    let t = declared_in(alloc, stage, line, base_of(base), steps)?;
    let place = declare(alloc, state, stage, line, d, t)?;
    begin(alloc, state, stage, line, place, &init.value)
}

/// The nodes of the initializers of a declaration in a block, by what it declares.
#[cycle(walk)]
pub fn locals(
    alloc: Global,
    state: &mut State,
    stage: Stage,
    line: u32,
    base: Base,
    list: &[Init],
) -> Result<Items<Stmt>, Deny>
    ensures { Reads (spec.declare_each line base stage (map spec.init list.now) state.old) result state.new }
{
    let mut nodes = Items::new(alloc);
    for init in list {
        match declared_local(alloc, state, stage, line, base, init) {
            Ok(found) => nodes = appended(nodes, found)?,
            Err(why) => {
                drop(nodes);
                return Err(why);
            }
        }
    }
    Ok(nodes)
}
