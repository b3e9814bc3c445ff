//! The walk over a program: variables, prototypes and functions at file scope.

ghost use Rattle.std.specs.Prelude.{◌≡◌, ◌∷◌, map};
ghost use Rattle.check_globals.specs.Functions.{given};
ghost use Rattle.check_globals.specs.Statics.{row_begun};
ghost use Rattle.check_rules.specs.Walks.{Reads};
ghost use Rattle.check_globals.specs.Parameters as heads;
ghost use Rattle.check_globals.specs.Program as spec;
ghost use Rattle.check_rules.specs.Walk as walks;

use crate::part_walk::PartWalk;
use c_type_refs::TypeRef;
use check_declarators::{Role, base_of, declared_type};
use check_forms::string_of;
use check_globals::{
    Row, end, name_function, named_steps, parameters_of, prototype, static_list, static_text,
    static_value, variable,
};
use check_rules::{Around, Stage, State};
use check_statements::{is_text, with_start};
use check_types::{inner, is_function};
use sqlite_items::{Boxed, Items};
use std::alloc::Global;
use tick_tree::{
    Base, Declarator, Deny, Expr, External, FaultKind, Init, Initializer, Parameter, refused,
};
use typed_tree::Stmt;

fn global_type<W: PartWalk>(
    alloc: Global,
    state: &mut State,
    line: u32,
    base: Base,
    d: &Declarator,
    value: &Initializer,
) -> Result<TypeRef, Deny>
    ensures { Reads (spec.global_type line base (walks.shape d.now) (walks.initializer value.now) state.old) result
        state.new }
{
    let steps = W::declarator(alloc, state, Stage::Function, d)?;
    let steps = with_start(named_steps(alloc, steps), value);
    let t = declared_type(alloc, Role::FileScope, line, base_of(base), steps)?;
    Ok(TypeRef::share(alloc, t)?)
}

// The values of a list, by the type of an element.
#[tactic(auto, using(check_laws::proofs::Written::forms_of))]
fn row<W: PartWalk>(
    alloc: Global,
    state: &mut State,
    t: &TypeRef,
    start: Row,
    list: &[Expr],
) -> Result<Row, Deny>
    ensures { Reads (spec.row (map walks.node list.now) t.now start state.old) result state.new }
{
    let mut row = start;
    for e in list {
        let o = W::expression(alloc, state, Stage::Function, e)?;
        row = row.more(alloc, t, e, o)?;
    }
    Ok(row)
}

#[tactic(auto, using(check_laws::proofs::Written::forms_of))]
fn static_one<W: PartWalk>(
    alloc: Global,
    state: &mut State,
    line: u32,
    at: u32,
    t: &TypeRef,
    e: &Expr,
) -> Result<(), Deny>
    ensures { Reads (spec.static_by line at t.now (walks.node e.now) (walks.node e.now).written.string state.old) result
        state.new }
{
    if let Some(bytes) = string_of(e) {
        if is_text(t) {
            return static_text(alloc, state, line, at, t, bytes.as_slice());
        }
    }
    let o = W::expression(alloc, state, Stage::Function, e)?;
    static_value(alloc, state, line, at, t, e, o)
}

#[tactic(auto, using(check_laws::proofs::Written::forms_of, check_laws::proofs::Equations::initializers, check_laws::proofs::Loops::same_length))]
fn begin_variable<W: PartWalk>(
    alloc: Global,
    state: &mut State,
    line: u32,
    t: &TypeRef,
    d: &Declarator,
    value: &Initializer,
) -> Result<(), Deny>
    ensures { Reads (spec.variable line t.now (walks.shape d.now) (walks.initializer value.now) state.old) result
        state.new }
{
    let at = variable(alloc, state, line, d, t)?;
    match value {
        Initializer::Absent => Ok(()),
        Initializer::Value(e) => static_one::<W>(alloc, state, line, at, t, e),
        Initializer::List(list, _) => {
            let list = list.as_slice();
            let element = inner(c_type_refs::copy(alloc, t)?);
            let row = row::<W>(alloc, state, &element, Row::new(alloc, t), list)?;
            static_list(alloc, state, line, at, t, list, row)
        }
    }
}

fn walked<W: PartWalk>(alloc: Global, state: &mut State, list: &[Expr]) -> Result<(), Deny>
    ensures { Reads (spec.walked (map walks.node list.now) state.old) result state.new }
{
    for e in list {
        W::expression(alloc, state, Stage::Function, e)?;
    }
    Ok(())
}

#[tactic(auto, using(check_laws::proofs::Written::forms_of, check_laws::proofs::Equations::initializers))]
fn begin_prototype<W: PartWalk>(
    alloc: Global,
    state: &mut State,
    line: u32,
    t: &TypeRef,
    d: &Declarator,
    value: &Initializer,
) -> Result<(), Deny>
    ensures { Reads (spec.prototype line t.now (walks.shape d.now) (walks.initializer value.now) state.old) result
        state.new }
{
    prototype(alloc, state, line, d, t)?;
    match value {
        Initializer::Absent => Ok(()),
        Initializer::Value(e) => {
            W::expression(alloc, state, Stage::Function, e)?;
            refused(FaultKind::TypeMismatch, line)
        }
        Initializer::List(list, _) => {
            walked::<W>(alloc, state, list.as_slice())?;
            refused(FaultKind::TypeMismatch, line)
        }
    }
}

#[tactic(auto, using(crate::proofs::Parts::globals))]
fn global<W: PartWalk>(
    alloc: Global,
    state: &mut State,
    line: u32,
    base: Base,
    init: &Init,
) -> Result<(), Deny>
    ensures { Reads (spec.global line base (walks.init init.now) state.old) result state.new }
{
    let t = global_type::<W>(alloc, state, line, base, &init.declarator, &init.value)?;
    if is_function(&t) {
        begin_prototype::<W>(alloc, state, line, &t, &init.declarator, &init.value)
    } else {
        begin_variable::<W>(alloc, state, line, &t, &init.declarator, &init.value)
    }
}

fn globals<W: PartWalk>(
    alloc: Global,
    state: &mut State,
    line: u32,
    base: Base,
    list: &[Init],
) -> Result<(), Deny>
    ensures { Reads (spec.globals line base (map walks.init list.now) state.old) result state.new }
{
    for init in list {
        global::<W>(alloc, state, line, base, init)?;
    }
    Ok(())
}

fn function_type<W: PartWalk>(
    alloc: Global,
    state: &mut State,
    line: u32,
    base: Base,
    d: &Declarator,
) -> Result<TypeRef, Deny>
    ensures { Reads (spec.function_type line base (walks.shape d.now) state.old) result state.new }
{
    let steps = W::declarator(alloc, state, Stage::Function, d)?;
    let steps = named_steps(alloc, steps);
    let t = declared_type(alloc, Role::FileScope, line, base_of(base), steps)?;
    Ok(TypeRef::share(alloc, t)?)
}

fn body<W: PartWalk>(
    alloc: Global,
    state: &mut State,
    t: &TypeRef,
    list: &[Parameter],
    block: &[tick_tree::Stmt],
) -> Result<Boxed<Stmt>, Deny>
    ensures { Reads (spec.body t.now (map given list.now) (map walks.item block.now) state.old) result state.new }
{
    let depth = check_names::depth(state);
    let outer = check_names::enter(alloc, state)?;
    check_globals::begin(alloc, state, t, list)?;
    let around = Around {
        stage: Stage::Function,
        in_loop: false,
        in_switch: false,
        is_direct: false,
    };
    let nodes = W::items(alloc, state, around, block)?;
    let variables = check_names::leave(state, depth, outer)?;
    Ok(Boxed::new(alloc, Stmt::Block(variables, nodes))?)
}

#[tactic(auto, using(check_laws::proofs::Written::forms_of))]
fn function<W: PartWalk>(
    alloc: Global,
    state: &mut State,
    line: u32,
    base: Base,
    d: &Declarator,
    block: &[tick_tree::Stmt],
) -> Result<(), Deny>
    ensures { Reads (spec.function line base (walks.shape d.now) (heads.parameters_of d.now) (map walks.item block.now)
        state.old) result state.new }
{
    let t = function_type::<W>(alloc, state, line, base, d)?;
    name_function(alloc, state, line, d, &t)?;
    let node = body::<W>(alloc, state, &t, parameters_of(d), block)?;
    end(alloc, state, line, d, &t, node)
}

#[tactic(auto, using(crate::proofs::Parts::globals))]
fn external<W: PartWalk>(alloc: Global, state: &mut State, x: &External) -> Result<(), Deny>
    ensures { Reads (spec.external x.now state.old) result state.new }
{
    match x {
        External::Function(line, base, d, block) => {
            function::<W>(alloc, state, *line, *base, d, block.as_slice())
        }
        External::Declaration(d) => globals::<W>(alloc, state, d.line, d.base, d.inits.as_slice()),
    }
}

/// The walk over the items of a program.
pub fn walk<W: PartWalk>(alloc: Global, state: &mut State, list: &[External]) -> Result<(), Deny>
    ensures { Reads (spec.walk list.now state.old) result state.new }
{
    for x in list {
        external::<W>(alloc, state, x)?;
    }
    Ok(())
}
