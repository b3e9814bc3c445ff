//! The walk over type names, declarators and parameter lists.

// What is owned is dropped by hand before an error goes on. Over a `?` its drop would be written out at each exit,
// variant by variant (CONTRIBUTING.md, "How to keep proofs cheap", 3). The order of the drops means nothing.

ghost use Rattle.std.specs.Prelude.{◌≡◌, [], map};
ghost use Rattle.check_rules.specs.StatementRules as statements;
ghost use Rattle.check_rules.specs.Walks.{Reads};
ghost use Rattle.check_rules.specs.Walk as spec;

use crate::expressions::expression;
use c_type_refs::TypeRef;
use c_types::CType;
use check_declarators::{Length, Role, Step, base_of, declared_type, push_prefixes};
use check_forms::has_form;
use check_rules::{Stage, State};
use check_statements::{declare_parameter, length_of, with_step, with_type};
use sqlite_items::Items;
use std::alloc::Global;
use tick_tree::{Core, Declarator, Deny, OptionalExpr, Parameter, Suffix, Typename};

/// The type that a type name names, with the line of the node that it is in.
#[cycle(walk)]
#[tactic(auto, using(check_laws::proofs::Equations::types))]
pub fn typename(
    alloc: Global,
    state: &mut State,
    line: u32,
    stage: Stage,
    t: &Typename,
) -> Result<TypeRef, Deny>
    ensures { Reads ((spec.named t.now).walk line stage state.old) result state.new }
{
    let steps = declarator(alloc, state, stage, &t.declarator)?;
    let named = declared_type(alloc, Role::Typename, line, base_of(t.base), steps)?;
    Ok(TypeRef::share(alloc, named)?)
}

/// The steps from a base to the type that a declarator declares.
#[cycle(walk)]
#[tactic(auto, using(check_laws::proofs::Equations::types))]
pub fn declarator(
    alloc: Global,
    state: &mut State,
    stage: Stage,
    d: &Declarator,
) -> Result<Items<Step>, Deny>
    ensures { Reads ((spec.shape d.now).walk stage state.old) result state.new }
{
    let steps = core(alloc, state, stage, &d.core)?;
    let steps = suffixes(alloc, state, stage, steps, d.suffixes.as_slice())?;
    Ok(push_prefixes(steps, d.prefixes.as_slice())?)
}

#[cycle(walk)]
#[tactic(auto, using(check_laws::proofs::Equations::cores))]
fn core(alloc: Global, state: &mut State, stage: Stage, c: &Core) -> Result<Items<Step>, Deny>
    ensures { Reads ((spec.core c.now).walk stage state.old) result state.new }
{
    match c {
        Core::Absent | Core::Name(_, _) => Ok(Items::new(alloc)),
        Core::Paren(d) => declarator(alloc, state, stage, d.get()),
    }
}

// Walks suffixes, and puts their steps behind these.
#[cycle(walk)]
fn suffixes(
    alloc: Global,
    state: &mut State,
    stage: Stage,
    steps: Items<Step>,
    list: &[Suffix],
) -> Result<Items<Step>, Deny>
    ensures { Reads (statements.each_step (spec.suffix_walks (map spec.suffix list.now)) steps stage state.old)
        result state.new }
{
    let mut steps = steps;
    for s in list {
        match suffix(alloc, state, stage, s) {
            Ok(step) => steps = with_step(steps, step)?,
            Err(why) => {
                drop(steps);
                return Err(why);
            }
        }
    }
    Ok(steps)
}

#[cycle(walk)]
#[tactic(auto, using(check_laws::proofs::Equations::suffixes))]
fn suffix(alloc: Global, state: &mut State, stage: Stage, s: &Suffix) -> Result<Step, Deny>
    ensures { Reads ((spec.suffix s.now).walk stage state.old) result state.new }
{
    match s {
        Suffix::Array(e) => length(alloc, state, stage, e),
        Suffix::Unlisted => Ok(Step::Unlisted),
        Suffix::Nothing => Ok(Step::Function(Items::new(alloc))),
        Suffix::Listed(list) => parameters(alloc, state, stage, list.as_slice()),
    }
}

// Walks the length of an array, and gives its step.
#[cycle(walk)]
#[tactic(auto, using(check_laws::proofs::Equations::optionals, check_laws::proofs::Written::forms_of))]
fn length(alloc: Global, state: &mut State, stage: Stage, e: &OptionalExpr) -> Result<Step, Deny>
    ensures { Reads (statements.length_step (spec.optional e.now) stage state.old) result state.new }
{
    match e {
        OptionalExpr::Absent => Ok(Step::Array(Length::Absent)),
        OptionalExpr::Present(e) => {
            let o = expression(alloc, state, stage, e)?;
            Ok(Step::Array(length_of(alloc, has_form(e), o)?))
        }
    }
}

// Walks a list of parameters, whose names are in a scope of their own, and gives the step of a function of their types.
#[cycle(walk)]
fn parameters(
    alloc: Global,
    state: &mut State,
    stage: Stage,
    list: &[Parameter],
) -> Result<Step, Deny>
    ensures { Reads (statements.list_step (spec.type_walks (map spec.parameter list.now)) stage state.old)
        result state.new }
{
    let depth = check_names::depth(state);
    let outer = check_names::enter(alloc, state)?;
    let types = match each_parameter(alloc, state, stage, list) {
        Ok(types) => types,
        Err(why) => {
            drop(outer);
            return Err(why);
        }
    };
    match check_names::leave(state, depth, outer) {
        Ok(variables) => {
            drop(variables);
            Ok(Step::Function(types))
        }
        Err(why) => {
            drop(types);
            Err(why)
        }
    }
}

#[cycle(walk)]
fn each_parameter(
    alloc: Global,
    state: &mut State,
    stage: Stage,
    list: &[Parameter],
) -> Result<Items<CType>, Deny>
    ensures { Reads (statements.each_type (spec.type_walks (map spec.parameter list.now)) stage state.old)
        result state.new }
{
    let mut types = Items::new(alloc);
    for p in list {
        match parameter(alloc, state, stage, p) {
            Ok(t) => types = with_type(types, t)?,
            Err(why) => {
                drop(types);
                return Err(why);
            }
        }
    }
    Ok(types)
}

#[cycle(walk)]
#[tactic(auto, using(check_laws::proofs::Equations::types, check_laws::proofs::Written::forms_of))]
fn parameter(alloc: Global, state: &mut State, stage: Stage, p: &Parameter) -> Result<CType, Deny>
    ensures { Reads ((spec.parameter p.now).walk stage state.old) result state.new }
{
    let steps = declarator(alloc, state, stage, &p.declarator)?;
    let t = declared_type(alloc, Role::Parameter, p.line, base_of(p.base), steps)?;
    match declare_parameter(alloc, state, stage, p.line, &p.declarator, &t) {
        Ok(()) => Ok(t),
        Err(why) => {
            drop(t);
            Err(why)
        }
    }
}
