//! Initializers in a block.

ghost use Rattle.std.specs.Prelude.{◌≡◌, IfOk};
ghost use Rattle.tick_tree.specs.Faults.{Checks};
ghost use Rattle.check_types.specs.Shapes.{inner};
ghost use Rattle.check_rules.specs.Initializers as spec;
ghost use Rattle.check_rules.specs.Statements as statements;

use c_type_refs::TypeRef;
use c_types::{Base, Integer};
use check_operands::{Operand, Value, effect, value_of};
use check_rules::{has_size, is_array, lower, value_breaks};
use check_types::inner;
use sqlite_items::Items;
use std::alloc::{AllocError, Global};
use tick_tree::{Deny, FaultKind, refused};
use typed_tree::Stmt;

fn is_char(base: Base) -> bool
    ensures { result ≡ spec.is_char base }
{
    matches!(base, Base::Integer(Integer::Char))
}

/// Whether a type is an array of char.
pub fn is_text(t: &TypeRef) -> bool
    ensures { result ≡ spec.is_text t.now }
{
    is_array(t) && t.layers().len() == 1 && is_char(t.base())
}

fn lowest(broken: Option<FaultKind>, kind: FaultKind) -> FaultKind
    ensures { result ≡ spec.lowest broken kind }
{
    match broken {
        None => kind,
        Some(other) => {
            if kind.number() < other.number() {
                kind
            } else {
                other
            }
        }
    }
}

fn array_breaks(is_string: bool, v: &Value, t: &TypeRef) -> FaultKind
    ensures { result ≡ spec.array_breaks is_string v.now t.now }
{
    if !has_size(t) || is_string && is_text(t) {
        FaultKind::BadArray
    } else {
        lowest(value_breaks(v, t), FaultKind::BadArray)
    }
}

// Makes the list of the one node of an initializer.
fn evaluated(alloc: Global, set: Operand) -> Result<Items<Stmt>, AllocError>
    ensures { IfOk result (λ nodes. nodes ≡ statements.alone set) }
{
    let code = effect(alloc, set)?;
    let mut nodes = Items::new(alloc);
    nodes.push(Stmt::Eval(code))?;
    Ok(nodes)
}

#[tactic(auto, unfolding(check_rules::specs::Initializers::initialized))]
fn initialized(alloc: Global, line: u32, place: Operand, o: Operand) -> Result<Items<Stmt>, Deny>
    ensures { Checks result (spec.initialized line place o) }
{
    let v = value_of(alloc, o)?;
    let set = check_nodes::assign(alloc, line, place, v)?;
    Ok(evaluated(alloc, set)?)
}

/// The nodes of a variable's initializer by one value, which is a string or not: an assignment, refused as
/// `check_nodes::assign`. An array is refused: BadArray, or what the value breaks.
#[tactic(auto, unfolding(check_rules::specs::Initializers::from_value))]
pub fn from_value(
    alloc: Global,
    line: u32,
    place: Operand,
    is_string: bool,
    o: Operand,
) -> Result<Items<Stmt>, Deny>
    ensures { Checks result (spec.from_value line place is_string o) }
{
    if !is_array(&place.ctype) {
        return initialized(alloc, line, place, o);
    }
    let v = value_of(alloc, o)?;
    refused(array_breaks(is_string, &v, &place.ctype), line)
}

/// What the values of a list break as elements of this type, with one more.
#[tactic(auto, unfolding(check_rules::specs::Initializers::element))]
pub fn element(
    alloc: Global,
    o: Operand,
    t: &TypeRef,
    broken: Option<FaultKind>,
) -> Result<Option<FaultKind>, AllocError>
    ensures { IfOk result (λ found. found ≡ spec.element o t.now broken) }
{
    let v = value_of(alloc, o)?;
    Ok(lower(broken, value_breaks(&v, t)))
}

fn list_breaks(is_row: bool, is_sized: bool, broken: Option<FaultKind>) -> FaultKind
    ensures { result ≡ spec.list_breaks is_row is_sized broken }
{
    if is_row && is_sized {
        lowest(broken, FaultKind::BadArray)
    } else if is_row {
        FaultKind::BadArray
    } else {
        FaultKind::TypeMismatch
    }
}

/// A variable's initializer by a list of values, which break this; whether the variable is an array, and whether its
/// type has a size, is said. Refused: TypeMismatch where it is none, BadArray where it has no size, else BadArray or
/// what the values break.
pub fn from_list(
    line: u32,
    is_row: bool,
    is_sized: bool,
    broken: Option<FaultKind>,
) -> Result<Items<Stmt>, Deny>
    ensures { Checks result (spec.from_list line is_row is_sized broken) }
{
    refused(list_breaks(is_row, is_sized, broken), line)
}

/// The type of the elements of a place.
pub fn inner_of(place: Operand) -> TypeRef
    ensures { result ≡ inner place.ctype }
{
    let Operand {
        place: at,
        ctype,
        zero: _,
    } = place;
    drop(at);
    inner(ctype)
}
