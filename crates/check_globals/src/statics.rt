//! Initializers at file scope.

ghost use Rattle.std.specs.Prelude.{◌≡◌, ◌++◌, ◌∷◌, [], IfOk, is_some, length};
ghost use Rattle.check_forms.specs.Forms as forms;
ghost use Rattle.check_globals.specs.Statics as spec;
ghost use Rattle.check_operands.specs.Operands as operands;
ghost use Rattle.check_rules.specs.Walks.{Reads};

use c_type_refs::TypeRef;
use c_types::{Base, Integer, Layer};
use check_forms::has_form;
use check_operands::{Operand, Value, value_of};
use check_rules::{State, has_size, is_array, is_string, lower, value_breaks};
use check_types::{is_pointer, width_of};
use meaning_operators::constant_value;
use sqlite_items::Items;
use std::alloc::{AllocError, Global};
use tick_tree::{Deny, Expr, FaultKind, refused};
use word32::Width;

fn bytes_of(alloc: Global, width: Width, n: u32) -> Result<Items<u8>, AllocError>
    ensures { IfOk result (λ bytes. bytes ≡ spec.bytes_of width n) }
{
    let third = (n / 256 % 256) as u8;
    let fourth = (n % 256) as u8;
    match width {
        Width::SignedByte | Width::Byte => Items::from_slice(alloc, &[fourth]),
        Width::SignedHalf | Width::Half => Items::from_slice(alloc, &[third, fourth]),
        Width::Word => {
            let first = (n / 16777216 % 256) as u8;
            let second = (n / 65536 % 256) as u8;
            Items::from_slice(alloc, &[first, second, third, fourth])
        }
    }
}

fn fill(alloc: Global, state: &mut State, at: u32, bytes: Items<u8>) -> Result<(), Deny>
    ensures { Reads (spec.fill at bytes state.old) result state.new }
{
    Ok(state.image.fill(alloc, at, bytes)?)
}

fn is_text_pointer(t: &TypeRef) -> bool
    ensures { result ≡ spec.is_text_pointer t.now }
{
    t.layers().len() == 1 && is_pointer(t) && matches!(t.base(), Base::Integer(Integer::Char))
}

fn static_word(has_form: bool, is_string: bool, v: &Value, t: &TypeRef) -> Result<u32, FaultKind>
    ensures { result ≡ spec.static_word has_form is_string v.now t.now }
{
    if let Some(kind) = value_breaks(v, t) {
        return Err(kind);
    }
    if !(has_form || is_string && is_text_pointer(t)) {
        return Err(FaultKind::BadOperand);
    }
    match constant_value(v.code.get()) {
        None => Err(FaultKind::BadOperand),
        Some(n) => Ok(n),
    }
}

// The word that an operand gives the static variable of this type; e is its expression.
fn word_of(
    alloc: Global,
    t: &TypeRef,
    e: &Expr,
    o: Operand,
) -> Result<Result<u32, FaultKind>, AllocError>
    ensures { IfOk result (λ word.
        word ≡ spec.static_word (forms.has_form e.now) (is_some (forms.string_of e.now)) (operands.value_of o) t.now) }
{
    let v = value_of(alloc, o)?;
    Ok(static_word(has_form(e), is_string(e), &v, t))
}

/// Gives the global at this place, which has this type, a value; e is its expression. Refused: BadArray where the type
/// has no size, VoidValue alone, TypeMismatch, BadOperand where it is neither a constant nor a string for `char *`.
#[tactic(auto, unfolding(crate::specs::Statics::static_value))]
pub fn static_value(
    alloc: Global,
    state: &mut State,
    line: u32,
    at: u32,
    t: &TypeRef,
    e: &Expr,
    o: Operand,
) -> Result<(), Deny>
    ensures { Reads (spec.static_value line at t.now (forms.has_form e.now) (is_some (forms.string_of e.now)) o
        state.old) result state.new }
{
    let word = word_of(alloc, t, e, o)?;
    if !has_size(t) {
        return refused(FaultKind::BadArray, line);
    }
    match word {
        Err(kind) => refused(kind, line),
        Ok(n) => {
            let bytes = bytes_of(alloc, width_of(t), n)?;
            fill(alloc, state, at, bytes)
        }
    }
}

fn elements_of(t: &TypeRef) -> u32
    ensures { result ≡ spec.elements_of t.now }
{
    match t.outermost() {
        Some(Layer::Array(count)) => *count,
        _ => 0,
    }
}

fn lacks_room(count: usize, t: &TypeRef) -> bool
    ensures { result ≡ spec.lacks_room count t.now }
{
    !has_size(t) || (elements_of(t) as usize) < count
}

fn with_zero(alloc: Global, bytes: &[u8]) -> Result<Items<u8>, AllocError>
    ensures { IfOk result (λ all. all ≡ bytes.now ++ 0 ∷ []) }
{
    let mut all = Items::from_slice(alloc, bytes)?;
    all.push(0)?;
    Ok(all)
}

/// Gives the array of char at this place a string, with its zero byte. Refused where it is too long or the array too
/// large: BadArray.
#[tactic(auto, unfolding(crate::specs::Statics::static_text))]
pub fn static_text(
    alloc: Global,
    state: &mut State,
    line: u32,
    at: u32,
    t: &TypeRef,
    bytes: &[u8],
) -> Result<(), Deny>
    ensures { Reads (spec.static_text line at t.now bytes.now state.old) result state.new }
{
    let all = with_zero(alloc, bytes)?;
    if lacks_room(all.len(), t) {
        return refused(FaultKind::BadArray, line);
    }
    fill(alloc, state, at, all)
}

/// The values of a list so far.
#[derive(Drop)]
pub struct Row {
    /// The rule of the lowest number that they break.
    pub broken: Option<FaultKind>,
    /// The bytes of those that break none.
    pub bytes: Items<u8>,
}

impl Row {
    /// Before the values, for a variable of this type: no array takes a list but an array.
    pub fn new(alloc: Global, t: &TypeRef) -> Row
        ensures { result ≡ spec.row_begun t.now }
    {
        let broken = if is_array(t) {
            None
        } else {
            Some(FaultKind::TypeMismatch)
        };
        Row {
            broken,
            bytes: Items::new(alloc),
        }
    }

    /// One value more, by the type of an element; e is its expression.
    #[tactic(auto, unfolding(crate::specs::Statics::row_more))]
    pub fn more(self, alloc: Global, t: &TypeRef, e: &Expr, o: Operand) -> Result<Row, AllocError>
        ensures { IfOk result (λ row. row ≡
            spec.row_more t.now (forms.has_form e.now) (is_some (forms.string_of e.now)) o self) }
    {
        let word = word_of(alloc, t, e, o)?;
        let Row { broken, mut bytes } = self;
        match word {
            Err(kind) => Ok(Row {
                broken: lower(broken, Some(kind)),
                bytes,
            }),
            Ok(n) => {
                bytes.append(bytes_of(alloc, width_of(t), n)?)?;
                Ok(Row { broken, bytes })
            }
        }
    }
}

fn row_breaks(count: usize, t: &TypeRef, row: &Row) -> Option<FaultKind>
    ensures { result ≡ spec.row_breaks count t.now row.now }
{
    if !has_size(t) {
        Some(FaultKind::BadArray)
    } else if (elements_of(t) as usize) < count {
        lower(row.broken, Some(FaultKind::BadArray))
    } else {
        row.broken
    }
}

/// Gives the global at this place, which has this type, a list of so many values. Refused: TypeMismatch where it is no
/// array, BadArray where the list is too long or the array too large, or what its values break.
#[tactic(auto, unfolding(crate::specs::Statics::static_list))]
pub fn static_list(
    alloc: Global,
    state: &mut State,
    line: u32,
    at: u32,
    t: &TypeRef,
    list: &[Expr],
    row: Row,
) -> Result<(), Deny>
    ensures { Reads (spec.static_list line at t.now (length list.now) row state.old) result state.new }
{
    match row_breaks(list.len(), t, &row) {
        Some(kind) => refused(kind, line),
        None => fill(alloc, state, at, row.bytes),
    }
}
