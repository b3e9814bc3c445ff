//! The length that an initializer gives an array: how many values it has, or the bytes of its string with the zero
//! byte.

ghost use Rattle.std.specs.Prelude.{◌≡◌, ◌+◌, min, length};
ghost use Rattle.check_declarators.specs.Steps.{filled};
ghost use Rattle.check_forms.specs.Forms as forms;
ghost use Rattle.check_rules.specs.Declarations as spec;
ghost use Rattle.check_rules.specs.Walk as walks;

use check_declarators::{Step, fill_length};
use check_forms::string_of;
use sqlite_items::Items;
use tick_tree::{Expr, Initializer};

fn string_length(bytes: &Items<u8>) -> u32
    ensures { result ≡ min (length bytes.now + 1) 4294967295 }
{
    bytes.len().min(4294967294) as u32 + 1
}

// The steps with the length that a value gives, where the array lacks one: that of a string with its zero byte, else 1.
fn with_value(steps: Items<Step>, e: &Expr) -> Items<Step>
    ensures { result ≡ filled (spec.value_count (forms.string_of e.now)) steps }
{
    match string_of(e) {
        None => fill_length(steps, 1),
        Some(bytes) => fill_length(steps, string_length(bytes)),
    }
}

// The steps with the length that a list of values gives, where the array lacks one.
fn with_list(steps: Items<Step>, list: &[Expr]) -> Items<Step>
    ensures { result ≡ filled (spec.list_count list.now) steps }
{
    fill_length(steps, list.len().min(4294967295) as u32)
}

/// The steps with the count of an initializer's values, where the array lacks a length.
#[tactic(auto, using(check_laws::proofs::Equations::initializers, check_laws::proofs::Written::forms_of, check_laws::proofs::Loops::same_count))]
pub fn with_start(steps: Items<Step>, value: &Initializer) -> Items<Step>
    ensures { result ≡ walks.with_start (walks.initializer value.now) steps }
{
    match value {
        Initializer::Absent => steps,
        Initializer::Value(e) => with_value(steps, e),
        Initializer::List(list, _) => with_list(steps, list.as_slice()),
    }
}
