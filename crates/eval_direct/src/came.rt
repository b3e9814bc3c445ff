//! What came of an evaluation on the host's stack.

ghost use Rattle.std.specs.Prelude.{◌≡◌};
ghost use Rattle.eval_direct.specs.Came.{HasMore, HasMoreItems};
ghost use Rattle.eval_direct.specs.declared.came.Came.TheVariants.{Later};

use eval_state::{Entry, Now};
use sqlite_items::Items;

/// What came of an expression.
#[derive(Clone, Copy)]
pub enum Came {
    /// It gave a value.
    Value(u32),
    /// It can't go on here: what is done next, and what waits for that, is kept.
    Later,
    /// Memory is wanting.
    NoMemory,
}

/// What came of a statement.
#[derive(Clone, Copy)]
pub enum Went {
    /// It ran to its end.
    Through,
    /// Its function was left with a value.
    Returned(u32),
    /// It can't go on here: what is done next, and what waits for that, is kept.
    Later,
    /// Memory is wanting.
    NoMemory,
}

/// Where an evaluation on the host's stack can't go on.
#[derive(Drop)]
pub struct Late<'a> {
    /// What is done next.
    pub next: Now<'a>,
    /// What waits for it, the innermost first.
    pub entries: Items<Entry<'a>>,
}

/// This is done next.
#[inline(always)]
pub(crate) fn later<'a>(late: &mut Late<'a>, next: Now<'a>) -> Came
    ensures came { result ≡ Later }
    ensures told { late.new.next ≡ next.entry }
    ensures still { late.new.entries ≡ late.old.entries }
{
    late.next = next;
    Came::Later
}

/// An entry more waits.
#[inline(never)]
pub(crate) fn waits<'a>(late: &mut Late<'a>, entry: Entry<'a>) -> Came
    ensures { HasMore result entry.entry late.old late.new }
{
    match late.entries.push(entry) {
        Ok(()) => Came::Later,
        Err(_) => Came::NoMemory,
    }
}

/// The same, of a statement.
#[inline(never)]
pub(crate) fn rests<'a>(late: &mut Late<'a>, entry: Entry<'a>) -> Went
    ensures { HasMoreItems result entry.entry late.old late.new }
{
    match late.entries.push(entry) {
        Ok(()) => Went::Later,
        Err(_) => Went::NoMemory,
    }
}
