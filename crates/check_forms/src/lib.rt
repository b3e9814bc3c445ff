//! What the rules of a node ask of the way in which a part of it is written.
#![tactic(auto)]

ghost use Rattle.std.specs.Prelude.{◌≡◌};
ghost use Rattle.std.specs.Option.{option_copied};
ghost use Rattle.check_forms.specs.Forms as spec;

use sqlite_items::Items;
use tick_tree::{
    Base, BinaryOp, Core, Declarator, Expr, Name, Parameter, Prefix, Suffix, Typename,
};

fn is_strict(op: BinaryOp) -> bool
    ensures { result ≡ spec.is_strict op }
{
    !matches!(op, BinaryOp::And | BinaryOp::Or)
}

fn is_some_type(base: Base) -> bool
    ensures { result ≡ spec.is_some_type base }
{
    !matches!(base, Base::Void)
}

fn no_prefixes(prefixes: &[Prefix]) -> bool
    ensures { result ≡ spec.is_nil prefixes.now }
{
    prefixes.is_empty()
}

fn no_suffixes(suffixes: &[Suffix]) -> bool
    ensures { result ≡ spec.is_nil suffixes.now }
{
    suffixes.is_empty()
}

// Whether a declarator changes nothing of its base.
#[cycle(plain)]
#[tactic(auto, using(crate::proofs::Nodes::by_declarator))]
fn is_plain(d: &Declarator) -> bool
    ensures { result ≡ (spec.declared d.now).plain }
{
    no_prefixes(d.prefixes.as_slice())
        && is_plain_core(&d.core)
        && no_suffixes(d.suffixes.as_slice())
}

#[cycle(plain)]
#[tactic(auto, using(crate::proofs::Nodes::cores))]
fn is_plain_core(core: &Core) -> bool
    ensures { result ≡ (spec.declared_core core.now).plain }
{
    match core {
        Core::Absent | Core::Name(_, _) => true,
        Core::Paren(d) => is_plain(d.get()),
    }
}

#[tactic(auto, using(crate::proofs::Nodes::by_typename))]
fn is_integer_name(t: &Typename) -> bool
    ensures { result ≡ spec.is_integer_name t.now }
{
    is_some_type(t.base) && is_plain(&t.declarator)
}

/// Whether an expression has the form of a constant expression: numbers, characters, `sizeof`, casts to integers, unary
/// and binary operators but `&&`, `||` and `,`.
#[tactic(auto, using(crate::proofs::Nodes::expressions))]
pub fn has_form(e: &Expr) -> bool
    ensures { result ≡ spec.has_form e.now }
{
    match e {
        Expr::Number(_, _) | Expr::Character(_) | Expr::Sizeof(_, _) => true,
        Expr::Paren(a) | Expr::Unary(_, _, a) => has_form(a.get()),
        Expr::Cast(_, t, a) => is_integer_name(t.get()) && has_form(a.get()),
        Expr::Binary(_, op, p) => {
            let (a, b) = p.get();
            is_strict(*op) && has_form(a) && has_form(b)
        }
        Expr::Name(_, _) | Expr::String(_) | Expr::Compile(_, _, _) | Expr::Local(_, _) => false,
        Expr::Param(_, _, _) | Expr::Index(_, _) | Expr::Call(_, _, _) => false,
        Expr::Step(_, _, _) | Expr::Tick(_, _) | Expr::TickBlock(_, _) => false,
        Expr::Choice(_, _, _, _) | Expr::Assign(_, _) => false,
        Expr::Modify(_, _, _) | Expr::Comma(_, _) => false,
    }
}

/// The plain name that an expression is, also in parentheses.
#[tactic(auto, using(crate::proofs::Nodes::expressions))]
pub fn name_of(e: &Expr) -> Option<&Name>
    ensures { option_copied result ≡ spec.name_of e.now }
{
    match e {
        Expr::Name(_, name) => Some(name),
        Expr::Paren(a) => name_of(a.get()),
        Expr::Number(_, _) | Expr::Character(_) | Expr::Sizeof(_, _) => None,
        Expr::Unary(_, _, _) | Expr::Cast(_, _, _) | Expr::Binary(_, _, _) => None,
        Expr::String(_) | Expr::Compile(_, _, _) | Expr::Local(_, _) => None,
        Expr::Param(_, _, _) | Expr::Index(_, _) | Expr::Call(_, _, _) => None,
        Expr::Step(_, _, _) | Expr::Tick(_, _) | Expr::TickBlock(_, _) => None,
        Expr::Choice(_, _, _, _) | Expr::Assign(_, _) => None,
        Expr::Modify(_, _, _) | Expr::Comma(_, _) => None,
    }
}

/// The string that an expression is, also in parentheses.
#[tactic(auto, using(crate::proofs::Nodes::expressions))]
pub fn string_of(e: &Expr) -> Option<&Items<u8>>
    ensures { option_copied result ≡ spec.string_of e.now }
{
    match e {
        Expr::String(bytes) => Some(bytes),
        Expr::Paren(a) => string_of(a.get()),
        Expr::Number(_, _) | Expr::Character(_) | Expr::Sizeof(_, _) => None,
        Expr::Unary(_, _, _) | Expr::Cast(_, _, _) | Expr::Binary(_, _, _) => None,
        Expr::Name(_, _) | Expr::Compile(_, _, _) | Expr::Local(_, _) => None,
        Expr::Param(_, _, _) | Expr::Index(_, _) | Expr::Call(_, _, _) => None,
        Expr::Step(_, _, _) | Expr::Tick(_, _) | Expr::TickBlock(_, _) => None,
        Expr::Choice(_, _, _, _) | Expr::Assign(_, _) => None,
        Expr::Modify(_, _, _) | Expr::Comma(_, _) => None,
    }
}

fn is_staged_prefix(prefix: Prefix) -> bool
    ensures { result ≡ spec.is_staged_prefix prefix }
{
    matches!(prefix, Prefix::Cspec | Prefix::Vspec)
}

fn any_staged_prefix(prefixes: &[Prefix]) -> bool
    ensures { result ≡ spec.any_staged_prefix prefixes.now }
{
    for prefix in prefixes {
        if is_staged_prefix(*prefix) {
            return true;
        }
    }
    false
}

/// Whether a cspec or vspec is written in a declarator, in its lists of parameters too.
#[cycle(staged)]
#[tactic(auto, using(crate::proofs::Nodes::staged_declarator))]
pub fn is_staged(d: &Declarator) -> bool
    ensures { result ≡ spec.is_staged d.now }
{
    any_staged_prefix(d.prefixes.as_slice())
        || is_staged_core(&d.core)
        || any_staged_suffix(d.suffixes.as_slice())
}

#[cycle(staged)]
#[tactic(auto, using(crate::proofs::Nodes::cores))]
fn is_staged_core(core: &Core) -> bool
    ensures { result ≡ (spec.declared_core core.now).staged }
{
    match core {
        Core::Absent | Core::Name(_, _) => false,
        Core::Paren(d) => is_staged(d.get()),
    }
}

#[cycle(staged)]
fn any_staged_suffix(suffixes: &[Suffix]) -> bool
    ensures { result ≡ spec.any_staged_suffix suffixes.now }
{
    for suffix in suffixes {
        if is_staged_suffix(suffix) {
            return true;
        }
    }
    false
}

#[cycle(staged)]
#[tactic(auto, using(crate::proofs::Nodes::suffixes))]
fn is_staged_suffix(suffix: &Suffix) -> bool
    ensures { result ≡ spec.is_staged_suffix suffix.now }
{
    match suffix {
        Suffix::Array(_) | Suffix::Unlisted | Suffix::Nothing => false,
        Suffix::Listed(list) => any_staged_parameter(list.as_slice()),
    }
}

#[cycle(staged)]
fn any_staged_parameter(parameters: &[Parameter]) -> bool
    ensures { result ≡ spec.any_staged_parameter parameters.now }
{
    for parameter in parameters {
        if is_staged_parameter(parameter) {
            return true;
        }
    }
    false
}

#[cycle(staged)]
#[tactic(auto, using(crate::proofs::Nodes::staged_parameter))]
fn is_staged_parameter(parameter: &Parameter) -> bool
    ensures { result ≡ spec.is_staged_parameter parameter.now }
{
    is_staged(&parameter.declarator)
}

/// The name that a declarator declares, with the line where it stands.
#[cycle(named)]
#[tactic(auto, using(crate::proofs::Nodes::name_by_core))]
pub fn declared_name(d: &Declarator) -> Option<(u32, &Name)>
    ensures { spec.lent result ≡ spec.declared_name d.now }
{
    core_name(&d.core)
}

#[cycle(named)]
#[tactic(auto, using(crate::proofs::Nodes::cores))]
fn core_name(core: &Core) -> Option<(u32, &Name)>
    ensures { spec.lent result ≡ (spec.declared_core core.now).name }
{
    match core {
        Core::Absent => None,
        Core::Name(line, name) => Some((*line, name)),
        Core::Paren(d) => declared_name(d.get()),
    }
}
