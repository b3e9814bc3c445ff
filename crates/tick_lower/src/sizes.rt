//! How many nodes the body of a function has, of which its charge of the stack is made.

ghost use Rattle.std.specs.Prelude.{◌≡◌};
ghost use Rattle.staged_meaning.specs.Size.{size_of};
ghost use Rattle.staged_meaning.specs.Scope.{IsReady};
ghost use Rattle.typed_tree.specs.View.{function_view};

use typed_tree::{Function, statement_size};

/// How many nodes the body of a function has.
#[tactic(auto, using(crate::proofs::Counted::counted))]
pub fn size(function: &Function) -> u32
    requires { IsReady (function_view function.now) }
    ensures { result ≡ size_of (function_view function.now) }
{
    statement_size(function.body.get())
}
