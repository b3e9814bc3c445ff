//! The ops of a function, and how much of the stack it takes.

ghost use Rattle.std.specs.Prelude.{◌≡◌, ◌≤◌, List, OnOk};
ghost use Rattle.icode_ir.specs.Build.{empty};
ghost use Rattle.icode_ir.specs.Runs.{run_ops};
ghost use Rattle.icode_ir.specs.declared.builder.Phase.TheVariants.{Finished};
ghost use Rattle.staged_meaning.specs.Scope.{IsReadyIn};
ghost use Rattle.staged_meaning.specs.Size.{size_of, charge_of};
ghost use Rattle.static_backend.specs.Calls as calls;
ghost use Rattle.tick_lower.specs.Viewed.{addresses_view};
ghost use Rattle.tick_lower_spec.specs.Lower.{function_ops};
ghost use Rattle.typed_tree.specs.Nodes as node;
ghost use Rattle.typed_tree.specs.declared.expression.CaptureKind.{CaptureKind};
ghost use Rattle.typed_tree.specs.View.{function_view};
ghost use Rattle.word32.specs.declared.map.TheConstants.{STACK_BYTES};

use crate::lowered::lower;
use icode_ir::Builder;
use icode_ops::Op;
use limits::run::{STACK_OF_A_CALL, STACK_OF_A_NODE};
use std::alloc::{AllocError, Global};
use tick_lower::{Addresses, size};
use tick_lower_proof::lowering_is_accepted;
use typed_tree::Function;

/// Makes a builder, whatever it had before, a finished one that has the ops of a function. A call of a static function
/// whose address isn't known yet goes to 0, and so does the making of a tick whose function isn't.
///
/// # Errors
/// Where memory is wanting.
pub fn build_ops(
    alloc: Global,
    builder: &mut Builder,
    addresses: &Addresses<'_>,
    function: &Function,
) -> Result<(), AllocError>
    requires { (functions : List node.Function) × (captures : List (List CaptureKind)) ×
        IsReadyIn functions captures (function_view function.now) }
    ensures { OnOk result (builder.new ≡ record {
      build = run_ops (function_ops (addresses_view addresses.now) (function_view function.now))
          (empty function.now.params);
      phase = Finished;
    }) }
{
    builder.begin(function.params);
    lower(alloc, addresses, function, builder)?;
    lowering_is_accepted();
    match builder.finish() {
        Ok(()) => Ok(()),
        Err(_) => unreachable!(),
    }
}

/// How many bytes a function takes from the stack.
pub fn charge(function: &Function) -> u32
    requires { (functions : List node.Function) × (captures : List (List CaptureKind)) ×
        IsReadyIn functions captures (function_view function.now) }
    ensures charge { result ≡ charge_of (size_of (function_view function.now)) }
    ensures most { result ≤ STACK_BYTES }
{
    STACK_OF_A_CALL + STACK_OF_A_NODE * size(function)
}

// Whether an op names a function whose address isn't known yet.
fn goes_nowhere(op: Op) -> bool
    ensures { result ≡ calls.goes_nowhere op }
{
    match op {
        Op::Call { address } => address.get() == 0,
        Op::New { address, .. } => address == 0,
        _ => false,
    }
}

/// Whether the ops name a function whose address isn't known yet.
pub fn calls_unknown(ops: &[Op]) -> bool
    ensures { result ≡ calls.calls_unknown ops.now }
{
    ops.iter().any(|op| goes_nowhere(*op))
}
