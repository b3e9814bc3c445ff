//! What is checked as a node is entered: where specifications may be made and handled.

ghost use Rattle.std.specs.Prelude.{◌≡◌};
ghost use Rattle.tick_tree.specs.Faults.{Checks};
ghost use Rattle.check_rules.specs.Entries as spec;

use check_rules::Stage;
use tick_tree::{Deny, FaultKind, UnaryOp, refused};

/// Enters a backquote. Refused in a tick: NestedTick.
pub fn tick_entry(line: u32, stage: Stage) -> Result<(), Deny>
    ensures { Checks result (spec.tick_entry line stage) }
{
    match stage {
        Stage::Function => Ok(()),
        Stage::Tick | Stage::Dollar => refused(FaultKind::NestedTick, line),
    }
}

/// Enters `compile`, `local` or `param`. Refused in a tick: StageInTick.
pub fn staging_entry(line: u32, stage: Stage) -> Result<(), Deny>
    ensures { Checks result (spec.staging_entry line stage) }
{
    match stage {
        Stage::Function => Ok(()),
        Stage::Tick | Stage::Dollar => refused(FaultKind::StageInTick, line),
    }
}

/// Enters `$`; the stage of its operand. Refused outside of a tick and in the operand of another `$`: DollarOutside.
pub fn dollar_entry(line: u32, stage: Stage) -> Result<Stage, Deny>
    ensures { Checks result (spec.dollar_entry line stage) }
{
    match stage {
        Stage::Tick => Ok(Stage::Dollar),
        Stage::Function | Stage::Dollar => refused(FaultKind::DollarOutside, line),
    }
}

/// Enters an operator before its operand; the stage of the operand. Refused as `dollar_entry` refuses a `$`.
pub fn unary_entry(line: u32, op: UnaryOp, stage: Stage) -> Result<Stage, Deny>
    ensures { Checks result (spec.unary_entry line op stage) }
{
    match op {
        UnaryOp::Dollar => dollar_entry(line, stage),
        _ => Ok(stage),
    }
}
