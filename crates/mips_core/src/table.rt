//! The function table of an image.

ghost use Rattle.std.specs.Prelude.{◌≡◌, ◌+◌, ◌≤◌, ◌<◌, ℕ, length, map};
ghost use Rattle.limits.specs.declared.program.TheConstants.{MOST_FUNCTIONS};
ghost use Rattle.code_arena.specs.Kept.{rows_of};
ghost use Rattle.code_arena.specs.Rows as rows;
ghost use Rattle.mips_model.specs.Run.{row_of};

use code_arena::FunctionRows;
use image_file::FunctionEntry;

/// Publishes functions in a table that has none: they are the rows from 1 on, in their order.
pub(crate) fn number(table: &mut FunctionRows, functions: &[FunctionEntry])
    requires few { length functions.now ≤ MOST_FUNCTIONS }
    requires none { rows_of table.old ≡ rows.first }
    ensures { rows_of table.new ≡ rows.numbered (map row_of functions.now) }
{
    for (i, function) in functions.iter().enumerate() {
        table.set(i as u32 + 1, function.address, function.count);
    }
}
