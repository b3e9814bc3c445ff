//! Lists with more behind them. A list that finds no memory is dropped.

ghost use Rattle.std.specs.Prelude.{◌≡◌, [], ◌∷◌, ◌++◌, IfOk};

use c_types::CType;
use check_declarators::Step;
use sqlite_items::Items;
use std::alloc::AllocError;

/// The steps, and this one behind them.
pub fn with_step(steps: Items<Step>, step: Step) -> Result<Items<Step>, AllocError>
    ensures { IfOk result (λ all. all ≡ steps ++ step ∷ []) }
{
    let mut steps = steps;
    match steps.push(step) {
        Ok(()) => Ok(steps),
        Err(why) => {
            drop(steps);
            Err(why)
        }
    }
}

/// The types, and this one behind them.
pub fn with_type(types: Items<CType>, t: CType) -> Result<Items<CType>, AllocError>
    ensures { IfOk result (λ all. all ≡ types ++ t ∷ []) }
{
    let mut types = types;
    match types.push(t) {
        Ok(()) => Ok(types),
        Err(why) => {
            drop(types);
            Err(why)
        }
    }
}
