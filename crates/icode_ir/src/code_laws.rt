//! Laws of the numbers. Each function does nothing: its contract is the law, so that callers have it by a call.

ghost use Rattle.icode_ir.specs.CodeLaws.{CodesAreReadBack, OpsAreServed};

/// An op that code may ask for during a run is read back from its numbers.
pub fn codes_are_read_back()
    ensures { CodesAreReadBack }
{}

/// Each op that numbers stand for is one that code may ask for, under its own code.
pub fn ops_are_served()
    ensures { OpsAreServed }
{}
