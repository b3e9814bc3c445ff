//! What calls are charged.

ghost use Rattle.std.specs.Prelude.{◌≡◌, ◌≤◌};
ghost use Rattle.staged_meaning.specs.Size.{charge_of};

use limits::program::SIZE_LIMIT;
use limits::run::{STACK_OF_A_CALL, STACK_OF_A_NODE};

/// What a call is charged, in bytes, by the size of its function.
pub fn charge_of(size: u32) -> u32
    requires { size ≤ SIZE_LIMIT }
    ensures { result ≡ charge_of size }
{
    STACK_OF_A_CALL + STACK_OF_A_NODE * size
}
