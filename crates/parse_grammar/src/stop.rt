//! Why no tree is read.

use std::alloc::AllocError;
use thiserror::Error;

/// Why a production isn't read. A refusal counts the tokens from the refused one on.
#[derive(Clone, Copy, Debug, Error)]
pub enum Stop {
    /// Memory was not found.
    #[error("memory was not found")]
    NoMemory,
    /// No production takes the token.
    #[error("no production takes the token")]
    Syntax(usize),
    /// The token nests too deep.
    #[error("the token nests too deep")]
    TooDeep(usize),
}

impl From<AllocError> for Stop {
    ghost use Rattle.std.specs.Prelude.{◌≡◌};
    ghost use Rattle.parse_grammar.specs.declared.stop.Stop.TheVariants.{NoMemory};

    ghost from_gives = { λ _ e. e ≡ NoMemory };

    fn from(_: AllocError) -> Stop {
        Stop::NoMemory
    }
}
