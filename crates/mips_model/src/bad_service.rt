//! Why a service is refused.

ghost use Rattle.std.specs.Prelude.{◌≡◌};
ghost use Rattle.mips_model.specs.Reasons.{reason_number};

use thiserror::Error;

/// Why a service is refused. Of several causes the first in the order in which the service looks is given.
#[derive(Clone, Copy, Debug, Drop, Error)]
pub enum BadService {
    /// 1: no service has the number.
    #[error("no service has this number")]
    NoService,
    /// 2: a function is begun while another one is.
    #[error("a function is begun already")]
    Begun,
    /// 3: no function is begun.
    #[error("no function is begun")]
    NotBegun,
    /// 4: there are too many parameters, or the code and its arguments stand for no builder op.
    #[error("an argument is out of its range")]
    BadArgument,
    /// 5: the builder refuses the op.
    #[error("the builder refuses the op")]
    BadOp,
    /// 6: operands or bodies are left.
    #[error("operands or bodies are left")]
    NotEmpty,
    /// 7: the words aren't words of the arena.
    #[error("the words aren't in the arena")]
    OutsideArena,
    /// 8: there is less room than the function has words.
    #[error("the words are more than there is room for")]
    Short,
    /// 9: the frame is too small or too large, or its bytes are no multiple of 4.
    #[error("the frame's size is bad")]
    BadFrame,
    /// 10: the function table has no such row, or the row may not hold this.
    #[error("a bad row of the function table")]
    BadRow,
}

impl BadService {
    /// The number of the reason, from 1 to 10.
    pub fn number(self) -> u8
        ensures { result ≡ reason_number self }
    {
        match self {
            BadService::NoService => 1,
            BadService::Begun => 2,
            BadService::NotBegun => 3,
            BadService::BadArgument => 4,
            BadService::BadOp => 5,
            BadService::NotEmpty => 6,
            BadService::OutsideArena => 7,
            BadService::Short => 8,
            BadService::BadFrame => 9,
            BadService::BadRow => 10,
        }
    }
}
