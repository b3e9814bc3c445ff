//! The services that SYSCALL offers.
ghost use Rattle.std.specs.Prelude.{◌≡◌};
ghost use Rattle.mips_model.specs.Services.{service_of};

/// A service, by the number in `$v0`. Its arguments are in `$a0` to `$a2`, and its answer goes to `$v0`.
#[derive(Clone, Copy, PartialEq, Eq)]
pub enum Service {
    /// Number 1: writes the argument in signed decimal, and answers it.
    PutInt,
    /// Number 10: ends the run with the argument modulo 256.
    Exit,
    /// Number 11: writes the argument modulo 256 as a byte, and answers that byte.
    PutByte,
    /// Number 12: answers the next byte of the input, or -1 at its end.
    GetByte,
    /// Number 64: begins a function of so many parameters; answers 0.
    Begin,
    /// Number 65: builds the op of a code and two arguments; answers 0.
    Emit,
    /// Number 66: finishes the function: at most so many words (the second argument) from an address on (the first),
    /// with a frame of so many bytes (the third); answers how many words they are.
    Finish,
    /// Number 67: flushes so many words of the arena (the second argument) from an address on (the first); answers 0.
    Flush,
    /// Number 68: publishes a row (the first argument) with an address and a count of parameters; answers 0.
    Publish,
}

impl Service {
    /// The service of a number; None where no service has it.
    pub fn from_number(number: u32) -> Option<Service>
        ensures { result ≡ service_of number }
    {
        match number {
            1 => Some(Service::PutInt),
            10 => Some(Service::Exit),
            11 => Some(Service::PutByte),
            12 => Some(Service::GetByte),
            64 => Some(Service::Begin),
            65 => Some(Service::Emit),
            66 => Some(Service::Finish),
            67 => Some(Service::Flush),
            68 => Some(Service::Publish),
            _ => None,
        }
    }
}
