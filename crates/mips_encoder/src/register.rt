//! The general registers, by number and by their usual names.

ghost use Rattle.std.specs.Prelude.{◌≡◌, ℕ, ◌<◌, cond, nat_lt, Some, None};

use std::marker::Model;

/// The number of a general register, from 0 to 31.
#[derive(Clone, Copy, PartialEq, Eq)]
pub struct Register {
    number: u32,
}

impl Model for Register {
    ghost Value = { ℕ };

    ghost view = { λ r. r.number };

    ghost invariant = { λ r. r.number < 32 };

    ghost inverse = { λ n. record { number = n } };
}

impl Register {
    /// `$0`, which reads as 0.
    pub const ZERO: Register = Register { number: 0 };
    /// `$at`, for an assembler's own use.
    pub const AT: Register = Register { number: 1 };
    /// `$v0`, a result, or the number of a service.
    pub const V0: Register = Register { number: 2 };
    /// `$v1`, a second result.
    pub const V1: Register = Register { number: 3 };
    /// `$a0`, an argument.
    pub const A0: Register = Register { number: 4 };
    /// `$a1`, an argument.
    pub const A1: Register = Register { number: 5 };
    /// `$a2`, an argument.
    pub const A2: Register = Register { number: 6 };
    /// `$a3`, an argument.
    pub const A3: Register = Register { number: 7 };
    /// `$t0`, a temporary.
    pub const T0: Register = Register { number: 8 };
    /// `$t1`, a temporary.
    pub const T1: Register = Register { number: 9 };
    /// `$t2`, a temporary.
    pub const T2: Register = Register { number: 10 };
    /// `$t3`, a temporary.
    pub const T3: Register = Register { number: 11 };
    /// `$t4`, a temporary.
    pub const T4: Register = Register { number: 12 };
    /// `$t5`, a temporary.
    pub const T5: Register = Register { number: 13 };
    /// `$t6`, a temporary.
    pub const T6: Register = Register { number: 14 };
    /// `$t7`, a temporary.
    pub const T7: Register = Register { number: 15 };
    /// `$s0`, a register that calls keep.
    pub const S0: Register = Register { number: 16 };
    /// `$s1`, a register that calls keep.
    pub const S1: Register = Register { number: 17 };
    /// `$s2`, a register that calls keep.
    pub const S2: Register = Register { number: 18 };
    /// `$s3`, a register that calls keep.
    pub const S3: Register = Register { number: 19 };
    /// `$s4`, a register that calls keep.
    pub const S4: Register = Register { number: 20 };
    /// `$s5`, a register that calls keep.
    pub const S5: Register = Register { number: 21 };
    /// `$s6`, a register that calls keep.
    pub const S6: Register = Register { number: 22 };
    /// `$s7`, a register that calls keep.
    pub const S7: Register = Register { number: 23 };
    /// `$t8`, a temporary.
    pub const T8: Register = Register { number: 24 };
    /// `$t9`, a temporary.
    pub const T9: Register = Register { number: 25 };
    /// `$k0`, kept for a kernel.
    pub const K0: Register = Register { number: 26 };
    /// `$k1`, kept for a kernel.
    pub const K1: Register = Register { number: 27 };
    /// `$gp`, the global pointer.
    pub const GP: Register = Register { number: 28 };
    /// `$sp`, the stack pointer.
    pub const SP: Register = Register { number: 29 };
    /// `$fp`, the frame pointer.
    pub const FP: Register = Register { number: 30 };
    /// `$ra`, which JAL, BLTZAL and BGEZAL link.
    pub const RA: Register = Register { number: 31 };

    /// The register with this number.
    #[inline]
    pub fn new(number: u32) -> Self
        requires { number < 32 }
        ensures { result ≡ number }
    {
        Register { number }
    }

    /// The register with this number, or None where the number is over 31.
    pub fn checked(number: u32) -> Option<Self>
        ensures { result ≡ cond (nat_lt number 32) (Some number) None }
    {
        if number < 32 {
            Some(Register::new(number))
        } else {
            None
        }
    }

    /// The register's number.
    #[inline]
    pub fn number(self) -> u32
        ensures value { result ≡ self }
        ensures below { result < 32 }
    {
        self.number
    }
}
