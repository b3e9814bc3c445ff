//! Divisions of words.

ghost use Rattle.std.specs.Prelude.{◌≡◌, ◌+◌, ◌*◌, ◌/◌, ◌%◌, ◌-◌, ◌<◌};
ghost use Rattle.word32.specs.Division as division;

use thiserror::Error;

/// Why a division has no result.
#[derive(Clone, Copy, Debug, PartialEq, Eq, Drop, Error)]
pub enum DivFault {
    /// The divisor is 0.
    #[error("a divisor is 0")]
    Zero = 1,
    /// The quotient of -2,147,483,648 by -1, which is no signed word.
    #[error("a quotient is over 2,147,483,647")]
    Overflow = 2,
}

/// Quotient and remainder of the words' signed views: the quotient truncates toward zero, and the remainder has the
/// dividend's sign, as in C and by the DIV of the MIPS R2000.
///
/// # Errors
/// `Zero` exactly where b is 0, and `Overflow` exactly where a is -2,147,483,648 and b is -1.
pub fn div_s(a: u32, b: u32) -> Result<(u32, u32), DivFault>
    ensures { result ≡ division.div_s a b }
{
    if b == 0 {
        return Err(DivFault::Zero);
    }
    if a == 2147483648 && b == 4294967295 {
        return Err(DivFault::Overflow);
    }
    let dividend = a.cast_signed();
    let divisor = b.cast_signed();
    let quotient = dividend / divisor;
    let remainder = dividend % divisor;
    Ok((quotient.cast_unsigned(), remainder.cast_unsigned()))
}

/// Quotient and remainder of the words as they are, without sign, as by the DIVU of the MIPS R2000.
///
/// # Errors
/// `Zero` exactly where b is 0, and never `Overflow`.
pub fn div_u(a: u32, b: u32) -> Result<(u32, u32), DivFault>
    ensures { result ≡ division.div_u a b }
{
    if b == 0 {
        return Err(DivFault::Zero);
    }
    Ok((a / b, a % b))
}
