//! The numbers of widths.

ghost use Rattle.std.specs.Prelude.{◌≡◌};
ghost use Rattle.icode_ir.specs.Codes.{width_number};
ghost use Rattle.icode_ir.specs.Decoded.{width_of};

use word32::Width;

/// The width of a number, or None where it is not from 0 to 4.
pub(crate) fn from_number(number: u32) -> Option<Width>
    ensures { result ≡ width_of number }
{
    match number {
        0 => Some(Width::SignedByte),
        1 => Some(Width::Byte),
        2 => Some(Width::SignedHalf),
        3 => Some(Width::Half),
        4 => Some(Width::Word),
        _ => None,
    }
}

/// The number of a width.
pub(crate) fn number(width: Width) -> u32
    ensures { result ≡ width_number width }
{
    match width {
        Width::SignedByte => 0,
        Width::Byte => 1,
        Width::SignedHalf => 2,
        Width::Half => 3,
        Width::Word => 4,
    }
}
