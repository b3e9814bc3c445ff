//! The base of a type, by the words that name it.

ghost use Rattle.std.specs.Prelude.{◌≡◌};
ghost use Rattle.check_declarators.specs.Words as spec;

use c_types::{Base, Integer};
use tick_tree::{Base as Words, Signedness};

// Whether the sign is `unsigned`.
fn is_unsigned(sign: Option<Signedness>) -> bool
    ensures { result ≡ spec.is_unsigned sign }
{
    matches!(sign, Some(Signedness::Unsigned))
}

/// The base that these words name. Without `unsigned` an integer type is signed, and `long` is int, by the rules of
/// this project's language.
pub fn base_of(words: Words) -> Base
    ensures { result ≡ spec.base_of words }
{
    match words {
        Words::Void => Base::Void,
        Words::Char(sign) => {
            if is_unsigned(sign) {
                Base::Integer(Integer::UnsignedChar)
            } else {
                Base::Integer(Integer::Char)
            }
        }
        Words::Short(sign, _) => {
            if is_unsigned(sign) {
                Base::Integer(Integer::UnsignedShort)
            } else {
                Base::Integer(Integer::Short)
            }
        }
        Words::Long(sign, _) | Words::Int(sign) => {
            if is_unsigned(sign) {
                Base::Integer(Integer::Unsigned)
            } else {
                Base::Integer(Integer::Int)
            }
        }
        Words::Alone(Signedness::Signed) => Base::Integer(Integer::Int),
        Words::Alone(Signedness::Unsigned) => Base::Integer(Integer::Unsigned),
    }
}
