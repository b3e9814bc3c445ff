//! Bytes in hexadecimal.

ghost use Rattle.std.specs.Prelude.{◌≡◌, ◌+◌, ◌*◌, ◌++◌, IsTrue, OnOk, cond, Some, None};
ghost use Rattle.std.specs.Char.{is_ascii_hexdigit};
ghost use Rattle.std.specs.List.{list_all};
ghost use Rattle.asm_words.specs.Numbers.{digit_value};
ghost use Rattle.asm_words.specs.Data as spec;

use crate::number::{Base, are_digits, digit_value};
use std::alloc::AllocError;
use std::marker::Model;

/// A word of pairs of hexadecimal digits, a byte each.
#[derive(Drop)]
pub struct Pairs<'a> {
    digits: &'a [u8],
}

impl<'a> Model for Pairs<'a> {
    ghost use Rattle.std.specs.Prelude.{List, ℕ, IsTrue};
    ghost use Rattle.asm_words.specs.Data.{are_pairs};

    ghost Value = { List ℕ };

    ghost view = { λ p. p.digits.now };

    ghost invariant = { λ p. IsTrue (are_pairs p.digits.now) };
}

fn byte_of(high: u8, low: u8) -> u8
    requires high { IsTrue (is_ascii_hexdigit high) }
    requires low { IsTrue (is_ascii_hexdigit low) }
    ensures { result ≡ digit_value high * 16 + digit_value low }
{
    digit_value(high) * 16 + digit_value(low)
}

fn push_all(digits: &[u8], out: &mut Vec<u8>) -> Result<(), AllocError>
    requires { IsTrue (list_all is_ascii_hexdigit digits.now) }
    ensures { OnOk result (out.new.items ≡ out.old.items ++ spec.bytes_of digits.now) }
{
    let mut rest = digits;
    while let [high, low, more @ ..] = rest {
        out.push(byte_of(*high, *low))?;
        rest = more;
    }
    Ok(())
}

impl<'a> Pairs<'a> {
    /// The pairs of a word: at least one, of digits in either case. None exactly where the word has another form.
    pub fn of(word: &'a [u8]) -> Option<Pairs<'a>>
        ensures { result ≡ cond (spec.are_pairs word.now) (Some word.now) None }
    {
        if are_digits(Base::Hexadecimal, word) && word.len() % 2 == 0 {
            Some(Pairs { digits: word })
        } else {
            None
        }
    }

    /// Adds the bytes, one for each pair.
    ///
    /// # Errors
    /// Where memory is wanting.
    pub fn push_to(&self, out: &mut Vec<u8>) -> Result<(), AllocError>
        ensures { OnOk result (out.new.items ≡ out.old.items ++ spec.bytes_of self.now) }
    {
        push_all(self.digits, out)
    }
}
