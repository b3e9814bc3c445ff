//! The text for a number, piece by piece.
ghost use Rattle.std.specs.Prelude.{◌≡◌, ◌++◌, decimal, IfOk, OnOk};
ghost use Rattle.std.specs.List.{flat_map, range_with_len};
ghost use Rattle.tick_gen.specs.Source as spec;

use itoa::Buffer;
use std::alloc::{AllocError, Global};

/// The function that counts for how many numbers below 1,000 a compiled test gives 1.
const COUNT: &[u8] =
    b"int count(int (*f)(int)){int i;int n;n=0;for(i=0;i<1000;i++)n=n+f(i);return n;}\n";

/// How `main` begins and ends.
const MAIN_BEGIN: &[u8] = b"int main(){int vspec v;int t;v=param(int,0);t=0;\n";

const MAIN_END: &[u8] = b"putint(t);putchar(10);return 0;}\n";

// Adds a piece, and a decimal number behind it.
fn push_numbered(text: &mut Vec<u8>, piece: &[u8], number: u64) -> Result<(), AllocError>
    ensures { OnOk result (text.new.items ≡ text.old.items ++ piece.now ++ decimal number) }
{
    let mut buffer = Buffer::new();
    text.extend_from_slice(piece)?;
    text.extend_from_slice(buffer.format(number).as_bytes())
}

// Adds the function with this number, which gives the specification of its test.
fn push_test(text: &mut Vec<u8>, number: u32) -> Result<(), AllocError>
    ensures { OnOk result (text.new.items ≡ text.old.items ++ spec.test_line number) }
{
    let number = u64::from(number);
    push_numbered(text, b"int cspec q", number)?;
    push_numbered(text, b"(int vspec v){return `(v%$", number + 2)?;
    text.extend_from_slice(b"==0);}\n")
}

// Adds the statement that compiles the test with this number and counts with it.
fn push_turn(text: &mut Vec<u8>, number: u32) -> Result<(), AllocError>
    ensures { OnOk result (text.new.items ≡ text.old.items ++ spec.turn_line number) }
{
    push_numbered(text, b"t=t+count(compile(q", u64::from(number))?;
    text.extend_from_slice(b"(v),int));\n")
}

// Adds the functions of so many tests.
fn push_tests(text: &mut Vec<u8>, count: u32) -> Result<(), AllocError>
    ensures { OnOk result (text.new.items ≡ text.old.items ++ flat_map spec.test_line (range_with_len 0 count)) }
{
    for number in 0..count {
        push_test(text, number)?;
    }
    Ok(())
}

// Adds the statements of so many tests.
fn push_turns(text: &mut Vec<u8>, count: u32) -> Result<(), AllocError>
    ensures { OnOk result (text.new.items ≡ text.old.items ++ flat_map spec.turn_line (range_with_len 0 count)) }
{
    for number in 0..count {
        push_turn(text, number)?;
    }
    Ok(())
}

/// The text for a number: a program that makes so many specifications, compiles each, and writes how many of the
/// numbers below 1,000 are multiples of 2, of 3 and so on, in sum.
///
/// # Errors
/// Where memory is wanting.
pub fn generate(alloc: Global, n: u32) -> Result<Vec<u8>, AllocError>
    ensures { IfOk result (λ text. text.items ≡ spec.source n) }
{
    let mut text = Vec::new(alloc);
    push_tests(&mut text, n)?;
    text.extend_from_slice(COUNT)?;
    text.extend_from_slice(MAIN_BEGIN)?;
    push_turns(&mut text, n)?;
    text.extend_from_slice(MAIN_END)?;
    Ok(text)
}
