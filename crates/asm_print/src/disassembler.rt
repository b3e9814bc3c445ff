//! The text of an image, written a line at a time.

ghost use Rattle.std.specs.Prelude.{◌≡◌, ◌≤◌, length, OnOk, OnErr};
ghost use Rattle.std.specs.List.{flat_map};
ghost use Rattle.std.specs.Io.KnownBytes.{Appends};
ghost use Rattle.word32.specs.declared.map.TheConstants.{GLOBAL_BYTES};
ghost use Rattle.host_edge.specs.Causes.{HasCause};
ghost use Rattle.host_edge.specs.Moves.{TakesFront};
ghost use Rattle.asm_print.specs.Text as spec;

use crate::instruction::instruction_line;
use crate::line::Line;
use host_edge::{Failed, Sink, write_whole};
use image_file::{FunctionEntry, Image};
use mips_encoder::decode;

/// The most bytes of a line of data.
const BYTES_OF_A_LINE: usize = 32;

fn entry_line(address: u32) -> Line
    ensures { result ≡ spec.entry_line address }
{
    let mut line = Line::new();
    line.push(b".entry ");
    line.push_word(address);
    line.push(b"\n");
    line
}

fn function_line(function: &FunctionEntry) -> Line
    ensures { result ≡ spec.function_line function.now }
{
    let mut line = Line::new();
    line.push(b".fn ");
    line.push_word(function.address);
    line.push(b" ");
    line.push_number(u64::from(function.count));
    line.push(b"\n");
    line
}

fn data_line(bytes: &[u8]) -> Line
    requires { length bytes.now ≤ 32 }
    ensures { result ≡ spec.data_line bytes.now }
{
    let mut line = Line::new();
    line.push(b".data ");
    line.push_bytes(bytes);
    line.push(b"\n");
    line
}

fn plain_word_line(word: u32) -> Line
    ensures { result ≡ spec.plain_word_line word }
{
    let mut line = Line::new();
    line.push(b".word ");
    line.push_word(word);
    line.push(b"\n");
    line
}

#[tactic(auto, unfolding(crate::specs::Text::word_line))]
fn word_line(word: u32) -> Line
    ensures { result ≡ spec.word_line word }
{
    match decode(word) {
        Some(i) => instruction_line(i),
        None => plain_word_line(word),
    }
}

fn write_functions<O: Sink>(functions: &[FunctionEntry], out: &mut O) -> Result<(), Failed>
    ensures whole { OnOk result (Appends (O.taken out.old) (O.taken out.new)
        (flat_map spec.function_line functions.now)) }
    ensures front { OnErr result (TakesFront (O.taken out.old) (O.taken out.new)
        (flat_map spec.function_line functions.now)) }
    ensures cause { HasCause (O.faults out.old) (O.faults out.new) result }
{
    for function in functions {
        write_whole(out, function_line(function).as_bytes())?;
    }
    Ok(())
}

fn write_data<O: Sink>(bytes: &[u8], out: &mut O) -> Result<(), Failed>
    requires { length bytes.now ≤ GLOBAL_BYTES }
    ensures whole { OnOk result (Appends (O.taken out.old) (O.taken out.new) (spec.data_lines bytes.now)) }
    ensures front { OnErr result (TakesFront (O.taken out.old) (O.taken out.new) (spec.data_lines bytes.now)) }
    ensures cause { HasCause (O.faults out.old) (O.faults out.new) result }
{
    for k in 0..bytes.len().div_ceil(BYTES_OF_A_LINE) {
        let start = k * BYTES_OF_A_LINE;
        let end = (start + BYTES_OF_A_LINE).min(bytes.len());
        write_whole(out, data_line(&bytes[start..end]).as_bytes())?;
    }
    Ok(())
}

fn write_words<O: Sink>(words: &[u32], out: &mut O) -> Result<(), Failed>
    ensures whole { OnOk result (Appends (O.taken out.old) (O.taken out.new) (flat_map spec.word_line words.now)) }
    ensures front { OnErr result (TakesFront (O.taken out.old) (O.taken out.new) (flat_map spec.word_line words.now)) }
    ensures cause { HasCause (O.faults out.old) (O.faults out.new) result }
{
    for word in words {
        write_whole(out, word_line(*word).as_bytes())?;
    }
    Ok(())
}

/// Writes the text of an image: `.entry`, a `.fn` line for each function, `.data` lines of at most 32 bytes, and a
/// line for each word of its text. It goes to the sink a line at a time, and no more than a line is kept.
///
/// # Errors
/// The sink failed, and its count of faults rose. It has taken a front part of the text, and not all of it.
pub fn disassemble<O: Sink>(image: &Image, out: &mut O) -> Result<(), Failed>
    ensures whole { OnOk result (Appends (O.taken out.old) (O.taken out.new) (spec.text_of image.now)) }
    ensures front { OnErr result (TakesFront (O.taken out.old) (O.taken out.new) (spec.text_of image.now)) }
    ensures cause { HasCause (O.faults out.old) (O.faults out.new) result }
{
    let data = image.bytes();
    write_whole(out, entry_line(image.entry()).as_bytes())?;
    write_functions(image.functions(), out)?;
    write_data(data, out)?;
    write_words(image.text(), out)
}
