//! The image of bytes.

ghost use Rattle.std.specs.Prelude.{◌≡◌, ◌+◌, ◌*◌, ◌≤◌, ◌&&◌, length, IfOk};
ghost use Rattle.std.specs.List.{list_all};
ghost use Rattle.image_file.specs.Image.{ImageParts, IsImage, is_in_text, is_function_in};
ghost use Rattle.image_file.specs.Format.{
  words_in,
  function_in,
  functions_in,
  end_at,
  parts_in,
  spelling,
  parsed,
  fault_of,
  Answers,
};
ghost use Rattle.limits.specs.declared.text.TheConstants.{LONGEST_IMAGE};
ghost use Rattle.image_file.specs.Format as format;
ghost use Rattle.word32.specs.Bytes.{word_in};
ghost use Rattle.image_file.specs.Image as image;

use crate::fault::{ImageDeny, ImageFault};
use crate::format::{HEADER_BYTES, MAGIC, VERSION};
use crate::image::{FunctionEntry, Image};
use limits::program::{MOST_ARGUMENTS, MOST_FUNCTIONS};
use std::alloc::{AllocError, Global};
use word32::be_read;
use word32::map::{GLOBAL_BYTES, TEXT, TEXT_WORDS};

/// The image that bytes spell, by the rules of image files, version 1. The bytes are at most 83,886,080; this is a
/// condition.
///
/// # Errors
/// `Bad` exactly where the bytes break a rule, with the first one in the order of the tests: Short for the header,
/// Magic, Version, Counts, Short for the parts, Entry, Trailing. All of them are tested before memory is taken.
/// `NoMemory` where memory was not found.
pub fn read(alloc: Global, bytes: &[u8]) -> Result<Image, ImageDeny>
    requires { length bytes.now ≤ LONGEST_IMAGE }
    ensures parsed { Answers (parsed bytes.now) result }
    ensures spelling { IfOk result (λ image. spelling image ≡ bytes.now) }
    ensures accepts { (i : ImageParts) → IsImage i → spelling i ≡ bytes.now → Answers (Ok i) result }
{
    parse(alloc, bytes)
}

fn parse(alloc: Global, bytes: &[u8]) -> Result<Image, ImageDeny>
    requires { length bytes.now ≤ LONGEST_IMAGE }
    ensures { Answers (parsed bytes.now) result }
{
    match fault(bytes) {
        Some(fault) => Err(ImageDeny::Bad(fault)),
        None => Ok(parts(alloc, bytes)?),
    }
}

/// The image of the parts that bytes spell.
fn parts(alloc: Global, bytes: &[u8]) -> Result<Image, AllocError>
    requires { fault_of bytes.now ≡ None }
    ensures { IfOk result (λ image. image ≡ parts_in bytes.now) }
{
    let data_at = HEADER_BYTES + 4 * be_read(bytes, 12) as usize;
    let functions_at = data_at + be_read(bytes, 16) as usize;
    let text = words(alloc, bytes, HEADER_BYTES, be_read(bytes, 12) as usize)?;
    let data = Vec::from_slice(alloc, &bytes[data_at..functions_at])?;
    let functions = functions(alloc, bytes, functions_at, be_read(bytes, 20) as usize)?;
    Ok(Image::new(be_read(bytes, 8), text, data, functions))
}

/// The first rule that bytes break.
fn fault(bytes: &[u8]) -> Option<ImageFault>
    requires { length bytes.now ≤ LONGEST_IMAGE }
    ensures { result ≡ fault_of bytes.now }
{
    if bytes.len() < HEADER_BYTES {
        return Some(ImageFault::Short);
    }
    if be_read(bytes, 0) != MAGIC {
        return Some(ImageFault::Magic);
    }
    if be_read(bytes, 4) != VERSION {
        return Some(ImageFault::Version);
    }
    if !has_small_counts(bytes) {
        return Some(ImageFault::Counts);
    }
    let end = end(bytes);
    if bytes.len() < end {
        return Some(ImageFault::Short);
    }
    if !has_good_entries(bytes) {
        return Some(ImageFault::Entry);
    }
    if bytes.len() > end {
        return Some(ImageFault::Trailing);
    }
    None
}

/// Whether the header's counts are within the limits.
fn has_small_counts(bytes: &[u8]) -> bool
    requires { 24 ≤ length bytes.now }
    ensures { result ≡ format.has_small_counts bytes.now }
{
    be_read(bytes, 12) <= TEXT_WORDS
        && be_read(bytes, 16) <= GLOBAL_BYTES
        && be_read(bytes, 20) <= MOST_FUNCTIONS
}

/// Where the last part ends.
fn end(bytes: &[u8]) -> usize
    requires { 24 ≤ length bytes.now }
    ensures { result ≡ end_at bytes.now }
{
    HEADER_BYTES
        + 4 * be_read(bytes, 12) as usize
        + be_read(bytes, 16) as usize
        + 8 * be_read(bytes, 20) as usize
}

/// Whether an address is that of a word, in a text of so many words.
fn is_text_address(words: u32, address: u32) -> bool
    requires { words ≤ TEXT_WORDS }
    ensures { result ≡ is_in_text words address }
{
    address >= TEXT && address < TEXT + 4 * words && address % 4 == 0
}

/// Whether a function stands at a word of a text of so many words, and takes few arguments.
fn is_function(words: u32, f: FunctionEntry) -> bool
    requires { words ≤ TEXT_WORDS }
    ensures { result ≡ is_function_in words f }
{
    is_text_address(words, f.address) && f.count <= MOST_ARGUMENTS
}

/// Whether so many functions from a place on stand at words of the text and take few arguments.
#[tactic(auto, using(crate::proofs::Words::all_functions_more))]
fn are_functions(bytes: &[u8], at: usize, count: usize, words: u32) -> bool
    requires reaches { at + 8 * count ≤ length bytes.now }
    requires words { words ≤ TEXT_WORDS }
    ensures { result ≡ list_all (is_function_in words) (functions_in bytes.now at count) }
{
    let mut good = true;
    for k in 0..count {
        good = good && is_function(words, function(bytes, at + 8 * k));
    }
    good
}

/// Whether the entry and each function stand at words of the text, and each function takes few arguments.
#[tactic(auto, using(crate::proofs::Words::length_words_in))]
fn has_good_entries(bytes: &[u8]) -> bool
    requires counts { word_in bytes.now 12 ≤ TEXT_WORDS }
    requires reaches { end_at bytes.now ≤ length bytes.now }
    ensures { result ≡ image.has_good_entries (parts_in bytes.now) }
{
    let words = be_read(bytes, 12);
    let at = HEADER_BYTES + 4 * words as usize + be_read(bytes, 16) as usize;
    let count = be_read(bytes, 20) as usize;
    is_text_address(words, be_read(bytes, 8)) && are_functions(bytes, at, count, words)
}

/// The function in the eight bytes from a place on.
fn function(bytes: &[u8], at: usize) -> FunctionEntry
    requires { at + 8 ≤ length bytes.now }
    ensures { result ≡ function_in bytes.now at }
{
    FunctionEntry {
        address: be_read(bytes, at),
        count: be_read(bytes, at + 4),
    }
}

/// So many words from a place on.
#[tactic(auto, using(crate::proofs::Words::words_in_more))]
fn words(alloc: Global, bytes: &[u8], at: usize, count: usize) -> Result<Vec<u32>, AllocError>
    requires { at + 4 * count ≤ length bytes.now }
    ensures { IfOk result (λ words. words.items ≡ words_in bytes.now at count) }
{
    let mut words = Vec::with_capacity(alloc, count)?;
    for k in 0..count {
        words.push(be_read(bytes, at + 4 * k))?;
    }
    Ok(words)
}

/// So many functions from a place on.
#[tactic(auto, using(crate::proofs::Words::functions_in_more))]
fn functions(
    alloc: Global,
    bytes: &[u8],
    at: usize,
    count: usize,
) -> Result<Vec<FunctionEntry>, AllocError>
    requires { at + 8 * count ≤ length bytes.now }
    ensures { IfOk result (λ functions. functions.items ≡ functions_in bytes.now at count) }
{
    let mut functions = Vec::with_capacity(alloc, count)?;
    for k in 0..count {
        functions.push(function(bytes, at + 8 * k))?;
    }
    Ok(functions)
}
