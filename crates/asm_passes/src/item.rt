//! What lines give to an image.

use asm_words::Pairs;
use image_file::FunctionEntry;

/// What a line gives to the image.
#[derive(Drop)]
pub enum Item<'a> {
    /// Nothing.
    Nothing,
    /// The address that the program is entered at.
    Entry(u32),
    /// A function.
    Function(FunctionEntry),
    /// Bytes of data.
    Data(Pairs<'a>),
    /// A word of the text.
    Word(u32),
}
