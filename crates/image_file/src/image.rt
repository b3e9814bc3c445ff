//! Images: a program for the machine, as its loader takes it.

ghost use Rattle.std.specs.Prelude.{◌≡◌};
ghost use Rattle.image_file.specs.Image.{IsImage, image_of};

use std::marker::Model;

/// A function of an image: the address of its first word in bytes, and how many arguments it takes.
#[derive(Clone, Copy, PartialEq, Eq)]
pub struct FunctionEntry {
    /// The address of the function's first word.
    pub address: u32,
    /// How many arguments the function takes.
    pub count: u32,
}

/// A program for the machine: the address that it is entered at, the words of its text, the bytes that its globals and
/// strings begin with, and its functions, numbered from 1.
///
/// Every image has a text of at most 15,728,640 words, at most 4,194,304 bytes and at most 65,535 functions. Its entry
/// and its functions stand at words of the text, and no function takes over 8 arguments.
pub struct Image {
    entry: u32,
    text: Vec<u32>,
    bytes: Vec<u8>,
    functions: Vec<FunctionEntry>,
}

impl Drop for Image {
    fn drop(self) {
        let Image {
            entry: _,
            text: _,
            bytes: _,
            functions: _,
        } = self;
    }
}

impl Model for Image {
    ghost use Rattle.image_file.specs.Image.{ImageParts, IsImage, image_of};

    ghost Value = { ImageParts };

    ghost view = { λ i. image_of i.entry i.text.items i.bytes.items i.functions.items };

    ghost invariant = { λ i. IsImage (image_of i.entry i.text.items i.bytes.items i.functions.items) };
}

impl Image {
    /// The image of these parts.
    pub fn new(entry: u32, text: Vec<u32>, bytes: Vec<u8>, functions: Vec<FunctionEntry>) -> Self
        requires { IsImage (image_of entry text.items bytes.items functions.items) }
        ensures { result ≡ image_of entry text.items bytes.items functions.items }
    {
        Image {
            entry,
            text,
            bytes,
            functions,
        }
    }

    /// The address that the program is entered at.
    pub fn entry(&self) -> u32
        ensures value { result ≡ self.now.entry }
        ensures image { IsImage self.now }
    {
        self.entry
    }

    /// The words of the text, from address 0x00400000 on.
    pub fn text(&self) -> &[u32]
        ensures value { result.now ≡ self.now.text }
        ensures image { IsImage self.now }
    {
        self.text.as_slice()
    }

    /// The bytes that globals and strings begin with, from address 0x10000000 on.
    pub fn bytes(&self) -> &[u8]
        ensures value { result.now ≡ self.now.bytes }
        ensures image { IsImage self.now }
    {
        self.bytes.as_slice()
    }

    /// The functions: function n is the n-th, counted from 1.
    pub fn functions(&self) -> &[FunctionEntry]
        ensures value { result.now ≡ self.now.functions }
        ensures image { IsImage self.now }
    {
        self.functions.as_slice()
    }
}
