//! One line of text, in a buffer of its own.

ghost use Rattle.std.specs.Prelude.{◌≡◌, ◌≤◌, ◌<◌, ◌+◌, ◌*◌, [], ◌++◌, length, codes, decimal};
ghost use Rattle.std.specs.List.{flat_map};
ghost use Rattle.asm_print.specs.Numbers as spec;

use crate::operand::Operand;
use itoa::Buffer;
use std::marker::Model;

/// The bytes that a line has room for.
const ROOM: usize = 256;

/// A line of at most 256 bytes.
#[derive(Drop)]
pub struct Line {
    bytes: [u8; ROOM],
    len: usize,
}

impl Model for Line {
    ghost use Rattle.std.specs.Prelude.{List, ℕ, take, length, ◌≤◌};

    ghost Value = { List ℕ };

    ghost view = { λ a. take a.len a.bytes };

    ghost invariant = { λ a. (a.len ≤ 256) × (256 ≤ length a.bytes) };
}

fn hex_digit(digit: u32) -> u8
    requires { digit < 16 }
    ensures { result ≡ spec.hex_digit digit }
{
    if digit < 10 {
        digit as u8 + b'0'
    } else {
        digit as u8 + (b'a' - 10)
    }
}

fn hex_byte(byte: u8) -> [u8; 2]
    ensures { result ≡ spec.hex_byte byte }
{
    let byte = u32::from(byte);
    [hex_digit(byte / 16 % 16), hex_digit(byte % 16)]
}

fn hex_word(word: u32) -> [u8; 8]
    ensures { result ≡ spec.hex_word word }
{
    [
        hex_digit(word / 0x1000_0000 % 16),
        hex_digit(word / 0x100_0000 % 16),
        hex_digit(word / 0x10_0000 % 16),
        hex_digit(word / 0x1_0000 % 16),
        hex_digit(word / 0x1000 % 16),
        hex_digit(word / 0x100 % 16),
        hex_digit(word / 0x10 % 16),
        hex_digit(word % 16),
    ]
}

impl Line {
    /// An empty line.
    pub fn new() -> Line
        ensures { result ≡ [] }
    {
        Line {
            bytes: [0; ROOM],
            len: 0,
        }
    }

    /// The bytes of the line.
    pub fn as_bytes(&self) -> &[u8]
        ensures { result.now ≡ self.now }
    {
        &self.bytes[..self.len]
    }

    /// Adds a piece, for which there is room.
    pub fn push(&mut self, piece: &[u8])
        requires { length self.old + length piece.now ≤ 256 }
        ensures pushed { self.new ≡ self.old ++ piece.now }
        ensures len { length self.new ≡ length self.old + length piece.now }
    {
        let end = self.len + piece.len();
        self.bytes[self.len..end].copy_from_slice(piece);
        self.len = end;
    }

    /// Adds a decimal number.
    pub fn push_number(&mut self, number: u64)
        requires { length self.old + 40 ≤ 256 }
        ensures pushed { self.new ≡ self.old ++ decimal number }
        ensures len { length self.new ≤ length self.old + 40 }
    {
        let mut buffer = Buffer::new();
        let text = buffer.format(number);
        self.push(text.as_bytes());
    }

    /// Adds a word in hexadecimal: `0x` and eight digits.
    pub fn push_word(&mut self, word: u32)
        requires { length self.old + 10 ≤ 256 }
        ensures pushed { self.new ≡ self.old ++ spec.prefixed_word word }
        ensures len { length self.new ≡ length self.old + 10 }
    {
        self.push(b"0x");
        self.push(&hex_word(word));
    }

    /// Adds each byte as two hexadecimal digits.
    pub fn push_bytes(&mut self, bytes: &[u8])
        requires { length self.old + 2 * length bytes.now ≤ 256 }
        ensures pushed { self.new ≡ self.old ++ flat_map spec.hex_byte bytes.now }
        ensures len { length self.new ≡ length self.old + 2 * length bytes.now }
    {
        for byte in bytes {
            self.push(&hex_byte(*byte));
        }
    }

    // Adds the number that 16 bits stand for.
    fn push_signed(&mut self, bits: u32)
        requires room { length self.old + 41 ≤ 256 }
        requires half { bits < 65536 }
        ensures pushed { self.new ≡ self.old ++ spec.signed_half bits }
        ensures len { length self.new ≤ length self.old + 41 }
    {
        if bits < 32768 {
            self.push_number(u64::from(bits));
        } else {
            self.push(b"-");
            self.push_number(u64::from(65536 - bits));
        }
    }

    /// Adds an operand.
    pub fn push_operand(&mut self, operand: Operand)
        requires { length self.old + 41 ≤ 256 }
        ensures pushed { self.new ≡ self.old ++ spec.operand_text operand }
        ensures len { length self.new ≤ length self.old + 41 }
    {
        match operand {
            Operand::Numbered(number) => {
                self.push(b"$");
                self.push_number(u64::from(number));
            }
            Operand::Signed(bits) => self.push_signed(bits.bits()),
            Operand::Unsigned(number) => self.push_number(u64::from(number)),
            Operand::Address(address) => self.push_word(address),
        }
    }
}
