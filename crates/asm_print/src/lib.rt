//! The text of an image: what it is entered at, its functions, its data and its words, a line each.
//!
//! The assembler reads this text back as the image. `disassemble` writes it a line at a time and keeps no text of
//! the whole.
#![tactic(auto)]

mod disassembler;
mod instruction;
mod line;
mod name;
mod operand;

pub use disassembler::disassemble;
pub use instruction::instruction_line;
pub use line::Line;
pub use name::{
    arithmetic, equality, immediate, jump, memory, move_from, move_to, multiply_divide, shift,
    shift_variable, sign, sign_and_link, zero_comparison,
};
pub use operand::Operand;
