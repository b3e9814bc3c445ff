//! Assembly text: an image to read and to write by hand.
//!
//! `assemble` reads a text, and `disassemble` writes the text of an image, which `assemble` reads back.
#![tactic(auto)]

mod assembly;

pub use asm_passes::{AsmDeny, AsmFault, AsmFaultKind};
pub use asm_print::disassemble;
pub use assembly::assemble;
