//! Public calls on words, instructions, memories and image files, of the assembler, and of the command line's words, on
//! their happy path, with values and lines worked out by hand.
#![tactic(auto)]

#[cfg(test)]
mod asm_lines_calls;
#[cfg(test)]
mod asm_print_calls;
#[cfg(test)]
mod asm_words_calls;
#[cfg(test)]
mod code_arena_calls;
#[cfg(test)]
mod command_words_calls;
#[cfg(test)]
mod flat_memory_calls;
#[cfg(test)]
mod image_file_calls;
#[cfg(test)]
mod mips_encoder_calls;
#[cfg(test)]
mod mips_text_calls;
#[cfg(test)]
mod word32_calls;
