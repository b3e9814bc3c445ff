//! The commands that need no text of the language: an image runs, an assembly text is saved as an image, an image is
//! written as assembly text, and a generated source is written. Beside them stands what every command does with an
//! image, and what is said of a call on standard error.
#![tactic(auto)]

mod commands;
mod ended;
mod generated;
mod images;
mod laws;
mod load;
mod said;

pub use commands::{assemble_file, disassemble_file, exec_file};
pub use ended::{Front, bare};
pub use generated::write_source;
pub use images::{run_image, save_image};
pub use laws::scans_once;
pub use said::report;
