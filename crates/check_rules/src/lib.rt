//! What the walk of the checker knows: tables of the function that it is in, of ticks, labels, globals and strings; what
//! names are where they stand; and all rules of expressions and statements as definitions, tied by one fold over the
//! types of the tree, with laws on it. The code here keeps the tables and declares a name; the other steps on what the
//! walk knows stand in `check_names`, the rules of productions in `check_expressions` and `check_statements`, and the
//! walk in `check_walk`.
#![tactic(auto)]

mod frame;
mod functions;
mod image;
mod initializers;
mod labels;
mod library;
mod locals;
mod names;
mod stages;
mod state;
mod ticks;

pub use frame::{Frame, Home};
pub use functions::{Functions, Prototype};
pub use image::Image;
pub use initializers::{has_size, is_array, is_string, lower, value_breaks};
pub use labels::{Labels, Values};
pub use library::{LIBRARY, LibraryFunction};
pub use locals::meaning;
pub use names::{operand, place_by};
pub use stages::{is_specification, is_tick};
pub use state::{Around, Stage, State};
pub use ticks::Ticks;
