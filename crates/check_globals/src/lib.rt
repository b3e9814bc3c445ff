//! The rules of file scope, what is checked after the walk, and the walks over a program as a definition
//! (`specs/Program`), with the parameters of a function that is defined.
#![tactic(auto)]

mod functions;
mod names;
mod programs;
mod statics;
mod written;

pub use functions::{begin, end, name_function};
pub use names::{named_steps, prototype, variable};
pub use programs::finished;
pub use statics::{Row, static_list, static_text, static_value};
pub use written::parameters_of;
