//! Steps on what the walk knows: what a name is where it stands, blocks, and at file scope the functions of the program,
//! with what each walk begins. Their definitions stand in `check_rules`.
#![tactic(auto)]

mod blocks;
mod functions;
mod names;
mod starts;

pub use blocks::{depth, enter, leave};
pub use functions::{
    add_function, define, earlier_number, is_defined, next_number, note_prototype, parameter,
    undefined,
};
pub use names::named;
pub use starts::{functions_again, no_functions, start, start_again};
