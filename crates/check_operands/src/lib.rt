//! What expressions name and their values, and the rules of single nodes as definitions: from what the children are to
//! what the node is, or to the rule of the lowest number that it breaks.
#![tactic(auto)]

mod arguments;
mod combined;
mod decay;
mod operand;

pub use arguments::{Argument, Arguments, Callee};
pub use combined::{Combined, Joined};
pub use decay::decayed;
pub use operand::{
    Operand, Place, Value, as_operand, at_address, converted, converted_by, effect, made, narrowed,
    plain, settled, test_breaks, unless_kind, unless_void, value_of, values,
};
