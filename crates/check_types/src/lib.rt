//! What the rules on expressions ask of a type, and which types they make of others.
#![tactic(auto)]

mod shapes;

pub use shapes::{
    conversion, decays, inner, integer, integer_of, is_cspec, is_function, is_integer, is_pointer,
    is_scalar, is_void, is_vspec, is_word, narrowing, over, points_to_function, points_to_void,
    promoted_type, void, width_of,
};
