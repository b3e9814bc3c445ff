//! A body that was entered.

/// What a body owns: registers for its variables, and labels.
#[derive(Clone, Copy)]
pub struct Body {
    /// The register of variable 0; the others follow.
    pub first_variable: u32,
    /// How many variables it has.
    pub variables: u32,
    /// The number of label 0 among the labels of the ops; the others follow.
    pub first_label: u32,
    /// How many labels it has.
    pub labels: u32,
}
