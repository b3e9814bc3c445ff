//! The range of ops that a register takes part in.

/// The interval of a register: from the first op that it is at to the last, ops being numbered from 0.
#[derive(Clone, Copy, PartialEq, Eq)]
pub struct Interval {
    /// The virtual register.
    pub reg: u32,
    /// The first op that the register is at.
    pub start: u32,
    /// The last op that the register is at.
    pub end: u32,
}
