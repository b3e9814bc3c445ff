//! Public calls of the program's edge on their happy path: the edge in memory, and the real one; and the text that
//! `gen` writes to it.
#![tactic(auto)]

#[cfg(test)]
mod host_edge_calls;
#[cfg(test)]
mod tick_gen_calls;
