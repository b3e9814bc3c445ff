//! Public calls of the crates of ICODE and of the machine on their happy path, with rows, functions and values worked
//! out by hand.
#![tactic(auto)]

#[cfg(test)]
mod collections_calls;
#[cfg(test)]
mod icode_ops_calls;
#[cfg(test)]
mod icode_templates_calls;
#[cfg(test)]
mod linear_scan_calls;
#[cfg(test)]
mod linked_row_calls;
#[cfg(test)]
mod mips_core_calls;
#[cfg(test)]
mod mips_machine_calls;
#[cfg(test)]
mod mips_model_calls;
