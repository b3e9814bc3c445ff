//! Public calls from a typed program to its image file on their happy path, with functions of a line or two.
#![tactic(auto)]

#[cfg(test)]
mod returns;
#[cfg(test)]
mod static_backend_calls;
#[cfg(test)]
mod static_image_calls;
#[cfg(test)]
mod tick_build_calls;
#[cfg(test)]
mod tick_calls;
#[cfg(test)]
mod tick_lower_calls;
