//! Image files, version 1: a program for the machine as bytes, one spelling for each image.
#![tactic(auto)]

mod bytes;
mod fault;
mod format;
mod image;
mod reader;
mod writer;

pub use fault::{ImageDeny, ImageFault};
pub use image::{FunctionEntry, Image};
pub use reader::read;
pub use writer::write;
