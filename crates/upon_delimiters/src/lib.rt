// The delimiters by which a text is cut, and where they occur in it.
#![tactic(auto)]

mod begins;
mod braces;
mod byte_set;
mod few_bytes;
pub mod laws;
mod marks;
pub mod search;
pub mod syntax;
