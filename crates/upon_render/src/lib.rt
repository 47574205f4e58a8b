// How a running template finds values: paths, bindings, loops.
#![tactic(auto)]

mod entry;
mod items;
pub mod iter;
pub mod stack;
