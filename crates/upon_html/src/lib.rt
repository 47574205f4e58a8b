// Formatters for HTML: one that escapes texts, and one that leaves them as they are.
#![tactic(auto)]

pub mod callables;
pub mod formatters;
pub mod laws;
pub mod pages;
