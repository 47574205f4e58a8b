// From a template's text to its tokens, and what the text of a literal denotes.
#![tactic(auto)]

pub mod compile;
pub mod literal;
pub mod literal_fault;
