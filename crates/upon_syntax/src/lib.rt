// From a template's text to its program, and to its tree.
#![tactic(auto)]

pub mod compile;
pub mod laws_of_trees;
pub mod types;

pub use upon_delimiters::laws as default_laws;
pub use upon_language_spec::laws;
