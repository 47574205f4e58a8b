// Data that templates are rendered on, from texts of several formats.
#![tactic(auto)]

mod at_path;
pub mod document;
pub mod fault;
pub mod format;
pub mod lines;
pub mod parts;
pub mod table;
