// The work of the program `upon-tool`, from its words to its status: renders templates on data, checks them and lists
// what they need, with the templates of a folder.
#![tactic(auto)]

mod fitting;
pub mod laws;
pub mod names;
pub mod names_text;
pub mod program;
mod work;
