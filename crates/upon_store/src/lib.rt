// A store of templates by their paths, which include each other by paths.
#![tactic(auto)]

pub mod laws;
pub mod path;
pub mod store;
