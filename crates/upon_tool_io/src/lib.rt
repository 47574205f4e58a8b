// What the program `upon-tool` takes from outside: its words, files and folders, and files that it replaces.
#![tactic(auto)]

pub mod arguments;
mod command_line;
pub mod files;
pub mod folder;
pub mod laws;
pub mod memory;
pub mod output;
pub mod sources;
pub mod table;
pub mod targets;
pub mod words;
