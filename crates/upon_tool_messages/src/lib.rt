// What the program `upon-tool` says of what is wrong: why a run fails, with pictures and hints, and why files are no
// templates.
#![tactic(auto)]

pub mod call_check;
pub mod color;
pub mod failure;
mod hints;
pub mod includes;
pub mod judge;
pub mod known;
pub mod library;
pub mod near;
pub mod picture;
pub mod terminal;
