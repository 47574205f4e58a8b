// What the program `upon-tool` does with one template of an engine, and with many pages at once: they are rendered and
// written, or checked, and it is said what is wrong. It also reads the templates of a folder.
#![tactic(auto)]

pub mod check;
pub mod contexts;
pub mod fitting;
pub mod many;
mod progress;
pub mod rendering;
pub mod sources;
pub mod written;
