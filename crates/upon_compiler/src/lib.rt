// Programs: their instructions, how a template's pieces become them, and what a compiled template keeps of its text.
#![tactic(auto)]

pub mod compile;
pub mod compiled;
pub mod laws;
pub mod types;
