// Contexts from JSON: an object or a list, and texts that are set over it.
#![tactic(auto)]

pub mod context;
pub mod refusal;
pub mod value;
