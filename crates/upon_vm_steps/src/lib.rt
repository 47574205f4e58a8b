// One step of the machine that runs programs, and what a step calls: operands, functions and formatters.
#![tactic(auto)]

pub mod act;
pub mod callables;
pub mod calls;
pub mod emission;
pub mod fault;
pub mod items;
pub mod machine;
pub mod operands;
pub mod source;
pub mod step;
mod twice;
