// What the standard functions take and give, so that templates that call them are known not to fail.
#![tactic(auto)]

pub mod declare;
mod form;
pub mod laws;
mod rows;
mod signatures;
