// What values are written as, and where text goes.
#![tactic(auto)]

pub mod fmt;
mod message;
pub mod output;
