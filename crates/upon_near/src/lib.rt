// Names that are near to one that is not there, and what is said of them.
#![tactic(auto)]

pub mod nearest;
pub mod said;
