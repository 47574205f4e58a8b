// Which templates end without a fault on each value of a shape, and what is said of those that may not.
#![tactic(auto)]

pub mod accepted;
pub mod accepts;
mod calls;
pub mod declared;
pub mod doubt;
mod found;
pub mod hints;
mod known;
pub mod laws;
mod levels;
mod loops;
pub mod pictures;
pub mod plan;
mod planning;
mod puts;
pub mod reasons;
pub mod refusal;
pub mod scope;
mod steps;
pub mod told;
pub mod unchecked;
mod undo;
mod verdict;
pub mod walk;
