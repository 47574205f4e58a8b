// The machine that runs programs: rendering.
#![tactic(auto)]

mod account;
pub mod failure;
mod lending;
pub mod limits;
mod place;
pub mod render;
pub mod report;
pub mod run;
mod steps;
mod turn;
mod weight;
pub mod within;
