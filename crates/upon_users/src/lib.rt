// Callers of the engine, of stores and of pages that escape, which have what the contracts say by the public clauses
// alone.
#![tactic(auto)]

pub mod built;
pub mod kept;
pub mod pages;
pub mod stored;
pub mod trees;
pub mod users;
