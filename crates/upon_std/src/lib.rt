// The standard functions, in groups, and all of them under one type. An engine begins without functions; its user adds
// those wanted.
#![tactic(auto)]

pub mod basic;
pub mod cutting;
pub mod encoding;
pub mod laws;
pub mod ordering;
pub mod table;
