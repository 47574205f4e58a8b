// What a template means on a context: the text that it gives, of which pieces it is made, and how it ends.
#![tactic(auto)]

pub mod laws;
pub mod woven;
