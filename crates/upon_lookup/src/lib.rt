// What a path finds: in a value, in a source of values, and the faults of paths that find nothing.
#![tactic(auto)]

pub mod faults;
pub mod source;
pub mod value;
pub mod value_fn;
