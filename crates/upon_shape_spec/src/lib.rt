// Shapes of values, and templates that cannot fail: one that is accepted on a shape ends without a fault on each value
// that fits.
#![tactic(auto)]

pub mod laws;
pub mod walks;
