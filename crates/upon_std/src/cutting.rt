// Functions that take lists and texts apart or put them together. An engine begins without them; its user adds those
// wanted.

pub mod laws;
mod lists;
mod numbers;
pub mod parts;
mod texts;
