// The steps from a tag's tokens to what it says.
pub mod parse;
