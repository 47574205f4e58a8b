// From a tag's tokens to instructions and tags: what opens in an expression is put on a stack.
pub mod base;
pub mod brackets;
pub mod expression;
pub mod instructions;
pub mod kind;
pub mod list;
pub mod path;
pub mod scalar;
pub mod tag;
pub mod want;
