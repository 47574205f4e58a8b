// The parts of a template that its instructions keep: names, paths, literals. Each span says where in the source a
// part is.
pub mod expression;
pub mod name;
pub mod path;

use super::Span;
pub use expression::{Literal, String};
pub use name::Name;
pub use path::{Access, AccessOp, Ident, Index, Member, Var};

/// The names that a loop gives.
#[derive(Drop)]
pub enum LoopVars {
    /// One name, for each item.
    Item(Ident),
    /// Two names, for each key and its value.
    KeyValue(KeyValue),
}

/// The names that a loop gives to a key and its value.
#[derive(Drop)]
pub struct KeyValue {
    pub key: Ident,
    pub value: Ident,
    pub span: Span,
}
