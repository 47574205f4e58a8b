// The syntax tree of a template's text: its statements and expressions, and how tokens and pieces become it.
#![tactic(auto)]

pub mod ast;
mod base;
pub mod expression;
mod list;
mod made;
mod opened;
pub mod statements;
