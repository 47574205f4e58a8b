// The steps from a template's text to its tokens.
mod brackets;
pub mod chars;
mod fault;
mod inside;
pub mod lex;
mod plain;
mod roles;
mod tags;
mod trim;
