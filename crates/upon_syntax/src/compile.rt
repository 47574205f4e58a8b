// The steps from a template's text to its program, and to its tree.
pub mod parse;

pub use upon_delimiters::search;
pub use upon_lexer::compile::lex;
