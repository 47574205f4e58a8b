// From a template's text to a template, and the steps on the way.
pub use upon_engine::compile::template;
pub use upon_syntax::compile::{lex, parse, search};
