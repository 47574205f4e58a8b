// Spans, delimiters, tokens, trees and instructions.
pub use upon_compiler::types::program;
pub use upon_compiler::types::program::Instr;
pub use upon_delimiters::syntax;
pub use upon_tree::ast;
pub use upon_types::types::{Delimiter, Span, Token, slice, token};
