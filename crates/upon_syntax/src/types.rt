// The delimiters by which a text is cut.
pub use upon_delimiters::syntax;
