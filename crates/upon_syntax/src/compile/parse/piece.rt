// The pieces of a template: raw parts and whole tags, one after the other.
use upon_tag_parser::compile::parse::tag::Tag;
use upon_types::types::Span;

/// A piece of a template, without the instructions of its expression.
#[derive(Drop)]
pub enum Piece {
    /// Text outside tags: what trimming leaves of it.
    Raw(Span),
    /// An inline tag, from its begin to its end.
    InlineExpr(Span),
    /// A tag of a block.
    Block(Tag),
}
