// What is open in an expression while its tree is read: lists, maps, calls, parentheses and filters, each in the one
// before, with what was read of it.

use crate::ast::{BaseExpr, Expr, Ident, String};
use upon_types::types::Span;

/// The items of a list that were read, and its opening bracket.
#[derive(Drop)]
pub struct Items {
    pub items: Vec<BaseExpr>,
    pub opening: Span,
}

/// The entries of a map that were read, and its opening brace.
#[derive(Drop)]
pub struct Entries {
    pub entries: Vec<(String, BaseExpr)>,
    pub opening: Span,
}

/// The name of a call or a filter, and its arguments that were read.
#[derive(Drop)]
pub struct Applied {
    pub name: Ident,
    pub values: Vec<BaseExpr>,
}

/// What a filter is applied to: the parenthesis in which it is, unless it is in none, its tree, and the colon after the
/// filter's name.
#[derive(Drop)]
pub struct Receiver {
    pub opening: Option<Span>,
    pub expr: Expr,
    pub colon: Span,
}

/// What is open.
#[derive(Drop)]
pub enum Open {
    /// A list, up to an item.
    List(Items),
    /// A map, up to the value of this key.
    Map(Entries, String),
    /// A call, up to an argument.
    Call(Applied),
    /// A parenthesis, up to the expression in it.
    Paren(Span),
    /// A filter, up to an argument.
    Filter(Receiver, Applied),
}

/// What was read last.
#[derive(Drop)]
pub enum Step {
    /// This opens, and an expression without a filter is next.
    Opens(Open),
    /// An expression without a filter.
    Base(BaseExpr),
    /// The whole expression.
    Whole(Expr),
}
