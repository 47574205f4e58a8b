// What is open in an expression while it is read: lists, maps, calls, parentheses and filters, each in the one before.

use upon_types::types::Span;
use upon_types::types::ast::{self, Ident};

/// Where a list or a map begins: the number of its first instruction, counted from 0, and its opening bracket.
#[derive(Clone, Copy)]
pub(crate) struct Beginning {
    pub at: usize,
    pub opening: Span,
}

/// A call or a filter whose arguments are read: its name, and how many were read.
#[derive(Drop)]
pub(crate) struct Applied {
    pub name: Ident,
    pub count: usize,
}

/// What a filter is applied to: the parenthesis in which it is, unless it is in none, and where it begins, in bytes.
#[derive(Clone, Copy)]
pub(crate) struct Receiver {
    pub opening: Option<Span>,
    pub start: usize,
}

/// What is open.
#[derive(Drop)]
pub(crate) enum Open {
    /// A list, up to an item.
    List(Beginning),
    /// A map, up to the value of this key.
    Map(Beginning, ast::String),
    /// A call, up to an argument.
    Call(Applied),
    /// A parenthesis, up to the expression in it.
    Paren(Span),
    /// A filter, up to an argument.
    Filter(Receiver, Applied),
}

/// What was read last.
#[derive(Drop)]
pub(crate) enum Step {
    /// This opens, and an expression without a filter is next.
    Opens(Open),
    /// An expression without a filter, at this span.
    Base(Span),
    /// The whole expression, at this span.
    Whole(Span),
}
