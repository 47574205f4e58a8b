// The expressions of a template.
ghost use Rattle.std.specs.Prelude.{◌≡◌};
ghost use Rattle.upon_tree.specs.AstExpression.{base_tree, expression_tree};
ghost use Rattle.upon_types.specs.Expression.{base_span, expression_span};

mod taking_apart;

use taking_apart::take_apart;
use upon_types::types::Span;
use upon_types::types::ast::{Ident, Literal, String, Var};

/// An expression.
#[cycle(expression)]
pub enum Expr {
    /// An expression without a filter.
    Base(BaseExpr),
    /// An expression whose value goes through a filter.
    Filter(Filter),
}

/// An expression without a filter.
#[cycle(expression)]
pub enum BaseExpr {
    /// The value that a path leads to.
    Var(Var),
    /// A value that occurs in the template.
    Literal(Literal),
    /// A list of the values of expressions.
    List(List),
    /// A map from texts to the values of expressions.
    Map(Map),
    /// An expression in parentheses.
    Paren(Paren),
    /// What a function gives.
    Call(Call),
}

/// A filter, and the expression before it.
#[cycle(expression)]
#[derive(Drop)]
pub struct Filter {
    pub name: Ident,
    pub args: Option<Args>,
    pub receiver: Box<Expr>,
    pub span: Span,
}

/// Expressions in brackets.
#[cycle(expression)]
#[derive(Drop)]
pub struct List {
    pub items: Vec<BaseExpr>,
    pub span: Span,
}

/// Keys and expressions in braces.
#[cycle(expression)]
#[derive(Drop)]
pub struct Map {
    pub items: Vec<(String, BaseExpr)>,
    pub span: Span,
}

/// An expression in parentheses.
#[cycle(expression)]
#[derive(Drop)]
pub struct Paren {
    pub expr: Box<Expr>,
    pub span: Span,
}

/// A call of a function by its name.
#[cycle(expression)]
#[derive(Drop)]
pub struct Call {
    pub name: Ident,
    pub args: Option<Args>,
    pub span: Span,
}

/// Arguments in parentheses.
#[cycle(expression)]
#[derive(Drop)]
pub struct Args {
    pub values: Vec<BaseExpr>,
    pub span: Span,
}

impl Drop for Expr {
    fn drop(self) {
        match self {
            Expr::Base(base) => drop(base),
            Expr::Filter(filter) => take_apart(Expr::Filter(filter)),
        }
    }
}

impl Drop for BaseExpr {
    fn drop(self) {
        match self {
            BaseExpr::Var(var) => drop(var),
            BaseExpr::Literal(literal) => drop(literal),
            BaseExpr::List(list) => take_apart(Expr::Base(BaseExpr::List(list))),
            BaseExpr::Map(map) => take_apart(Expr::Base(BaseExpr::Map(map))),
            BaseExpr::Paren(paren) => take_apart(Expr::Base(BaseExpr::Paren(paren))),
            BaseExpr::Call(call) => take_apart(Expr::Base(BaseExpr::Call(call))),
        }
    }
}

impl Expr {
    /// Returns where the expression is.
    pub fn span(&self) -> Span
        ensures { result ≡ expression_span (expression_tree self.now) }
    {
        match self {
            Expr::Base(base) => base.span(),
            Expr::Filter(filter) => filter.span,
        }
    }
}

impl BaseExpr {
    /// Returns where the expression is.
    pub fn span(&self) -> Span
        ensures { result ≡ base_span (base_tree self.now) }
    {
        match self {
            BaseExpr::Var(var) => var.span(),
            BaseExpr::Literal(literal) => literal.span,
            BaseExpr::List(list) => list.span,
            BaseExpr::Map(map) => map.span,
            BaseExpr::Paren(paren) => paren.span,
            BaseExpr::Call(call) => call.span,
        }
    }
}
