// Trees of expressions, made of their parts.
ghost use Rattle.std.specs.Prelude.{◌≡◌, IfOk};
ghost use Rattle.upon_tree.specs.AstExpression.{arguments_tree, base_tree, expression_tree, bases_tree, items_tree};
ghost use Rattle.upon_types.specs.AstPath.{first_member, ident_of, rest_members};
ghost use Rattle.upon_types.specs.Expression.{arguments, base, call, filtered, list, literal, mapping, no_arguments};
ghost use Rattle.upon_types.specs.Expression.{paren, var};
ghost use Rattle.upon_types.specs.View.{view};

use crate::ast::{
    Args, BaseExpr, Call, Expr, Filter, Ident, List, Literal, Map, Paren, String, Var,
};
use std::alloc::{AllocError, Global};
use upon_types::types::Span;

/// Returns the expression of a path.
pub(crate) fn path_base(path: Var) -> BaseExpr
    ensures { base_tree result ≡ var (first_member path) (rest_members path) }
{
    BaseExpr::Var(path)
}

/// Returns the expression of a literal.
pub(crate) fn literal_base(value: Literal) -> BaseExpr
    ensures { base_tree result ≡ literal (view value.value) value.span }
{
    BaseExpr::Literal(value)
}

/// Returns the list of these items.
pub(crate) fn list_base(items: Vec<BaseExpr>, span: Span) -> BaseExpr
    ensures { base_tree result ≡ list (bases_tree items.items) span }
{
    BaseExpr::List(List { items, span })
}

/// Returns the map of these entries.
pub(crate) fn map_base(items: Vec<(String, BaseExpr)>, span: Span) -> BaseExpr
    ensures { base_tree result ≡ mapping (items_tree items.items) span }
{
    BaseExpr::Map(Map { items, span })
}

/// Returns an expression in parentheses. It fails if memory is out.
pub(crate) fn paren_base(alloc: Global, expr: Expr, span: Span) -> Result<BaseExpr, AllocError>
    ensures { IfOk result (λ made. base_tree made ≡ paren (expression_tree expr) span) }
{
    let expr = Box::new(alloc, expr)?;
    Ok(BaseExpr::Paren(Paren { expr, span }))
}

/// Returns the call of a function without arguments.
pub(crate) fn call_without_arguments(name: Ident, span: Span) -> BaseExpr
    ensures { base_tree result ≡ call (ident_of name) no_arguments span }
{
    BaseExpr::Call(Call {
        name,
        args: None,
        span,
    })
}

/// Returns the call of a function on arguments.
pub(crate) fn call_base(name: Ident, args: Args, span: Span) -> BaseExpr
    ensures { base_tree result ≡ call (ident_of name) (arguments_tree args) span }
{
    let args = Some(args);
    BaseExpr::Call(Call { name, args, span })
}

/// Returns arguments, which are at a span.
pub(crate) fn arguments_at(values: Vec<BaseExpr>, span: Span) -> Args
    ensures { arguments_tree result ≡ arguments (bases_tree values.items) span }
{
    Args { values, span }
}

/// Returns an expression that has no filter.
pub(crate) fn part_of(part: BaseExpr) -> Expr
    ensures { expression_tree result ≡ base (base_tree part) }
{
    Expr::Base(part)
}

/// Returns a filter without arguments on an expression. It fails if memory is out.
pub(crate) fn filter_without_arguments(
    alloc: Global,
    receiver: Expr,
    name: Ident,
    span: Span,
) -> Result<Expr, AllocError>
    ensures { IfOk result (λ made. expression_tree made
        ≡ filtered (expression_tree receiver) (ident_of name) no_arguments span) }
{
    let receiver = Box::new(alloc, receiver)?;
    Ok(Expr::Filter(Filter {
        name,
        args: None,
        receiver,
        span,
    }))
}

/// Returns a filter with arguments, which are at a span, on an expression. It fails if memory is out.
pub(crate) fn filter_with(
    alloc: Global,
    receiver: Expr,
    name: Ident,
    args: Args,
    span: Span,
) -> Result<Expr, AllocError>
    ensures { IfOk result (λ made. expression_tree made
        ≡ filtered (expression_tree receiver) (ident_of name) (arguments_tree args) span) }
{
    let receiver = Box::new(alloc, receiver)?;
    let args = Some(args);
    Ok(Expr::Filter(Filter {
        name,
        args,
        receiver,
        span,
    }))
}
