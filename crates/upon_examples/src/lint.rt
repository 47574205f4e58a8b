// A lint over the tree of a template: what it shows without a filter.
use std::alloc::{AllocError, Global};
use upon::Result;
use upon::compile::parse::Parser;
use upon::compile::search::Searcher;
use upon::types::Span;
use upon::types::ast::{BaseExpr, Expr, Scope, Stmt};

/// Returns where a text shows a name without a filter, in order.
pub fn shown_without_filter(alloc: Global, source: &str) -> Result<Vec<Span>> {
    let searcher = Searcher::new();
    let tree = Parser::new(alloc, &searcher, source).parse_template()?;
    let mut names = Vec::new(alloc);
    add_scope(&tree.scope, &mut names)?;
    Ok(names)
}

#[cycle(lint)]
fn add_scope(scope: &Scope, names: &mut Vec<Span>) -> std::result::Result<(), AllocError> {
    for stmt in &scope.stmts {
        match stmt {
            Stmt::InlineExpr(shown) => {
                if let Expr::Base(BaseExpr::Var(var)) = &shown.expr {
                    names.push(var.span())?;
                }
            }
            Stmt::IfElse(choice) => {
                add_scope(&choice.then_branch, names)?;
                add_other(&choice.else_branch, names)?;
            }
            Stmt::ForLoop(each) => {
                add_scope(&each.body, names)?;
                add_other(&each.else_branch, names)?;
            }
            Stmt::With(named) => add_scope(&named.body, names)?,
            Stmt::Raw(_) | Stmt::Include(_) => {}
        }
    }
    Ok(())
}

#[cycle(lint)]
fn add_other(other: &Option<Scope>, names: &mut Vec<Span>) -> std::result::Result<(), AllocError> {
    match other {
        Some(scope) => add_scope(scope, names),
        None => Ok(()),
    }
}
