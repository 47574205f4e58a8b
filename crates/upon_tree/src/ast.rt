// The syntax tree of a template: its statements. Each span says where in the source a part of the template is.
ghost use Rattle.std.specs.Prelude.{◌≡◌};
ghost use Rattle.upon_tree.specs.Ast.{scope_tree};
ghost use Rattle.upon_types.specs.Tree.{no_statements};

pub mod expression;
mod taking_apart;

pub use expression::{Args, BaseExpr, Call, Expr, Filter, List, Map, Paren};
use std::alloc::Global;
use taking_apart::take_apart;
use upon_types::types::Span;
pub use upon_types::types::ast::{
    Access, AccessOp, Ident, Index, KeyValue, Literal, LoopVars, Member, Name, String, Var,
};

// The place of what occurs in no template: what a tree is taken apart with.
const NOWHERE: Span = Span { m: 0, n: 0 };

/// A template's tree.
#[derive(Drop)]
pub struct Template {
    pub scope: Scope,
}

/// Statements, one after the other.
#[cycle(statement)]
#[derive(Drop)]
pub struct Scope {
    pub stmts: Vec<Stmt>,
}

/// A statement.
#[cycle(statement)]
pub enum Stmt {
    /// Text that is shown as it is.
    Raw(Span),
    /// An expression that is shown.
    InlineExpr(InlineExpr),
    /// Another template that is shown.
    Include(Include),
    /// Statements that a condition chooses.
    IfElse(IfElse),
    /// Statements that are shown for each item.
    ForLoop(ForLoop),
    /// Statements in which a value has a name.
    With(With),
}

/// An expression that is shown, and the whole tag that it occurs in.
#[derive(Drop)]
pub struct InlineExpr {
    pub expr: Expr,
    pub span: Span,
}

/// Another template that is shown, by its name, with the values that it sees if they are given.
#[derive(Drop)]
pub struct Include {
    pub name: String,
    pub globals: Option<Expr>,
}

/// Statements that a condition chooses: the first ones if it holds, or, if `not` is set, if it does not.
#[cycle(statement)]
#[derive(Drop)]
pub struct IfElse {
    pub not: bool,
    pub cond: Expr,
    pub then_branch: Scope,
    pub else_branch: Option<Scope>,
}

/// Statements that are shown for each item of a value, and others that are shown if it has none.
#[cycle(statement)]
#[derive(Drop)]
pub struct ForLoop {
    pub vars: LoopVars,
    pub iterable: Expr,
    pub body: Scope,
    pub else_branch: Option<Scope>,
}

/// Statements in which the value of an expression has a name.
#[cycle(statement)]
#[derive(Drop)]
pub struct With {
    pub expr: Expr,
    pub name: Ident,
    pub body: Scope,
}

impl Drop for Stmt {
    fn drop(self) {
        take_apart(self.into_bodies());
    }
}

impl Scope {
    /// Creates a scope of no statement.
    pub fn new(alloc: Global) -> Scope
        ensures { scope_tree result ≡ no_statements }
    {
        Scope {
            stmts: Vec::new(alloc),
        }
    }
}
