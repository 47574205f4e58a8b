// The tree of a template, told of piece by piece: what a block holds is put together at the block's end.
ghost use Rattle.std.specs.Prelude.{◌≡◌, OnOk, false};
ghost use Rattle.upon_tree.specs.Ast.{scope_tree, statement_tree, tree_of};
ghost use Rattle.upon_tree.specs.AstExpression.{expression_tree};
ghost use Rattle.upon_types.specs.AstPath.{string_of};
ghost use Rattle.upon_types.specs.Tree.{raw, inline_expr, include};
ghost use Rattle.std.specs.Option.{option_map};
ghost use Rattle.upon_tag_parser.specs.BlockTags.{opening_of};
ghost use Rattle.upon_tree.specs.Statements.{builder_state, nothing_read, statements_so_far, with_statement};
ghost use Rattle.upon_tree.specs.Statements.{block_opened, branch_begun, tree_block_ended, tree_else_if_begun};
ghost use Rattle.upon_tree.specs.Statements.{branch_of, whole_block};

use crate::ast::{Expr, ForLoop, IfElse, Include, InlineExpr, Scope, Stmt, String, Template, With};
use std::alloc::{AllocError, Global};
use std::mem;
use upon_tag_parser::compile::parse::kind::Opening;
use upon_types::types::Span;

// A block that is open.
#[derive(Drop)]
struct OpenBlock {
    opening: Opening,
    expr: Expr,
    // Whether it is the `if` of an `else if`, which ends with the block around it.
    is_else_if: bool,
    // The statements before it, in a branch of the block around it.
    around: Vec<Stmt>,
    // The first branch of the block around it, once the other one of that has begun.
    first_around: Option<Scope>,
}

/// Puts the tree of a template together: the statements so far of the innermost block, its first branch, once its other
/// one has begun, and the blocks that are open, the innermost last.
#[derive(Drop)]
pub struct TreeBuilder {
    alloc: Global,
    stmts: Vec<Stmt>,
    first: Option<Scope>,
    blocks: Vec<OpenBlock>,
}

// A block with its branches: the last one, and the first, if it has two.
fn whole(opening: Opening, expr: Expr, first: Option<Scope>, last: Scope) -> Stmt
    ensures { statement_tree result ≡ whole_block (opening_of opening) (expression_tree expr) (branch_of first)
        (scope_tree last) }
{
    let (body, else_branch) = match first {
        None => (last, None),
        Some(first) => (first, Some(last)),
    };
    match opening {
        Opening::If(not) => Stmt::IfElse(IfElse {
            not,
            cond: expr,
            then_branch: body,
            else_branch,
        }),
        Opening::For(vars) => Stmt::ForLoop(ForLoop {
            vars,
            iterable: expr,
            body,
            else_branch,
        }),
        Opening::With(name) => Stmt::With(With { expr, name, body }),
    }
}

impl TreeBuilder {
    /// Creates a builder that was told of nothing.
    pub fn new(alloc: Global) -> TreeBuilder
        ensures { builder_state result ≡ nothing_read }
    {
        TreeBuilder {
            alloc,
            stmts: Vec::new(alloc),
            first: None,
            blocks: Vec::new(alloc),
        }
    }

    /// Returns the tree.
    pub fn finish(self) -> Template
        ensures { tree_of result ≡ statements_so_far (builder_state self) }
    {
        let TreeBuilder { stmts, .. } = self;
        Template {
            scope: Scope { stmts },
        }
    }

    /// Appends a raw part. It fails if memory is out.
    pub fn raw(&mut self, span: Span) -> Result<(), AllocError>
        ensures { OnOk result (builder_state self.new ≡ with_statement (raw span) (builder_state self.old)) }
    {
        self.push(Stmt::Raw(span))
    }

    /// Appends an expression that is shown, in a tag at a span. It fails if memory is out.
    pub fn inline_expr(&mut self, expr: Expr, span: Span) -> Result<(), AllocError>
        ensures { OnOk result (builder_state self.new
            ≡ with_statement (inline_expr (expression_tree expr) span) (builder_state self.old)) }
    {
        self.push(Stmt::InlineExpr(InlineExpr { expr, span }))
    }

    /// Appends an include, with the values that it sees if they are given. It fails if memory is out.
    pub fn include(&mut self, name: String, globals: Option<Expr>) -> Result<(), AllocError>
        ensures { OnOk result (builder_state self.new
            ≡ with_statement (include (string_of name) (option_map expression_tree globals)) (builder_state self.old)) }
    {
        self.push(Stmt::Include(Include { name, globals }))
    }

    /// Begins a block. It fails if memory is out.
    pub fn begin(&mut self, opening: Opening, expr: Expr) -> Result<(), AllocError>
        ensures { OnOk result (builder_state self.new
            ≡ block_opened false (opening_of opening) (expression_tree expr) (builder_state self.old)) }
    {
        self.open(opening, expr, false)
    }

    /// Begins the other branch of the innermost block.
    pub fn begin_else(&mut self)
        ensures { builder_state self.new ≡ branch_begun (builder_state self.old) }
    {
        let stmts = mem::replace(&mut self.stmts, Vec::new(self.alloc));
        self.first = Some(Scope { stmts });
    }

    /// Begins the other branch of the innermost block with an `if` that ends with it. It fails if memory is out.
    pub fn else_if(&mut self, not: bool, cond: Expr) -> Result<(), AllocError>
        ensures { OnOk result (builder_state self.new
            ≡ tree_else_if_begun not (expression_tree cond) (builder_state self.old)) }
    {
        self.begin_else();
        self.open(Opening::If(not), cond, true)
    }

    /// Ends the innermost block, and with the `if` of an `else if` the one around it. It fails if memory is out.
    pub fn end(&mut self) -> Result<(), AllocError>
        ensures { OnOk result (builder_state self.new ≡ tree_block_ended (builder_state self.old)) }
    {
        'ends: while let Some(block) = self.blocks.pop() {
            let OpenBlock {
                opening,
                expr,
                is_else_if,
                around,
                first_around,
            } = block;
            let stmts = mem::replace(&mut self.stmts, around);
            let first = mem::replace(&mut self.first, first_around);
            self.push(whole(opening, expr, first, Scope { stmts }))?;
            if !is_else_if {
                return Ok(());
            }
        }
        Ok(())
    }

    // Opens a block.
    fn open(&mut self, opening: Opening, expr: Expr, is_else_if: bool) -> Result<(), AllocError>
        ensures { OnOk result (builder_state self.new
            ≡ block_opened is_else_if (opening_of opening) (expression_tree expr) (builder_state self.old)) }
    {
        let around = mem::replace(&mut self.stmts, Vec::new(self.alloc));
        let first_around = mem::replace(&mut self.first, None);
        let block = OpenBlock {
            opening,
            expr,
            is_else_if,
            around,
            first_around,
        };
        self.blocks.push(block)?;
        Ok(())
    }

    // Appends a statement.
    fn push(&mut self, stmt: Stmt) -> Result<(), AllocError>
        ensures { OnOk result (builder_state self.new ≡ with_statement (statement_tree stmt) (builder_state self.old)) }
    {
        self.stmts.push(stmt)?;
        Ok(())
    }
}
