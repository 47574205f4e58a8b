// Dropping statements however deep they nest: by a loop that takes no memory and makes no call within a call. What it
// goes into is left behind, and in the place of what it takes out of there hangs what was left behind before.
ghost use Rattle.std.specs.Prelude.{◌≡◌, ◌+◌, ◌≤◌, ◌<◌, IfOk, IfErr, IfSome, IsTrue, vec_len};
ghost use Rattle.upon_tree.specs.StatementWeight.{
  bodies_weight,
  else_weight,
  nested_weight,
  scope_weight,
  stmt_weight,
  stmts_weight,
};

use super::{IfElse, Scope, Stmt};
use crate::ast::NOWHERE;
use crate::ast::expression::Expr;
use std::mem;

// What statements a statement has inside.
pub(super) enum Bodies {
    // None.
    Leaf,
    // Those of its body.
    One(Vec<Stmt>),
    // Those of its body, and those for the other case.
    Two(Vec<Stmt>, Vec<Stmt>),
}

// What is yet to be dropped.
struct Nested {
    // What is taken apart next.
    hand: Bodies,
    // The statement that was gone into last. In the last place of its body hangs the one before it.
    above: Stmt,
}

// Drops the statements.
pub(super) fn take_apart(bodies: Bodies) {
    let mut nested = Nested {
        hand: bodies,
        above: Stmt::Raw(NOWHERE),
    };
    loop {
        let Nested { hand, above } = nested;
        nested = match hand.go_down(above) {
            Ok(next) => next,
            Err(above) => match above.go_back() {
                Some(next) => next,
                None => return,
            },
        };
    }
}

impl Bodies {
    // Goes into the last statement. If there is none, they are gone, and what was left behind comes back.
    fn go_down(self, above: Stmt) -> Result<Nested, Stmt>
        ensures same { IfOk result (λ next. nested_weight next ≤ bodies_weight self + stmt_weight above) }
        ensures inside { IfOk result (λ next. bodies_weight next.hand < bodies_weight self) }
        ensures left { IfErr result (λ left. stmt_weight left < bodies_weight self + stmt_weight above) }
    {
        match self {
            Bodies::Leaf => Err(above),
            Bodies::One(mut stmts) => match hang(&mut stmts, above) {
                Ok(last) => Ok(Nested {
                    hand: last.into_bodies(),
                    above: with_body(stmts),
                }),
                Err(above) => {
                    stmts.destroy_empty();
                    Err(above)
                }
            },
            Bodies::Two(mut stmts, others) => match hang(&mut stmts, above) {
                Ok(last) => Ok(Nested {
                    hand: last.into_bodies(),
                    above: with_bodies(stmts, others),
                }),
                Err(above) => {
                    stmts.destroy_empty();
                    Ok(Nested {
                        hand: Bodies::One(others),
                        above,
                    })
                }
            },
        }
    }
}

impl Stmt {
    // Opens the statement, and drops what is no statement in it.
    pub(super) fn into_bodies(self) -> Bodies
        ensures { bodies_weight result ≡ stmt_weight self }
    {
        match self {
            Stmt::Raw(_span) => Bodies::Leaf,
            Stmt::InlineExpr(inline) => {
                drop(inline);
                Bodies::Leaf
            }
            Stmt::Include(include) => {
                drop(include);
                Bodies::Leaf
            }
            Stmt::IfElse(block) => {
                drop(block.cond);
                bodies_of(block.then_branch, block.else_branch)
            }
            Stmt::ForLoop(block) => {
                drop(block.vars);
                drop(block.iterable);
                bodies_of(block.body, block.else_branch)
            }
            Stmt::With(block) => {
                drop(block.expr);
                drop(block.name);
                bodies_of(block.body, None)
            }
        }
    }

    // Says whether the statement has no statements inside.
    fn is_leaf(&self) -> bool
        ensures { IsTrue result → stmt_weight self.now ≡ 1 }
    {
        match self {
            Stmt::Raw(_span) => true,
            Stmt::InlineExpr(_inline) => true,
            Stmt::Include(_include) => true,
            Stmt::IfElse(_) | Stmt::ForLoop(_) | Stmt::With(_) => false,
        }
    }

    // Drops a statement that has no statements inside.
    fn drop_leaf(self)
        requires { stmt_weight self ≡ 1 }
    {
        match self {
            Stmt::Raw(_span) => {}
            Stmt::InlineExpr(inline) => drop(inline),
            Stmt::Include(include) => drop(include),
            Stmt::IfElse(_block) => unreachable!(),
            Stmt::ForLoop(_block) => unreachable!(),
            Stmt::With(_block) => unreachable!(),
        }
    }

    // Goes back to the statement that was gone into before, if there is one.
    fn go_back(self) -> Option<Nested>
        ensures { IfSome result (λ next. nested_weight next ≤ stmt_weight self) }
    {
        match self.into_bodies() {
            Bodies::Leaf => None,
            Bodies::One(mut stmts) => match stmts.pop() {
                Some(above) => Some(Nested {
                    hand: Bodies::One(stmts),
                    above,
                }),
                None => {
                    stmts.destroy_empty();
                    None
                }
            },
            Bodies::Two(mut stmts, others) => match stmts.pop() {
                Some(above) => Some(Nested {
                    hand: Bodies::Two(stmts, others),
                    above,
                }),
                None => {
                    stmts.destroy_empty();
                    Some(Nested {
                        hand: Bodies::One(others),
                        above: Stmt::Raw(NOWHERE),
                    })
                }
            },
        }
    }
}

// Puts a statement in the place of the last that has statements inside, and returns that one. What comes after it is
// dropped. If there is none, the statement comes back.
#[inline(always)]
fn hang(stmts: &mut Vec<Stmt>, above: Stmt) -> Result<Stmt, Stmt>
    ensures last { IfOk result (λ last.
        stmts_weight stmts.new.items + stmt_weight last ≤ stmts_weight stmts.old.items + stmt_weight above) }
    ensures part { IfOk result (λ last. stmt_weight last ≤ stmts_weight stmts.old.items) }
    ensures back { IfErr result (λ back. back ≡ above) }
    ensures empty { IfErr result (λ back. vec_len stmts.new ≡ 0) }
{
    drop_leaves(stmts);
    match stmts.last_mut() {
        Some(place) => Ok(mem::replace(place, above)),
        None => Err(above),
    }
}

// Drops the statements at the end that have no statements inside.
fn drop_leaves(stmts: &mut Vec<Stmt>)
    ensures { stmts_weight stmts.new.items ≤ stmts_weight stmts.old.items }
{
    while pop_leaf(stmts) {}
}

// Drops the last statement if it has no statements inside. Returns whether it dropped one.
fn pop_leaf(stmts: &mut Vec<Stmt>) -> bool
    ensures less { IsTrue result → vec_len stmts.new < vec_len stmts.old }
    ensures within { stmts_weight stmts.new.items ≤ stmts_weight stmts.old.items }
{
    match stmts.last() {
        Some(stmt) => {
            if !stmt.is_leaf() {
                return false;
            }
        }
        None => return false,
    }
    match stmts.pop() {
        Some(stmt) => {
            stmt.drop_leaf();
            true
        }
        None => false,
    }
}

// The statements of a block.
fn bodies_of(body: Scope, others: Option<Scope>) -> Bodies
    ensures { bodies_weight result ≡ scope_weight body + else_weight others + 2 }
{
    match others {
        Some(others) => Bodies::Two(body.stmts, others.stmts),
        None => Bodies::One(body.stmts),
    }
}

// A statement with these inside.
fn with_body(stmts: Vec<Stmt>) -> Stmt
    ensures { stmt_weight result ≡ stmts_weight stmts.items + 2 }
{
    Stmt::IfElse(IfElse {
        not: false,
        cond: Expr::leaf(),
        then_branch: Scope { stmts },
        else_branch: None,
    })
}

// A statement with these inside, and others for the other case.
fn with_bodies(stmts: Vec<Stmt>, others: Vec<Stmt>) -> Stmt
    ensures { stmt_weight result ≡ stmts_weight stmts.items + stmts_weight others.items + 3 }
{
    Stmt::IfElse(IfElse {
        not: false,
        cond: Expr::leaf(),
        then_branch: Scope { stmts },
        else_branch: Some(Scope { stmts: others }),
    })
}
