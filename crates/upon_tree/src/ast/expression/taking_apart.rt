// Dropping expressions however deep they nest: by a loop that takes no memory and makes no call within a call. What it
// goes into is left behind, and in the place of what it takes out of there hangs what was left behind before.
ghost use Rattle.std.specs.Prelude.{◌≡◌, ◌+◌, ◌≤◌, ◌<◌, IfOk, IfErr, IfSome, IsTrue, vec_len};
ghost use Rattle.upon_tree.specs.Weight.{
  base_weight,
  expr_weight,
  maybe_weight,
  items_weight,
  entries_weight,
  parts_weight,
  work_weight,
  rest_weight,
  ways_weight,
};

use super::{Args, BaseExpr, Expr, List, Map, Paren};
use crate::ast::NOWHERE;
use std::mem;
use upon_types::types::ast::{Literal, String};
use upon_types::value::Value;

// What an expression without a filter has inside.
enum Parts {
    // No expression.
    Leaf,
    // The items of a list, or the arguments of a call.
    Items(Vec<BaseExpr>),
    // The entries of a map.
    Entries(Vec<(String, BaseExpr)>),
    // The expression in parentheses.
    Inside(Box<Expr>),
}

// What is yet to be dropped.
struct Work {
    // What is taken apart next.
    hand: Expr,
    // The list or the map that was gone into last. In its last place hangs the one before it.
    bases: BaseExpr,
    // The parentheses or the filter that was gone into last. In place of its expression hangs the one before it.
    exprs: Expr,
}

// What is yet to be dropped when there is nothing in hand.
struct Rest {
    bases: BaseExpr,
    exprs: Expr,
}

// Drops an expression.
pub(super) fn take_apart(expr: Expr) {
    let mut work = Work {
        hand: expr,
        bases: leaf(),
        exprs: Expr::leaf(),
    };
    loop {
        let Work { hand, bases, exprs } = work;
        work = match hand.go_down(bases, exprs) {
            Ok(next) => next,
            Err(Rest { bases, exprs }) => match bases.go_back(exprs) {
                Some(next) => next,
                None => return,
            },
        };
    }
}

impl Expr {
    // An expression with nothing in it.
    pub(in crate::ast) fn leaf() -> Expr
        ensures { expr_weight result ≡ 1 }
    {
        Expr::Base(leaf())
    }

    // Goes into the expression, or drops it if there is nothing in it.
    fn go_down(self, bases: BaseExpr, exprs: Expr) -> Result<Work, Rest>
        ensures same { IfOk result (λ next. work_weight next ≤ expr_weight self + ways_weight bases exprs) }
        ensures inside { IfOk result (λ next. expr_weight next.hand < expr_weight self) }
        ensures left { IfErr result (λ rest. rest_weight rest < expr_weight self + ways_weight bases exprs) }
    {
        match self {
            Expr::Base(base) => base.go_down(bases, exprs),
            Expr::Filter(mut filter) => {
                let hand = mem::replace(&mut *filter.receiver, exprs);
                Ok(Work {
                    hand,
                    bases,
                    exprs: Expr::Filter(filter),
                })
            }
        }
    }

    // Goes back to the parentheses or the filter that was gone into before, if there is one.
    fn go_back(self) -> Option<Work>
        ensures { IfSome result (λ next. work_weight next ≤ expr_weight self + 1) }
    {
        match self {
            Expr::Base(base) => base.go_back_to_expr(),
            Expr::Filter(filter) => {
                drop(filter.name);
                Some(Work {
                    hand: Expr::Base(list_of_arguments(filter.args)),
                    bases: leaf(),
                    exprs: Box::into_inner(filter.receiver),
                })
            }
        }
    }
}

impl BaseExpr {
    // Opens the expression, and drops what is no expression in it.
    fn into_parts(self) -> Parts
        ensures { parts_weight result ≡ base_weight self }
    {
        match self {
            BaseExpr::Var(var) => {
                drop(var);
                Parts::Leaf
            }
            BaseExpr::Literal(literal) => {
                drop(literal);
                Parts::Leaf
            }
            BaseExpr::List(list) => Parts::Items(list.items),
            BaseExpr::Map(map) => Parts::Entries(map.items),
            BaseExpr::Paren(paren) => Parts::Inside(paren.expr),
            BaseExpr::Call(call) => {
                drop(call.name);
                parts_of_arguments(call.args)
            }
        }
    }

    // Says whether the expression has nothing inside.
    fn is_leaf(&self) -> bool
        ensures { IsTrue result → base_weight self.now ≡ 1 }
    {
        match self {
            BaseExpr::Var(_var) => true,
            BaseExpr::Literal(_literal) => true,
            BaseExpr::List(_) | BaseExpr::Map(_) | BaseExpr::Paren(_) | BaseExpr::Call(_) => false,
        }
    }

    // Drops an expression that has nothing inside.
    fn drop_leaf(self)
        requires { base_weight self ≡ 1 }
    {
        match self.into_parts() {
            Parts::Leaf => {}
            Parts::Items(_items) => unreachable!(),
            Parts::Entries(_entries) => unreachable!(),
            Parts::Inside(_inside) => unreachable!(),
        }
    }

    // Goes into the expression, which has no filter, or drops it if there is nothing in it.
    fn go_down(self, bases: BaseExpr, exprs: Expr) -> Result<Work, Rest>
        ensures same { IfOk result (λ next. work_weight next ≤ base_weight self + ways_weight bases exprs) }
        ensures inside { IfOk result (λ next. expr_weight next.hand < base_weight self) }
        ensures left { IfErr result (λ rest. rest_weight rest < base_weight self + ways_weight bases exprs) }
    {
        match self.into_parts() {
            Parts::Leaf => Err(Rest { bases, exprs }),
            Parts::Items(mut items) => match hang_on_items(&mut items, bases) {
                Ok(last) => Ok(Work {
                    hand: Expr::Base(last),
                    bases: list(items),
                    exprs,
                }),
                Err(bases) => {
                    items.destroy_empty();
                    Err(Rest { bases, exprs })
                }
            },
            Parts::Entries(mut entries) => match hang_on_entries(&mut entries, bases) {
                Ok(last) => Ok(Work {
                    hand: Expr::Base(last),
                    bases: map(entries),
                    exprs,
                }),
                Err(bases) => {
                    entries.destroy_empty();
                    Err(Rest { bases, exprs })
                }
            },
            Parts::Inside(mut inside) => {
                let hand = mem::replace(&mut *inside, exprs);
                Ok(Work {
                    hand,
                    bases,
                    exprs: Expr::Base(parentheses(inside)),
                })
            }
        }
    }

    // Goes back to the list or the map that was gone into before, if there is one, or else in the other row.
    fn go_back(self, exprs: Expr) -> Option<Work>
        ensures { IfSome result (λ next. work_weight next ≤ ways_weight self exprs) }
    {
        match self.into_parts() {
            Parts::Leaf => exprs.go_back(),
            Parts::Items(mut items) => match items.pop() {
                Some(bases) => Some(Work {
                    hand: Expr::Base(list(items)),
                    bases,
                    exprs,
                }),
                None => {
                    items.destroy_empty();
                    exprs.go_back()
                }
            },
            Parts::Entries(mut entries) => match entries.pop() {
                Some((key, bases)) => {
                    drop(key);
                    Some(Work {
                        hand: Expr::Base(map(entries)),
                        bases,
                        exprs,
                    })
                }
                None => {
                    entries.destroy_empty();
                    exprs.go_back()
                }
            },
            Parts::Inside(inside) => Some(Work {
                hand: Box::into_inner(inside),
                bases: leaf(),
                exprs,
            }),
        }
    }

    // Goes back to the parentheses that were gone into before. Lists and maps do not come in that row.
    fn go_back_to_expr(self) -> Option<Work>
        ensures { IfSome result (λ next. work_weight next ≤ base_weight self + 1) }
    {
        match self.into_parts() {
            Parts::Leaf => None,
            Parts::Items(mut items) => match items.pop() {
                Some(last) => Some(Work {
                    hand: Expr::Base(last),
                    bases: list(items),
                    exprs: Expr::leaf(),
                }),
                None => {
                    items.destroy_empty();
                    None
                }
            },
            Parts::Entries(mut entries) => match entries.pop() {
                Some((key, last)) => {
                    drop(key);
                    Some(Work {
                        hand: Expr::Base(last),
                        bases: map(entries),
                        exprs: Expr::leaf(),
                    })
                }
                None => {
                    entries.destroy_empty();
                    None
                }
            },
            Parts::Inside(inside) => Some(Work {
                hand: Expr::leaf(),
                bases: leaf(),
                exprs: Box::into_inner(inside),
            }),
        }
    }
}

// Puts an expression in the place of the last item that has something inside, and returns that item. Those after it are
// dropped. If there is none, the expression comes back.
#[inline(always)]
fn hang_on_items(items: &mut Vec<BaseExpr>, bases: BaseExpr) -> Result<BaseExpr, BaseExpr>
    ensures last { IfOk result (λ last.
        items_weight items.new.items + base_weight last ≤ items_weight items.old.items + base_weight bases) }
    ensures part { IfOk result (λ last. base_weight last ≤ items_weight items.old.items) }
    ensures back { IfErr result (λ back. back ≡ bases) }
    ensures empty { IfErr result (λ back. vec_len items.new ≡ 0) }
{
    drop_last_items(items);
    match items.last_mut() {
        Some(place) => Ok(mem::replace(place, bases)),
        None => Err(bases),
    }
}

// Drops the items at the end that have nothing inside.
fn drop_last_items(items: &mut Vec<BaseExpr>)
    ensures { items_weight items.new.items ≤ items_weight items.old.items }
{
    while pop_item(items) {}
}

// Drops the last item if it has nothing inside. Returns whether it dropped one.
fn pop_item(items: &mut Vec<BaseExpr>) -> bool
    ensures less { IsTrue result → vec_len items.new < vec_len items.old }
    ensures within { items_weight items.new.items ≤ items_weight items.old.items }
{
    match items.last() {
        Some(item) => {
            if !item.is_leaf() {
                return false;
            }
        }
        None => return false,
    }
    match items.pop() {
        Some(item) => {
            item.drop_leaf();
            true
        }
        None => false,
    }
}

// Puts `bases` in the place of the last value with something inside, and returns that; or `bases` if there is none.
#[inline(always)]
fn hang_on_entries(
    entries: &mut Vec<(String, BaseExpr)>,
    bases: BaseExpr,
) -> Result<BaseExpr, BaseExpr>
    ensures last { IfOk result (λ last.
        entries_weight entries.new.items + base_weight last ≤ entries_weight entries.old.items + base_weight bases) }
    ensures part { IfOk result (λ last. base_weight last ≤ entries_weight entries.old.items) }
    ensures back { IfErr result (λ back. back ≡ bases) }
    ensures empty { IfErr result (λ back. vec_len entries.new ≡ 0) }
{
    drop_last_entries(entries);
    match entries.last_mut() {
        Some(entry) => Ok(mem::replace(&mut entry.1, bases)),
        None => Err(bases),
    }
}

// Drops the entries at the end whose values have nothing inside.
fn drop_last_entries(entries: &mut Vec<(String, BaseExpr)>)
    ensures { entries_weight entries.new.items ≤ entries_weight entries.old.items }
{
    while pop_entry(entries) {}
}

// Drops the last entry if its value has nothing inside. Returns whether it dropped one.
fn pop_entry(entries: &mut Vec<(String, BaseExpr)>) -> bool
    ensures less { IsTrue result → vec_len entries.new < vec_len entries.old }
    ensures within { entries_weight entries.new.items ≤ entries_weight entries.old.items }
{
    match entries.last() {
        Some(entry) => {
            if !entry.1.is_leaf() {
                return false;
            }
        }
        None => return false,
    }
    match entries.pop() {
        Some((key, value)) => {
            drop(key);
            value.drop_leaf();
            true
        }
        None => false,
    }
}

// An expression with nothing in it, at the end of a row.
fn leaf() -> BaseExpr
    ensures { base_weight result ≡ 1 }
{
    BaseExpr::Literal(Literal {
        value: Value::None,
        span: NOWHERE,
    })
}

// A list of these items.
fn list(items: Vec<BaseExpr>) -> BaseExpr
    ensures { base_weight result ≡ items_weight items.items + 2 }
{
    BaseExpr::List(List {
        items,
        span: NOWHERE,
    })
}

// A map of these entries.
fn map(items: Vec<(String, BaseExpr)>) -> BaseExpr
    ensures { base_weight result ≡ entries_weight items.items + 2 }
{
    BaseExpr::Map(Map {
        items,
        span: NOWHERE,
    })
}

// These parentheses.
fn parentheses(expr: Box<Expr>) -> BaseExpr
    ensures { base_weight result ≡ expr_weight expr.value + 2 }
{
    BaseExpr::Paren(Paren {
        expr,
        span: NOWHERE,
    })
}

// Opens arguments.
fn parts_of_arguments(args: Option<Args>) -> Parts
    ensures { parts_weight result ≡ maybe_weight args + 1 }
{
    match args {
        Some(args) => Parts::Items(args.values),
        None => Parts::Leaf,
    }
}

// The arguments as a list.
fn list_of_arguments(args: Option<Args>) -> BaseExpr
    ensures { base_weight result ≡ maybe_weight args + 1 }
{
    match args {
        Some(args) => list(args.values),
        None => leaf(),
    }
}
