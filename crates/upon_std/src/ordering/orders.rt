// The functions of this crate, each with the name under which templates call it.
ghost use Rattle.std.specs.Prelude.{◌≡◌};

use crate::ordering::calls::{GroupBy, Sort, SortBy, Unique};
use std::alloc::{AllocError, Global};
use upon_functions::function::{CallError, Function};
use upon_functions::{Fn1L, Fn2LS};
use upon_types::value::{Value, ValueCow};

/// A function that orders, thins out or groups the items of a list. [`ALL`] has each of them.
#[derive(Clone, Copy)]
pub enum Orders {
    /// `sort(a)` returns a list in ascending order: integers by size, or texts by their code points. Items that are the
    /// same stay in their order. It refuses a list of which an item cannot be compared with the first, with a message
    /// that names both kinds.
    Sort,
    /// `sort_by(a, key)` returns a list in ascending order of what its items have at a key, as `sort` orders them. An
    /// item that has none there, or is no map, counts as one with none.
    SortBy,
    /// `unique(a)` returns the first of each of the items of a list that are the same, in their order.
    Unique,
    /// `group_by(a, key)` returns a list with a map for each value that the items of a list have at a key, in the
    /// order in which these first come. At `key` of a map is the value, or none, and at `items` are its items.
    GroupBy,
}

/// Each function of this crate, once.
pub const ALL: [Orders; 4] = [
    Orders::Sort,
    Orders::SortBy,
    Orders::Unique,
    Orders::GroupBy,
];

impl Orders {
    ghost use Rattle.upon_std.specs.Ordering.Orders.{orders_name};

    /// Returns the name under which templates call the function.
    pub fn name(self) -> &'static str
        ensures { result.now ≡ orders_name self }
    {
        match self {
            Orders::Sort => "sort",
            Orders::SortBy => "sort_by",
            Orders::Unique => "unique",
            Orders::GroupBy => "group_by",
        }
    }
}

impl Function for Orders {
    ghost use Rattle.upon_std.specs.Ordering.Orders.{orders_answer};

    ghost answers = { orders_answer };

    fn call(&self, alloc: Global, args: &[ValueCow]) -> Result<Value, CallError> {
        match *self {
            Orders::Sort => {
                Fn1L::<Sort, Result<Result<Vec<Value>, String>, AllocError>>::new(Sort).call(
                    alloc, args,
                )
            }
            Orders::SortBy => {
                Fn2LS::<SortBy, Result<Result<Vec<Value>, String>, AllocError>>::new(SortBy).call(
                    alloc, args,
                )
            }
            Orders::Unique => {
                Fn1L::<Unique, Result<Vec<Value>, AllocError>>::new(Unique).call(alloc, args)
            }
            Orders::GroupBy => {
                Fn2LS::<GroupBy, Result<Vec<Value>, AllocError>>::new(GroupBy).call(alloc, args)
            }
        }
    }
}
