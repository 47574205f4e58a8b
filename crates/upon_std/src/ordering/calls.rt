// What each function makes of arguments that fit.
use crate::ordering::distinct::distinct;
use crate::ordering::grouping::grouped;
use crate::ordering::keys::Key;
use crate::ordering::sorting::sorted;
use std::alloc::{AllocError, Global};
use upon_functions::{Call1L, Call2LS};
use upon_types::value::Value;

// The items in ascending order.
#[derive(Drop)]
pub(crate) struct Sort;

impl Call1L<Result<Result<Vec<Value>, String>, AllocError>> for Sort {
    ghost use Rattle.upon_std.specs.Ordering.Outcomes.{sort_outcome};

    ghost meaning = { λ _. sort_outcome };

    fn call(
        &self,
        alloc: Global,
        first: &[Value],
    ) -> Result<Result<Vec<Value>, String>, AllocError> {
        sorted(alloc, first, Key::Item)
    }
}

// The items in ascending order of what they have at a key.
#[derive(Drop)]
pub(crate) struct SortBy;

impl Call2LS<Result<Result<Vec<Value>, String>, AllocError>> for SortBy {
    ghost use Rattle.upon_std.specs.Ordering.Outcomes.{sort_by_outcome};

    ghost meaning = { λ _. sort_by_outcome };

    fn call(
        &self,
        alloc: Global,
        first: &[Value],
        second: &str,
    ) -> Result<Result<Vec<Value>, String>, AllocError> {
        sorted(alloc, first, Key::At(second))
    }
}

// The first of items that are the same.
#[derive(Drop)]
pub(crate) struct Unique;

impl Call1L<Result<Vec<Value>, AllocError>> for Unique {
    ghost use Rattle.upon_std.specs.Ordering.Outcomes.{unique_outcome};

    ghost meaning = { λ _. unique_outcome };

    fn call(&self, alloc: Global, first: &[Value]) -> Result<Vec<Value>, AllocError> {
        distinct(alloc, first)
    }
}

// The items in groups, by what they have at a key.
#[derive(Drop)]
pub(crate) struct GroupBy;

impl Call2LS<Result<Vec<Value>, AllocError>> for GroupBy {
    ghost use Rattle.upon_std.specs.Ordering.Outcomes.{group_by_outcome};

    ghost meaning = { λ _. group_by_outcome };

    fn call(&self, alloc: Global, first: &[Value], second: &str) -> Result<Vec<Value>, AllocError> {
        grouped(alloc, first, second)
    }
}
