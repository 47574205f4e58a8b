// Lists of integers, and their sums.
ghost use Rattle.std.specs.Prelude.{◌≡◌, ◌++◌, IfOk, codes, map, nat_lt, pos, string_bytes};
ghost use Rattle.upon_types.specs.Val.{kind_word};
ghost use Rattle.upon_types.specs.View.{view, vals_view, vals_of};
ghost use Rattle.upon_std.specs.Cutting.Numbers.{integers_from, range_count, most_items, summed, said};

use std::alloc::{AllocError, Global};
use upon_types::value::Value;

// The most items that `range` makes.
const MOST_ITEMS: i64 = 1_000_000;

// Whether there are more integers than `range` makes, from one up to but not another.
pub(crate) fn is_long_range(from: i64, to: i64) -> bool
    ensures { result ≡ nat_lt most_items (range_count from to) }
{
    match to.checked_sub(from) {
        Some(count) => count > MOST_ITEMS,
        None => to > from,
    }
}

// The integers from one up to but not another.
pub(crate) fn integers(alloc: Global, from: i64, to: i64) -> Result<Vec<Value>, AllocError>
    ensures { IfOk result (λ made. vals_view made.items ≡ vals_of (integers_from from (range_count from to))) }
{
    let mut made = Vec::new(alloc);
    let mut number = from;
    while number < to {
        made.push(Value::Integer(number))?;
        number += 1;
    }
    Ok(made)
}

// The sum of a list of integers, or the refusal to sum it.
pub(crate) fn sum(alloc: Global, items: &[Value]) -> Result<Result<i64, String>, AllocError>
    ensures { IfOk result (λ made. said made ≡ summed (pos 0) (map view items.now)) }
{
    let mut total: i64 = 0;
    for item in items {
        let Value::Integer(number) = item else {
            return Ok(Err(no_sum(alloc, item)?));
        };
        let Some(sum) = total.checked_add(*number) else {
            return Ok(Err(String::from_str(alloc, "integer overflow")?));
        };
        total = sum;
    }
    Ok(Ok(total))
}

// The refusal to add a value.
fn no_sum(alloc: Global, value: &Value) -> Result<String, AllocError>
    ensures { IfOk result (λ text. string_bytes text ≡ codes "cannot add " ++ kind_word (view value.now)) }
{
    let mut text = String::from_str(alloc, "cannot add ")?;
    text.push_str(value.human())?;
    Ok(text)
}
