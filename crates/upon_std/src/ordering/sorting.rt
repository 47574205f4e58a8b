// Sorts lists. What is sorted are rows of an item that is lent and of what it is sorted by, so that no comparison looks
// into the item; the items are copied in the order of their rows.
ghost use Rattle.std.specs.Prelude.{◌≡◌, IfOk, map};
ghost use Rattle.upon_types.specs.View.{view};
ghost use Rattle.upon_std.specs.Ordering.Keys.{lent_val, key_val};
ghost use Rattle.upon_std.specs.Ordering.Ranks.{rank_cmp};
ghost use Rattle.upon_std.specs.Ordering.Rows.{rank_val, ranked, row_key, row_item, AreRowsOrRefusal};
ghost use Rattle.upon_std.specs.Ordering.Sorting.{sorted_by, IsSortedList};

use crate::basic::order::{order, refusal as unordered};
use crate::ordering::keys::Key;
use std::alloc::{AllocError, Global};
use std::cmp::Ordering;
use upon_types::value::Value;

// A key, as far as items are sorted by it.
#[derive(Clone, Copy)]
enum Rank<'a> {
    Integer(i64),
    Text(&'a str),
    // Any other key. There is one only where no two items are compared.
    Other,
}

// An item, and the rank of its key.
#[derive(Clone, Copy)]
struct Row<'a> {
    rank: Rank<'a>,
    item: &'a Value,
}

// A copy of the items in ascending order of their keys, or the refusal to sort them.
pub(crate) fn sorted(
    alloc: Global,
    items: &[Value],
    key: Key,
) -> Result<Result<Vec<Value>, String>, AllocError>
    ensures { IfOk result (λ made. IsSortedList made (sorted_by (key_val key.entry) (map view items.now))) }
{
    let mut rows = match rows(alloc, items, key)? {
        Ok(rows) => rows,
        Err(text) => return Ok(Err(text)),
    };
    rows.sort_by(|one, other| compare(one.rank, other.rank))?;
    Ok(Ok(copied(alloc, &rows)?))
}

// The items with the ranks of their keys, or the refusal to sort them if one key cannot be compared with the first.
fn rows<'a>(
    alloc: Global,
    items: &'a [Value],
    key: Key,
) -> Result<Result<Vec<Row<'a>>, String>, AllocError>
    ensures { IfOk result (λ made. AreRowsOrRefusal made (key_val key.entry) (map view items.now)) }
{
    let mut rows = Vec::with_capacity(alloc, items.len())?;
    let Some((first, others)) = items.split_first() else {
        return Ok(Ok(rows));
    };
    let none = Value::None;
    let first_key = key.of(first);
    let first_value = first_key.unwrap_or(&none);
    rows.push(row_of(first_key, first))?;
    for item in others {
        let other_key = key.of(item);
        let other = other_key.unwrap_or(&none);
        if order(first_value, other).is_none() {
            return Ok(Err(unordered(alloc, first_value, other)?));
        }
        rows.push(row_of(other_key, item))?;
    }
    Ok(Ok(rows))
}

// The row of an item with a key.
fn row_of<'a>(key: Option<&'a Value>, item: &'a Value) -> Row<'a>
    ensures rank { row_key result ≡ ranked (lent_val key.entry) }
    ensures item { row_item result ≡ view item.now }
{
    let rank = match key {
        Some(Value::Integer(number)) => Rank::Integer(*number),
        Some(Value::String(text)) => Rank::Text(text.as_str()),
        _ => Rank::Other,
    };
    Row { rank, item }
}

// How two ranks are ordered: an integer before a text, and both before others.
fn compare(first: Rank, second: Rank) -> Ordering
    ensures { result ≡ rank_cmp (rank_val first.entry) (rank_val second.entry) }
{
    match (first, second) {
        (Rank::Integer(one), Rank::Integer(other)) => one.cmp(&other),
        (Rank::Text(one), Rank::Text(other)) => one.cmp(other),
        (Rank::Integer(_), _) | (Rank::Text(_), Rank::Other) => Ordering::Less,
        (Rank::Other, Rank::Other) => Ordering::Equal,
        _ => Ordering::Greater,
    }
}

// Copies of the items of rows.
fn copied(alloc: Global, rows: &[Row]) -> Result<Vec<Value>, AllocError>
    ensures { IfOk result (λ copies. map view copies.items ≡ map row_item rows.now) }
{
    let mut copies = Vec::with_capacity(alloc, rows.len())?;
    for row in rows {
        copies.push(row.item.try_clone()?)?;
    }
    Ok(copies)
}
