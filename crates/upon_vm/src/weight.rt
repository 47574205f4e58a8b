// What a value weighs: about the bytes that it takes, with all that is in it.
ghost use Rattle.std.specs.Prelude.{◌≡◌, IfOk};
ghost use Rattle.upon_types.specs.View.{view};
ghost use Rattle.upon_types.specs.Walked.{part_of, parts_left};
ghost use Rattle.upon_vm.specs.Weight.{weight_at_top, as_count, weight_of, weight_of_part, weight_of_parts};

use std::alloc::{AllocError, Global};
use upon_types::value::Value;
use upon_types::value::walk::{Part, Walk};

/// So many bytes a value weighs beside what is in it. So many the place of an item or an entry takes.
pub(crate) const PLACE: usize = 32;

/// Returns what the value weighs, in bytes: 32, and the bytes of a text; of a list, what its items weigh; of a map, the
/// bytes of each key and 32, and what its values weigh. What is more than the greatest number counts as that number.
///
/// A walk over a list or a map takes memory. Without it this fails.
pub(crate) fn weight(alloc: Global, value: &Value) -> Result<usize, AllocError>
    ensures { IfOk result (λ weight. weight ≡ as_count (weight_of (view value.now))) }
{
    match value {
        Value::List(_) | Value::Map(_) => weight_of_walk(Walk::over(alloc, value)),
        _ => Ok(weight_alone(value)),
    }
}

// What the parts weigh that a walk has yet to give.
fn weight_of_walk(mut walk: Walk<'_>) -> Result<usize, AllocError>
    ensures { IfOk result (λ weight. weight ≡ as_count (weight_of_parts (parts_left walk.entry))) }
{
    let mut sum: usize = 0;
    while let Some(part) = walk.next_part()? {
        sum = sum.saturating_add(weight_of_part(part));
    }
    Ok(sum)
}

// What a part weighs: where a list, a map or an entry begins, as much as a place takes; an entry its key besides.
fn weight_of_part(part: Part<'_>) -> usize
    ensures { result ≡ as_count (weight_of_part (part_of part.entry)) }
{
    match part {
        Part::Leaf(value) => weight_alone(value),
        Part::ListBegins | Part::MapBegins => PLACE,
        Part::EntryBegins(key, _) => PLACE.saturating_add(key.len()),
        Part::ItemBegins(_) | Part::ListEnds | Part::MapEnds => 0,
    }
}

// What a value weighs without the items or the entries that are in it.
fn weight_alone(value: &Value) -> usize
    ensures { result ≡ as_count (weight_at_top (view value.now)) }
{
    match value {
        Value::String(text) => PLACE.saturating_add(text.len()),
        _ => PLACE,
    }
}
