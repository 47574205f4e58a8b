// Comparisons of values without a call a level: the lists and maps that both values are inside of stand in a list of
// their own.
ghost use Rattle.std.specs.Prelude.{◌≡◌, ◌≤◌, ◌<◌, ◌+◌, ◌*◌, ◌&&◌, IfOk, OnOk};
ghost use Rattle.std.specs.Slice.Iter.{iter_rest};
ghost use Rattle.upon_types.specs.Comparing.{lists_agree, maps_agree, agree_in, agree_all, agree_after};
ghost use Rattle.upon_types.specs.Comparing.{left_in, left_after, work_of_pairs};
ghost use Rattle.upon_types.specs.Same.{val_eq, val_agrees};
ghost use Rattle.upon_types.specs.View.{view};
ghost use Rattle.upon_types.specs.Weight.{bulk, items_bulk, entries_bulk};

use super::Value;
use std::alloc::{AllocError, Global};
use std::collections::btree_map;
use std::slice;

// What is left of the items of two lists.
#[derive(Drop)]
struct TwoLists<'v> {
    first: slice::Iter<'v, Value>,
    second: slice::Iter<'v, Value>,
}

// What is left of the entries of two maps.
#[derive(Drop)]
struct TwoMaps<'v> {
    first: btree_map::Iter<'v, String, Value>,
    second: btree_map::Iter<'v, String, Value>,
}

// Two lists or two maps that the values are inside of.
#[derive(Drop)]
enum Pair<'v> {
    Lists(TwoLists<'v>),
    Maps(TwoMaps<'v>),
}

// What comes next in two lists or two maps.
#[derive(Clone, Copy)]
enum Next<'v> {
    // An item of each, or the value of an entry of each, both at one key.
    Both(&'v Value, &'v Value),
    // Both end.
    End,
    // One ends before the other, or their next keys aren't the same.
    Differ,
}

/// Returns whether the two are the same value, as `==` says, however deep they are. It takes memory for the lists and
/// maps that it is inside of, and fails without it.
pub fn try_same(alloc: Global, a: &Value, b: &Value) -> Result<bool, AllocError>
    ensures { IfOk result (λ same. same ≡ val_eq (view a.now) (view b.now)) }
{
    let mut inside = Vec::new(alloc);
    if !meet(a, b, &mut inside)? {
        return Ok(false);
    }
    while let Some(innermost) = inside.last_mut() {
        match innermost.step() {
            Next::Both(x, y) => {
                if !meet(x, y, &mut inside)? {
                    return Ok(false);
                }
            }
            Next::End => drop(inside.pop()),
            Next::Differ => return Ok(false),
        }
    }
    Ok(true)
}

// Compares two values, but goes into two lists or two maps: all that is in them is yet to be compared then. For any
// other two `==` makes no call a level.
fn meet<'v>(a: &'v Value, b: &'v Value, inside: &mut Vec<Pair<'v>>) -> Result<bool, AllocError>
    ensures agrees { let all = agree_all inside.new.items in
        IfOk result (λ same. (same && all) ≡ (val_agrees (view a.now) (view b.now) && agree_all inside.old.items)) }
    ensures less { OnOk result (work_of_pairs inside.new.items < work_of_pairs inside.old.items + 2 * bulk a.now) }
{
    match (a, b) {
        (Value::List(one), Value::List(other)) => {
            let (first, second) = (one.iter(), other.iter());
            inside.push(Pair::Lists(TwoLists { first, second }))?;
            Ok(true)
        }
        (Value::Map(one), Value::Map(other)) => {
            let (first, second) = (one.iter(), other.iter());
            inside.push(Pair::Maps(TwoMaps { first, second }))?;
            Ok(true)
        }
        _ => Ok(a == b),
    }
}

impl<'v> Pair<'v> {
    // Returns what comes next in the two, and goes past it.
    fn step(&mut self) -> Next<'v>
        ensures agrees { agree_in self.old ≡ agree_after result (agree_in self.new) }
        ensures left { left_after result (left_in self.new) ≤ left_in self.old }
    {
        match self {
            Pair::Lists(lists) => lists.step(),
            Pair::Maps(maps) => maps.step(),
        }
    }
}

impl<'v> TwoLists<'v> {
    // Returns the next items, and goes past them.
    fn step(&mut self) -> Next<'v>
        ensures agrees { lists_agree self.old ≡ agree_after result (lists_agree self.new) }
        ensures left { left_after result (items_bulk (iter_rest self.new.first))
            ≤ items_bulk (iter_rest self.old.first) }
    {
        match (self.first.next(), self.second.next()) {
            (Some(x), Some(y)) => Next::Both(x, y),
            (None, None) => Next::End,
            _ => Next::Differ,
        }
    }
}

impl<'v> TwoMaps<'v> {
    // Returns the values of the next entries, and goes past them.
    fn step(&mut self) -> Next<'v>
        ensures agrees { maps_agree self.old ≡ agree_after result (maps_agree self.new) }
        ensures left { left_after result (entries_bulk self.new.first) ≤ entries_bulk self.old.first }
    {
        match (self.first.next(), self.second.next()) {
            (Some((k, x)), Some((l, y))) => if k == l {
                Next::Both(x, y)
            } else {
                Next::Differ
            },
            (None, None) => Next::End,
            _ => Next::Differ,
        }
    }
}
