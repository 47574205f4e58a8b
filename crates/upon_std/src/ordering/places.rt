// Tells values apart: each value that is new gets the next place. Integers and texts are found as they are, and other
// values by their spelling.
ghost use Rattle.std.specs.Prelude.{◌≡◌, IfOk, Some, None, unwrap_or, if◌then◌else◌};
ghost use Rattle.std.specs.BTreeMap.{get, Updates};
ghost use Rattle.upon_types.specs.Same.{val_eq};
ghost use Rattle.upon_types.specs.Val.{Val};
ghost use Rattle.upon_types.specs.View.{view};
ghost use Rattle.upon_std.specs.Ordering.Places.{place_met};

use crate::ordering::spelling::spelling;
use std::alloc::{AllocError, Global};
use std::collections::BTreeMap;
use upon_types::value::Value;

// The places of the values that were met.
#[derive(Drop)]
pub(crate) struct Places<'a> {
    integers: BTreeMap<i64, usize>,
    texts: BTreeMap<&'a str, usize>,
    others: BTreeMap<Vec<u64>, usize>,
}

impl<'a> Places<'a> {
    pub(crate) fn new(alloc: Global) -> Places<'a>
        ensures { (v : Val) → place_met result v ≡ None }
    {
        Places {
            integers: BTreeMap::new(alloc),
            texts: BTreeMap::new(alloc),
            others: BTreeMap::new(alloc),
        }
    }

    // The place of a value. One that was not met before gets the next place.
    pub(crate) fn place(
        &mut self,
        alloc: Global,
        value: &'a Value,
        next: usize,
    ) -> Result<usize, AllocError>
        ensures found { IfOk result (λ place. place ≡ unwrap_or (place_met self.old (view value.now)) next) }
        ensures updates { IfOk result (λ place. (v : Val) → place_met self.new v
            ≡ (if val_eq (view value.now) v then Some place else place_met self.old v)) }
    {
        match value {
            Value::Integer(number) => place_in(&mut self.integers, *number, next),
            Value::String(text) => place_in(&mut self.texts, text.as_str(), next),
            other => place_in(&mut self.others, spelling(alloc, other)?, next),
        }
    }
}

// The place at a key. A key that is not there gets the next place.
fn place_in<K: Ord + Drop>(
    places: &mut BTreeMap<K, usize>,
    key: K,
    next: usize,
) -> Result<usize, AllocError>
    ensures found { IfOk result (λ place. place ≡ unwrap_or (get K.cmp places.old key) next) }
    ensures updates { IfOk result (λ place. Updates K.cmp places.old places.new key (Some place)) }
{
    Ok(*places.entry(key)?.or_insert(next))
}
