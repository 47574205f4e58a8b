// When two values are the same: where they denote one value. A map is known by what is at each key.
ghost use Rattle.std.specs.Prelude.{◌≡◌, ◌↔◌, ℕ, List, true, IsTrue, length};
ghost use Rattle.std.specs.BTreeMap.{btree_map_len};
ghost use Rattle.std.specs.Cmp.{partial_equiv_from_equiv, on_equiv, decided};
ghost use Rattle.std.specs.Ordering.{on};
ghost use Rattle.std.proofs.Math.Bool.{decide_iff};
ghost use Rattle.upon_types.specs.Same.{one_or_two, val_eq, val_agrees, vals_agree, entries_agree};
ghost use Rattle.upon_types.specs.Val.{Val, Entries, entry_at, rises};
ghost use Rattle.upon_types.specs.View.{view, vals_view, entries_view};

use super::Value;
use std::collections::BTreeMap;

impl PartialEq for Value {
    ghost eq = { on view val_eq };

    ghost laws = { partial_equiv_from_equiv (on_equiv view (decided val_eq (λ v w. decide_iff (one_or_two v w)))) };

    fn eq(&self, other: &Value) -> bool {
        same(self, other)
    }
}

impl Eq for Value {
    ghost laws = { on_equiv view (decided val_eq (λ v w. decide_iff (one_or_two v w))) };
}

#[cycle(same)]
fn same(a: &Value, b: &Value) -> bool
    ensures { result ≡ val_agrees (view a.now) (view b.now) }
{
    match (a, b) {
        (Value::None, Value::None) => true,
        (Value::Bool(one), Value::Bool(other)) => *one == *other,
        (Value::Integer(one), Value::Integer(other)) => *one == *other,
        (Value::String(one), Value::String(other)) => one == other,
        (Value::List(one), Value::List(other)) => one.len() == other.len()
            && same_items(one, other),
        (Value::Map(one), Value::Map(other)) => one.len() == other.len()
            && same_entries(one, other),
        _ => false,
    }
}

#[cycle(same)]
fn same_items(a: &[Value], b: &[Value]) -> bool
    requires { length a.now ≡ length b.now }
    ensures { result ≡ vals_agree (vals_view a.now) (vals_view b.now) }
{
    for (x, y) in a.iter().zip(b.iter()) {
        if !same(x, y) {
            return false;
        }
    }
    true
}

#[cycle(same)]
fn same_entries(a: &BTreeMap<String, Value>, b: &BTreeMap<String, Value>) -> bool
    requires { btree_map_len a.now ≡ btree_map_len b.now }
    ensures { result ≡ entries_agree (entries_view a.now.entries) (entries_view b.now.entries) }
{
    for ((k, x), (l, y)) in a.iter().zip(b.iter()) {
        if k != l || !same(x, y) {
            return false;
        }
    }
    true
}

/// Returns whether the two are the same value, as `==` says.
pub fn is_same(a: &Value, b: &Value) -> bool
    ensures { IsTrue result ↔ (view a.now ≡ view b.now) }
{
    a == b
}

/// Returns whether the same value is at each key of both maps, which is what `==` says of two values that are maps.
/// The keys of any map ascend.
pub fn is_same_map(a: &BTreeMap<String, Value>, b: &BTreeMap<String, Value>) -> bool
    ensures by_key { IsTrue result
        ↔ ((key : List ℕ) → entry_at key (entries_view a.now.entries) ≡ entry_at key (entries_view b.now.entries)) }
    ensures one_map { IsTrue result ↔ (entries_view a.now.entries ≡ entries_view b.now.entries) }
    ensures first_rises { IsTrue (rises (entries_view a.now.entries)) }
    ensures second_rises { IsTrue (rises (entries_view b.now.entries)) }
{
    a.len() == b.len() && same_entries(a, b)
}

/// Nothing runs here: the clauses are the laws of `==`, over what values denote.
pub fn laws_of_equality()
    ensures reflexive { (v : Val) → val_eq v v ≡ true }
    ensures symmetric { (v w : Val) → val_eq v w ≡ true → val_eq w v ≡ true }
    ensures transitive { (u v w : Val) → val_eq u v ≡ true → val_eq v w ≡ true → val_eq u w ≡ true }
    ensures one_value { (v w : Val) → ((val_eq v w ≡ true) ↔ (v ≡ w)) }
    ensures part_by_part { (v w : Val) → val_agrees v w ≡ val_eq v w }
{}

/// Nothing runs here: maps whose keys ascend are one map if the same value is at each key.
pub fn law_of_maps()
    ensures { (a b : Entries)
        → IsTrue (rises a)
        → IsTrue (rises b)
        → ((key : List ℕ) → entry_at key a ≡ entry_at key b)
        → a ≡ b }
{}
