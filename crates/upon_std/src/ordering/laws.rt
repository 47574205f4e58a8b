// Laws of the functions. Nothing runs here: the clauses say what holds of their answers.
ghost use Rattle.std.specs.Prelude.{◌≡◌, List, Ok};
ghost use Rattle.std.specs.List.{IsDistinct, flat_map, list_any};
ghost use Rattle.std.specs.List.Sorted.{IsPermutation, IsSortedBy};
ghost use Rattle.upon_types.specs.Same.{val_eq};
ghost use Rattle.upon_types.specs.Val.{Val};
ghost use Rattle.upon_std.specs.Ordering.Distinct.{distinct};
ghost use Rattle.upon_std.specs.Ordering.Grouping.{group_items, grouped, members};
ghost use Rattle.upon_std.specs.Ordering.Sorting.{is_below, sorted_by};

/// States that a list that `sort` or `sort_by` returns has the items of the list that it was given, that none is below
/// the item before it, and that those with the same key are in the order in which they were.
pub fn sorted()
    ensures permutation { (key : Val → Val) (vs ws : List Val) → sorted_by key vs ≡ Ok ws → IsPermutation vs ws }
    ensures ascends { (key : Val → Val) (vs ws : List Val)
        → sorted_by key vs ≡ Ok ws
        → IsSortedBy (λ v w. is_below (key v) (key w)) ws }
    ensures stable { (key : Val → Val) (vs ws : List Val) (k : Val)
        → sorted_by key vs ≡ Ok ws
        → members key k ws ≡ members key k vs }
{}

/// States that no two items that `unique` returns are the same, and that a value is one of them if and only if it is
/// one of the items of the list.
pub fn unique()
    ensures differ { (vs : List Val) → IsDistinct val_eq (distinct val_eq vs) }
    ensures kept { (vs : List Val) (u : Val)
        → list_any (λ w. val_eq w u) (distinct val_eq vs) ≡ list_any (λ w. val_eq w u) vs }
{}

/// States that the items of all groups that `group_by` returns are those of the list.
pub fn grouped()
    ensures { (key : Val → Val) (vs : List Val) → IsPermutation vs (flat_map group_items (grouped key vs)) }
{}
