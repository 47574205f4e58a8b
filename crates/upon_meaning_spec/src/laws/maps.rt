// The order of maps: that of their keys' bytes, whatever order they were written in.
ghost use Rattle.std.specs.Prelude.{◌≡◌, ℕ, List, true, map, Some, bytes_eq, if◌then◌else◌};
ghost use Rattle.upon_types.specs.declared.types.Span.{Span};
ghost use Rattle.upon_types.specs.Conversions.{last_at};
ghost use Rattle.upon_types.specs.Expression.{Items, mapping};
ghost use Rattle.upon_types.specs.Path.{Ident, key_value};
ghost use Rattle.upon_types.specs.Val.{Val, Entries, map_val, entry_at, key_of, entry_list, rises};
ghost use Rattle.upon_lookup.specs.Environment.{Environment, Binding};
ghost use Rattle.upon_lookup.specs.Finding.{found};
ghost use Rattle.upon_lookup.specs.Items.{items_of, entry_binds};
ghost use Rattle.upon_meaning_spec.specs.Engine.{Calls};
ghost use Rattle.upon_meaning_spec.specs.Entries.{with_entry};
ghost use Rattle.upon_meaning_spec.specs.Evaluation.{Operand, evaluate_base, evaluate_bases};
ghost use Rattle.upon_meaning_spec.specs.MapOrder.{GoesInOrder, item_bases, item_values};

/// States that a map literal gives a map whose entries are in ascending order of their keys' bytes.
pub fn map_literal_rises<V>()
    ensures { (calls : Calls V) (items : Items) (span : Span) (env : Environment) (q : V) (o : Operand)
        → (evaluate_base calls (mapping items span) env q).answer ≡ found o
        → (es : Entries) × (o.value ≡ map_val es) × (rises es ≡ true) }
{}

/// States that an entry more changes what is at its key alone: of equal keys the last value counts.
pub fn last_entry_counts()
    ensures { (key other : List ℕ) (v : Val) (es : Entries)
        → entry_at other (with_entry key v es) ≡ (if bytes_eq other key then Some v else entry_at other es) }
{}

/// Entries of two keys may be put in either order.
pub fn entries_in_any_order()
    ensures { (key other : List ℕ) (v w : Val) (es : Entries)
        → rises es ≡ true → (key ≡ other → ⊥)
        → with_entry key v (with_entry other w es) ≡ with_entry other w (with_entry key v es) }
{}

/// States that a loop over a map goes over its entries as they are.
pub fn loop_in_order()
    ensures { (key value : Ident) (both : Span) (es : Entries) (at : Span)
        → items_of (key_value key value both) (map_val es) at ≡ found (map (entry_binds key value) (entry_list es)) }
{}

/// States that a loop over a map literal goes over its entries in ascending order of their keys' bytes.
pub fn literal_in_order<V>()
    ensures { (calls : Calls V) (items : Items) (span : Span) (env : Environment) (q : V) (o : Operand)
        (key value : Ident) (both : Span) (at : Span)
        → (evaluate_base calls (mapping items span) env q).answer ≡ found o
        → (es : Entries) × (rises es ≡ true)
        × (items_of (key_value key value both) o.value at ≡ found (map (entry_binds key value) (entry_list es))) }
{}

/// Map literals that hold the same at each key are one value, in whatever order each was written.
pub fn literals_alike<V>()
    ensures { (calls : Calls V) (items others : Items) (span other : Span) (env around : Environment) (p q : V)
        (a b : Operand)
        → (evaluate_base calls (mapping items span) env p).answer ≡ found a
        → (evaluate_base calls (mapping others other) around q).answer ≡ found b
        → ((key : List ℕ) → key_of key a.value ≡ key_of key b.value)
        → a.value ≡ b.value }
{}

/// States that a loop over a map whose keys ascend goes over each entry once, in ascending order of the keys' bytes.
pub fn map_in_order()
    ensures { (key value : Ident) (both : Span) (es : Entries) (at : Span)
        → rises es ≡ true
        → (turns : List (List Binding)) × (items_of (key_value key value both) (map_val es) at ≡ found turns)
        × GoesInOrder key value es turns }
{}

/// States that a loop over a map literal goes over each entry of its map once, in ascending order of the keys' bytes,
/// whatever order it was written in.
pub fn literal_goes_in_order<V>()
    ensures { (calls : Calls V) (items : Items) (span : Span) (env : Environment) (q : V) (o : Operand)
        (key value : Ident) (both : Span) (at : Span)
        → (evaluate_base calls (mapping items span) env q).answer ≡ found o
        → (es : Entries) × (o.value ≡ map_val es) × (turns : List (List Binding))
        × (items_of (key_value key value both) o.value at ≡ found turns) × GoesInOrder key value es turns }
{}

/// At a key a map literal holds the value of the last of its items that has the key, and nothing if none has it. The
/// items' expressions come to their values from the left, as those of a list do.
pub fn literal_last_counts<V>()
    ensures { (calls : Calls V) (items : Items) (span : Span) (env : Environment) (q : V) (o : Operand)
        → (evaluate_base calls (mapping items span) env q).answer ≡ found o
        → (os : List Operand) × ((evaluate_bases calls (item_bases items) env q).answer ≡ found os)
        × ((key : List ℕ) → key_of key o.value ≡ last_at key (item_values items os)) }
{}
