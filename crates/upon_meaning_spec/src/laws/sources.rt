// What a template depends on with any source that hands on the templates of a table, in whatever words it refuses
// others.
ghost use Rattle.std.specs.Prelude.{◌≡◌, ◌≢◌, ◌<◌, ℕ, List, Option};
ghost use Rattle.upon_types.specs.Val.{Entries, map_val, entry_at};
ghost use Rattle.upon_lookup.specs.Environment.{Root, context};
ghost use Rattle.upon_meaning_spec.specs.Alone.{alone};
ghost use Rattle.upon_meaning_spec.specs.Engine.{Template, Table, Calls, Resolver};
ghost use Rattle.upon_meaning_spec.specs.Includes.{IsNumbered, Reaches};
ghost use Rattle.upon_meaning_spec.specs.Names.{Reads, AgreeOn};
ghost use Rattle.upon_meaning_spec.specs.Outcome.{States, too_deep};
ghost use Rattle.upon_meaning_spec.specs.Sources.{AnswerAlike, HandsOnFrom};

/// Two maps that agree on the names that begin a path in a template, or in one that it reaches in the table, render
/// alike: text, end and next states.
pub fn names_read<V, T>()
    ensures { (calls : Calls V) (table : Table) (resolve : Resolver T) (limit : ℕ) (template : Template)
        (name : Option (List ℕ)) (these those : Entries) (states : States V T) → HandsOnFrom table resolve
        → AgreeOn (Reads table template.tree) (λ n. entry_at n these) (λ n. entry_at n those)
        → alone (record { calls = calls; resolve = resolve; limit = limit }) template name
        (context (map_val these)) states
        ≡ alone (record { calls = calls; resolve = resolve; limit = limit }) template name
        (context (map_val those)) states }
{}

/// Two sources that give the same answers and next states to the names that a template reaches in the table of one of
/// them render it alike, over any root, at any depth. The other need not hand on from a table.
pub fn templates_reached<V, T>()
    ensures { (calls : Calls V) (table : Table) (these those : Resolver T) (limit : ℕ) (template : Template)
        (name : Option (List ℕ)) (root : Root) (states : States V T) → HandsOnFrom table these
        → AnswerAlike (Reaches table template.tree) these those
        → alone (record { calls = calls; resolve = these; limit = limit }) template name root states
        ≡ alone (record { calls = calls; resolve = those; limit = limit }) template name root states }
{}

/// If a template has the number k, and it and those that it reaches in the table have numbers greater than those of
/// the templates of the table that they include, it never ends because includes are too deep, at any depth above k. A
/// refusal of the source is a fault of its own, whatever its words.
pub fn numbered_depth<V, T>()
    ensures { (calls : Calls V) (table : Table) (resolve : Resolver T) (limit : ℕ) (number : List ℕ → ℕ) (k : ℕ)
        (t : Template) (name : Option (List ℕ)) (root : Root) (states : States V T) → HandsOnFrom table resolve
        → IsNumbered table number t.tree k → k < limit
        → (alone (record { calls = calls; resolve = resolve; limit = limit }) t name root states).end ≢ too_deep }
{}
