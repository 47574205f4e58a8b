// What a template depends on: the names that it reads, and the templates that it reaches.
ghost use Rattle.std.specs.Prelude.{◌≡◌, ℕ, List, Option};
ghost use Rattle.upon_types.specs.Val.{Entries, map_val, entry_at};
ghost use Rattle.upon_lookup.specs.Environment.{Root, context};
ghost use Rattle.upon_meaning_spec.specs.Alone.{alone};
ghost use Rattle.upon_meaning_spec.specs.Engine.{Template, Table, Calls, Rendering, from_table};
ghost use Rattle.upon_meaning_spec.specs.Includes.{Reaches};
ghost use Rattle.upon_meaning_spec.specs.Names.{Reads, AgreeOn};
ghost use Rattle.upon_meaning_spec.specs.Outcome.{States};

/// Two maps that agree on the names that begin a path in a template, or in one that it reaches, render alike: text, end
/// and next states. The templates are those of a table.
pub fn names_read<V, T>()
    ensures { (calls : Calls V) (table : Table) (limit : ℕ) (template : Template) (name : Option (List ℕ))
        (these those : Entries) (states : States V T)
        → AgreeOn (Reads table template.tree) (λ n. entry_at n these) (λ n. entry_at n those)
        → alone (record { calls = calls; resolve = from_table table; limit = limit }) template name
        (context (map_val these)) states
        ≡ alone (record { calls = calls; resolve = from_table table; limit = limit }) template name
        (context (map_val those)) states }
{}

/// Two tables that agree on the names of the templates that a template reaches render it alike, over any root.
pub fn templates_reached<V, T>()
    ensures { (calls : Calls V) (these those : Table) (limit : ℕ) (template : Template) (name : Option (List ℕ))
        (root : Root) (states : States V T)
        → AgreeOn (Reaches these template.tree) these those
        → alone (record { calls = calls; resolve = from_table these; limit = limit }) template name root states
        ≡ alone (record { calls = calls; resolve = from_table those; limit = limit }) template name root states }
{}
