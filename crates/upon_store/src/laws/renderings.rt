// What a store's renderings depend on: the names that are read, and the templates at the paths that are reached.
ghost use Rattle.std.specs.Prelude.{◌≡◌, ◌≢◌, ◌<◌, ℕ, List, Option};
ghost use Rattle.upon_types.specs.Val.{Entries, map_val, entry_at};
ghost use Rattle.upon_lookup.specs.Environment.{Root, context};
ghost use Rattle.upon_meaning_spec.specs.Alone.{alone};
ghost use Rattle.upon_meaning_spec.specs.Engine.{Template, Calls};
ghost use Rattle.upon_meaning_spec.specs.Includes.{IsNumbered};
ghost use Rattle.upon_meaning_spec.specs.Names.{Reads, AgreeOn};
ghost use Rattle.upon_meaning_spec.specs.Outcome.{States, too_deep};
ghost use Rattle.upon_store.specs.Stored.{folder_table, from_store, stored, ReachesPath};
ghost use Rattle.upon_store.specs.declared.store.Store.{Store};

use upon_meaning_spec::laws::sources;

/// Two maps that agree on the names that begin a path in a template, or in one that it reaches in the folder of a path,
/// render alike with the store's templates: text, end and next states.
pub fn names_read<V, T>()
    ensures { (calls : Calls V) (store : Store) (path : List ℕ) (limit : ℕ) (template : Template)
        (name : Option (List ℕ)) (these those : Entries) (states : States V T)
        → AgreeOn (Reads (folder_table store path) template.tree) (λ n. entry_at n these) (λ n. entry_at n those)
        → alone (record { calls = calls; resolve = from_store store path; limit = limit }) template name
        (context (map_val these)) states
        ≡ alone (record { calls = calls; resolve = from_store store path; limit = limit }) template name
        (context (map_val those)) states }
{
    sources::names_read::<V, T>();
}

/// Two stores that hold the same at the paths that a template reaches in the folder of a path render it alike, over any
/// root, at any depth.
pub fn templates_reached<V, T>()
    ensures { (calls : Calls V) (these those : Store) (path : List ℕ) (limit : ℕ) (template : Template)
        (name : Option (List ℕ)) (root : Root) (states : States V T)
        → AgreeOn (ReachesPath these path template.tree) (stored these) (stored those)
        → alone (record { calls = calls; resolve = from_store these path; limit = limit }) template name root states
        ≡ alone (record { calls = calls; resolve = from_store those path; limit = limit }) template name root states }
{
    sources::templates_reached::<V, T>();
}

/// If a template has the number k, and it and those that it reaches in the folder of a path have numbers greater
/// than those of the stored templates that they include, it never ends because includes are too deep, at any depth
/// above k.
pub fn numbered_depth<V, T>()
    ensures { (calls : Calls V) (store : Store) (path : List ℕ) (limit : ℕ) (number : List ℕ → ℕ) (k : ℕ) (t : Template)
        (name : Option (List ℕ)) (root : Root) (states : States V T)
        → IsNumbered (folder_table store path) number t.tree k → k < limit
        → (alone (record { calls = calls; resolve = from_store store path; limit = limit }) t name root states).end
        ≢ too_deep }
{
    sources::numbered_depth::<V, T>();
}
