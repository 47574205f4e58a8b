// What a template needs: the names of its context that count, and the templates that it includes.
ghost use Rattle.std.specs.Prelude.{◌≡◌, ℕ, List, Option};
ghost use Rattle.upon_types.specs.Tree.{Statements};
ghost use Rattle.upon_types.specs.Val.{Val, Entries, map_val, entry_at};
ghost use Rattle.upon_lookup.specs.Environment.{Root, context, value_source};
ghost use Rattle.upon_lookup.specs.Source.{Source};
ghost use Rattle.upon_meaning_spec.specs.Alone.{alone};
ghost use Rattle.upon_meaning_spec.specs.Engine.{Engine, Template, Table, Calls, Resolver, from_table, rendering_of};
ghost use Rattle.upon_meaning_spec.specs.Missing.{NothingMissing, AnswersTable, EndsUnknown};
ghost use Rattle.upon_meaning_spec.specs.Names.{AgreeOn, Reads};
ghost use Rattle.upon_meaning_spec.specs.Needs.{NeedsName, AgreeForNeeds};
ghost use Rattle.upon_meaning_spec.specs.Outcome.{States};
ghost use Rattle.upon_meaning_spec.specs.SourceNeeds.{SourcesAgreeForNeeds};
ghost use Rattle.upon_meaning_spec.specs.ValueSource.{with_source};

/// Two maps that agree on the names that a template needs render alike: text, end and next states, at any depth. The
/// templates are those of a table.
pub fn names_needed<V, T>()
    ensures { (calls : Calls V) (table : Table) (limit : ℕ) (template : Template) (name : Option (List ℕ))
        (these those : Entries) (states : States V T)
        → AgreeOn (NeedsName table template.tree) (λ n. entry_at n these) (λ n. entry_at n those)
        → alone (record { calls = calls; resolve = from_table table; limit = limit }) template name
        (context (map_val these)) states
        ≡ alone (record { calls = calls; resolve = from_table table; limit = limit }) template name
        (context (map_val those)) states }
{}

/// Any two contexts that agree on what a template needs render alike.
pub fn contexts_needed<V, T>()
    ensures { (calls : Calls V) (table : Table) (limit : ℕ) (template : Template) (name : Option (List ℕ))
        (this that : Val) (states : States V T) → AgreeForNeeds table template.tree this that
        → alone (record { calls = calls; resolve = from_table table; limit = limit }) template name
        (context this) states
        ≡ alone (record { calls = calls; resolve = from_table table; limit = limit }) template name
        (context that) states }
{}

/// Two value sources that answer alike each path that begins with what a template needs render it alike.
pub fn source_needed<V, T>()
    ensures { (calls : Calls V) (ask : Source V) (table : Table) (limit : ℕ) (template : Template)
        (name : Option (List ℕ)) (states : States V T) → SourcesAgreeForNeeds table template.tree calls.ask ask
        → alone (record { calls = calls; resolve = from_table table; limit = limit }) template name value_source states
        ≡ alone (record { calls = with_source ask calls; resolve = from_table table; limit = limit })
        template name value_source states }
{}

/// States that what is needed is read.
pub fn needed_is_read()
    ensures { (table : Table) (tree : Statements) (name : List ℕ) → NeedsName table tree name → Reads table tree name }
{}

/// If no include is missing, a template renders alike with whatever answers the names that the table holds as the table
/// does, over any root: that it holds no other name is never seen.
pub fn nothing_missing<V, T>()
    ensures { (calls : Calls V) (table : Table) (resolve : Resolver T) (limit : ℕ) (template : Template)
        (name : Option (List ℕ)) (root : Root) (states : States V T)
        → NothingMissing table template.tree → AnswersTable table resolve
        → alone (record { calls = calls; resolve = from_table table; limit = limit }) template name root states
        ≡ alone (record { calls = calls; resolve = resolve; limit = limit }) template name root states }
{}

/// With the engine's templates, over a context: if no include is missing, no rendering ends as an include of a name
/// that no template has. If the includes' numbers fall, none ends because includes are too deep either
/// (`numbered_depth`). A value source may refuse in the same words, so this is said of contexts.
pub fn includes_found<V, T>()
    ensures { (engine : Engine) (ask : Source V) (depth : Option ℕ) (t : Template) (name : Option (List ℕ)) (v : Val)
        (s : States V T) → NothingMissing engine.templates t.tree
        → EndsUnknown (alone (rendering_of engine ask depth) t name (context v) s).end → ⊥ }
{}
