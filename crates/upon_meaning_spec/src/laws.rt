// What the meaning of templates keeps: what a greater depth changes, the isolation of an include with a value, and the
// branches of a negated condition.
ghost use Rattle.std.specs.Prelude.{◌≡◌, ◌≢◌, ℕ, suc, ◌≤◌, ◌<◌, List, Option, Some, true, false};
ghost use Rattle.upon_types.specs.Expression.{Expression};
ghost use Rattle.upon_types.specs.Path.{Ident};
ghost use Rattle.upon_types.specs.Tree.{Statements, include, if_else, otherwise};
ghost use Rattle.upon_types.specs.Val.{Val};
ghost use Rattle.upon_lookup.specs.Environment.{Environment, Root, context};
ghost use Rattle.upon_lookup.specs.Source.{Source};
ghost use Rattle.upon_meaning_spec.specs.Alike.{StatementsAlike, OutcomesAlike};
ghost use Rattle.upon_meaning_spec.specs.Alone.{included, alone_within, alone};
ghost use Rattle.upon_meaning_spec.specs.Engine.{Template, Engine, Calls, Resolver, Rendering, limit_of, rendering_of};
ghost use Rattle.upon_meaning_spec.specs.GreaterDepth.{GoesOn};
ghost use Rattle.upon_meaning_spec.specs.IncludeFinds.{IncludeFinds};
ghost use Rattle.upon_meaning_spec.specs.Includes.{IsNumbered};
ghost use Rattle.upon_meaning_spec.specs.Meaning.{RunningTemplate, Inclusion, statement_means};
ghost use Rattle.upon_meaning_spec.specs.Outcome.{States, states, too_deep};
ghost use Rattle.upon_meaning_spec.specs.ValueSource.{with_source, SameBesideValues};

pub mod faults;
pub mod maps;
pub mod names;
pub mod needs;
pub mod scopes;
pub mod sources;
pub mod whole_scopes;

/// States that a greater depth gives the same text, end and next states if the lesser one does not end because
/// includes are too deep; if it does, its text is a beginning of the greater one's.
pub fn greater_depth<V, T>()
    ensures { (rendering : Rendering V T) (a b : ℕ) (t : Template) (name : Option (List ℕ)) (root : Root)
        (s : States V T) → a ≤ b
        → GoesOn (alone (record rendering { limit = a }) t name root s)
        (alone (record rendering { limit = b }) t name root s) }
{}

/// With the engine's templates: if a template has the number k, and it and those that it reaches have numbers
/// greater than those of the stored templates that they include, it never ends because includes are too deep, at any
/// depth above k.
pub fn numbered_depth<V, T>()
    ensures { (engine : Engine) (ask : Source V) (depth : Option ℕ) (number : List ℕ → ℕ) (k : ℕ) (t : Template)
        (name : Option (List ℕ)) (root : Root) (s : States V T)
        → IsNumbered engine.templates number t.tree k → k < limit_of depth engine
        → (alone (rendering_of engine ask depth) t name root s).end ≢ too_deep }
{}

/// States that an include of a template with a value gives what that template gives alone on the value, with the depth
/// that is left: the same text, end and next states, whatever is bound around the include, over any root, from any
/// states.
pub fn included_alone<V, T>()
    ensures within { (calls : Calls V) (resolve : Resolver T) (running : RunningTemplate) (left : ℕ) (word : Ident)
        (e : Expression) (env : Environment) (s : States V T) (v : Val) (t : Template) (next : States V T)
        → IncludeFinds calls resolve word e env s v t next
        → statement_means calls (included calls resolve (suc left)) running (include word (Some e)) env s
        ≡ alone_within calls resolve left t (Some word.text) (context v) next }

    // As a depth, where the included template itself counts as one.
    ensures of_depth { (rendering : Rendering V T) (running : RunningTemplate) (left : ℕ) (word : Ident)
        (e : Expression) (env : Environment) (s : States V T) (v : Val) (t : Template) (next : States V T)
        → IncludeFinds rendering.calls rendering.resolve word e env s v t next
        → statement_means rendering.calls (included rendering.calls rendering.resolve (suc left)) running
        (include word (Some e)) env s
        ≡ alone (record rendering { limit = suc left }) t (Some word.text) (context v) next }
{}

/// States that a template over a context never asks the value source, nor does one that it includes: the source's state
/// stays.
pub fn value_source_stays<V, T>()
    ensures within { (calls : Calls V) (resolve : Resolver T) (left : ℕ) (t : Template) (name : Option (List ℕ))
        (v : Val) (s : States V T) → (alone_within calls resolve left t name (context v) s).next.values ≡ s.values }

    ensures of_depth { (rendering : Rendering V T) (t : Template) (name : Option (List ℕ)) (v : Val) (s : States V T)
        → (alone rendering t name (context v) s).next.values ≡ s.values }
{}

/// States that an include with a value never asks the value source below itself: in a rendering over a value source
/// too, the source's state is afterwards as the include's value left it.
pub fn included_asks_nothing<V, T>()
    ensures { (calls : Calls V) (resolve : Resolver T) (running : RunningTemplate) (left : ℕ) (word : Ident)
        (e : Expression) (env : Environment) (s : States V T) (v : Val) (t : Template) (next : States V T)
        → IncludeFinds calls resolve word e env s v t next
        → (statement_means calls (included calls resolve (suc left)) running (include word (Some e)) env s).next.values
        ≡ next.values }
{}

/// States that a template over a context gives the same, whatever the value source answers.
pub fn value_source_unasked<V, T>()
    ensures within { (calls : Calls V) (ask : Source V) (resolve : Resolver T) (left : ℕ) (t : Template)
        (name : Option (List ℕ)) (v : Val) (s : States V T)
        → alone_within (record calls { ask = ask }) resolve left t name (context v) s
        ≡ alone_within calls resolve left t name (context v) s }

    ensures of_depth { (rendering : Rendering V T) (ask : Source V) (t : Template) (name : Option (List ℕ)) (v : Val)
        (s : States V T)
        → alone (record rendering { calls = record rendering.calls { ask = ask } }) t name (context v) s
        ≡ alone rendering t name (context v) s }
{}

/// States that a template over a context gives the same text, end and next state of the template source with another
/// value source, also one whose states are of another type.
pub fn value_source_replaced<V, W, T>()
    ensures { (calls : Calls V) (ask : Source W) (resolve : Resolver T) (left : ℕ) (t : Template)
        (name : Option (List ℕ)) (v : Val) (values : V) (others : W) (templates : T)
        → SameBesideValues (alone_within calls resolve left t name (context v) (states values templates))
        (alone_within (with_source ask calls) resolve left t name (context v) (states others templates)) }
{}

/// `if not c` with branches `a` and `b` means what `if c` with branches `b` and `a` means, wherever it is.
pub fn negated_condition<V, T>()
    ensures { (calls : Calls V) (include_means : Inclusion V T) (running : RunningTemplate) (c : Expression)
        (a b : Statements) (env : Environment) (s : States V T)
        → statement_means calls include_means running (if_else true c a (otherwise b)) env s
        ≡ statement_means calls include_means running (if_else false c b (otherwise a)) env s }
{}

/// Two templates of one name give the same text and next states, and end alike but for the span of a fault, if their
/// trees are alike but for spans: raw parts show the same, and of an `if` the condition may be negated in one of the
/// two alone, with its branches the other way round. Each template is rendered under its own text.
pub fn turned_conditions<V, T>()
    ensures within { (calls : Calls V) (resolve : Resolver T) (left : ℕ) (t u : Template) (name : Option (List ℕ))
        (root : Root) (s : States V T) → StatementsAlike t.source u.source t.tree u.tree
        → OutcomesAlike (alone_within calls resolve left t name root s)
        (alone_within calls resolve left u name root s) }

    ensures of_depth { (rendering : Rendering V T) (t u : Template) (name : Option (List ℕ)) (root : Root)
        (s : States V T) → StatementsAlike t.source u.source t.tree u.tree
        → OutcomesAlike (alone rendering t name root s) (alone rendering u name root s) }
{}
