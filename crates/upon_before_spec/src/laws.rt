// What `for .. else` keeps: each text that had a tree has it still, each other one its first fault unless that was an
// `else` in a `for`; and each template that reaches none but templates of before means what it meant.
ghost use Rattle.std.specs.Prelude.{◌≡◌, ◌⊎◌, ℕ, List, Option, Bool, true};
ghost use Rattle.upon_types.specs.declared.types.Span.{Span};
ghost use Rattle.upon_lookup.specs.Environment.{Root};
ghost use Rattle.upon_language_spec.specs.Search.{DelimiterText};
ghost use Rattle.upon_language_spec.specs.FirstFault.{IsFirstFault};
ghost use Rattle.upon_language_spec.specs.Grammar.{HasTree};
ghost use Rattle.upon_meaning_spec.specs.Alone.{alone_within, alone};
ghost use Rattle.upon_meaning_spec.specs.Engine.{Calls, Resolver, Table, from_table};
ghost use Rattle.upon_meaning_spec.specs.Outcome.{States};
ghost use Rattle.upon_before_spec.specs.Tree.{Statements as StatementsBefore};
ghost use Rattle.upon_before_spec.specs.Grammar.{HasTree as HadTree};
ghost use Rattle.upon_before_spec.specs.Faults.{IsFirstFault as WasFirstFault, ElseInFor};
ghost use Rattle.upon_before_spec.specs.Alone.{Template as TemplateBefore, Resolver as ResolverBefore, Table as TableBefore, from_table as from_table_before, alone_within as alone_within_before, alone as alone_before};
ghost use Rattle.upon_before_spec.specs.Now.{statements_now, template_now};
ghost use Rattle.upon_before_spec.specs.Kept.{IncludesOnly, AnswersAlike, HoldAlike};

/// States that a text that had a tree has it still, and one that has such a tree had it.
pub fn tree_kept()
    ensures now { (delimiters : List DelimiterText) (s : List ℕ) (tree : StatementsBefore)
        → HadTree delimiters s tree → HasTree delimiters s (statements_now tree) }

    ensures before { (delimiters : List DelimiterText) (s : List ℕ) (tree : StatementsBefore)
        → HasTree delimiters s (statements_now tree) → HadTree delimiters s tree }
{}

/// States that a text that was refused is refused still, with the same first fault, unless that was an `else` in a
/// `for`.
pub fn fault_kept()
    ensures { (delimiters : List DelimiterText) (s : List ℕ) (span : Span) (reason : List ℕ)
        → WasFirstFault delimiters s span reason
        → IsFirstFault delimiters s span reason ⊎ ElseInFor delimiters s span reason }
{}

/// States that a template means what it meant, if both template sources answer alike under some names, and it and
/// the templates that answer include none but these.
pub fn meaning_kept<V, T>()
    ensures { (calls : Calls V) (before : ResolverBefore T) (now : Resolver T) (names : List ℕ → Bool) (left : ℕ)
        (t : TemplateBefore) (name : Option (List ℕ)) (root : Root) (s : States V T)
        → AnswersAlike (λ n. names n ≡ true) before now → IncludesOnly (λ n. names n ≡ true) t.tree
        → alone_within calls now left (template_now t) name root s
        ≡ alone_within_before calls before left t name root s }
{}

/// With the engine's templates: a template means what it meant, if under each name that it reaches the engine holds
/// a template of before, the same that a table of before held, or neither holds any.
pub fn rendering_kept<V, T>()
    ensures { (calls : Calls V) (before : TableBefore) (now : Table) (limit : ℕ) (t : TemplateBefore)
        (name : Option (List ℕ)) (root : Root) (s : States V T)
        → HoldAlike t.tree before now
        → alone (record { calls = calls; resolve = from_table now; limit = limit }) (template_now t) name root s
        ≡ alone_before (record { calls = calls; resolve = from_table_before before; limit = limit }) t name root s }
{}
