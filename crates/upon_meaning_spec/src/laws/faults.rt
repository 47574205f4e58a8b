// With which faults a rendering ends, and where they lie.
ghost use Rattle.std.specs.Prelude.{◌≡◌, ◌⊎◌, ℕ, List, Option, Some, ◌++◌, codes};
ghost use Rattle.upon_types.specs.Answers.{refused};
ghost use Rattle.upon_types.specs.Fault.{Fault};
ghost use Rattle.upon_types.specs.Span.{LiesIn};
ghost use Rattle.upon_types.specs.TreeSpans.{TreeLiesIn};
ghost use Rattle.upon_types.specs.Val.{Val, kind_word};
ghost use Rattle.upon_lookup.specs.Environment.{Root};
ghost use Rattle.upon_lookup.specs.Source.{refuses};
ghost use Rattle.upon_meaning_spec.specs.Alone.{alone_within, alone, fault_of_end};
ghost use Rattle.upon_meaning_spec.specs.CallFaults.{depth_reached};
ghost use Rattle.upon_meaning_spec.specs.DefaultFormat.{default_format};
ghost use Rattle.upon_meaning_spec.specs.Engine.{Template, Table, Calls, Resolver, Rendering, from_table};
ghost use Rattle.upon_meaning_spec.specs.Outcome.{States, fails};
ghost use Rattle.upon_meaning_spec.specs.RenderFaults.{EndStated, Anywhere, TemplatesLie};

/// States that a rendering ends well, because includes are nested too deep, or with one of the stated faults of a
/// template that runs: the template itself, or one that answers the name of an include. It bears that template's name,
/// has a span, and shows the span in that template's text.
pub fn faults_are_stated<V, T>()
    ensures { (calls : Calls V) (resolve : Resolver T) (left : ℕ) (t : Template) (name : Option (List ℕ)) (root : Root)
        (s : States V T) → EndStated calls resolve t name Anywhere (alone_within calls resolve left t name root s).end }
{}

/// If the spans in the trees of all templates lie in their texts, a fault lies in the text of the template that
/// runs.
pub fn faults_lie<V, T>()
    ensures { (calls : Calls V) (resolve : Resolver T) (left : ℕ) (t : Template) (name : Option (List ℕ)) (root : Root)
        (s : States V T) → TemplatesLie resolve → TreeLiesIn t.source t.tree
        → EndStated calls resolve t name LiesIn (alone_within calls resolve left t name root s).end }
{}

/// States that the fault that is reported for a rendering is one of the stated ones, or it names the depth that was
/// set.
pub fn reported_is_stated<V, T>()
    ensures { (rendering : Rendering V T) (t : Template) (name : Option (List ℕ)) (root : Root) (s : States V T)
        (f : Fault)
        → fault_of_end rendering.limit (alone rendering t name root s).end ≡ Some f
        → (f ≡ depth_reached rendering.limit)
        ⊎ (EndStated rendering.calls rendering.resolve t name Anywhere (fails f)) }
{}

/// States that the default formatter, if none is set, refuses with the kind of the value that it has no text for; a
/// table of templates refuses a name that it does not hold as unknown.
pub fn usual_refusals<T>()
    ensures of_formatter { (v : Val) (message : Option (List ℕ)) → (default_format v).end ≡ refused message
        → message ≡ Some (codes "expression evaluated to unformattable type " ++ kind_word v) }

    ensures of_table { (table : Table) (q : T) (name text : List ℕ) → (from_table table q name).answer ≡ refuses text
        → text ≡ codes "unknown template" }
{}
