// What the machine keeps: it gives what the tree means, and its faults lie in the text of the template that runs.
ghost use Rattle.std.specs.Prelude.{◌≡◌, ◌↔◌, ℕ, ◌<◌, List, ◌++◌, length, Option, Some, true};
ghost use Rattle.upon_types.specs.Tree.{Statements};
ghost use Rattle.upon_types.specs.TreeSpans.{TreeLiesIn};
ghost use Rattle.upon_lookup.specs.Environment.{Root};
ghost use Rattle.upon_meaning_spec.specs.Alone.{alone_within};
ghost use Rattle.upon_meaning_spec.specs.Engine.{Template, Calls, Resolver};
ghost use Rattle.upon_meaning_spec.specs.Includes.{Includes};
ghost use Rattle.upon_meaning_spec.specs.Needs.{a_name, StatementsBegin, StatementsPass};
ghost use Rattle.upon_meaning_spec.specs.Outcome.{End, Outcome, States};
ghost use Rattle.upon_meaning_spec.specs.RenderFaults.{TemplatesLie};
ghost use Rattle.upon_machine_spec.specs.Code.{program_of};
ghost use Rattle.upon_machine_spec.specs.Jumps.{JumpWithin};
ghost use Rattle.upon_machine_spec.specs.ProgramNames.{begins, passes_on, includes, IsListed};
ghost use Rattle.upon_machine_spec.specs.Run.{run, steps, text_of_next, Midway};
ghost use Rattle.upon_machine_spec.specs.Spans.{StateLies, NextLies};
ghost use Rattle.upon_machine_spec.specs.State.{State, at_start};
ghost use Rattle.upon_machine_spec.specs.Step.{goes, stops, stuck, step};

/// States that the run of a template's program ends, and gives what the template means by itself: the same text, end
/// and next states. So no step on its way misses an operand or a frame.
pub fn program_runs<V, T>()
    ensures { (calls : Calls V) (resolve : Resolver T) (left : ℕ) (t : Template) (name : Option (List ℕ)) (root : Root)
        (s : States V T)
        → (n : ℕ) × (run calls resolve root n (at_start t name left s)
        ≡ Some (alone_within calls resolve left t name root s)) }
{}

/// States that a run gives one outcome, however many steps it is given.
pub fn runs_once<V, T>()
    ensures { (calls : Calls V) (resolve : Resolver T) (root : Root) (m n : ℕ) (s : State V T)
        (a b : Outcome (States V T))
        → run calls resolve root m s ≡ Some a → run calls resolve root n s ≡ Some b → a ≡ b }
{}

/// If the spans in a template's tree lie in its text, so do all spans that the machine holds at its start.
pub fn spans_lie_at_start<V, T>()
    ensures { (t : Template) (name : Option (List ℕ)) (left : ℕ) (s : States V T)
        → TreeLiesIn t.source t.tree → StateLies (at_start t name left s) }
{}

/// If all spans that the machine holds lie in the texts of their templates, they lie so after a step, and the step's
/// fault lies in the text of the template that runs. The same is asked of the templates that answer the names of
/// includes.
pub fn spans_lie_on<V, T>()
    ensures { (calls : Calls V) (resolve : Resolver T) (root : Root) (s : State V T)
        → TemplatesLie resolve → StateLies s → NextLies s.active.running.source (step calls resolve root s) }
{}

/// In the midst of a run, if a text has been given and the run from here gives the rest of an outcome: no step is
/// stuck; one that goes on brings the end nearer, with its text after what was given; one that stops gives the
/// outcome's end and states; and what was given, with the step's text, begins the outcome's text.
pub fn midway<V, T>()
    ensures unstuck { (calls : Calls V) (resolve : Resolver T) (root : Root) (n : ℕ) (text : List ℕ) (s : State V T)
        (o : Outcome (States V T))
        → step calls resolve root s ≡ stuck → Midway calls resolve root n text s o → ⊥ }

    ensures goes_on { (calls : Calls V) (resolve : Resolver T) (root : Root) (n : ℕ) (text more : List ℕ)
        (s next : State V T) (o : Outcome (States V T))
        → step calls resolve root s ≡ goes more next → Midway calls resolve root n text s o
        → Midway calls resolve root n (text ++ more) next o
        × (steps calls resolve root n next < steps calls resolve root n s) }

    ensures stops_so { (calls : Calls V) (resolve : Resolver T) (root : Root) (n : ℕ) (text more : List ℕ) (end : End)
        (q : States V T) (s : State V T) (o : Outcome (States V T))
        → step calls resolve root s ≡ stops more end q → Midway calls resolve root n text s o
        → record { text = text ++ more; end = end; next = q } ≡ o }

    ensures begins { (calls : Calls V) (resolve : Resolver T) (root : Root) (n : ℕ) (text : List ℕ) (s : State V T)
        (o : Outcome (States V T)) → Midway calls resolve root n text s o
        → (rest : List ℕ) × (o.text ≡ (text ++ text_of_next (step calls resolve root s)) ++ rest) }
{}

/// Each jump of a tree's program goes to one of its instructions, or to its end.
pub fn jumps_within()
    ensures { (tree : Statements) → JumpWithin (length (program_of tree)) (program_of tree) }
{}

/// States that what is found of names in a walk along a tree's program is what the tree says: whether it begins a path
/// with a name outside of what binds that, which templates it includes there without a value, and which it includes.
pub fn program_names()
    ensures begun { (tree : Statements) (name : List ℕ)
        → (begins name (program_of tree) ≡ true) ↔ StatementsBegin (a_name name) tree }

    ensures passed { (tree : Statements) (name via : List ℕ)
        → IsListed (passes_on name (program_of tree)) via ↔ StatementsPass (a_name name) via tree }

    ensures included { (tree : Statements) (via : List ℕ)
        → IsListed (includes (program_of tree)) via ↔ Includes via tree }
{}
