// Templates that are accepted on a shape of their context: on each value that fits they end without a fault.
ghost use Rattle.std.specs.Prelude.{◌≡◌, ◌↔◌, ℕ, ◌<◌, ◌≤◌, List, [], Bool, IsTrue, Option, Some};
ghost use Rattle.upon_types.specs.Fault.{Fault};
ghost use Rattle.upon_types.specs.Tree.{Statements};
ghost use Rattle.upon_types.specs.Val.{Val};
ghost use Rattle.upon_lookup.specs.Environment.{context};
ghost use Rattle.upon_lookup.specs.Source.{Source};
ghost use Rattle.upon_meaning_spec.specs.Alone.{alone_within, includes_left, alone, fault_of_end};
ghost use Rattle.upon_meaning_spec.specs.CallFaults.{depth_reached};
ghost use Rattle.upon_meaning_spec.specs.DefaultFormat.{formatter_or_default};
ghost use Rattle.upon_meaning_spec.specs.Engine.{Template, Table, Engine, Calls, from_table, limit_of, rendering_of};
ghost use Rattle.upon_meaning_spec.specs.Includes.{IsNumbered};
ghost use Rattle.upon_meaning_spec.specs.Outcome.{States};
ghost use Rattle.upon_shape_spec.specs.Accepted.{StatementsAccepted, AcceptedWithin, Planned, IsClosed, AcceptedBy};
ghost use Rattle.upon_shape_spec.specs.Declared.{Declared, KeepsDeclared};
ghost use Rattle.upon_shape_spec.specs.Doubts.{statements_doubts};
ghost use Rattle.upon_shape_spec.specs.Ends.{EndsWell, EndsWithoutFault};
ghost use Rattle.upon_shape_spec.specs.Fits.{Fits};
ghost use Rattle.upon_shape_spec.specs.Scope.{Scope};
ghost use Rattle.upon_shape_spec.specs.Shape.{Shape};

/// States that a template which a closed plan accepts on a shape ends, on each value that fits, without a fault: well,
/// or because includes are too deep one inside another; if callables keep what is declared of them.
pub fn accepted_by_a_plan<V, T>()
    ensures { (declared : Declared) (table : Table) (plan : List Planned) (calls : Calls V) (left : ℕ) (t : Template)
        (name : Option (List ℕ)) (s : Shape) (v : Val) (q : States V T)
        → KeepsDeclared declared calls.callables calls.default_formatter → IsClosed declared table plan
        → AcceptedBy declared plan t s → Fits s v
        → EndsWithoutFault (alone_within calls (from_table table) left t name (context v) q).end }
{}

/// States that a template which is accepted on a shape within so many includes ends well on each value that fits, if as
/// many are left.
pub fn accepted_within_a_depth<V, T>()
    ensures { (declared : Declared) (table : Table) (n : ℕ) (calls : Calls V) (left : ℕ) (t : Template)
        (name : Option (List ℕ)) (s : Shape) (v : Val) (q : States V T)
        → KeepsDeclared declared calls.callables calls.default_formatter → AcceptedWithin declared table n t s
        → n ≤ left → Fits s v → EndsWell (alone_within calls (from_table table) left t name (context v) q).end }
{}

/// States that statements are accepted exactly if nothing in them is in doubt, where a test says which includes do not
/// fail.
pub fn accepted_undoubted()
    ensures { (declared : Declared) (included : List ℕ → Scope → Bool) (scope : Scope) (ts : Statements)
        → (statements_doubts declared included scope ts ≡ [])
        ↔ StatementsAccepted declared (λ name inner. IsTrue (included name inner)) scope ts }
{}

/// States that a rendering with an engine's templates, of one that a closed plan accepts, reports no fault but that
/// includes are too deep. It ends well if the templates that it reaches have numbers below the depth, each greater than
/// those of the ones that it includes; or if it is accepted within the depth.
pub fn accepted_by_an_engine<V, T>()
    ensures by_a_plan { (declared : Declared) (engine : Engine) (plan : List Planned) (ask : Source V)
        (depth : Option ℕ) (t : Template) (name : Option (List ℕ)) (s : Shape) (v : Val) (q : States V T)
        (f : Fault)
        → KeepsDeclared declared engine.callables (formatter_or_default engine.default_formatter)
        → IsClosed declared engine.templates plan → AcceptedBy declared plan t s → Fits s v
        → fault_of_end (limit_of depth engine) (alone (rendering_of engine ask depth) t name (context v) q).end
        ≡ Some f
        → f ≡ depth_reached (limit_of depth engine) }

    ensures numbered { (declared : Declared) (engine : Engine) (plan : List Planned) (ask : Source V)
        (depth : Option ℕ) (number : List ℕ → ℕ) (k : ℕ) (t : Template) (name : Option (List ℕ)) (s : Shape)
        (v : Val) (q : States V T)
        → KeepsDeclared declared engine.callables (formatter_or_default engine.default_formatter)
        → IsClosed declared engine.templates plan → AcceptedBy declared plan t s → Fits s v
        → IsNumbered engine.templates number t.tree k → k < limit_of depth engine
        → EndsWell (alone (rendering_of engine ask depth) t name (context v) q).end }

    ensures within { (declared : Declared) (engine : Engine) (n : ℕ) (ask : Source V)
        (depth : Option ℕ) (t : Template) (name : Option (List ℕ)) (s : Shape) (v : Val) (q : States V T)
        → KeepsDeclared declared engine.callables (formatter_or_default engine.default_formatter)
        → AcceptedWithin declared engine.templates n t s → n ≤ includes_left (limit_of depth engine) → Fits s v
        → EndsWell (alone (rendering_of engine ask depth) t name (context v) q).end }
{}
