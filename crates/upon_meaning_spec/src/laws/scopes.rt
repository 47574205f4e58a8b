// Where a variable is seen: in the body that it is given to and in what is plainly included there, ahead of others of
// its name; and which `loop` is meant.
ghost use Rattle.std.specs.Prelude.{◌≡◌, ℕ, ◌∷◌, ◌++◌, List, codes};
ghost use Rattle.upon_types.specs.Path.{Ident, Member};
ghost use Rattle.upon_types.specs.Tree.{Statement, Statements, statement_then};
ghost use Rattle.upon_types.specs.Val.{Val};
ghost use Rattle.upon_lookup.specs.Environment.{Bound, Binding, Environment, binding, bind, bind_all, with_name, iteration, alone_over};
ghost use Rattle.upon_lookup.specs.Finding.{reply};
ghost use Rattle.upon_lookup.specs.Lookup.{lookup, bound_value, state_walk, or_not_in_scope};
ghost use Rattle.upon_lookup.specs.Source.{Source};
ghost use Rattle.upon_lookup.specs.Walk.{walk, context_walk};
ghost use Rattle.upon_meaning_spec.specs.Alone.{included};
ghost use Rattle.upon_meaning_spec.specs.Engine.{Calls, Resolver};
ghost use Rattle.upon_meaning_spec.specs.Meaning.{RunningTemplate, Inclusion, statement_means, statements_mean};
ghost use Rattle.upon_meaning_spec.specs.Names.{IsName};
ghost use Rattle.upon_meaning_spec.specs.Outcome.{States, then_do};
ghost use Rattle.upon_meaning_spec.specs.Shadowing.{Binds};

/// In the body of a `with`, and in what is plainly included there, an outer variable of its name is as if it were not
/// there, however far out it is bound.
pub fn with_shadows<V, T>()
    ensures { (calls : Calls V) (resolve : Resolver T) (left : ℕ) (running : RunningTemplate) (body : Statements)
        (word : Ident) (v : Val) (between : List Binding) (outer : Bound) (env : Environment) (s : States V T)
        → statements_mean calls (included calls resolve left) running body
        (with_name word v (bind_all between (bind (binding word.text outer) env))) s
        ≡ statements_mean calls (included calls resolve left) running body (with_name word v (bind_all between env)) s }
{}

/// In the body of a `for`, and in what is plainly included there, an outer variable of a name that an item binds is as
/// if it were not there, however far out it is bound.
pub fn for_shadows<V, T>()
    ensures { (calls : Calls V) (resolve : Resolver T) (left : ℕ) (running : RunningTemplate) (body : Statements)
        (index count : ℕ) (item between : List Binding) (name : List ℕ) (outer : Bound) (env : Environment)
        (s : States V T)
        → Binds name item
        → statements_mean calls (included calls resolve left) running body
        (iteration index count item (bind_all between (bind (binding name outer) env))) s
        ≡ statements_mean calls (included calls resolve left) running body
        (iteration index count item (bind_all between env)) s }
{}

/// States that a path that begins with a variable's name is one in what the innermost such variable binds, whatever is
/// bound further out, and whatever the context or the value source has under that name.
pub fn variable_answers<V>()
    ensures { (ask : Source V) (inside : List Binding) (name : List ℕ) (bound : Bound) (env : Environment)
        (first : Member) (rest : List Member) (q : V)
        → IsName name first.access → (Binds name inside → ⊥)
        → lookup ask (bind_all inside (bind (binding name bound) env)) first rest q ≡ reply (bound_value bound rest) q }
{}

/// After a statement nothing is bound that was not bound before it: what follows is read in the same environment.
pub fn scope_ends<V, T>()
    ensures { (calls : Calls V) (include_means : Inclusion V T) (running : RunningTemplate) (t : Statement)
        (ts : Statements) (env : Environment) (s : States V T)
        → statements_mean calls include_means running (statement_then t ts) env s
        ≡ then_do (statement_means calls include_means running t env s)
        (λ next. statements_mean calls include_means running ts env next) }
{}

/// States that a variable of a `for` that is named `loop` is never seen: the body means the same without it.
pub fn loop_variable_unseen<V, T>()
    ensures { (calls : Calls V) (resolve : Resolver T) (left : ℕ) (running : RunningTemplate) (body : Statements)
        (index count : ℕ) (before behind : List Binding) (unseen : Bound) (env : Environment) (s : States V T)
        → statements_mean calls (included calls resolve left) running body
        (iteration index count (before ++ binding (codes "loop") unseen ∷ behind) env) s
        ≡ statements_mean calls (included calls resolve left) running body
        (iteration index count (before ++ behind) env) s }
{}

/// In a loop's body a path that begins with `loop` is a walk in the state of that loop, as long as nothing inside it
/// binds `loop`. So it is the innermost loop's.
pub fn loop_is_innermost<V>()
    ensures { (ask : Source V) (inside : List Binding) (index count : ℕ) (item : List Binding) (env : Environment)
        (first : Member) (rest : List Member) (q : V)
        → IsName (codes "loop") first.access → (Binds (codes "loop") inside → ⊥)
        → lookup ask (bind_all inside (iteration index count item env)) first rest q
        ≡ reply (state_walk index count rest) q }
{}

/// If a `with` inside the loop binds `loop`, a path that begins with it is a walk in the value of that `with`.
pub fn with_outranks_loop<V>()
    ensures { (ask : Source V) (inside : List Binding) (word : Ident) (v : Val) (env : Environment)
        (first : Member) (rest : List Member) (q : V)
        → word.text ≡ codes "loop" → IsName (codes "loop") first.access → (Binds (codes "loop") inside → ⊥)
        → lookup ask (bind_all inside (with_name word v env)) first rest q ≡ reply (walk rest v) q }
{}

/// In a template that is included with a value no loop around the include is seen, nor any variable: every path is one
/// in that value.
pub fn include_hides<V>()
    ensures { (ask : Source V) (v : Val) (first : Member) (rest : List Member) (q : V)
        → lookup ask (alone_over v) first rest q ≡ reply (or_not_in_scope (context_walk first rest v) first.span) q }
{}
