// Variables, in whole statements: which a `with` or a `for` hides, what its body finds, and what an include with a
// value sees.
ghost use Rattle.std.specs.Prelude.{◌≡◌, ℕ, List, Some, true, codes};
ghost use Rattle.upon_types.specs.declared.types.Span.{Span};
ghost use Rattle.upon_types.specs.Expression.{Expression, base, var, expression_span};
ghost use Rattle.upon_types.specs.Path.{Ident, Member, LoopVars};
ghost use Rattle.upon_types.specs.Tree.{Statement, Statements, Else, inline_expr, include, for_loop, with, statement_then};
ghost use Rattle.upon_lookup.specs.Environment.{Bound, Binding, Environment, binding, bind, bind_all, with_name, iteration};
ghost use Rattle.upon_lookup.specs.Items.{items_of};
ghost use Rattle.upon_lookup.specs.Lookup.{bound_value, state_walk};
ghost use Rattle.upon_lookup.specs.Walk.{walk};
ghost use Rattle.upon_meaning_spec.specs.Alone.{included};
ghost use Rattle.upon_meaning_spec.specs.Engine.{Calls, Resolver};
ghost use Rattle.upon_meaning_spec.specs.Evaluation.{evaluate};
ghost use Rattle.upon_meaning_spec.specs.Meaning.{RunningTemplate, Inclusion, with_value, turns_over, each_or, statement_means, statements_mean, else_means};
ghost use Rattle.upon_meaning_spec.specs.Names.{IsName, ExpressionReads};
ghost use Rattle.upon_meaning_spec.specs.Outcome.{States, then_do};
ghost use Rattle.upon_meaning_spec.specs.Shadowing.{Binds, LoopBinds, items_without, path_shown};

/// States that a `with` whose expression does not read the name means the same with an outer variable of its name as
/// without it, however far out that is bound, also in what is plainly included in its body.
pub fn with_hides<V, T>()
    ensures { (calls : Calls V) (resolve : Resolver T) (left : ℕ) (running : RunningTemplate) (e : Expression)
        (word : Ident) (body : Statements) (between : List Binding) (outer : Bound) (env : Environment) (s : States V T)
        → (ExpressionReads word.text e → ⊥)
        → statement_means calls (included calls resolve left) running (with e word body)
        (bind_all between (bind (binding word.text outer) env)) s
        ≡ statement_means calls (included calls resolve left) running (with e word body) (bind_all between env) s }
{}

/// States that a `for` whose expression does not read the name means the same with an outer variable as without it,
/// if the name is that of one of its variables or `loop`, but for its `else` branch, which is outside the loop and
/// sees the outer variable.
pub fn for_hides<V, T>()
    ensures { (calls : Calls V) (resolve : Resolver T) (left : ℕ) (running : RunningTemplate) (names : LoopVars)
        (e : Expression) (body : Statements) (other : Else) (name : List ℕ) (between : List Binding) (outer : Bound)
        (env : Environment) (s : States V T) → LoopBinds name names → (ExpressionReads name e → ⊥)
        → statement_means calls (included calls resolve left) running (for_loop names e body other)
        (bind_all between (bind (binding name outer) env)) s
        ≡ with_value running s.templates (evaluate calls e (bind_all between env) s.values)
        (λ v q. each_or (statements_mean calls (included calls resolve left) running body)
        (λ _. else_means calls (included calls resolve left) running other true
        (bind_all between (bind (binding name outer) env)))
        running (turns_over (items_of names v (expression_span e))) (bind_all between env) q) }
{}

/// In the body of a `with`, after any statement, a path that begins with its name is one in its value. So a variable
/// that this statement binds is gone after it, and the outer one is found as before; and if the name is `loop`, it
/// is found before the state of a loop around the `with`.
pub fn with_body_finds<V, T>()
    ensures { (calls : Calls V) (include_means : Inclusion V T) (running : RunningTemplate) (e : Expression)
        (word : Ident) (env : Environment) (t : Statement) (first : Member) (rest : List Member) (span : Span)
        (ts : Statements) (s : States V T)
        → IsName word.text first.access
        → statement_means calls include_means running
        (with e word (statement_then t (statement_then (inline_expr (base (var first rest)) span) ts))) env s
        ≡ with_value running s.templates (evaluate calls e env s.values)
        (λ v q. then_do (statement_means calls include_means running t (with_name word v env) q)
        (λ q'. then_do (path_shown calls running first rest (walk rest v) q')
        (statements_mean calls include_means running ts (with_name word v env)))) }
{}

/// In any body, after any statement, a path that begins with a variable's name is one in what the innermost such
/// variable binds.
pub fn body_finds<V, T>()
    ensures { (calls : Calls V) (include_means : Inclusion V T) (running : RunningTemplate) (name : List ℕ)
        (inside : List Binding) (bound : Bound) (env : Environment) (t : Statement) (first : Member)
        (rest : List Member) (span : Span) (ts : Statements) (s : States V T)
        → IsName name first.access → (Binds name inside → ⊥)
        → statements_mean calls include_means running
        (statement_then t (statement_then (inline_expr (base (var first rest)) span) ts))
        (bind_all inside (bind (binding name bound) env)) s
        ≡ then_do (statement_means calls include_means running t (bind_all inside (bind (binding name bound) env)) s)
        (λ q. then_do (path_shown calls running first rest (bound_value bound rest) q)
        (statements_mean calls include_means running ts (bind_all inside (bind (binding name bound) env)))) }
{}

/// In a loop's body, after any statement, a path that begins with `loop` is one in that loop's state, as long as
/// nothing inside the loop binds `loop`; also if a variable around the loop is called `loop`.
pub fn loop_body_finds<V, T>()
    ensures { (calls : Calls V) (include_means : Inclusion V T) (running : RunningTemplate) (inside : List Binding)
        (index count : ℕ) (item : List Binding) (env : Environment) (t : Statement) (first : Member)
        (rest : List Member) (span : Span) (ts : Statements) (s : States V T)
        → IsName (codes "loop") first.access → (Binds (codes "loop") inside → ⊥)
        → statements_mean calls include_means running
        (statement_then t (statement_then (inline_expr (base (var first rest)) span) ts))
        (bind_all inside (iteration index count item env)) s
        ≡ then_do (statement_means calls include_means running t (bind_all inside (iteration index count item env)) s)
        (λ q. then_do (path_shown calls running first rest (state_walk index count rest) q)
        (statements_mean calls include_means running ts (bind_all inside (iteration index count item env)))) }
{}

/// States that a `for` means what it means if no item binds `loop`: a variable of that name is never seen.
pub fn loop_variable_hidden<V, T>()
    ensures { (calls : Calls V) (resolve : Resolver T) (left : ℕ) (running : RunningTemplate) (body : Statements)
        (env : Environment) (names : LoopVars) (e : Expression) (other : Else) (s : States V T)
        → statement_means calls (included calls resolve left) running (for_loop names e body other) env s
        ≡ with_value running s.templates (evaluate calls e env s.values)
        (λ v q. each_or (statements_mean calls (included calls resolve left) running body)
        (else_means calls (included calls resolve left) running other true) running
        (turns_over (items_without (codes "loop") (items_of names v (expression_span e)))) env q) }
{}

/// States that an include with a value means the same in all environments in which the value is the same: nothing else
/// around it is seen.
pub fn boundary_hides<V, T>()
    ensures { (calls : Calls V) (include_means : Inclusion V T) (running : RunningTemplate) (word : Ident)
        (e : Expression)
        (env env' : Environment) (s : States V T)
        → evaluate calls e env s.values ≡ evaluate calls e env' s.values
        → statement_means calls include_means running (include word (Some e)) env s
        ≡ statement_means calls include_means running (include word (Some e)) env' s }
{}
