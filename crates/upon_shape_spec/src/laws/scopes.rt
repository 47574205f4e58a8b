// What paths and expressions come to where a scope says what is known.
ghost use Rattle.std.specs.Prelude.{◌≡◌, List, IsTrue};
ghost use Rattle.upon_types.specs.Expression.{Expression};
ghost use Rattle.upon_types.specs.Path.{Member};
ghost use Rattle.upon_types.specs.Truth.{truth};
ghost use Rattle.upon_lookup.specs.Environment.{Environment};
ghost use Rattle.upon_lookup.specs.Lookup.{lookup};
ghost use Rattle.upon_lookup.specs.Source.{Source};
ghost use Rattle.upon_meaning_spec.specs.Emission.{emit};
ghost use Rattle.upon_meaning_spec.specs.Engine.{Calls};
ghost use Rattle.upon_meaning_spec.specs.Evaluation.{Operand, evaluate};
ghost use Rattle.upon_shape_spec.specs.Declared.{Declared, KeepsDeclared};
ghost use Rattle.upon_shape_spec.specs.Ends.{EndsWell};
ghost use Rattle.upon_shape_spec.specs.ExpressionShapes.{expression_shape, is_shown};
ghost use Rattle.upon_shape_spec.specs.Found.{Finds, FindsShape, ComesTo};
ghost use Rattle.upon_shape_spec.specs.Narrowed.{true_scope};
ghost use Rattle.upon_shape_spec.specs.Scope.{Scope, ScopeFits, path_shape, scope_wider};

/// States that a path which has a shape in a scope finds a value of it wherever the scope fits.
pub fn path_in_scope<V>()
    ensures { (ask : Source V) (scope : Scope) (env : Environment) (first : Member) (rest : List Member) (q : V)
        → ScopeFits scope env → FindsShape (path_shape scope first rest) (lookup ask env first rest q).answer }
{}

/// States that an expression which has a shape in a scope comes to a value of it wherever the scope fits, if callables
/// keep what is declared of them.
pub fn expression_comes<V>()
    ensures { (declared : Declared) (calls : Calls V) (scope : Scope) (env : Environment) (e : Expression) (q : V)
        → KeepsDeclared declared calls.callables calls.default_formatter → ScopeFits scope env
        → ComesTo (expression_shape declared scope e) (evaluate calls e env q).answer }
{}

/// States that an expression which a scope shows is shown without a fault wherever the scope fits.
pub fn expression_is_shown<V>()
    ensures { (declared : Declared) (calls : Calls V) (scope : Scope) (env : Environment) (e : Expression) (q : V)
        → KeepsDeclared declared calls.callables calls.default_formatter → ScopeFits scope env
        → IsTrue (is_shown declared scope e) → EndsWell (emit calls e env q).end }
{}

/// States that where an expression comes to what is true, the scope fits that knows the expression to be true.
pub fn true_scope_fits<V>()
    ensures { (calls : Calls V) (scope : Scope) (env : Environment) (e : Expression) (q : V) → ScopeFits scope env
        → Finds (λ (o : Operand). IsTrue (truth o.value)) (evaluate calls e env q).answer
        → ScopeFits (true_scope e scope) env }
{}

/// States that a scope fits wherever one fits than which it is at least as wide; it is at least as wide as itself.
pub fn wider_scope_fits()
    ensures fits { (wide scope : Scope) (env : Environment) → IsTrue (scope_wider wide scope) → ScopeFits scope env
        → ScopeFits wide env }

    ensures itself { (scope : Scope) → IsTrue (scope_wider scope scope) }
{}
