// The standard functions keep what is declared of them.
ghost use Rattle.std.specs.Prelude.{◌≡◌, ℕ, List, Option};
ghost use Rattle.upon_types.specs.Answers.{Callable, Formatter};
ghost use Rattle.upon_shape_spec.specs.Declared.{Declared, KeepsSignatures, KeepsGiving, CallableKeeps, KeepsDeclared, given_by};
ghost use Rattle.upon_std.specs.Table.{standard_answer};
ghost use Rattle.upon_std.specs.declared.table.StandardFunction.{StandardFunction};
ghost use Rattle.upon_std_shapes.specs.Signatures.{standard_signatures};
ghost use Rattle.upon_std_shapes.specs.Tables.{Declarations, with_all_declared, with_all_added};

/// States that no standard function refuses arguments that one of its signatures takes, and that what it gives to them
/// is as the first that takes them says.
pub fn standard_functions_keep()
    ensures signatures { (f : StandardFunction) → KeepsSignatures (standard_answer f) (standard_signatures f) }
    ensures giving { (f : StandardFunction) → KeepsGiving (standard_answer f) (given_by (standard_signatures f)) }
{}

/// States that callables which keep what is declared still do after standard functions were declared and added under
/// their names, the same ones in the same order: name by name, and of all that is declared.
pub fn what_is_added_is_kept()
    ensures each { (functions : List StandardFunction) (declared : Declarations) (callables : List ℕ → Option Callable)
        → ((name : List ℕ) → CallableKeeps (declared name) (callables name))
        → (name : List ℕ) → CallableKeeps (with_all_declared functions declared name)
        (with_all_added functions callables name) }
    ensures all { (functions : List StandardFunction) (old new : Declared) (callables : List ℕ → Option Callable)
        (default : Formatter)
        → ((name : List ℕ) → new.callables name ≡ with_all_declared functions old.callables name)
        → new.default_formats ≡ old.default_formats → KeepsDeclared old callables default
        → KeepsDeclared new (with_all_added functions callables) default }
{}
