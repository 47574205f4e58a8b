// Functions of closures: the closure is taken at the call, as no boxed value can keep one with what is known of it.
ghost use Rattle.std.specs.Prelude.{◌∷◌, [], List};
ghost use Rattle.upon_functions.specs.Adapters.{adapter_answer};
ghost use Rattle.upon_functions.specs.Blames.{BlamesGiven};
ghost use Rattle.upon_functions.specs.Outcome.{Returned, Gives};
ghost use Rattle.upon_functions.specs.Says.{Says, arguments_view};
ghost use Rattle.upon_types.specs.Val.{Val};

use crate::arguments::OwnedArgument;
use crate::function::CallError;
use crate::returns::FunctionReturn;
use std::alloc::Global;
use upon_types::value::{Value, ValueCow};

/// Names what a closure answers.
pub trait Meaning {
    // Its outcome, by what its arguments denote.
    ghost means: { List Val → Returned };
}

/// Calls a closure of one owned argument with the arguments of a call, as `Fn1` calls its callable. The errors are
/// those of [`Function::call`](crate::function::Function::call).
pub fn call_1<N: Meaning, A: OwnedArgument, R: FunctionReturn, F: FnOnce(A) -> R>(
    alloc: Global,
    args: &[ValueCow],
    closure: F,
) -> Result<Value, CallError>
    requires callable { F.IsAlwaysCallable closure }
    requires answers { (first : A) (returned : R) → F.post closure first returned
        → Gives (R.outcome returned) (N.means (A.stands_for first ∷ [])) }
    ensures says { Says result (adapter_answer (A.misfit ∷ []) N.means (arguments_view args.now)) }
    ensures blames_given { BlamesGiven (arguments_view args.now)
        (adapter_answer (A.misfit ∷ []) N.means (arguments_view args.now)) }
{
    let [first] = args else {
        return Err(CallError::Arity(1));
    };
    let first = A::from_value(alloc, 0, first)?;
    closure(first).to_value(alloc)
}
